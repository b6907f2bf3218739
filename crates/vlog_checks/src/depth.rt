//! Statements within one another, as many as there may be and more. These are no cases, since a case is also played by a program that Rattle's
//! own compiler builds, whose calls take more of the stack.

use crate::build::{assign_itself, if_of};
use crate::unspelled::scope;
use std::alloc::{AllocError, Global};
use vlog_driver::vlog_block::{block_code, is_faultless};
use vlog_driver::vlog_size::Scope;
use vlog_driver::{BlockError, bind_block};
use vlog_print::vidi_bits::Memory;
use vlog_print::vlog_lex::{Tokens, lex};
use vlog_print::vlog_parse::{ParseError, parse};
use vlog_tree::{Always, Body, Event};

fn put(out: &mut Vec<u8>, text: &[u8]) -> Result<(), AllocError> {
    out.extend_from_slice(text)
}

// So many `if`s within one another, of which each hundred ends with an empty body.
fn text_of(alloc: Global, count: usize) -> Result<Vec<u8>, AllocError> {
    let mut text = Vec::new(alloc);
    put(&mut text, b"module m(); always @(posedge k) ")?;
    for number in 0..count {
        if number > 0 && number % 100 == 0 {
            put(&mut text, b"; else ")?;
        }
        put(&mut text, b"if (a) ")?;
    }
    put(&mut text, b"; endmodule")?;
    Ok(text)
}

// Whether tokens are read, or else want of memory is answered.
fn are_read(alloc: Global, tokens: &Tokens) -> Option<bool> {
    match parse(alloc, tokens) {
        Ok(_) => Some(true),
        Err(ParseError::Memory) => Some(false),
        Err(_) => None,
    }
}

// The same of a text.
fn text_is_read(alloc: Global, text: &[u8]) -> Option<bool> {
    if text.len() >= 100_000 {
        return None;
    }
    let tokens = lex(alloc, text).ok()?;
    are_read(alloc, &tokens)
}

// Whether so many `if`s within one another are read, and else want of memory is answered.
fn is_read(alloc: Global, count: usize) -> Option<bool> {
    let text = text_of(alloc, count).ok()?;
    text_is_read(alloc, text.as_slice())
}

#[test]
fn texts(rt: HostRuntime) {
    assert!(rt; is_read(rt.alloc(), 2048) == Some(true));
    assert!(rt; is_read(rt.alloc(), 2049) == Some(false));
    assert!(rt; is_read(rt.alloc(), 10_000) == Some(false));
}

/// So many `if (s)` around a body.
fn nested(alloc: Global, count: u32, innermost: Body) -> Result<Body, Memory> {
    let mut body = innermost;
    for _n in 0..count {
        body = Body::Stmt(if_of(alloc, "s", body, None)?);
    }
    Ok(body)
}

/// `always @*` with a body.
fn always(body: Body) -> Always {
    Always {
        line: 7,
        event: Event::Implicit { parens: false },
        body,
    }
}

/// Whether code is made of a block, or else memory is wanting. `None` where the block has a fault.
fn code_is_made(alloc: Global, block: &Always) -> Option<bool> {
    let scope = scope(alloc).ok()?;
    if !is_faultless(block, &scope) {
        return None;
    }
    Some(block_code(alloc, block, &scope).is_ok())
}

/// The same of so many statements within one another.
fn is_made(alloc: Global, count: u32) -> Option<bool> {
    let body = nested(alloc, count, Body::Empty).ok()?;
    code_is_made(alloc, &always(body))
}

#[test]
fn code_of_blocks(rt: HostRuntime) {
    assert!(rt; is_made(rt.alloc(), 2048) == Some(true));
    assert!(rt; is_made(rt.alloc(), 2049) == Some(false));
}

/// Whether E9 is answered, with s and line 7.
fn is_open(alloc: Global, block: &Always, scope: &Scope) -> bool {
    if !is_faultless(block, scope) {
        return false;
    }
    match bind_block(alloc, block, scope) {
        Err(BlockError::Latch { name, line }) => name.as_slice() == b"s".as_slice() && line == 7,
        _ => false,
    }
}

/// The same in the scope with s alone.
fn is_latch(alloc: Global, block: &Always) -> Result<bool, Memory> {
    let scope = scope(alloc)?;
    Ok(is_open(alloc, block, &scope))
}

/// The same of an assignment within so many conditions.
fn leaves_open(alloc: Global, count: u32) -> Result<bool, Memory> {
    let innermost = assign_itself(alloc, "s")?;
    let body = nested(alloc, count, Body::Stmt(innermost))?;
    is_latch(alloc, &always(body))
}

#[test]
fn latches(rt: HostRuntime) {
    assert!(rt; leaves_open(rt.alloc(), 2047) == Ok(true));
}
