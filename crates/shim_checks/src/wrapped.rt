//! What wrapped designs are printed as.

use crate::maps::{held_map, stage_map};
use crate::texts::{HELD, STAGE, WRAPPED_HELD, WRAPPED_STAGE};
use shim_gen::chan_map::Map;
use shim_gen::{WrapError, monitor_tree, replayer_tree, wrap};
use std::alloc::Global;
use std::test::Fail;
use vlog_print::vidi_bits::Bytes;
use vlog_print::vlog_lex::lex;
use vlog_print::vlog_parse::parse;
use vlog_print::{good_shape, print};
use vlog_tree::File;

fn file_of(alloc: Global, text: &[u8]) -> Result<File, Fail> {
    if text.len() > 10_000 {
        return Err(Fail::from("a long text"));
    }
    let tokens = lex(alloc, text)?;
    Ok(parse(alloc, &tokens)?)
}

/// The printed text of a wrapped design.
fn wrapped_text(alloc: Global, text: &[u8], map: &Map) -> Result<Bytes, Fail> {
    let file = file_of(alloc, text)?;
    let Ok(wrapped) = wrap(alloc, &file, map) else {
        return Err(Fail::from("not wrapped"));
    };
    if !good_shape(&wrapped) {
        return Err(Fail::from("no text"));
    }
    Ok(print(alloc, &wrapped)?)
}

#[test]
fn stage_is_wrapped(rt: HostRuntime) -> Result<(), Fail> {
    let alloc = rt.alloc();
    let map = stage_map(alloc)?;
    let text = wrapped_text(alloc, STAGE, &map)?;
    assert!(rt; text.as_slice() == WRAPPED_STAGE);
    Ok(())
}

#[test]
fn held_inputs_are_inputs(rt: HostRuntime) -> Result<(), Fail> {
    let alloc = rt.alloc();
    let map = held_map(alloc)?;
    let text = wrapped_text(alloc, HELD, &map)?;
    assert!(rt; text.as_slice() == WRAPPED_HELD);
    Ok(())
}

/// Whether a file is refused for this name.
fn is_reserved(alloc: Global, text: &[u8], reserved: &[u8]) -> Result<bool, Fail> {
    let file = file_of(alloc, text)?;
    let map = stage_map(alloc)?;
    match wrap(alloc, &file, &map) {
        Err(WrapError::Reserved { name }) => Ok(name.as_slice() == reserved),
        _ => Ok(false),
    }
}

#[test]
fn names_are_kept(rt: HostRuntime) -> Result<(), Fail> {
    let alloc = rt.alloc();
    let first =
        b"module vidi(); endmodule module vidi_x(); endmodule module vidi_(); endmodule".as_slice();
    assert!(rt; is_reserved(alloc, first, b"vidi_x".as_slice())?);
    let bare = b"module Vidi_x(); endmodule module vidi_(); endmodule".as_slice();
    assert!(rt; is_reserved(alloc, bare, b"vidi_".as_slice())?);
    Ok(())
}

#[test]
fn modules_are_named_by_channel(rt: HostRuntime) -> Result<(), Fail> {
    let alloc = rt.alloc();
    let map = stage_map(alloc)?;
    let Some(outward) = map.channels.get(1) else {
        return Err(Fail::from("no channel"));
    };
    let monitor = monitor_tree(alloc, outward, 17)?;
    assert!(rt; monitor.name.as_slice() == b"vidi_m_17".as_slice());
    let replayer = replayer_tree(alloc, &map.channels, 1)?;
    assert!(rt; replayer.name.as_slice() == b"vidi_q_1".as_slice());
    Ok(())
}
