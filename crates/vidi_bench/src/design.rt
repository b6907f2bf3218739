//! What the text of a design says: its tree, the design of a top, and an order of its drivers.

ghost use Rattle.std.specs.Prelude.{◌≡◌, ◌≤◌, IfOk, IfErr, length, map};
ghost use Rattle.vlog_tree.specs.Plain.{plain};
ghost use Rattle.vlog_design.specs.Design.{file_counts};
ghost use Rattle.net_design.specs.Lawful.{IsLawful, counts};
ghost use Rattle.vlog_design.specs.net_order.Order.{IsOrder};
ghost use Rattle.vidi_bench.specs.Design as spec;
ghost use Rattle.vidi_bench.specs.Design.{text_limit, IsAccepted, IsFile, IsLooped, IsNoText, IsNoTree, IsRefusedFile, Spells};
ghost use Rattle.vidi_answer.specs.Ended.{EndsWith};

use crate::refusal::refused_for;
use net_design::Design;
use std::alloc::Global;
use vidi_answer::{Ended, Reason, Word, refused};
use vlog_design::elaborate;
use vlog_design::net_order::{Order, OrderError, order};
use vlog_parse::vidi_bits::{Items, Memory};
use vlog_parse::vlog_lex::{LexError, Tokens, lex};
use vlog_parse::{ParseError, parse};
use vlog_tree::File;

/// The tree of a text.
pub fn file_of(alloc: Global, text: &[u8]) -> Result<File, Ended>
    requires { length text.now ≤ text_limit }
    ensures spelled { IfOk result (λ file. Spells text.now (plain file)) }
    ensures refused { IfErr result (EndsWith (IsNoText text.now)) }
{
    match lex(alloc, text) {
        Ok(tokens) => tree_of(alloc, &tokens),
        Err(LexError::Word { line }) => Err(Ended::Refused(refused(
            alloc,
            Word::Design,
            Reason::Word { line },
        )?)),
        Err(LexError::Memory) => Err(Ended::Memory),
    }
}

/// The tree of tokens.
fn tree_of(alloc: Global, tokens: &Tokens) -> Result<File, Ended>
    ensures spelled { IfOk result (λ file. IsFile tokens.now (plain file)) }
    ensures refused { IfErr result (EndsWith (IsNoTree tokens.now)) }
{
    match parse(alloc, tokens) {
        Ok(file) => Ok(file),
        Err(ParseError::Deep { line }) => Err(Ended::Refused(refused(
            alloc,
            Word::Design,
            Reason::Deep { line },
        )?)),
        Err(ParseError::Item { line }) => Err(Ended::Refused(refused(
            alloc,
            Word::Design,
            Reason::Item { line },
        )?)),
        Err(ParseError::Memory) => Err(Ended::Memory),
    }
}

/// The design of a tree and a top.
pub fn design_of(alloc: Global, file: &File, top: &[u8]) -> Result<Design, Ended>
    ensures accepted { IfOk result (IsAccepted top.now (plain file.now)) }
    ensures counted { IfOk result (λ design. counts design ≡ file_counts (plain file.now) top.now) }
    ensures refused { IfErr result (EndsWith (IsRefusedFile top.now (plain file.now))) }
{
    match elaborate(alloc, file, top) {
        Ok(design) => Ok(design),
        Err(error) => Err(Ended::Refused(refused_for(alloc, Word::Design, error)?)),
    }
}

/// An order of a design's drivers.
pub fn order_of(alloc: Global, design: &Design) -> Result<Order, Ended>
    requires { IsLawful design.now }
    ensures ordered { IfOk result (λ order. IsOrder design.now order.drivers) }
    ensures refused { IfErr result (EndsWith (IsLooped design.now)) }
{
    match order(alloc, design) {
        Ok(order) => Ok(order),
        Err(OrderError::Loop { drivers }) => {
            let lines = lines_of(alloc, design, drivers.as_slice())?;
            let answer = refused(alloc, Word::Design, Reason::Loop { lines })?;
            Err(Ended::Refused(answer))
        }
        Err(OrderError::Memory) => Err(Ended::Memory),
    }
}

/// The lines of drivers.
fn lines_of(alloc: Global, design: &Design, drivers: &[u128]) -> Result<Items<u32>, Memory>
    ensures { IfOk result (λ lines. lines ≡ map (spec.line_of design.now.drivers) drivers.now) }
{
    let mut lines = Items::new(alloc);
    for driver in drivers {
        lines.push(line_of(design, *driver))?;
    }
    Ok(lines)
}

/// The line of a driver, 0 past the last one.
#[tactic(auto, using(crate::proofs::DriverLines::past_line))]
fn line_of(design: &Design, driver: u128) -> u32
    ensures { result ≡ spec.line_of design.now.drivers driver }
{
    if driver >= design.drivers.len() as u128 {
        return 0;
    }
    line_at(design, driver as usize)
}

fn line_at(design: &Design, place: usize) -> u32
    ensures { result ≡ spec.line_of design.now.drivers place }
{
    match design.drivers.get(place) {
        Some(driver) => driver.line,
        None => 0,
    }
}
