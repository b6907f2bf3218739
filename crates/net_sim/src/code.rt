//! The instructions of a design's drivers and clocked blocks. They are pushed from the last to the first.

ghost use Rattle.std.specs.Prelude.{◌≡◌, ◌+◌, ◌^◌, ◌<◌, ◌≤◌, ◌++◌, All, IfOk, OnOk, length, map, reverse};
ghost use Rattle.net_instr.specs.Machine.{AreBelow};
ghost use Rattle.net_instr.specs.Layout.{base};
ghost use Rattle.net_instr.specs.InPlace.{IsInPlace};
ghost use Rattle.net_instr.specs.Needs.{IsEnough};
ghost use Rattle.net_instr.specs.Statements.{IsBlockThere};
ghost use Rattle.net_design.specs.Lawful.{IsLawful};
ghost use Rattle.net_order.specs.Order.{IsOrder};
ghost use Rattle.net_sim.specs.Slots.{span_of, drivers_code, blocks_code, settling_code, clocking_code};

use crate::slots::Copies;
use net_design::{Code, Design, Driver, Net, count_words};
use net_instr::{InPlace, Instr, in_place, needed, push_acts, slots_of};
use net_order::vidi_bits::{Items, Memory};
use std::alloc::Global;

/// The widths of nets.
pub fn widths_of(alloc: Global, nets: &[Net]) -> Result<Items<u32>, Memory>
    ensures { IfOk result (λ widths. widths ≡ map (λ n. n.width) nets.now) }
{
    let mut widths = Items::new(alloc);
    for net in nets {
        widths.push(net.width)?;
    }
    Ok(widths)
}

/// Pushes the code of drivers in an order.
pub fn push_drivers(
    code: &mut Items<Instr>,
    drivers: &[Driver],
    order: &[u128],
    widths: &[u32],
    words: u32,
) -> Result<(), Memory>
    requires sized { All (λ x. IsBlockThere widths.now words x.code.acts) drivers.now }
    requires order { All (λ i. i < length drivers.now) order.now }
    requires few { base widths.now words + 16 < 2 ^ 32 }
    ensures { OnOk result (code.new ≡ code.old ++ drivers_code widths.now words drivers.now order.now) }
{
    let mut i = order.len();
    'drivers: while i > 0 {
        i -= 1;
        let driver = &drivers[order[i] as usize];
        push_acts(code, &driver.code.acts, 0, widths, words)?;
    }
    Ok(())
}

/// Pushes the code of clocked blocks, which write the numbers behind the first `span`.
pub fn push_blocks(
    code: &mut Items<Instr>,
    blocks: &[Code],
    span: u32,
    widths: &[u32],
    words: u32,
) -> Result<(), Memory>
    requires sized { All (λ c. IsBlockThere widths.now words c.acts) blocks.now }
    requires span { span ≡ length widths.now + words }
    requires few { base widths.now words + 16 < 2 ^ 32 }
    ensures { OnOk result (code.new ≡ code.old ++ blocks_code widths.now words blocks.now) }
{
    let mut i = blocks.len();
    'clocked: while i > 0 {
        i -= 1;
        push_acts(code, &blocks[i].acts, span, widths, words)?;
    }
    Ok(())
}

/// The code of a design's drivers in an order.
pub fn settling_of(
    alloc: Global,
    design: &Design,
    order: &[u128],
    widths: &[u32],
    words: u32,
) -> Result<Items<Instr>, Memory>
    requires sized { All (λ x. IsBlockThere widths.now words x.code.acts) design.now.drivers }
    requires order { All (λ i. i < length design.now.drivers) order.now }
    requires few { base widths.now words + 16 < 2 ^ 32 }
    ensures { IfOk result (λ code. code ≡ drivers_code widths.now words design.now.drivers order.now) }
{
    let mut code = Items::new(alloc);
    push_drivers(&mut code, design.drivers.as_slice(), order, widths, words)?;
    Ok(code)
}

/// The code of a design's clocked blocks.
pub fn clocking_of(
    alloc: Global,
    design: &Design,
    widths: &[u32],
    words: u32,
) -> Result<Items<Instr>, Memory>
    requires sized { All (λ c. IsBlockThere widths.now words c.acts) design.now.blocks }
    requires few { base widths.now words + 16 < 2 ^ 32 }
    ensures { IfOk result (λ code. code ≡ blocks_code widths.now words design.now.blocks) }
{
    let mut code = Items::new(alloc);
    let span = widths.len() as u32 + words;
    push_blocks(&mut code, design.blocks.as_slice(), span, widths, words)?;
    Ok(code)
}

/// The instructions of a design, from the first to the last.
#[derive(Drop)]
pub struct Codes {
    /// That of the drivers, in an order.
    pub settling: Items<Instr>,
    /// That of the clocked blocks.
    pub clocking: Items<Instr>,
    /// How many nets the design has.
    pub nets: u32,
    /// The numbers of nets and memory words.
    pub span: usize,
    /// How many slots the code takes.
    pub slots: usize,
}

/// The number of words, where the slots have numbers of 32 bits; else there is no memory for them.
fn few_slots(nets: usize, words: usize) -> Result<u32, Memory>
    ensures { IfOk result (λ count. (count ≡ words) × (nets + words + (nets + words) + 16 < 2 ^ 32)) }
{
    let most: usize = 1 << 30;
    if nets > most || words > most - nets {
        return Err(Memory);
    }
    Ok(words as u32)
}

/// Code from its first instruction to its last, where it stood from the last to the first.
fn turned(mut code: Items<Instr>) -> Items<Instr>
    ensures { result ≡ reverse code }
{
    code.as_mut_slice().reverse();
    code
}

/// The code of a design, and the slots that it takes.
fn codes_at(settling: Items<Instr>, clocking: Items<Instr>, nets: u32, span: usize) -> Codes
    requires { span < 2 ^ 32 }
    ensures settling { result.settling ≡ reverse settling }
    ensures clocking { result.clocking ≡ reverse clocking }
    ensures nets { result.nets ≡ nets }
    ensures span { result.span ≡ span }
    ensures settling_below { AreBelow result.slots settling }
    ensures clocking_below { AreBelow result.slots clocking }
    ensures slots { span + span ≤ result.slots }
{
    let first = slots_of(settling.as_slice(), span + span);
    let slots = slots_of(clocking.as_slice(), first);
    Codes {
        settling: turned(settling),
        clocking: turned(clocking),
        nets,
        span,
        slots,
    }
}

/// The instructions of a lawful design, whose drivers have an order.
pub fn codes_of(alloc: Global, design: &Design, order: &[u128]) -> Result<Codes, Memory>
    requires lawful { IsLawful design.now }
    requires order { IsOrder design.now order.now }
    ensures settling { IfOk result (λ codes. codes.settling ≡ reverse (settling_code design.now order.now)) }
    ensures clocking { IfOk result (λ codes. codes.clocking ≡ reverse (clocking_code design.now)) }
    ensures nets { IfOk result (λ codes. codes.nets ≡ length design.now.nets) }
    ensures span { IfOk result (λ codes. codes.span ≡ span_of design.now) }
    ensures settling_below { IfOk result (λ codes. AreBelow codes.slots (settling_code design.now order.now)) }
    ensures clocking_below { IfOk result (λ codes. AreBelow codes.slots (clocking_code design.now)) }
    ensures slots { IfOk result (λ codes. span_of design.now + span_of design.now ≤ codes.slots) }
{
    let widths = widths_of(alloc, design.nets.as_slice())?;
    let words = few_slots(widths.len(), count_words(design))?;
    let settling = settling_of(alloc, design, order, widths.as_slice(), words)?;
    let clocking = clocking_of(alloc, design, widths.as_slice(), words)?;
    let span = widths.len() + words as usize;
    Ok(codes_at(settling, clocking, widths.len() as u32, span))
}

/// The instructions of a design, which reads nets that only copy another in its place.
#[derive(Drop)]
pub struct Placed {
    /// The code, and the slot at which each net is read.
    pub made: InPlace,
    /// What is copied before the drivers' code is run.
    pub copies: Copies,
    /// How many slots the code takes.
    pub slots: usize,
}

/// The instructions of a lawful design, whose drivers have an order, without those that only copy a net.
pub fn placed_of(alloc: Global, design: &Design, order: &[u128]) -> Result<Placed, Memory>
    requires lawful { IsLawful design.now }
    requires order { IsOrder design.now order.now }
    ensures made { IfOk result (λ p. IsInPlace (length design.now.nets) (reverse (settling_code design.now order.now))
        (reverse (clocking_code design.now)) p.made.places p.made.settling p.made.clocking) }
    ensures enough { IfOk result (λ p. IsEnough p.made.places p.made.settling p.copies.nets) }
    ensures words { IfOk result (λ p. p.copies.words ≡ length design.now.nets) }
    ensures span { IfOk result (λ p. p.copies.span ≡ span_of design.now) }
    ensures settling_below { IfOk result (λ p. AreBelow p.slots (settling_code design.now order.now)) }
    ensures clocking_below { IfOk result (λ p. AreBelow p.slots (clocking_code design.now)) }
    ensures slots { IfOk result (λ p. span_of design.now + span_of design.now ≤ p.slots) }
{
    let codes = codes_of(alloc, design, order)?;
    let made = in_place(alloc, codes.settling, codes.clocking, codes.nets)?;
    let code = made.settling.as_slice();
    let nets = needed(alloc, code, made.places.as_slice(), codes.nets)?;
    let copies = Copies {
        nets,
        words: codes.nets as usize,
        span: codes.span,
    };
    Ok(Placed {
        made,
        copies,
        slots: codes.slots,
    })
}
