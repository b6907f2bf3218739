//! The drivers that write bits of each net.

ghost use Rattle.std.specs.Prelude.{◌≡◌, ℕ, ◌<◌, ◌==◌, ◌&&◌, ◌||◌, [], OnOk, IfOk, length};
ghost use Rattle.vidi_bits.specs.Number.{has};
ghost use Rattle.net_design.specs.Names.{list_at};
ghost use Rattle.net_design.specs.Bits.{named};
ghost use Rattle.net_order.specs.Index.{listed};
ghost use Rattle.net_order.specs.Reading.{AreWriters};

use net_design::{Design, Mask};
use std::alloc::Global;
use vidi_bits::{Items, Memory};

/// A driver that writes bits of a net.
#[derive(Clone, Copy)]
pub struct Writer {
    pub driver: usize,
    pub bits: u128,
}

/// The writers of each net.
pub type Writers = Vec<Items<Writer>>;

/// No writers of `count` nets.
fn no_writers(alloc: Global, count: usize) -> Result<Writers, Memory>
    ensures long { IfOk result (λ writers. length writers.items ≡ count) }
    ensures none { IfOk result (λ writers. (m : ℕ) → list_at writers.items m ≡ []) }
{
    let mut writers = Vec::new(alloc);
    'nets: for _net in 0..count {
        writers.push(Items::new(alloc))?;
    }
    Ok(writers)
}

/// Adds a writer of a net.
fn push_writer(writers: &mut Writers, net: usize, writer: Writer) -> Result<(), Memory>
    requires { net < length writers.old.items }
    ensures long { OnOk result (length writers.new.items ≡ length writers.old.items) }
    ensures listed { OnOk result ((m j k : ℕ) → listed writers.new.items m j k
        ≡ (listed writers.old.items m j k || ((net == m) && ((writer.driver == j) && has writer.bits k)))) }
{
    writers[net].push(writer)?;
    Ok(())
}

/// Adds a driver that writes the bits of a mask.
fn note_mask(writers: &mut Writers, driver: usize, mask: Mask) -> Result<(), Memory>
    ensures long { OnOk result (length writers.new.items ≡ length writers.old.items) }
    ensures listed { OnOk result ((m j k : ℕ) → m < length writers.old.items → listed writers.new.items m j k
        ≡ (listed writers.old.items m j k || ((driver == j) && ((mask.net == m) && has mask.bits k)))) }
{
    if mask.net < writers.len() {
        let bits = mask.bits;
        push_writer(writers, mask.net, Writer { driver, bits })?;
    }
    Ok(())
}

/// Adds a driver that writes the bits of masks.
fn note_masks(writers: &mut Writers, driver: usize, masks: &[Mask]) -> Result<(), Memory>
    ensures long { OnOk result (length writers.new.items ≡ length writers.old.items) }
    ensures listed { OnOk result ((m j k : ℕ) → m < length writers.old.items → listed writers.new.items m j k
        ≡ (listed writers.old.items m j k || ((driver == j) && named masks.now m k))) }
{
    for mask in masks {
        note_mask(writers, driver, *mask)?;
    }
    Ok(())
}

/// The writers of each net of a design.
pub fn writers_of(alloc: Global, design: &Design) -> Result<Writers, Memory>
    ensures { IfOk result (λ writers. AreWriters design.now writers.items) }
{
    let mut writers = no_writers(alloc, design.nets.len())?;
    for (i, driver) in design.drivers.as_slice().iter().enumerate() {
        note_masks(&mut writers, i, driver.code.writes.as_slice())?;
    }
    Ok(writers)
}
