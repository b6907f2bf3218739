//! Runs of a block, cycle by cycle.

ghost use Rattle.std.specs.Prelude.{◌≡◌, ◌<◌, ◌^◌, ℕ, [], All, false, length, IfOk, OnOk};
ghost use Rattle.run_model.specs.trace_model.Row.{row_before, AreOffers, IsOver, IsMarked};
ghost use Rattle.net_design.specs.Pins.{FitPins};
ghost use Rattle.run_model.specs.Building.{PortsAreNets};
ghost use Rattle.run_model.specs.Laws.{GatesOf};
ghost use Rattle.run_model.specs.MapOf.{IsMapOf};
ghost use Rattle.run_model.specs.Offers.{Carries};
ghost use Rattle.run_model.specs.Pins.{silent};
ghost use Rattle.run_model.specs.Run.{IsRun};
ghost use Rattle.run_model.specs.Step.{IsAfter, IsFirst, IsStep};
ghost use Rattle.run_reference.specs.Given.{offers_by, gates_by};

use crate::pins::input_pins;
use crate::row::shown_row;
use net_design::Block;
use run_model::chan_map::Map;
use run_model::trace_model::{Offers, Row, Rows};
use run_model::vidi_bits::{Memory, Numbers};
use std::alloc::Global;

/// A row of which nothing is up.
fn silent(alloc: Global) -> Row
    ensures { result ≡ silent }
{
    Row {
        fresh: false,
        gates: 0,
        valids: 0,
        readies: 0,
        contents: Numbers::new(alloc),
        starts: 0,
        ends: 0,
    }
}

/// A row of what is offered, with nothing that the block shows.
fn offered(alloc: Global, offers: &Offers, gates: u128) -> Result<Row, Memory>
    ensures { IfOk result (λ row. row ≡ record {
      fresh = false;
      gates = gates;
      valids = offers.now.valids;
      readies = offers.now.readies;
      contents = offers.now.contents;
      starts = 0;
      ends = 0;
    }) }
{
    let contents = Vec::from_slice(alloc, offers.contents.as_slice())?;
    Ok(Row {
        fresh: false,
        gates,
        valids: offers.valids,
        readies: offers.readies,
        contents: Numbers::from_vec(contents),
        starts: 0,
        ends: 0,
    })
}

/// Makes so many steps with the same inputs.
fn cycles<B: Block>(block: &mut B, pins: &[u128], count: u32)
    requires { FitPins (B.design block.old) pins.now }
    ensures state { IsAfter (B.design block.old) pins.now count (B.state block.old) (B.state block.new) }
    ensures design { B.design block.new ≡ B.design block.old }
{
    for _i in 0..count {
        block.settle(pins);
        block.clock();
    }
}

/// Brings a block to the state in which row 0 begins: the initial one, after the map's reset cycles.
pub(crate) fn reset<B: Block>(alloc: Global, block: &mut B, map: &Map) -> Result<(), Memory>
    requires { IsMapOf (B.design block.old) map.now }
    ensures state { OnOk result (IsFirst (B.design block.old) map.now (B.state block.new)) }
    ensures design { B.design block.new ≡ B.design block.old }
{
    block.load();
    match &map.reset {
        None => Ok(()),
        Some(reset) => {
            let pins = input_pins(alloc, map, true, &silent(alloc))?;
            cycles(block, pins.as_slice(), reset.cycles);
            Ok(())
        }
    }
}

/// One cycle after these rows: settles the block with these offers and gates, answers the row that it shows, and makes its state the
/// next one.
pub(crate) fn step<B: Block>(
    alloc: Global,
    block: &mut B,
    map: &Map,
    before: &[Row],
    offers: &Offers,
    gates: u128,
) -> Result<Row, Memory>
    requires mapped { IsMapOf (B.design block.old) map.now }
    requires nets { PortsAreNets (B.design block.old) }
    requires offers { AreOffers map.now.channels offers.now }
    requires gates { gates < 2 ^ length map.now.channels }
    ensures over { IfOk result (λ row. IsOver map.now.channels row) }
    ensures marked { IfOk result (λ row. IsMarked (row_before before.now (length before.now)) row) }
    ensures carried { IfOk result (λ row. Carries map.now.channels offers.now row) }
    ensures gates { IfOk result (λ row. row.gates ≡ gates) }
    ensures fresh { IfOk result (λ row. row.fresh ≡ false) }
    ensures step { IfOk result (λ row. IsStep (B.design block.old) map.now (B.state block.old) row (B.state block.new)) }
    ensures design { B.design block.new ≡ B.design block.old }
{
    let asked = offered(alloc, offers, gates)?;
    let pins = input_pins(alloc, map, false, &asked)?;
    block.settle(pins.as_slice());
    let row = shown_row(alloc, block, map, before, offers, gates)?;
    block.clock();
    Ok(row)
}

/// The rows of the block's run under these offers and gates, one of each for each cycle. The block is of the map's design.
pub fn run_rows<B: Block>(
    alloc: Global,
    block: &mut B,
    map: &Map,
    offers: &[Offers],
    gates: &[u128],
) -> Result<Rows, Memory>
    requires mapped { IsMapOf (B.design block.old) map.now }
    requires nets { PortsAreNets (B.design block.old) }
    requires offers { All (AreOffers map.now.channels) offers.now }
    requires gates { All (λ g. g < 2 ^ length map.now.channels) gates.now }
    requires count { length gates.now ≡ length offers.now }
    ensures run { IfOk result (λ rows. IsRun (B.design block.old) map.now (offers_by offers.now) (GatesOf (gates_by gates.now)) rows) }
    ensures count { IfOk result (λ rows. length rows ≡ length offers.now) }
    ensures design { B.design block.new ≡ B.design block.old }
{
    reset(alloc, block, map)?;
    let mut rows = Rows::new(alloc);
    for (t, offer) in offers.iter().enumerate() {
        let row = step(alloc, block, map, rows.as_slice(), offer, gates[t])?;
        rows.push(row)?;
    }
    Ok(rows)
}
