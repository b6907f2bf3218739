//! What the drivers write, and what each always block names as targets.

ghost use Rattle.std.specs.Prelude.{◌≡◌, ◌++◌, ◌∷◌, [], map, IfOk, OnOk};
ghost use Rattle.std.specs.List.{flat_map};
ghost use Rattle.net_code.specs.Targets.{block_targets, nets_named, rooms_named, plain_places};
ghost use Rattle.net_drive.specs.Drive.{driver_places, wire_places, always_names, block_names};

use crate::targets::{add_targets, nets_named, rooms_named};
use net_code::vidi_bits::{Items, Memory};
use net_design::{Code, Driver, Place};
use std::alloc::Global;

/// For each always block the nets that it names as targets, and the first words of the memories.
#[derive(Drop)]
pub struct Named {
    pub nets: Items<Items<usize>>,
    pub rooms: Items<Items<usize>>,
}

/// Adds the places that a driver writes, unless it is an `always @*`.
fn add_driver_places<'a>(driver: &'a Driver, out: &mut Items<&'a Place>) -> Result<(), Memory>
    ensures { OnOk result (plain_places out.new ≡ plain_places out.old ++ driver_places driver.now) }
{
    if driver.always {
        return Ok(());
    }
    add_targets(&driver.code.acts, out)
}

/// The places that all drivers but the `always @*` write.
#[tactic(auto, unfolding(crate::specs::Drive::wire_places))]
pub fn wire_places<'a>(alloc: Global, drivers: &'a [Driver]) -> Result<Items<&'a Place>, Memory>
    ensures { IfOk result (λ places. plain_places places ≡ wire_places drivers.now) }
{
    let mut places = Items::new(alloc);
    for driver in drivers {
        add_driver_places(driver, &mut places)?;
    }
    Ok(places)
}

impl Named {
    /// Adds what a block names.
    fn add(&mut self, alloc: Global, code: &Code) -> Result<(), Memory>
        ensures nets { OnOk result (self.new.nets ≡ self.old.nets ++ nets_named (block_targets code.now.acts) ∷ []) }
        ensures rooms { OnOk result (self.new.rooms ≡ self.old.rooms ++ rooms_named (block_targets code.now.acts) ∷ []) }
    {
        let mut places = Items::new(alloc);
        add_targets(&code.acts, &mut places)?;
        let nets = nets_named(alloc, places.as_slice())?;
        self.nets.push(nets)?;
        let rooms = rooms_named(alloc, places.as_slice())?;
        self.rooms.push(rooms)?;
        Ok(())
    }

    /// Adds what a driver names that is an `always @*`.
    fn add_driver(&mut self, alloc: Global, driver: &Driver) -> Result<(), Memory>
        ensures nets { OnOk result (self.new.nets ≡ self.old.nets ++ always_names nets_named driver.now) }
        ensures rooms { OnOk result (self.new.rooms ≡ self.old.rooms ++ always_names rooms_named driver.now) }
    {
        if driver.always {
            self.add(alloc, &driver.code)?;
        }
        Ok(())
    }
}

/// Adds what the drivers name that are `always @*`.
fn add_drivers(alloc: Global, drivers: &[Driver], named: &mut Named) -> Result<(), Memory>
    ensures nets { OnOk result (named.new.nets ≡ named.old.nets ++ flat_map (always_names nets_named) drivers.now) }
    ensures rooms { OnOk result (named.new.rooms ≡ named.old.rooms ++ flat_map (always_names rooms_named) drivers.now) }
{
    for driver in drivers {
        named.add_driver(alloc, driver)?;
    }
    Ok(())
}

/// Adds what clocked blocks name.
fn add_blocks(alloc: Global, blocks: &[Code], named: &mut Named) -> Result<(), Memory>
    ensures nets { OnOk result (named.new.nets ≡ named.old.nets ++ map (λ c. nets_named (block_targets c.acts)) blocks.now) }
    ensures rooms { OnOk result (named.new.rooms ≡ named.old.rooms ++ map (λ c. rooms_named (block_targets c.acts)) blocks.now) }
{
    for code in blocks {
        named.add(alloc, code)?;
    }
    Ok(())
}

/// What each always block names.
pub fn named_by(alloc: Global, drivers: &[Driver], blocks: &[Code]) -> Result<Named, Memory>
    ensures nets { IfOk result (λ named. named.nets ≡ block_names nets_named drivers.now blocks.now) }
    ensures rooms { IfOk result (λ named. named.rooms ≡ block_names rooms_named drivers.now blocks.now) }
{
    let mut named = Named {
        nets: Items::new(alloc),
        rooms: Items::new(alloc),
    };
    add_drivers(alloc, drivers, &mut named)?;
    add_blocks(alloc, blocks, &mut named)?;
    Ok(named)
}
