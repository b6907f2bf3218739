//! The places that statements name as targets.

ghost use Rattle.std.specs.Prelude.{◌≡◌, ◌++◌, [], ◌∷◌, map, IfOk, OnOk};
ghost use Rattle.net_design.specs.declared.act.Act.{Act};
ghost use Rattle.net_code.specs.Targets.{targets, block_targets, guard_targets, plain_places};
ghost use Rattle.net_code.specs.Targets.{place_net, place_room, nets_named, rooms_named};

use net_code::vidi_bits::{Items, Memory};
use net_design::{Act, Guard, Place};
use std::alloc::Global;

/// The targets of a choice, over its lists.
fn see_targets(guards: &Items<Guard>, otherwise: &Items<Act>)
    ensures { (a : Act) → a ≡ Act.Branch guards.now otherwise.now → targets a ≡ guard_targets guards.now ++ block_targets otherwise.now }
{}

/// Adds the places of a target.
fn add_places<'a>(places: &'a [Place], out: &mut Items<&'a Place>) -> Result<(), Memory>
    ensures { OnOk result (plain_places out.new ≡ plain_places out.old ++ places.now) }
{
    for place in places {
        out.push(place)?;
    }
    Ok(())
}

/// Adds the targets of a statement.
#[cycle(walk)]
fn add_act<'a>(act: &'a Act, out: &mut Items<&'a Place>) -> Result<(), Memory>
    ensures { OnOk result (plain_places out.new ≡ plain_places out.old ++ targets act.now) }
{
    match act {
        Act::Set { target, .. } => add_places(target.as_slice(), out),
        Act::Read(_) => Ok(()),
        Act::Branch { guards, otherwise } => {
            see_targets(guards, otherwise);
            add_guards(guards, out)?;
            add_acts(otherwise, out)
        }
    }
}

/// Adds the targets of statements.
#[cycle(walk)]
#[tactic(auto, unfolding(net_code::specs::Targets::block_targets))]
fn add_acts<'a>(acts: &'a Items<Act>, out: &mut Items<&'a Place>) -> Result<(), Memory>
    ensures { OnOk result (plain_places out.new ≡ plain_places out.old ++ block_targets acts.now) }
{
    for act in acts.as_slice() {
        add_act(act, out)?;
    }
    Ok(())
}

/// Adds the targets of the bodies of guards.
#[cycle(walk)]
#[tactic(auto, unfolding(net_code::specs::Targets::guard_targets))]
fn add_guards<'a>(guards: &'a Items<Guard>, out: &mut Items<&'a Place>) -> Result<(), Memory>
    ensures { OnOk result (plain_places out.new ≡ plain_places out.old ++ guard_targets guards.now) }
{
    for guard in guards.as_slice() {
        add_acts(&guard.body, out)?;
    }
    Ok(())
}

/// Adds the targets of a block.
pub fn add_targets<'a>(acts: &'a Items<Act>, out: &mut Items<&'a Place>) -> Result<(), Memory>
    ensures { OnOk result (plain_places out.new ≡ plain_places out.old ++ block_targets acts.now) }
{
    add_acts(acts, out)
}

/// Adds the net that a place names.
fn add_net(place: &Place, out: &mut Items<usize>) -> Result<(), Memory>
    ensures { OnOk result (out.new ≡ out.old ++ place_net place.now) }
{
    match place {
        Place::Bits { span, .. } => out.push(span.net),
        Place::BitsFrom { whole, .. } => out.push(whole.net),
        Place::Word { .. } => Ok(()),
        Place::WordFrom { .. } => Ok(()),
    }
}

/// The nets that places name.
#[tactic(auto, unfolding(net_code::specs::Targets::nets_named))]
pub fn nets_named(alloc: Global, places: &[&Place]) -> Result<Items<usize>, Memory>
    ensures { IfOk result (λ named. named ≡ nets_named (plain_places places.now)) }
{
    let mut named = Items::new(alloc);
    for place in places {
        add_net(place, &mut named)?;
    }
    Ok(named)
}

/// The nets that a block names as targets, in text order, whatever bits of them are in range.
pub fn named_nets(alloc: Global, acts: &Items<Act>) -> Result<Items<usize>, Memory>
    ensures { IfOk result (λ named. named ≡ nets_named (block_targets acts.now)) }
{
    let mut places = Items::new(alloc);
    add_targets(acts, &mut places)?;
    nets_named(alloc, places.as_slice())
}

/// Adds the first word of the memory that a place names.
fn add_room(place: &Place, out: &mut Items<usize>) -> Result<(), Memory>
    ensures { OnOk result (out.new ≡ out.old ++ place_room place.now) }
{
    match place {
        Place::Bits { .. } => Ok(()),
        Place::BitsFrom { .. } => Ok(()),
        Place::Word { room, .. } => out.push(room.first),
        Place::WordFrom { room, .. } => out.push(room.first),
    }
}

/// The first words of the memories that places name.
#[tactic(auto, unfolding(net_code::specs::Targets::rooms_named))]
pub fn rooms_named(alloc: Global, places: &[&Place]) -> Result<Items<usize>, Memory>
    ensures { IfOk result (λ named. named ≡ rooms_named (plain_places places.now)) }
{
    let mut named = Items::new(alloc);
    for place in places {
        add_room(place, &mut named)?;
    }
    Ok(named)
}
