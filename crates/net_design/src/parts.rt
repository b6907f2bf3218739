//! Parts of code: how many bits a place takes, and what a choice is over its lists.

ghost use Rattle.std.specs.Prelude.{◌≡◌, ℕ, ◌↔◌};
ghost use Rattle.net_design.specs.Sized.{IsAct, AreGuards, IsBlock, IsShort, IsCountable};
ghost use Rattle.net_design.specs.declared.act.Act.{Act};
ghost use Rattle.net_design.specs.declared.act.Timing.{Timing};
ghost use Rattle.net_design.specs.declared.values.Values.{Values};
ghost use Rattle.net_design.specs.Updates.{place_width, updates, block_updates, guard_updates};

use crate::act::{Act, Guard, Place};
use vidi_bits::Items;

/// How many bits of the value a place takes.
pub fn place_width(place: &Place) -> u32
    ensures { result ≡ place_width place.now }
{
    match place {
        Place::Bits { takes, .. } => *takes,
        Place::BitsFrom { width, .. } => *width,
        Place::Word { takes, .. } => *takes,
        Place::WordFrom { width, .. } => *width,
    }
}

/// What a choice is, over its lists.
pub fn see_branch(guards: &Items<Guard>, otherwise: &Items<Act>)
    ensures updates { (a : Act) (t : Timing) (v : Values) → a ≡ Act.Branch guards.now otherwise.now
        → updates t a v ≡ guard_updates t guards.now (block_updates t otherwise.now v) v }
    ensures sized { (a : Act) (limit : ℕ) → a ≡ Act.Branch guards.now otherwise.now
        → IsAct (IsShort limit) (IsCountable limit) a
        ↔ (AreGuards (IsShort limit) (IsCountable limit) guards.now × IsBlock (IsShort limit) (IsCountable limit) otherwise.now) }
{}
