//! Whether statements write words of memories.

ghost use Rattle.std.specs.Prelude.{◌≡◌, ◌||◌};
ghost use Rattle.std.specs.List.{list_any};
ghost use Rattle.net_design.specs.declared.act.Act.{Act};
ghost use Rattle.net_design.specs.Bits.{place_is_word, writes_words, block_writes_words};
ghost use Rattle.net_lawful.specs.Words.{guards_write};

use net_code::vidi_bits::Items;
use net_design::{Act, Guard, Place};

fn is_word(place: &Place) -> bool
    ensures { result ≡ place_is_word place.now }
{
    match place {
        Place::Bits { .. } => false,
        Place::BitsFrom { .. } => false,
        Place::Word { .. } => true,
        Place::WordFrom { .. } => true,
    }
}

fn has_word(places: &[Place]) -> bool
    ensures { result ≡ list_any place_is_word places.now }
{
    places.iter().any(|place| is_word(place))
}

/// What a choice is, over its lists.
fn see_words(guards: &Items<Guard>, otherwise: &Items<Act>)
    ensures { (a : Act) → a ≡ Act.Branch guards.now otherwise.now
        → writes_words a ≡ (guards_write guards.now || block_writes_words otherwise.now) }
{}

#[cycle(words)]
fn act_writes(act: &Act) -> bool
    ensures { result ≡ writes_words act.now }
{
    match act {
        Act::Set { target, .. } => has_word(target.as_slice()),
        Act::Read(_) => false,
        Act::Branch { guards, otherwise } => {
            see_words(guards, otherwise);
            guards_write(guards) || acts_write(otherwise)
        }
    }
}

#[cycle(words)]
fn guards_write(guards: &Items<Guard>) -> bool
    ensures { result ≡ guards_write guards.now }
{
    for guard in guards.as_slice() {
        if acts_write(&guard.body) {
            return true;
        }
    }
    false
}

/// Whether statements write words of memories.
#[cycle(words)]
pub fn acts_write(acts: &Items<Act>) -> bool
    ensures { result ≡ block_writes_words acts.now }
{
    for act in acts.as_slice() {
        if act_writes(act) {
            return true;
        }
    }
    false
}
