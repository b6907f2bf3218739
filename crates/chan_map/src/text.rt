//! A map that was read.

ghost use Rattle.std.specs.Prelude.{◌≡◌, ◌∷◌, [], true};
ghost use Rattle.std.specs.List.{list_all, flat_map};
ghost use Rattle.chan_map.specs.Follow.{entries, clock_name, follow, is_named};

use crate::map_text::MapLines;
use vidi_lines::vidi_bits::Name;

/// A map that was read: its lines with words, and the names of the top module and of the clock's port.
#[derive(Drop)]
pub struct MapText {
    pub(crate) top: Name,
    pub(crate) clock: Name,
    pub(crate) lines: MapLines,
    ghost follows: { follow [] (entries lines) ≡ true },
    ghost named: { list_all is_named (entries lines) ≡ true },
    ghost one_clock: { flat_map clock_name (entries lines) ≡ clock ∷ [] },
}

impl MapText {
    /// The name of the top module.
    pub fn top(&self) -> &Name
        ensures { result.now ≡ self.now.top }
    {
        &self.top
    }
}
