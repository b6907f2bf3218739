//! Laws of the definitions.

ghost use Rattle.std.specs.Prelude.{◌≡◌, ℕ, ◌+◌, ◌%◌, ◌^◌, ◌<◌, ◌≤◌, ◌↔◌, false, List, [], ◌∷◌, ◌++◌, length, slice_index};
ghost use Rattle.std.specs.Int.{bit_at};
ghost use Rattle.net_design.specs.declared.act.Act.{Act};
ghost use Rattle.net_design.specs.declared.act.Act.TheVariants.{Set, Branch};
ghost use Rattle.net_design.specs.declared.act.Guard.{Guard};
ghost use Rattle.net_design.specs.declared.act.Place.{Place};
ghost use Rattle.net_design.specs.declared.act.Place.TheVariants.{Bits};
ghost use Rattle.net_design.specs.declared.act.Timing.{Timing};
ghost use Rattle.net_design.specs.declared.design.Design.{Design};
ghost use Rattle.net_design.specs.declared.rhs.Rhs.{Rhs};
ghost use Rattle.net_design.specs.declared.rhs.Span.{Span};
ghost use Rattle.net_design.specs.declared.values.Update.{Update};
ghost use Rattle.net_design.specs.declared.values.Values.{Values};
ghost use Rattle.net_design.specs.Value.{read, value};
ghost use Rattle.net_design.specs.Updates.{apply, updates, block_updates, guard_updates, seen, run, ArePlaced, HasParts};
ghost use Rattle.net_design.specs.Bits.{Apart, block_writes};
ghost use Rattle.net_design.specs.Last.{HasLast, IsNarrow};
ghost use Rattle.net_design.specs.declared.act.Timing.TheVariants.{Blocking};
ghost use Rattle.net_design.specs.Settled.{IsSized, initial, next};
ghost use Rattle.net_design.specs.Lawful.{IsLawful, IsState};
ghost use Rattle.net_design.specs.Example.{example, driven_twice, not_driven, held_driven, stray_initial, named_twice};

/// The updates of two lists are made by making those of the first, then those of the second.
pub fn updates_in_order()
    ensures { (us ws : List Update) (v : Values) → apply (us ++ ws) v ≡ apply ws (apply us v) }
{}

/// The updates of two lists of statements are those of the first, then those of the second, which sees the first's
/// where assignments take effect at once.
pub fn blocks_in_order()
    ensures { (t : Timing) (xs ys : List Act) (v : Values)
        → block_updates t (xs ++ ys) v ≡ block_updates t xs v ++ block_updates t ys (seen t (block_updates t xs v) v) }
{}

/// What a choice does, over its lists.
pub fn choice_by_lists()
    ensures { (t : Timing) (guards : List Guard) (otherwise : List Act) (v : Values)
        → updates t (Branch guards otherwise) v ≡ guard_updates t guards (block_updates t otherwise v) v }
{}

/// Running an assignment to bits of a net changes nothing exactly where those bits are the low bits of its value.
pub fn assignment_is_equation()
    ensures { (s : Span) (n : ℕ) (e : Rhs) (v : Values)
        → s.net < length v.nets → slice_index v.nets s.net < 2 ^ 128 → s.low + s.width ≤ 128
        → (run (Set (Bits s n ∷ []) e ∷ []) v ≡ v) ↔ (read s v ≡ value e v % 2 ^ s.width) }
{}

/// The same of a concatenated target, whose parts name no bit twice.
pub fn target_is_equation()
    ensures { (target : List Place) (e : Rhs) (v : Values) → ArePlaced target v → Apart target
        → (run (Set target e ∷ []) v ≡ v) ↔ HasParts target (value e v) v }
{}

/// Updates change nothing exactly where each bit that they write is what the last of them makes it; so running an `always @*`
/// changes nothing exactly where each bit that it writes is what the last of its updates makes it.
pub fn last_update_stands()
    ensures updates { (us : List Update) (v : Values) → IsNarrow v → (apply us v ≡ v) ↔ HasLast us v }
    ensures block { (acts : List Act) (v : Values) → IsNarrow v → (run acts v ≡ v) ↔ HasLast (block_updates Blocking acts v) v }
{}

/// Bits that a block doesn't write stay, whatever numbers it read.
pub fn unwritten_bits_stay()
    ensures { (t : Timing) (acts : List Act) (v s : Values) (m k : ℕ) → k < 128 → block_writes acts m k ≡ false
        → bit_at (slice_index (apply (block_updates t acts v) s).nets m) k ≡ bit_at (slice_index s.nets m) k }
{}

/// A lawful design can be evaluated.
pub fn lawful_is_sized()
    ensures { (d : Design) → IsLawful d → IsSized d }
{}

/// The initial state of a lawful design is a state.
pub fn initial_is_state()
    ensures { (d : Design) → IsLawful d → IsState d (initial d) }
{}

/// The next state of a state is a state, whatever the clocked blocks read.
pub fn next_is_state()
    ensures { (d : Design) (v s : Values) → IsLawful d → IsState d s → IsState d (next d v s) }
{}

/// A lawful design is shown, with a clock, a register, a memory, an `assign` and an `always @*`, and five neighbours of it that
/// aren't lawful.
pub fn lawful_design_shown()
    ensures lawful { IsLawful example }
    ensures driven_twice { IsLawful driven_twice → ⊥ }
    ensures not_driven { IsLawful not_driven → ⊥ }
    ensures held_driven { IsLawful held_driven → ⊥ }
    ensures stray_initial { IsLawful stray_initial → ⊥ }
    ensures named_twice { IsLawful named_twice → ⊥ }
{}
