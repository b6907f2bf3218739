//! What the code of statements does, as contracts of functions that do nothing.

ghost use Rattle.std.specs.Prelude.{ℕ, ◌≤◌, List, All, length, reverse, slice_index};
ghost use Rattle.net_design.specs.declared.act.Act.{Act};
ghost use Rattle.net_design.specs.declared.act.Timing.{Timing};
ghost use Rattle.net_design.specs.Updates.{block_updates};
ghost use Rattle.net_instr.specs.Machine.{exec, AreBelow, IsInstr};
ghost use Rattle.net_instr.specs.Layout.{shown, IsReady, Moves};
ghost use Rattle.net_instr.specs.Statements.{offset, block_code, IsBlockThere};

/// Running the code of statements, from its first instruction to its last, makes their updates: of the numbers that are read
/// where assignments take effect at once, else of the state (IEEE 1364-2005, 9.2).
pub fn code_makes_updates()
    ensures { (t : Timing) (widths : List ℕ) (words : ℕ) (acts : List Act) (s : List ℕ) → IsBlockThere widths words acts
        → AreBelow (length s) (block_code widths words (offset widths words t) acts) → IsReady widths words s
        → Moves widths words t (block_updates t acts (shown widths words s)) s
        (exec (reverse (block_code widths words (offset widths words t) acts)) 0 s) }
{}

/// The machine can take the code of statements.
pub fn code_is_safe()
    ensures { (widths : List ℕ) (words o : ℕ) (acts : List Act) → ((m : ℕ) → slice_index widths m ≤ 128) → IsBlockThere widths words acts
        → All (λ i. IsInstr i) (reverse (block_code widths words o acts)) }
{}
