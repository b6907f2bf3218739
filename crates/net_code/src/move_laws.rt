//! Laws of moved code: what it reads, writes and updates is what the code does, from the instance's first places on.

ghost use Rattle.std.specs.Prelude.{◌≡◌, ℕ, ◌↔◌, Bool, IsTrue, List, map, take};
ghost use Rattle.net_design.specs.declared.act.Act.{Act};
ghost use Rattle.net_design.specs.declared.act.Code.{Code};
ghost use Rattle.net_design.specs.declared.act.Mask.{Mask};
ghost use Rattle.net_design.specs.declared.act.Place.{Place};
ghost use Rattle.net_design.specs.declared.act.Timing.{Timing};
ghost use Rattle.net_design.specs.declared.rhs.Rhs.{Rhs};
ghost use Rattle.net_design.specs.declared.rhs.Room.{Room};
ghost use Rattle.net_design.specs.declared.rhs.Span.{Span};
ghost use Rattle.net_design.specs.declared.values.Update.{Update};
ghost use Rattle.net_design.specs.declared.values.Values.{Values};
ghost use Rattle.net_design.specs.Value.{value};
ghost use Rattle.net_design.specs.Updates.{apply, block_updates, run};
ghost use Rattle.net_design.specs.Bits.{named, reads, Apart, HasBits, block_writes, block_adds, block_reads, block_writes_words};
ghost use Rattle.net_design.specs.Sized.{IsBlock};
ghost use Rattle.net_code.specs.Moved.{moved_span, moved_room, moved_rhs, moved_place, moved_act, moved_mask, moved_bits, moved_update};
ghost use Rattle.net_code.specs.Moved.{moved, from_first};

/// The number of a moved expression is that of the expression, where nets and words count from the first places.
pub fn moved_number()
    ensures { (net word : ℕ) (e : Rhs) (v : Values) → value (moved_rhs net word e) v ≡ value e (from_first net word v) }
{}

/// The updates of a moved block are those of the block, moved.
pub fn moved_updates()
    ensures { (net word : ℕ) (t : Timing) (acts : List Act) (v : Values)
        → block_updates t (map (moved_act net word) acts) v ≡ map (moved_update net word) (block_updates t acts (from_first net word v)) }
{}

/// To make moved updates is to make the updates from the first places on; the numbers before these stay.
pub fn moved_changes()
    ensures after { (net word : ℕ) (us : List Update) (v : Values)
        → from_first net word (apply (map (moved_update net word) us) v) ≡ apply us (from_first net word v) }
    ensures before { (net word : ℕ) (us : List Update) (v : Values)
        → (take net (apply (map (moved_update net word) us) v).nets ≡ take net v.nets)
        × (take word (apply (map (moved_update net word) us) v).words ≡ take word v.words) }
{}

/// Running moved code changes nothing exactly where running the code changes none of the numbers from the first places on.
pub fn moved_is_fixed()
    ensures { (net word : ℕ) (acts : List Act) (v : Values)
        → (run (map (moved_act net word) acts) v ≡ v) ↔ (run acts (from_first net word v) ≡ from_first net word v) }
{}

/// The bits that moved code reads, writes and surely assigns, and those that moved masks name, are the code's, moved.
pub fn moved_code_bits()
    ensures reads { (net word : ℕ) (e : Rhs) (m k : ℕ) → reads (moved_rhs net word e) m k ≡ moved_bits net word (reads e) m k }
    ensures writes { (net word : ℕ) (acts : List Act) (m k : ℕ)
        → block_writes (map (moved_act net word) acts) m k ≡ moved_bits net word (block_writes acts) m k }
    ensures adds { (net word : ℕ) (acts : List Act) (m k : ℕ)
        → block_adds (map (moved_act net word) acts) m k ≡ moved_bits net word (block_adds acts) m k }
    ensures open_reads { (net word : ℕ) (t : Timing) (acts : List Act) (m k : ℕ)
        → block_reads t (map (moved_act net word) acts) m k ≡ moved_bits net word (block_reads t acts) m k }
    ensures masks { (net word : ℕ) (masks : List Mask) (m k : ℕ)
        → named (map (moved_mask net word) masks) m k ≡ moved_bits net word (named masks) m k }
    ensures code { (net word : ℕ) (t : Timing) (c : Code) → HasBits t c → HasBits t (moved net word c) }
{}

/// Moved code writes words where the code does, and a moved target names no bit twice where the target names none twice.
pub fn moved_shape()
    ensures words { (net word : ℕ) (acts : List Act) → block_writes_words (map (moved_act net word) acts) ≡ block_writes_words acts }
    ensures apart { (net word : ℕ) (places : List Place) → Apart places → Apart (map (moved_place net word) places) }
{}

/// Moved code is sized, with spans and memories that pass tests, where the code is, with spans and memories that pass them once moved.
pub fn moved_is_sized()
    ensures { (net word : ℕ) (p : Span → Bool) (r : Room → ℕ → Bool) (acts : List Act)
        → IsBlock (λ s. IsTrue (p (moved_span net word s))) (λ x n. IsTrue (r (moved_room net word x) n)) acts
        → IsBlock (λ s. IsTrue (p s)) (λ x n. IsTrue (r x n)) (map (moved_act net word) acts) }
{}
