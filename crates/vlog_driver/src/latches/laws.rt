//! Laws of the definitions, as contracts of functions that do nothing.

ghost use Rattle.std.specs.Prelude.{◌≡◌, ℕ, ◌<◌, true, false, List, [], ◌∷◌, length};
ghost use Rattle.vlog_tree.specs.Tree.{AlwaysOf};
ghost use Rattle.vlog_block.specs.vlog_size.Names.{Readable, is_lawful_readable};
ghost use Rattle.vlog_block.specs.vlog_size.declared.scope.ScopeNet.{ScopeNet};
ghost use Rattle.vlog_block.specs.vlog_size.Table.{Named};
ghost use Rattle.net_design.specs.declared.act.Code.{Code};
ghost use Rattle.net_design.specs.declared.act.Timing.TheVariants.{Blocking};
ghost use Rattle.net_design.specs.Bits.{BitSet, named, block_adds};
ghost use Rattle.vlog_block.specs.Updates.{timing_of};
ghost use Rattle.vlog_block.specs.Written.{always_writes};
ghost use Rattle.vlog_block.specs.Naming.{Naming, always_names};
ghost use Rattle.vlog_driver.specs.declared.latches.error.BlockError.TheVariants.{Latch};
ghost use Rattle.vlog_driver.specs.Latch.{is_named, latches};
ghost use Rattle.vlog_driver.specs.Blocks.{block_latches, is_there, IsCodeOf};
ghost use Rattle.vlog_driver.specs.LatchExamples.{scope, always, no_else, mended, with_else, other_bit_read, none_written, none_in_range};
ghost use Rattle.vlog_driver.specs.LatchExamples.{read_after, two_nets};
ghost use Rattle.vlog_driver.specs.LatchExamples.{at_run_time, whole_before, index_read, no_default, with_default, label_read};

/// The bits that a block writes are bits of its scope's nets.
pub fn written_bits_are_there()
    ensures { (r : Readable) (a : AlwaysOf ℕ) (m k : ℕ) → always_writes r a m k ≡ true → is_there r.nets m k ≡ true }
{}

/// Where nothing is found of an `always @*` in a lawful scope, its code surely assigns each bit that its masks say is written, and
/// reads none of these before: this is what a lawful design asks of an `always @*`.
pub fn no_latch_is_whole()
    ensures whole { (r : Readable) (a : AlwaysOf ℕ) (code : Code) → is_lawful_readable r ≡ true → IsCodeOf r a code
        → timing_of a.event ≡ Blocking → block_latches r a ≡ []
        → (m k : ℕ) → named code.writes m k ≡ true → block_adds code.acts m k ≡ true }
    ensures own { (r : Readable) (a : AlwaysOf ℕ) (code : Code) → is_lawful_readable r ≡ true → IsCodeOf r a code
        → timing_of a.event ≡ Blocking → block_latches r a ≡ []
        → (m k : ℕ) → named code.writes m k ≡ true → named code.reads m k ≡ false }
{}

/// Where nothing is found, a bit that is written is surely assigned, and of a net that is named as a target no bit is read before; and
/// the other way round.
pub fn no_latch_means()
    ensures found { (writes : BitSet) (names : List Naming) (adds reads : BitSet) (line : ℕ) (nets : List (Named ScopeNet))
        → latches writes names adds reads line nets ≡ [] → (m k : ℕ) → m < length nets → k < 128
        → (writes m k ≡ true → adds m k ≡ true) × (is_named names m ≡ true → reads m k ≡ false) }
    ensures none { (writes : BitSet) (names : List Naming) (adds reads : BitSet) (line : ℕ) (nets : List (Named ScopeNet))
        → ((m k : ℕ) → m < length nets → k < 128
        → (writes m k ≡ true → adds m k ≡ true) × (is_named names m ≡ true → reads m k ≡ false))
        → latches writes names adds reads line nets ≡ [] }
{}

/// A net of which a block writes a bit stands among its targets.
pub fn written_nets_are_named()
    ensures { (r : Readable) (a : AlwaysOf ℕ) (m k : ℕ) → always_writes r a m k ≡ true → is_named (always_names r a) m ≡ true }
{}

/// The findings of small blocks.
pub fn latches_shown()
    ensures no_else { block_latches scope (always no_else) ≡ Latch (122 ∷ []) 2 ∷ [] }
    ensures mended { block_latches scope (always mended) ≡ [] }
    ensures with_else { block_latches scope (always with_else) ≡ [] }
    ensures other_bit_read { block_latches scope (always other_bit_read) ≡ Latch (121 ∷ []) 2 ∷ [] }
    ensures none_written { block_latches scope (always none_written) ≡ [] }
    ensures none_in_range { block_latches scope (always none_in_range) ≡ Latch (121 ∷ []) 2 ∷ [] }
    ensures read_after { block_latches scope (always read_after) ≡ [] }
    ensures two_nets { block_latches scope (always two_nets) ≡ Latch (121 ∷ []) 2 ∷ Latch (122 ∷ []) 2 ∷ [] }
    ensures at_run_time { block_latches scope (always at_run_time) ≡ Latch (121 ∷ []) 2 ∷ [] }
    ensures whole_before { block_latches scope (always whole_before) ≡ [] }
    ensures index_read { block_latches scope (always index_read) ≡ Latch (122 ∷ []) 2 ∷ [] }
    ensures no_default { block_latches scope (always no_default) ≡ Latch (122 ∷ []) 2 ∷ [] }
    ensures with_default { block_latches scope (always with_default) ≡ [] }
    ensures label_read { block_latches scope (always label_read) ≡ Latch (122 ∷ []) 2 ∷ [] }
{}
