//! Always blocks as code whose bits are surely assigned.

ghost use Rattle.std.specs.Prelude.{◌≡◌, ℕ, IfOk};
ghost use Rattle.vlog_tree.specs.Plain.{plain_always};
ghost use Rattle.net_design.specs.declared.act.Timing.{Timing};
ghost use Rattle.net_design.specs.declared.values.Values.{Values};
ghost use Rattle.net_design.specs.Updates.{block_updates};
ghost use Rattle.net_design.specs.Bits.{BitSet, named, block_adds, block_open_reads, HasBits};
ghost use Rattle.net_design.specs.Sized.{IsSizedBlock};
ghost use Rattle.vlog_block.specs.Sources.{names_of};
ghost use Rattle.vlog_block.specs.Faultless.{IsFaultlessBody};
ghost use Rattle.vlog_block.specs.Updates.{timing_of, body_updates};
ghost use Rattle.vlog_block.specs.Written.{body_open, always_writes, always_adds, always_reads};
ghost use Rattle.vlog_block.specs.Naming.{code_names, always_names};
ghost use Rattle.net_drive.specs.vidi_bits.Findings.{Judged};
ghost use Rattle.vlog_driver.specs.Told.{block_told};
ghost use Rattle.vlog_driver.specs.Blocks.{block_latches};

use crate::latches::code::latch;
use crate::latches::error::BlockError;
use net_design::Code;
use std::alloc::Global;
use vlog_block::block_code;
use vlog_block::vlog_size::Scope;
use vlog_tree::Always;

/// The code of an always block (IEEE 1364-2005, clause 9; this project's profile): for all numbers of the scope's nets and words its
/// updates are those of the text, and so are the bits that it may write, those that it surely assigns, and those that it reads.
/// Nets and memories are named by their places in the scope's lists.
///
/// By condition nothing is wrong with the names, constants and widths in the block.
///
/// # Errors
///
/// `Latch`, with the line of `always` and the net declared first of those at which E9 holds, exactly where it holds at one. `Memory`:
/// there isn't enough memory, or the words of the scope's memories can't be counted in 64 bits, or more than 2,048 statements stand
/// within one another.
pub fn bind_block(alloc: Global, b: &Always, scope: &Scope) -> Result<Code, BlockError>
    requires { IsFaultlessBody (names_of scope.now) (plain_always b.now).body }
    ensures latch { Judged block_told result (block_latches (names_of scope.now) (plain_always b.now)) }
    ensures updates { IfOk result (λ c. (t : Timing) (v : Values) → block_updates t c.acts v
        ≡ body_updates (names_of scope.now) t (plain_always b.now).body v) }
    ensures surely { IfOk result (λ c. (m k : ℕ) → block_adds c.acts m k ≡ always_adds (names_of scope.now) (plain_always b.now) m k) }
    ensures writes { IfOk result (λ c. (m k : ℕ) → named c.writes m k ≡ always_writes (names_of scope.now) (plain_always b.now) m k) }
    ensures reads { IfOk result (λ c. (m k : ℕ) → named c.reads m k ≡ always_reads (names_of scope.now) (plain_always b.now) m k) }
    ensures names { IfOk result (λ c. code_names c.acts ≡ always_names (names_of scope.now) (plain_always b.now)) }
    ensures bits { IfOk result (λ c. HasBits (timing_of (plain_always b.now).event) c) }
    ensures sized { IfOk result (λ c. IsSizedBlock c.acts) }
{
    let code = block_code(alloc, b, scope)?;
    latch(alloc, b, &code, scope)?;
    Ok(code)
}
