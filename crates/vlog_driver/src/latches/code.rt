//! Whether a block's code leaves bits as they are on some path.

ghost use Rattle.std.specs.Prelude.{◌≡◌, ℕ, List, length, IfOk};
ghost use Rattle.vlog_tree.specs.Plain.{plain_always};
ghost use Rattle.net_design.specs.Sized.{IsSizedBlock};
ghost use Rattle.net_design.specs.Bits.{BitSet, named, block_adds};
ghost use Rattle.net_drive.specs.net_code.BitMap.{in_map};
ghost use Rattle.vlog_block.specs.Sources.{names_of};
ghost use Rattle.vlog_block.specs.Naming.{Naming, code_names};
ghost use Rattle.vlog_driver.specs.Latch.{latches};
ghost use Rattle.net_drive.specs.vidi_bits.Findings.{Judged};
ghost use Rattle.vlog_driver.specs.Told.{block_told};
ghost use Rattle.vlog_driver.specs.Blocks.{block_latches, code_latched, IsCodeOf};
ghost use Rattle.vlog_driver.specs.Masks.{is_missed, is_read, lesser, least_missed, least_read, IsLeast};

use crate::latches::error::BlockError;
use net_design::{Code, Mask};
use net_drive::named_nets;
use net_drive::net_code::{BitMap, surely_assigned};
use net_drive::vidi_bits::{Memory, copied};
use std::alloc::Global;
use vlog_block::vlog_size::Scope;
use vlog_tree::{Always, Event};

/// Whether some of these bits of a net aren't surely assigned.
fn is_missed(net: usize, bits: u128, sure: &BitMap) -> bool
    ensures { result ≡ is_missed (in_map sure.now) net bits }
{
    bits & !sure.mask(net) != 0
}

/// Whether some bit of a net is read.
fn is_read(net: usize, reads: &BitMap) -> bool
    ensures { result ≡ is_read (in_map reads.now) net }
{
    reads.mask(net) != 0
}

/// The lesser of two nets, where the test holds of the first one.
fn lesser(test: bool, net: usize, least: usize) -> usize
    ensures { result ≡ lesser test net least }
{
    if net < least && test { net } else { least }
}

/// The first of the first `count` nets of which a bit is written and not surely assigned, and `count` where there is none.
fn first_missed(masks: &[Mask], count: usize, sure: &BitMap) -> usize
    ensures { result ≡ least_missed (in_map sure.now) masks.now count }
{
    let mut least = count;
    for mask in masks {
        let missed = is_missed(mask.net, mask.bits, sure);
        least = lesser(missed, mask.net, least);
    }
    least
}

/// The first of the first `count` nets of which a bit is read, among these, and `count` where there is none.
fn first_read(nets: &[usize], count: usize, reads: &BitMap) -> usize
    ensures { result ≡ least_read (in_map reads.now) nets.now count }
{
    let mut least = count;
    for net in nets {
        let read = is_read(*net, reads);
        least = lesser(read, *net, least);
    }
    least
}

/// The first of the first `count` nets at which E9 holds, and `count` where there is none. Each mask and each target is looked at once.
fn first_latched(alloc: Global, code: &Code, count: usize) -> Result<usize, Memory>
    requires { IsSizedBlock code.now.acts }
    ensures { IfOk result (λ n. IsLeast (code_latched code.now) count n) }
{
    let sure = surely_assigned(alloc, &code.acts)?;
    let reads = BitMap::of_masks(alloc, code.reads.as_slice())?;
    let targets = named_nets(alloc, &code.acts)?;
    let missed = first_missed(code.writes.as_slice(), count, &sure);
    Ok(first_read(targets.as_slice(), missed, &reads))
}

/// Tries E9 of the code of an `always @*` whose `always` stands on this line: its masks name the bits that it writes and those that
/// it reads before it has surely assigned them, and its targets the nets that it writes.
///
/// By condition its widths and places can be evaluated.
///
/// # Errors
///
/// `Latch`, with the net declared first of those at which E9 holds, exactly where it holds at one; `Memory`.
pub fn code_latch(alloc: Global, line: u32, code: &Code, scope: &Scope) -> Result<(), BlockError>
    requires { IsSizedBlock code.now.acts }
    ensures { (writes : BitSet) (names : List Naming) (adds reads : BitSet) → ((m k : ℕ) → named code.now.writes m k ≡ writes m k)
        → code_names code.now.acts ≡ names
        → ((m k : ℕ) → block_adds code.now.acts m k ≡ adds m k) → ((m k : ℕ) → named code.now.reads m k ≡ reads m k)
        → Judged block_told result (latches writes names adds reads line scope.now.nets) }
{
    let least = first_latched(alloc, code, scope.nets.len())?;
    match scope.nets.name_at(least) {
        None => Ok(()),
        Some(name) => {
            let name = copied(alloc, name)?;
            Err(BlockError::Latch { name, line })
        }
    }
}

/// Tries E9 of an always block, whose code this is (IEEE 1364-2005, 9.7.5 and 9.9.2; this project's profile). It doesn't hold of a
/// clocked block.
///
/// By condition its widths and places can be evaluated, and its bits and targets are the block's.
///
/// # Errors
///
/// `Latch`, with the line of `always` and the net declared first of those at which E9 holds, exactly where it holds at one; `Memory`.
pub fn latch(alloc: Global, b: &Always, code: &Code, scope: &Scope) -> Result<(), BlockError>
    requires bits { IsCodeOf (names_of scope.now) (plain_always b.now) code.now }
    requires sized { IsSizedBlock code.now.acts }
    ensures { Judged block_told result (block_latches (names_of scope.now) (plain_always b.now)) }
{
    match &b.event {
        Event::Posedge(_) => Ok(()),
        Event::Implicit { .. } => code_latch(alloc, b.line, code, scope),
    }
}
