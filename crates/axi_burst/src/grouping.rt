//! The bursts of a trace.

ghost use Rattle.std.specs.Prelude.{◌≡◌, ◌<◌, ◌≤◌, ◌^◌, ◌++◌, All, IfOk, OnOk, length};
ghost use Rattle.trace_model.specs.Epoch.{resets};
ghost use Rattle.trace_model.specs.Trace.{IsWellFormed};
ghost use Rattle.trace_model.specs.vidi_bits.Findings.{Judged};
ghost use Rattle.axi_burst.specs.declared.axi_text.AxiText.{AxiText};
ghost use Rattle.axi_burst.specs.Binding.{IsBound};
ghost use Rattle.axi_burst.specs.Bursts.{bursts, bursts_of, faults, needed};
ghost use Rattle.axi_burst.specs.Passes.{IsAddress, burst_told};
ghost use Rattle.axi_burst.specs.Sides.{faults_in};

use crate::axi::{Axi, Burst, Bursts};
use crate::collecting::{reads_of, writes_of};
use crate::counts::Counts;
use crate::error::BurstError;
use crate::responses::check_responses;
use crate::rules::{check_addresses, check_lasts};
use crate::sides::{ReadOut, Written};
use crate::transfers::{Address, Beat};
use crate::turns::check_reads;
use std::alloc::Global;
use trace_model::Trace;
use trace_model::vidi_bits::Memory;

/// `Broken` with the first transaction that breaks a rule, the rules being tried in their order.
fn check(alloc: Global, beat: u32, writes: &Written, reads: &ReadOut) -> Result<(), BurstError>
    ensures { Judged burst_told result (faults_in beat writes.now reads.now) }
{
    let asked = writes.asks.as_slice();
    let sent = writes.sent.as_slice();
    let sought = reads.asks.as_slice();
    check_addresses(writes.aw, beat, asked)?;
    check_addresses(reads.ar, beat, sought)?;
    check_lasts(writes.w, asked, sent)?;
    check_responses(alloc, writes.b, asked, sent, writes.answers.as_slice())?;
    check_reads(alloc, reads.r, sought, reads.got.as_slice())
}

/// How many responses or beats end a burst.
fn needed(write: bool, a: &Address) -> u64
    ensures { result ≡ needed write a.now }
{
    if write { 1 } else { u64::from(a.beats) }
}

/// Adds the bursts of these addresses.
fn push_bursts(
    alloc: Global,
    bursts: &mut Bursts,
    write: bool,
    asks: &[Address],
    answers: &[Beat],
) -> Result<(), Memory>
    requires each { All IsAddress asks.now }
    requires few { length answers.now < 2 ^ 32 }
    ensures { OnOk result (bursts.new ≡ bursts.old ++ bursts_of write asks.now answers.now) }
{
    let mut left = Counts::of(alloc, answers)?;
    for a in asks {
        let done = left.take(a.id, needed(write, a))?;
        bursts.push(Burst {
            write,
            id: a.id,
            addr: a.addr,
            beats: a.beats,
            done,
        })?;
    }
    Ok(())
}

/// The bursts of a trace's completed transactions, by the rules of AXI4: one for each address that completed, those of writes and then
/// those of reads.
///
/// `Broken` comes exactly where a rule is broken, with the first one in the order of the rules, its channel and the transaction's number on
/// it. `Memory` comes where no memory was found. The trace is well-formed, it has fewer than 2^32 packets and none that is a reset, and the
/// AXI file was bound to its channels. The time is linear in the trace.
pub fn bursts(alloc: Global, t: &Trace, axi: &Axi) -> Result<Bursts, BurstError>
    requires well_formed { IsWellFormed t.now }
    requires no_reset { resets t.now.packets ≡ 0 }
    requires few { length t.now.packets < 2 ^ 32 }
    requires bound { (text : AxiText) × IsBound text t.now.channels axi.now }
    ensures judged { Judged burst_told result (faults axi.now t.now) }
    ensures bursts { IfOk result (λ b. b ≡ bursts axi.now t.now) }
{
    let writes = writes_of(alloc, t, axi.beat, axi.writes)?;
    let reads = reads_of(alloc, t, axi.beat, axi.reads)?;
    check(alloc, axi.beat, &writes, &reads)?;
    let mut bursts = Bursts::new(alloc);
    push_bursts(
        alloc,
        &mut bursts,
        true,
        writes.asks.as_slice(),
        writes.answers.as_slice(),
    )?;
    push_bursts(
        alloc,
        &mut bursts,
        false,
        reads.asks.as_slice(),
        reads.got.as_slice(),
    )?;
    Ok(bursts)
}
