//! The lines of findings.

ghost use Rattle.std.specs.Prelude.{◌≡◌, ◌++◌, OnOk, IfOk, codes};
ghost use Rattle.report_text.specs.Report as said;

use crate::text::{put, put_number};
use run_model::trace_model::{Channel, Channels};
use std::alloc::Global;
use text_page::vidi_io::vidi_bits::{Bytes, Memory};
use trace_compare::{Finding, Report, What};

/// The lines of findings on these channels, one each, and before the first one of an epoch above 0 that epoch.
pub fn report_lines(alloc: Global, report: &Report, channels: &Channels) -> Result<Bytes, Memory>
    ensures { IfOk result (λ text. text ≡ said.report_lines report.now channels.now) }
{
    let mut text = Vec::new(alloc);
    let mut before = 0;
    for finding in report.as_slice() {
        put_epoch(&mut text, before, finding.epoch)?;
        put_finding(&mut text, finding, channels.as_slice())?;
        before = finding.epoch;
    }
    Ok(Bytes::from_vec(text))
}

/// Adds the line of an epoch above 0, where what stands before is of another one.
pub(crate) fn put_epoch(text: &mut Vec<u8>, before: u32, epoch: u32) -> Result<(), Memory>
    ensures { OnOk result (text.new.items ≡ text.old.items ++ said.epoch_line before epoch) }
{
    if epoch == 0 || epoch == before {
        return Ok(());
    }
    put(text, b"epoch ")?;
    put_number(text, epoch)?;
    put(text, b"\n")
}

/// Adds the line of a finding.
fn put_finding(text: &mut Vec<u8>, finding: &Finding, channels: &[Channel]) -> Result<(), Memory>
    ensures { OnOk result (text.new.items ≡ text.old.items ++ said.finding_line channels.now finding.now) }
{
    put(text, verb(finding.what))?;
    put(text, subject(channels, finding.channel, finding.what))?;
    put(text, event(finding.what))?;
    put_number(text, finding.index)?;
    put_count(text, finding.what, finding.count)?;
    put(text, b"\n")
}

fn verb(what: What) -> &'static [u8]
    ensures { result.now ≡ said.verb what }
{
    match what {
        What::Differs => b"differs ",
        What::MissingStart | What::MissingEnd | What::MissingReset => b"missing ",
        What::ExtraStart | What::ExtraEnd | What::ExtraReset => b"extra ",
        What::EarlyStart | What::EarlyEnd => b"early ",
    }
}

fn event(what: What) -> &'static [u8]
    ensures { result.now ≡ said.event what }
{
    match what {
        What::MissingEnd | What::ExtraEnd | What::EarlyEnd => b" end ",
        What::Differs | What::MissingStart | What::ExtraStart | What::EarlyStart => b" start ",
        What::MissingReset | What::ExtraReset => b"reset ",
    }
}

/// The name of the channel that a finding is on, which a reset hasn't.
fn subject(channels: &[Channel], channel: usize, what: What) -> &[u8]
    ensures { result.now ≡ said.subject channels.now channel what }
{
    match what {
        What::MissingReset | What::ExtraReset => &[],
        _ => name_of(channels, channel),
    }
}

/// The name of a channel; none where there is no such channel.
pub(crate) fn name_of(channels: &[Channel], channel: usize) -> &[u8]
    ensures { result.now ≡ said.name_of channels.now channel }
{
    if channel < channels.len() {
        channels[channel].name.as_slice()
    } else {
        &[]
    }
}

/// Adds how many events are early.
fn put_count(text: &mut Vec<u8>, what: What, count: u32) -> Result<(), Memory>
    ensures { OnOk result (text.new.items ≡ text.old.items ++ said.count_text what count) }
{
    match what {
        What::EarlyStart | What::EarlyEnd => {
            put(text, b" count ")?;
            put_number(text, count)
        }
        _ => Ok(()),
    }
}
