//! Findings: places at which two traces are unlike.

ghost use Rattle.std.specs.Prelude.{◌≡◌, [], ◌∷◌, ◌++◌, OnOk, if◌then◌else◌};
ghost use Rattle.trace_compare.specs.Findings.{finding_of, missing, extra, early};

use vec_clock::trace_model::Kind;
use vec_clock::vidi_bits::{Items, Memory};

/// How the second of two traces is unlike the first.
#[derive(Clone, Copy, PartialEq, Eq)]
pub enum What {
    /// A start has another content.
    Differs,
    /// The first trace alone has a start.
    MissingStart,
    /// The second trace alone has a start.
    ExtraStart,
    /// The first trace alone has a completion.
    MissingEnd,
    /// The second trace alone has a completion.
    ExtraEnd,
    /// A start comes before a completion that it followed.
    EarlyStart,
    /// A completion comes before a completion that it followed.
    EarlyEnd,
    /// The first trace alone has a reset.
    MissingReset,
    /// The second trace alone has a reset.
    ExtraReset,
}

/// The first event of a channel in an epoch with which something is the matter, or the first reset.
#[derive(Clone, Copy, PartialEq, Eq)]
pub struct Finding {
    /// 0 for a reset.
    pub channel: usize,
    pub what: What,
    /// The event's number among the starts, or the completions, of the channel in the epoch, or the reset's among the resets, from 0.
    pub index: u32,
    /// How many events are early, where this one is; else 1.
    pub count: u32,
    /// How many resets came before the event; 0 for a reset.
    pub epoch: u32,
}

/// Where findings are looked for: a channel in an epoch.
#[derive(Clone, Copy)]
pub(crate) struct Site {
    pub(crate) epoch: u32,
    pub(crate) channel: usize,
}

impl Site {
    /// The finding there of this kind.
    pub(crate) fn finding(self, what: What, index: u32, count: u32) -> Finding
        ensures { result ≡ finding_of self.epoch self.channel what index count }
    {
        Finding {
            channel: self.channel,
            what,
            index,
            count,
            epoch: self.epoch,
        }
    }
}

/// A list of findings.
pub type Report = Items<Finding>;

/// What is said of an event that the first trace alone has.
pub(crate) fn missing(kind: Kind) -> What
    ensures { result ≡ missing kind }
{
    match kind {
        Kind::Start => What::MissingStart,
        Kind::End => What::MissingEnd,
        Kind::Reset => What::MissingReset,
    }
}

/// What is said of an event that the second trace alone has.
pub(crate) fn extra(kind: Kind) -> What
    ensures { result ≡ extra kind }
{
    match kind {
        Kind::Start => What::ExtraStart,
        Kind::End => What::ExtraEnd,
        Kind::Reset => What::ExtraReset,
    }
}

/// What is said of an event that is early in the second trace.
pub(crate) fn early(kind: Kind) -> What
    ensures { result ≡ early kind }
{
    match kind {
        // It isn't asked of a reset, which is never early.
        Kind::Start | Kind::Reset => What::EarlyStart,
        Kind::End => What::EarlyEnd,
    }
}

/// Adds a finding, where there is one.
pub(crate) fn push_if(report: &mut Report, found: bool, finding: Finding) -> Result<(), Memory>
    ensures { OnOk result (report.new ≡ report.old ++ (if found then finding ∷ [] else [])) }
{
    if found {
        report.push(finding)?;
    }
    Ok(())
}
