//! The findings of two traces, epoch by epoch and channel by channel.

ghost use Rattle.std.specs.Prelude.{◌≡◌, ◌^◌, ◌<◌, ◌≤◌, ◌++◌, All, IfOk, OnOk, length};
ghost use Rattle.std.specs.List.{flat_map, range_with_len};
ghost use Rattle.vec_clock.specs.trace_model.declared.event.Kind.TheVariants.{Start, End};
ghost use Rattle.trace_compare.specs.Findings as spec;
ghost use Rattle.trace_compare.specs.Walking.{AreCovering, early_at, early_of, only_of, places};

use crate::covering::covering;
use crate::epochs::{cut, resets};
use crate::pairs::{different_starts, early_events};
use crate::places::Places;
use crate::report::{Report, Site, What, early, extra, missing, push_if};
use std::alloc::Global;
use vec_clock::trace_model::{Channel, Kind, Packet, Trace};
use vec_clock::vidi_bits::{Items, Memory};

/// An epoch of two traces over the same channels.
#[derive(Clone, Copy)]
struct Pair<'a> {
    channels: &'a [Channel],
    /// The first one's packets.
    a: &'a [Packet],
    /// The second one's.
    b: &'a [Packet],
}

/// Adds the first start of the channel in both whose contents are unequal. `in_a` and `in_b` have the places of its
/// starts.
fn push_different(
    report: &mut Report,
    site: Site,
    pair: &Pair,
    in_a: &[usize],
    in_b: &[usize],
) -> Result<(), Memory>
    requires within { site.channel < length pair.now.channels.now }
    requires few { length pair.now.a.now < 2 ^ 32 }
    requires in_a { in_a.now ≡ places Start site.channel pair.now.a.now }
    requires in_b { in_b.now ≡ places Start site.channel pair.now.b.now }
    ensures { OnOk result (report.new ≡ report.old
        ++ spec.different site.epoch pair.now.channels.now site.channel pair.now.a.now pair.now.b.now) }
{
    let tally = different_starts(pair.channels, site.channel, pair.a, pair.b, in_a, in_b);
    let finding = site.finding(What::Differs, tally.before, 1);
    push_if(report, tally.marked > 0, finding)
}

/// Adds the first start, or end, of the channel that only one of the two has, where these are the numbers of them; or the first reset.
fn push_only_one(
    report: &mut Report,
    site: Site,
    kind: Kind,
    in_a: u32,
    in_b: u32,
) -> Result<(), Memory>
    ensures { OnOk result (report.new ≡ report.old ++ only_of site.epoch kind site.channel in_a in_b) }
{
    let lacks = site.finding(missing(kind), in_b, 1);
    let exceeds = site.finding(extra(kind), in_a, 1);
    push_if(report, in_b < in_a, lacks)?;
    push_if(report, in_a < in_b, exceeds)
}

/// Adds the first start, or end, of the channel in both that is early in `b`, with the number of them. `in_a` and
/// `in_b` have the places of its starts, or ends.
fn push_early(
    report: &mut Report,
    site: Site,
    kind: Kind,
    covering: &[usize],
    in_a: &[usize],
    in_b: &[usize],
) -> Result<(), Memory>
    requires few { length in_a.now < 2 ^ 32 }
    requires in_a { All (λ p. p < length covering.now) in_a.now }
    ensures { OnOk result (report.new ≡ report.old
        ++ early_of site.epoch kind site.channel (early_at covering.now in_a.now in_b.now)) }
{
    let tally = early_events(covering, in_a, in_b);
    let finding = site.finding(early(kind), tally.before, tally.marked);
    push_if(report, tally.marked > 0, finding)
}

/// Adds the findings on one channel, whose events have these places.
fn push_findings(
    report: &mut Report,
    site: Site,
    pair: &Pair,
    covering: &[usize],
    in_a: &Places,
    in_b: &Places,
) -> Result<(), Memory>
    requires within { site.channel < length pair.now.channels.now }
    requires few_a { length pair.now.a.now < 2 ^ 32 }
    requires few_b { length pair.now.b.now < 2 ^ 32 }
    requires covering { AreCovering (length pair.now.channels.now) pair.now.a.now pair.now.b.now covering.now }
    requires starts_a { in_a.now.starts.items ≡ places Start site.channel pair.now.a.now }
    requires starts_b { in_b.now.starts.items ≡ places Start site.channel pair.now.b.now }
    requires ends_a { in_a.now.ends.items ≡ places End site.channel pair.now.a.now }
    requires ends_b { in_b.now.ends.items ≡ places End site.channel pair.now.b.now }
    ensures { OnOk result (report.new ≡ report.old
        ++ spec.findings_on site.epoch pair.now.channels.now pair.now.a.now pair.now.b.now site.channel) }
{
    let starts_a = in_a.starts.as_slice();
    let starts_b = in_b.starts.as_slice();
    let ends_a = in_a.ends.as_slice();
    let ends_b = in_b.ends.as_slice();
    push_different(report, site, pair, starts_a, starts_b)?;
    push_only_one(
        report,
        site,
        Kind::Start,
        starts_a.len() as u32,
        starts_b.len() as u32,
    )?;
    push_only_one(
        report,
        site,
        Kind::End,
        ends_a.len() as u32,
        ends_b.len() as u32,
    )?;
    push_early(report, site, Kind::Start, covering, starts_a, starts_b)?;
    push_early(report, site, Kind::End, covering, ends_a, ends_b)
}

/// Adds the findings of one epoch, channel by channel. The places are found anew.
fn push_epoch(
    alloc: Global,
    report: &mut Report,
    epoch: u32,
    pair: &Pair,
    in_a: &mut Places,
    in_b: &mut Places,
) -> Result<(), Memory>
    requires some { 1 ≤ length pair.now.channels.now }
    requires few { length pair.now.channels.now ≤ 128 }
    requires few_a { length pair.now.a.now < 2 ^ 32 }
    requires few_b { length pair.now.b.now < 2 ^ 32 }
    ensures { OnOk result (report.new ≡ report.old
        ++ flat_map (spec.findings_on epoch pair.now.channels.now pair.now.a.now pair.now.b.now)
        (range_with_len 0 (length pair.now.channels.now))) }
{
    let channels = pair.channels.len();
    let covering = covering(alloc, channels, pair.a, pair.b)?;
    for channel in 0..channels {
        in_a.find(pair.a, channel)?;
        in_b.find(pair.b, channel)?;
        let site = Site { epoch, channel };
        push_findings(report, site, pair, covering.as_slice(), in_a, in_b)?;
    }
    Ok(())
}

/// What is missing, extra, different or early in `b` against `a` (*Findings*), epoch by epoch and channel by channel, and which of them
/// has more resets. The traces are over the same 1 to 128 channels, and have fewer than 2^32 packets each.
pub fn compare(alloc: Global, a: &Trace, b: &Trace) -> Result<Report, Memory>
    requires same { a.now.channels ≡ b.now.channels }
    requires some { 1 ≤ length a.now.channels }
    requires few { length a.now.channels ≤ 128 }
    requires few_a { length a.now.packets < 2 ^ 32 }
    requires few_b { length b.now.packets < 2 ^ 32 }
    ensures { IfOk result (λ report. report ≡ spec.findings a.now b.now) }
{
    let channels = a.channels.as_slice();
    let mut rest_a = a.packets.as_slice();
    let mut rest_b = b.packets.as_slice();
    let resets_a = resets(rest_a);
    let resets_b = resets(rest_b);
    let mut in_a = Places::new(alloc, rest_a.len())?;
    let mut in_b = Places::new(alloc, rest_b.len())?;
    let mut report = Items::new(alloc);
    for epoch in 0..resets_a.min(resets_b) + 1 {
        let (a, later_a) = cut(rest_a);
        let (b, later_b) = cut(rest_b);
        let pair = Pair { channels, a, b };
        push_epoch(
            alloc,
            &mut report,
            epoch as u32,
            &pair,
            &mut in_a,
            &mut in_b,
        )?;
        rest_a = later_a;
        rest_b = later_b;
    }
    let whole = Site {
        epoch: 0,
        channel: 0,
    };
    push_only_one(
        &mut report,
        whole,
        Kind::Reset,
        resets_a as u32,
        resets_b as u32,
    )?;
    Ok(report)
}
