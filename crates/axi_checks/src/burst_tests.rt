//! Bursts of traces that are written by hand, by the rules of AXI4 (AMBA AXI4, IHI 0022, A3.3, A3.4 and A5.3).

ghost use Rattle.std.specs.Prelude.{◌≡◌, ◌↔◌, IsTrue};
ghost use Rattle.axi_burst.specs.trace_model.Epoch.{resets};

use crate::bind_tests::channel;
use axi_burst::trace_model::vidi_bits::{Memory, Numbers};
use axi_burst::trace_model::{Channels, Dir, Packet, Packets, Trace, well_formed};
use axi_burst::{AxiError, BurstError, bind_axi, burst_text, bursts, read_axi};
use std::alloc::Global;

/// A port with all signals: the direction, the name and the widths of each channel.
const TABLE: [(Dir, &str, &[u8]); 5] = [
    (Dir::Inward, "aw", &[32, 8, 3, 2, 4]),
    (Dir::Inward, "w", &[32, 1]),
    (Dir::Outward, "b", &[2, 4]),
    (Dir::Inward, "ar", &[32, 8, 3, 2, 4]),
    (Dir::Outward, "r", &[32, 1, 4]),
];

/// With all words, and with those alone that must stand.
const WHOLE: &str = "beat 4\naw aw 4 0 1 2 3\nw w 1\nb b 1\nar ar 4 0 1 2 3\nr r 2 1";

const LITE: &str =
    "beat 4\naw aw none 0 none none none\nw w none\nb b none\nar ar none 0 none none none\nr r none none";

/// The channels that start, those that complete, and the contents: of `aw` and `ar` ADDR, LEN, SIZE, BURST and ID, of `w` data and
/// LAST, of `b` a response and ID, of `r` data, LAST and ID.
type Given<'a> = (u128, u128, &'a [u128]);

/// What a trace is answered: a text, or the rule, the channel and the number of what breaks it.
#[derive(Clone, Copy)]
enum Answer<'a> {
    Text(&'a str),
    Broken(u32, usize, u32),
}

const AW: u128 = 1;

const W: u128 = 2;

const B: u128 = 4;

const AR: u128 = 8;

const R: u128 = 16;

// Two beats at 4088 that end at 4095, and three that don't.
const TWO_BEATS: [Given; 3] = [
    (AW | W, AW | W, &[4088, 1, 2, 1, 0, 7, 0]),
    (W, W, &[8, 1]),
    (B, B, &[0, 0]),
];

const OVER_A_BLOCK: [Given; 3] = [
    (AW | W, AW | W, &[4088, 2, 2, 1, 0, 7, 0]),
    (W, W, &[8, 1]),
    (B, B, &[0, 0]),
];

// Rule 1 of reads, one part after the other: a reserved BURST, a SIZE above the bus, 17 beats at one address, a wrapping burst of 3,
// and one that isn't aligned. Beside each stands what is lawful. ADDR, LEN, SIZE, BURST and ID.
const ADDRESSES: [(&[u128], bool); 10] = [
    (&[0, 0, 2, 3, 0], false),
    (&[0, 0, 2, 2, 0], false),
    (&[0, 0, 3, 1, 0], false),
    (&[0, 15, 2, 0, 0], true),
    (&[0, 16, 2, 0, 0], false),
    (&[4, 2, 2, 2, 0], false),
    (&[4, 3, 2, 2, 0], true),
    (&[6, 3, 2, 2, 0], false),
    (&[4094, 0, 2, 1, 0], true),
    (&[4094, 1, 2, 1, 0], false),
];

// Writes 1, 2 and 3 of IDs 5, 6 and 5, of one beat each: 6 is answered first. Then one response too many, and one of another ID.
const ANSWERED: [Given; 6] = [
    (AW | W, AW | W, &[0, 0, 2, 1, 5, 1, 1]),
    (AW | W, AW | W, &[4, 0, 2, 1, 6, 2, 1]),
    (AW | W, AW | W, &[8, 0, 2, 1, 5, 3, 1]),
    (B, B, &[0, 6]),
    (B, B, &[0, 5]),
    (B, 0, &[0, 5]),
];

const ANSWERED_TWICE: [Given; 4] = [
    (AW | W, AW | W, &[0, 0, 2, 1, 5, 1, 1]),
    (AW, AW, &[4, 0, 2, 1, 6]),
    (B, B, &[0, 5]),
    (B, B, &[0, 5]),
];

// Data before its address isn't judged as long as that hasn't come; its response waits for both.
const DATA_FIRST: [Given; 4] = [
    (W, W, &[1, 0]),
    (W, W, &[2, 1]),
    (AW, AW, &[0, 1, 2, 1, 3]),
    (B, B, &[0, 3]),
];

const DATA_ALONE: [Given; 1] = [(W, W, &[1, 0])];

const RESPONSE_FIRST: [Given; 3] = [(W, W, &[1, 1]), (B, B, &[0, 3]), (AW, AW, &[0, 0, 2, 1, 3])];

const WRONG_LAST: [Given; 3] = [(AW, AW, &[0, 1, 2, 1, 3]), (W, W, &[1, 0]), (W, W, &[2, 0])];

// Reads of IDs 1 and 2, of two beats each, turn about, and one more of ID 1 that is cut off.
const INTERLEAVED: [Given; 8] = [
    (AR, AR, &[0, 1, 2, 1, 1]),
    (AR, AR, &[64, 1, 2, 1, 2]),
    (AR, AR, &[128, 1, 2, 1, 1]),
    (R, R, &[1, 0, 2]),
    (R, R, &[2, 0, 1]),
    (R, R, &[3, 1, 1]),
    (R, R, &[4, 1, 2]),
    (R, R, &[5, 0, 1]),
];

const LAST_OF_ANOTHER: [Given; 4] = [
    (AR, AR, &[0, 1, 2, 1, 1]),
    (AR, AR, &[64, 1, 2, 1, 2]),
    (R, R, &[1, 0, 2]),
    (R, R, &[2, 1, 1]),
];

const BEAT_TOO_MANY: [Given; 3] = [
    (AR, AR, &[0, 0, 2, 1, 1]),
    (R, R, &[1, 1, 1]),
    (R, R, &[2, 1, 1]),
];

// Rule 1 of `ar` comes before rule 2.
const TWO_RULES: [Given; 3] = [
    (AW, AW, &[0, 1, 2, 1, 3]),
    (W, W, &[1, 1]),
    (AR, AR, &[0, 0, 2, 3, 1]),
];

const CASES: [(&str, &[Given], Answer); 15] = [
    (
        WHOLE,
        &TWO_BEATS,
        Answer::Text("write 0 id 0 addr 4088 beats 2 done\nwrites 1 reads 0\n"),
    ),
    (WHOLE, &OVER_A_BLOCK, Answer::Broken(1, 0, 0)),
    (WHOLE, &[], Answer::Text("writes 0 reads 0\n")),
    (
        WHOLE,
        &ANSWERED,
        Answer::Text(
            "write 0 id 5 addr 0 beats 1 done\nwrite 1 id 6 addr 4 beats 1 done\n\
            write 2 id 5 addr 8 beats 1 open\nwrites 3 reads 0\n",
        ),
    ),
    (WHOLE, &ANSWERED_TWICE, Answer::Broken(3, 2, 1)),
    (
        WHOLE,
        &DATA_FIRST,
        Answer::Text("write 0 id 3 addr 0 beats 2 done\nwrites 1 reads 0\n"),
    ),
    (WHOLE, &DATA_ALONE, Answer::Text("writes 0 reads 0\n")),
    (WHOLE, &RESPONSE_FIRST, Answer::Broken(3, 2, 0)),
    (WHOLE, &WRONG_LAST, Answer::Broken(2, 1, 1)),
    (
        WHOLE,
        &INTERLEAVED,
        Answer::Text(
            "read 0 id 1 addr 0 beats 2 done\nread 1 id 2 addr 64 beats 2 done\n\
            read 2 id 1 addr 128 beats 2 open\nwrites 0 reads 3\n",
        ),
    ),
    (WHOLE, &LAST_OF_ANOTHER, Answer::Broken(4, 4, 1)),
    (WHOLE, &BEAT_TOO_MANY, Answer::Broken(4, 4, 1)),
    (WHOLE, &TWO_RULES, Answer::Broken(1, 3, 0)),
    // Without LEN each burst has one beat, and without LAST each beat is one: two beats for one address are two bursts.
    (LITE, &INTERLEAVED, Answer::Broken(4, 4, 3)),
    (
        LITE,
        &ANSWERED,
        Answer::Text(
            "write 0 id 0 addr 0 beats 1 done\nwrite 1 id 0 addr 4 beats 1 done\n\
            write 2 id 0 addr 8 beats 1 open\nwrites 3 reads 0\n",
        ),
    ),
];

fn packets_of(alloc: Global, given: &[Given]) -> Result<Packets, AxiError> {
    let mut packets = Packets::new(alloc);
    for (starts, ends, contents) in given {
        let contents = Numbers::from_vec(Vec::from_slice(alloc, *contents)?);
        packets.push(Packet {
            gap: 0,
            reset: false,
            starts: *starts,
            ends: *ends,
            contents,
        })?;
    }
    Ok(packets)
}

/// A trace of these packets.
fn trace_of(alloc: Global, given: &[Given]) -> Result<Trace, AxiError> {
    let mut channels = Channels::new(alloc);
    for row in TABLE.iter() {
        channels.push(channel(alloc, row)?)?;
    }
    let packets = packets_of(alloc, given)?;
    Ok(Trace { channels, packets })
}

fn has_no_reset(packets: &[Packet]) -> bool
    ensures { IsTrue result ↔ (resets packets.now ≡ 0) }
{
    packets.iter().filter(|p| p.reset).count() == 0
}

/// Whether a trace is lawful, and is answered so by this file.
fn is_answered(alloc: Global, file: &str, t: &Trace, answer: Answer) -> bool {
    if file.len() > 1_000 || t.packets.len() > 1_000 {
        return false;
    }
    if !well_formed(t) || !has_no_reset(t.packets.as_slice()) {
        return false;
    }
    let Ok(text) = read_axi(alloc, file.as_bytes()) else {
        return false;
    };
    let Ok(axi) = bind_axi(&text, &t.channels) else {
        return false;
    };
    let found = bursts(alloc, t, &axi);
    match (found, answer) {
        (Ok(found), Answer::Text(lines)) => match burst_text(alloc, &found) {
            Ok(text) => text.as_slice() == lines.as_bytes(),
            Err(Memory) => false,
        },
        (Err(error), Answer::Broken(rule, channel, index)) => {
            error
                == BurstError::Broken {
                    rule,
                    channel,
                    index,
                }
        }
        _ => false,
    }
}

fn is_right(alloc: Global, file: &str, given: &[Given], answer: Answer) -> bool {
    match trace_of(alloc, given) {
        Ok(t) => is_answered(alloc, file, &t, answer),
        Err(_) => false,
    }
}

#[test]
fn traces_have_bursts(rt: HostRuntime) {
    for (file, given, answer) in CASES.iter() {
        assert!(rt; is_right(rt.alloc(), file, given, *answer));
    }
}

/// Whether a read with this address alone is answered as it should be.
fn is_judged(alloc: Global, address: &[u128], lawful: bool) -> bool {
    let given: [Given; 1] = [(AR, AR, address)];
    let found = is_right(alloc, WHOLE, &given, Answer::Broken(1, 3, 0));
    found != lawful
}

#[test]
fn addresses_are_judged(rt: HostRuntime) {
    for (address, lawful) in ADDRESSES.iter() {
        assert!(rt; is_judged(rt.alloc(), address, *lawful));
    }
}
