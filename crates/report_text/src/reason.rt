//! Why a file is refused, and the lines that say so.

ghost use Rattle.std.specs.Prelude.{◌≡◌, ◌++◌, OnOk, IfOk};
ghost use Rattle.report_text.specs.Reason as said;

mod axi;
mod design;
mod map;
mod script;

use crate::text::{put, put_named, put_with};
pub use axi::Lack;
use axi::{lack_name, put_broken};
use design::{big_text, put_drive, put_latch, put_loop, put_width};
use map::{put_cover, put_limit};
use run_model::chan_map::MapLimit;
use script::{put_small, put_wave_long};
use std::alloc::Global;
use text_page::vidi_io::vidi_bits::{Bytes, Items, Memory, Name};
use vlog_elab::Big;

/// A file among a command's words.
#[derive(Clone, Copy, Debug, PartialEq, Eq)]
pub enum Word {
    Design,
    Map,
    Script,
    /// The plan of stalls.
    Stalls,
    Trace,
    /// The second trace of a comparison.
    Other,
    /// A value change dump.
    Wave,
    /// What the channels of a trace are in AXI4.
    Axi,
}

/// Why a file is refused. Lines are counted from 1.
#[derive(Drop)]
pub enum Reason {
    /// The file has more than `limit` bytes.
    TooLong {
        limit: u64,
    },
    /// E1: at a place of this line neither a token nor white space nor a comment begins.
    Word {
        line: u32,
    },
    /// E14: a limit of nesting or length is passed, first at a token of this line.
    Deep {
        line: u32,
    },
    /// E2: the text isn't in the grammar. The line is that of the first token behind the longest list of
    /// whole units, or where no token follows the last token's, 1 if there is none.
    Item {
        line: u32,
    },
    /// E3: this name stands twice.
    Twice {
        name: Name,
    },
    /// E4: this name isn't declared.
    Unknown {
        name: Name,
    },
    /// E7: a name on this line isn't of the kind that stands there.
    Kind {
        line: u32,
    },
    /// E11: the module of this name contains itself.
    Nested {
        name: Name,
    },
    /// E12: there is more of this than the limit.
    TooBig {
        what: Big,
    },
    /// E5: what has to be constant on this line isn't.
    Const {
        line: u32,
    },
    /// E6: a width or place on this line isn't lawful; `got` is its number.
    Width {
        line: u32,
        got: u128,
    },
    /// E13: the clock on this line isn't the one that all clocked blocks have, or is read.
    Clock {
        line: u32,
    },
    /// E8: this bit of the net has so many drivers.
    Drive {
        name: Name,
        bit: u32,
        drivers: u32,
    },
    /// E9: the block on this line leaves this name open.
    Latch {
        name: Name,
        line: u32,
    },
    /// E10: the drivers on these lines read one another in a circle.
    Loop {
        lines: Items<u32>,
    },
    /// M1: this line of the map is bad, of no form or missing.
    MapLine {
        line: u32,
    },
    /// M2: this line of the map doesn't fit the design's ports.
    MapPort {
        line: u32,
    },
    /// M3: the map names this port of the top so many times, which isn't once.
    Cover {
        port: Name,
        times: u32,
    },
    /// M4: a limit of the map, and what is outside it.
    Limit {
        what: MapLimit,
        got: u32,
    },
    /// S1: this line of the script is bad, of no form or missing.
    ScriptLine {
        line: u32,
    },
    /// S2: the channel on this line of the script isn't in the map, or has the other direction.
    ScriptChannel {
        line: u32,
    },
    /// S3: a number on this line of the script is out of range.
    ScriptNumber {
        line: u32,
    },
    /// P1: this line of the plan of stalls is bad, of no form or missing.
    StallLine {
        line: u32,
    },
    /// The store of the plan has fewer bytes than the map's channels need.
    TooSmall {
        need: u64,
        given: u32,
    },
    /// The file is no encoding of a trace; `at` is the place of the fault in bytes.
    BadTrace {
        at: u64,
    },
    /// The channels of the trace are others than those of the map that it is replayed on, or of the trace that it is compared with; the
    /// first that differs stands at place `at`.
    OtherChannels {
        at: usize,
    },
    /// A module of the design has this name, which is kept for shims.
    Reserved {
        name: Name,
    },
    /// The reason of this number, as 12 for E12, holds of the wrapped design.
    Wrapped {
        number: u32,
    },
    /// The text of the wrapped design has more bytes than a design's text may have.
    WrapLong,
    /// The file begins as a trace of version 1 does.
    OldTrace,
    /// The trace has a reset packet, first at place `index`.
    HasReset {
        index: u32,
    },
    /// The wave of so many nets and cycles would have more numbers than a wave may have.
    WaveLong {
        nets: u32,
        cycles: u32,
    },
    /// The file is the text of no wave.
    BadWave,
    /// No net of the wave has the name that is asked for.
    NoNet,
    /// The wave has so many cycles, and the one that is asked for comes after them.
    NoCycle {
        cycles: u32,
    },
    /// A1: this line of the AXI file is bad, of no form or missing.
    AxiLine {
        line: u32,
    },
    /// A2: this line of the AXI file doesn't fit the trace's channels.
    AxiPort {
        line: u32,
    },
    /// The transaction of this index on this channel breaks this rule of bursts.
    Broken {
        rule: u32,
        channel: Name,
        index: u32,
    },
    /// With this AXI file no memory can be served.
    Serve {
        what: Lack,
    },
    /// The trace hasn't the completion that is named first (1) or second (2).
    NoEnd {
        which: u32,
    },
    /// Both names are of one completion.
    SameEnd,
    /// The packet at this place keeps the completion from its new place.
    Blocked {
        packet: u32,
    },
}

/// The line that refuses a file (this project's profile).
pub fn reason_line(alloc: Global, word: Word, reason: &Reason) -> Result<Bytes, Memory>
    ensures { IfOk result (λ text. text ≡ said.reason_line word reason.now) }
{
    let mut text = Vec::new(alloc);
    put(&mut text, b"vidi: refused ")?;
    put(&mut text, word_text(word))?;
    put(&mut text, b": ")?;
    put_reason(&mut text, reason)?;
    put(&mut text, b"\n")?;
    Ok(Bytes::from_vec(text))
}

fn put_reason(text: &mut Vec<u8>, reason: &Reason) -> Result<(), Memory>
    ensures { OnOk result (text.new.items ≡ text.old.items ++ said.reason_text reason.now) }
{
    match reason {
        Reason::TooLong { limit } => put_with(text, b"too long, limit ", *limit),
        Reason::Word { line } => put_with(text, b"E1 word line ", *line),
        Reason::Deep { line } => put_with(text, b"E14 deep line ", *line),
        Reason::Item { line } => put_with(text, b"E2 item line ", *line),
        Reason::Twice { name } => put_named(text, b"E3 twice ", name.as_slice()),
        Reason::Unknown { name } => put_named(text, b"E4 unknown ", name.as_slice()),
        Reason::Kind { line } => put_with(text, b"E7 kind line ", *line),
        Reason::Nested { name } => put_named(text, b"E11 nested ", name.as_slice()),
        Reason::TooBig { what } => put_named(text, b"E12 too big ", big_text(*what)),
        Reason::Const { line } => put_with(text, b"E5 const line ", *line),
        Reason::Width { line, got } => put_width(text, *line, *got),
        Reason::Clock { line } => put_with(text, b"E13 clock line ", *line),
        Reason::Drive { name, bit, drivers } => put_drive(text, name.as_slice(), *bit, *drivers),
        Reason::Latch { name, line } => put_latch(text, name.as_slice(), *line),
        Reason::Loop { lines } => put_loop(text, lines.as_slice()),
        Reason::MapLine { line } => put_with(text, b"M1 line ", *line),
        Reason::MapPort { line } => put_with(text, b"M2 port line ", *line),
        Reason::Cover { port, times } => put_cover(text, port.as_slice(), *times),
        Reason::Limit { what, got } => put_limit(text, *what, *got),
        Reason::ScriptLine { line } => put_with(text, b"S1 line ", *line),
        Reason::ScriptChannel { line } => put_with(text, b"S2 channel line ", *line),
        Reason::ScriptNumber { line } => put_with(text, b"S3 number line ", *line),
        Reason::StallLine { line } => put_with(text, b"P1 line ", *line),
        Reason::TooSmall { need, given } => put_small(text, *need, *given),
        Reason::BadTrace { at } => put_with(text, b"bad trace at ", *at),
        Reason::OtherChannels { at } => put_with(text, b"other channels at ", *at),
        Reason::Reserved { name } => put_named(text, b"reserved ", name.as_slice()),
        Reason::Wrapped { number } => put_with(text, b"wrapped has E", *number),
        Reason::WrapLong => put(text, b"wrapped text too long"),
        Reason::OldTrace => put(text, b"old trace"),
        Reason::HasReset { index } => put_with(text, b"reset in packet ", *index),
        Reason::WaveLong { nets, cycles } => put_wave_long(text, *nets, *cycles),
        Reason::BadWave => put(text, b"bad wave"),
        Reason::NoNet => put(text, b"no net"),
        Reason::NoCycle { cycles } => put_with(text, b"no cycle, cycles ", *cycles),
        Reason::AxiLine { line } => put_with(text, b"A1 line ", *line),
        Reason::AxiPort { line } => put_with(text, b"A2 port line ", *line),
        Reason::Broken {
            rule,
            channel,
            index,
        } => put_broken(text, *rule, channel.as_slice(), *index),
        Reason::Serve { what } => put_named(text, b"serve ", lack_name(*what)),
        Reason::NoEnd { which } => put_with(text, b"no end ", *which),
        Reason::SameEnd => put(text, b"same end"),
        Reason::Blocked { packet } => put_with(text, b"blocked by packet ", *packet),
    }
}

/// The line for a file that could not be read.
pub fn read_fault_line(alloc: Global, word: Word) -> Result<Bytes, Memory>
    ensures { IfOk result (λ text. text ≡ said.read_fault_line word) }
{
    let mut text = Vec::new(alloc);
    put(&mut text, b"vidi: read fault ")?;
    put(&mut text, word_text(word))?;
    put(&mut text, b"\n")?;
    Ok(Bytes::from_vec(text))
}

fn word_text(word: Word) -> &'static [u8]
    ensures { result.now ≡ said.word_text word }
{
    match word {
        Word::Design => b"design",
        Word::Map => b"map",
        Word::Script => b"script",
        Word::Stalls => b"stalls",
        Word::Trace => b"trace",
        Word::Other => b"other",
        Word::Wave => b"wave",
        Word::Axi => b"axi",
    }
}
