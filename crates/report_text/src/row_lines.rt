//! The text of the rows of a run: the starts and ends of each cycle.

ghost use Rattle.std.specs.Prelude.{◌≡◌, ◌++◌, [], codes, decimal, if◌then◌else◌, IfOk, OnOk, OnErr, length, take, drop};
ghost use Rattle.std.specs.Io.KnownBytes.{append_known};
ghost use Rattle.text_page.specs.Pad.{shown};
ghost use Rattle.text_page.specs.vidi_io.Cause.{HasCause};
ghost use Rattle.text_page.specs.vidi_io.Sink.{AppendsSome, Frame};
ghost use Rattle.report_text.specs.Rows as said;
ghost use Rattle.report_text.specs.Text.{newline, spaced};

use crate::trace_text::{print_end, print_reset};
use run_model::trace_model::{Channel, Channels, Row, Rows, names, split_content};
use std::alloc::Global;
use text_page::vidi_io::vidi_bits::{Bytes, Memory};
use text_page::vidi_io::{Failed, Sink};
use text_page::{Draft, PAD_BYTES, Pad, Page, Printer, print_number, print_numbers};

/// The lines that `run` prints of its rows, without the last line.
pub fn rows_text(alloc: Global, rows: &Rows, channels: &Channels) -> Result<Bytes, Memory>
    ensures { IfOk result (λ text. text ≡ said.rows_text rows.now channels.now) }
{
    let mut draft = Draft::new(alloc);
    print_rows(&mut draft, rows.as_slice(), channels.as_slice());
    draft.finish()
}

/// The rows of a run with the line behind theirs, and all memory that printing them takes.
#[derive(Drop)]
pub struct RunLines {
    pub rows: Rows,
    pub channels: Channels,
    pub last: Bytes,
    pad: Pad,
    ghost blank: { shown pad ≡ [] },
}

impl RunLines {
    /// The lines of these rows over these channels, and then `last`. Printing them takes no more memory.
    pub fn new(
        alloc: Global,
        rows: Rows,
        channels: Channels,
        last: Bytes,
    ) -> Result<RunLines, Memory>
        ensures rows { IfOk result (λ lines. lines.rows ≡ rows) }
        ensures channels { IfOk result (λ lines. lines.channels ≡ channels) }
        ensures last { IfOk result (λ lines. lines.last ≡ last) }
    {
        let pad = Pad::new(alloc, PAD_BYTES)?;
        Ok(RunLines {
            rows,
            channels,
            last,
            pad,
        })
    }

    /// Pushes the lines, as many bytes at a time as the pad holds. After `Failed` some front of them was
    /// written.
    pub fn print<O: Sink>(self, out: &mut O) -> Result<(), Failed>
        ensures ok { OnOk result (O.told out.new ≡ append_known (O.told out.old) (said.run_text self.rows self.channels self.last)) }
        ensures err { OnErr result (AppendsSome (O.told out.old) (O.told out.new) (said.run_text self.rows self.channels self.last)) }
        ensures cause { HasCause (O.faults out.old) (O.faults out.new) result }
        ensures place { O.place out.new ≡ O.place out.old }
        ensures frame { (f : Frame) → O.has_frame out.old f → O.has_frame out.new f }
    {
        let RunLines {
            rows,
            channels,
            last,
            mut pad,
        } = self;
        let mut printer = Printer::new(out, &mut pad);
        print_run(&mut printer, &rows, &channels, &last);
        printer.finish()
    }
}

/// Prints the lines of all rows, and a last one.
fn print_run<P: Page>(page: &mut P, rows: &Rows, channels: &Channels, last: &Bytes)
    ensures { P.went page.old page.new (said.run_text rows.now channels.now last.now) }
{
    print_rows(page, rows.as_slice(), channels.as_slice());
    page.print(last.as_slice());
}

/// Prints the lines of all rows.
fn print_rows<P: Page>(page: &mut P, rows: &[Row], channels: &[Channel])
    ensures { P.went page.old page.new (said.rows_text rows.now channels.now) }
{
    for (cycle, row) in rows.iter().enumerate() {
        print_row(page, channels, cycle, row);
    }
}

/// Prints the lines of one row.
fn print_row<P: Page>(page: &mut P, channels: &[Channel], cycle: usize, row: &Row)
    ensures { P.went page.old page.new (said.row_lines channels.now (cycle, row.now)) }
{
    print_reset(page, cycle, row.fresh);
    print_row_starts(page, channels, cycle, row);
    print_row_ends(page, channels, cycle, row);
}

fn print_row_starts<P: Page>(page: &mut P, channels: &[Channel], cycle: usize, row: &Row)
    ensures { P.went page.old page.new (said.row_starts channels.now cycle row.now) }
{
    let mut rest = row.contents.as_slice();
    for (c, channel) in channels.iter().enumerate() {
        let (content, after) = split_content(channel, rest);
        let starts = names(row.starts, c);
        print_row_start(page, cycle, channel, starts, content);
        rest = after;
    }
}

/// Prints the line of a channel where it starts, with this content.
fn print_row_start<P: Page>(
    page: &mut P,
    cycle: usize,
    channel: &Channel,
    starts: bool,
    content: &[u128],
)
    ensures { P.went page.old page.new (if starts
        then decimal cycle ++ (codes " start " ++ (channel.now.name ++ (spaced content.now ++ newline))) else []) }
{
    if !starts {
        return;
    }
    print_number(page, cycle);
    page.print(b" start ");
    page.print(channel.name.as_slice());
    print_numbers(page, content);
    page.print(b"\n");
}

fn print_row_ends<P: Page>(page: &mut P, channels: &[Channel], cycle: usize, row: &Row)
    ensures { P.went page.old page.new (said.row_ends channels.now cycle row.now) }
{
    for (c, channel) in channels.iter().enumerate() {
        let ends = names(row.ends, c);
        print_end(page, cycle, channel, ends, b"\n");
    }
}
