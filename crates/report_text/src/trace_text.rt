//! The text of a trace: its channels, events and vector clocks.

ghost use Rattle.std.specs.Prelude.{◌≡◌, ◌<◌, ℕ, ◌+◌, ◌-◌, ◌*◌, ◌^◌, ◌≤◌, ◌∷◌, ◌++◌, if◌then◌else◌, [], length};
ghost use Rattle.std.specs.Prelude.{take, drop, replicate};
ghost use Rattle.std.specs.Prelude.{slice_index, codes, decimal};
ghost use Rattle.std.specs.Int.{bit_at};
ghost use Rattle.std.specs.List.{flat_map, enumerate_from};
ghost use Rattle.text_page.specs.Pad.{shown, room, left};
ghost use Rattle.report_text.specs.Text.{newline, spaced};
ghost use Rattle.report_text.specs.Trace as said;

use itoa::Buffer;
use run_model::trace_model::{Channel, Dir, Packet, Trace, names, split_content};
use text_page::{Pad, Page, print_number, print_numbers};

/// Prints the lines of a trace. `completed` counts each channel's completions so far, and `clock` holds the text of
/// a packet's clock: for each channel a space and at most 20 digits.
pub(crate) fn print_trace<P: Page>(
    page: &mut P,
    trace: &Trace,
    completed: &mut [u64],
    clock: &mut Pad,
)
    requires counts { completed.old ≡ replicate (length trace.now.channels) 0 }
    requires clock { 7 + 21 * length trace.now.channels ≤ room clock.old }
    ensures { P.went page.old page.new (said.dump_text trace.now) }
{
    print_channels(page, trace.channels.as_slice());
    print_packets(page, trace, completed, clock);
    print_packets_line(page, trace.packets.len());
}

fn print_channels<P: Page>(page: &mut P, channels: &[Channel])
    ensures { P.went page.old page.new (said.channel_lines 0 channels.now) }
{
    for (number, channel) in channels.iter().enumerate() {
        print_channel(page, number, channel);
    }
}

fn print_channel<P: Page>(page: &mut P, number: usize, channel: &Channel)
    ensures { P.went page.old page.new (said.channel_line number channel.now) }
{
    page.print(b"channel ");
    print_number(page, number);
    page.print(direction_text(channel.dir));
    page.print(channel.name.as_slice());
    print_numbers(page, channel.widths.as_slice());
    page.print(b"\n");
}

fn direction_text(dir: Dir) -> &'static [u8]
    ensures { result.now ≡ said.direction_text dir }
{
    match dir {
        Dir::Inward => b" in ",
        Dir::Outward => b" out ",
    }
}

fn print_packets_line<P: Page>(page: &mut P, packets: usize)
    ensures { P.went page.old page.new (said.packets_line packets) }
{
    page.print(b"packets ");
    print_number(page, packets);
    page.print(b"\n");
}

/// Prints the lines of all packets. Once the page is lost the rest isn't made.
fn print_packets<P: Page>(page: &mut P, trace: &Trace, completed: &mut [u64], clock: &mut Pad)
    requires counts { completed.old ≡ replicate (length trace.now.channels) 0 }
    requires clock { 7 + 21 * length trace.now.channels ≤ room clock.old }
    ensures { P.went page.old page.new (flat_map (said.packet_lines trace.now.channels trace.now.packets)
        (enumerate_from 0 trace.now.packets)) }
{
    let channels = trace.channels.as_slice();
    for (number, packet) in trace.packets.as_slice().iter().enumerate() {
        if page.is_lost() {
            return;
        }
        put_clock(clock, completed);
        print_packet(page, channels, number, packet, clock.as_slice());
        count_packet(completed, packet);
    }
}

/// Makes the text that of a packet's clock.
fn put_clock(clock: &mut Pad, completed: &[u64])
    requires { 7 + 21 * length completed.now ≤ room clock.old }
    ensures text { shown clock.new ≡ codes " clock" ++ (spaced completed.now ++ newline) }
    ensures room { room clock.new ≡ room clock.old }
{
    clock.clear();
    clock.put(b" clock");
    put_counts(clock, completed);
    clock.put(b"\n");
}

fn put_counts(clock: &mut Pad, completed: &[u64])
    requires { 21 * length completed.now ≤ left clock.old }
    ensures text { shown clock.new ≡ shown clock.old ++ spaced completed.now }
    ensures left { left clock.old ≤ left clock.new + 21 * length completed.now }
    ensures room { room clock.new ≡ room clock.old }
{
    for count in completed {
        put_count(clock, *count);
    }
}

fn put_count(clock: &mut Pad, count: u64)
    requires { 21 ≤ left clock.old }
    ensures text { shown clock.new ≡ shown clock.old ++ 32 ∷ decimal count }
    ensures left { left clock.old ≤ left clock.new + 21 }
    ensures room { room clock.new ≡ room clock.old }
{
    let mut buffer = Buffer::new();
    clock.put(b" ");
    clock.put(buffer.format(count).as_bytes());
}

/// Adds the completions of a packet to the counts, which are 0 again behind a reset.
fn count_packet(completed: &mut [u64], packet: &Packet)
    requires { (c : ℕ) → c < length completed.old → slice_index completed.old c < 2 ^ 64 - 1 }
    ensures { (c : ℕ) → c < length completed.old → slice_index completed.new c
        ≡ (if packet.now.reset then 0 else slice_index completed.old c + bit_at packet.now.ends c) }
{
    if packet.reset {
        completed.fill(0);
    } else {
        count_ends(completed, packet.ends);
    }
}

/// Adds one to the count of each channel that a mask names.
fn count_ends(completed: &mut [u64], ends: u128)
    requires { (c : ℕ) → c < length completed.old → slice_index completed.old c < 2 ^ 64 - 1 }
    ensures { (c : ℕ) → c < length completed.old → slice_index completed.new c ≡ slice_index completed.old c + bit_at ends c }
{
    for (channel, count) in completed.iter_mut().enumerate() {
        if names(ends, channel) {
            *count += 1;
        }
    }
}

/// Prints the lines of one packet with this text of its clock.
fn print_packet<P: Page>(
    page: &mut P,
    channels: &[Channel],
    number: usize,
    packet: &Packet,
    clock: &[u8],
)
    ensures { P.went page.old page.new (said.lines_with channels.now number packet.now clock.now) }
{
    print_gap(page, number, packet.gap);
    print_reset(page, number, packet.reset);
    print_starts(page, channels, number, packet, clock);
    print_ends(page, channels, number, packet, clock);
}

/// Prints the line of a gap that is above 0.
fn print_gap<P: Page>(page: &mut P, number: usize, gap: u32)
    ensures { P.went page.old page.new (said.gap_line number gap) }
{
    if gap == 0 {
        return;
    }
    print_number(page, number);
    page.print(b" gap ");
    print_number(page, gap);
    page.print(b"\n");
}

/// Prints the line of a reset.
pub(crate) fn print_reset<P: Page>(page: &mut P, number: usize, reset: bool)
    ensures { P.went page.old page.new (said.reset_line number reset) }
{
    if !reset {
        return;
    }
    print_number(page, number);
    page.print(b" reset");
    page.print(b"\n");
}

fn print_starts<P: Page>(
    page: &mut P,
    channels: &[Channel],
    number: usize,
    packet: &Packet,
    clock: &[u8],
)
    ensures { P.went page.old page.new (said.start_lines channels.now number packet.now clock.now) }
{
    let mut rest = packet.contents.as_slice();
    for (c, channel) in channels.iter().enumerate() {
        let starts = names(packet.starts, c);
        rest = print_start(page, number, channel, starts, rest, clock);
    }
}

/// Prints the line of a channel where it starts, and gives the contents after its own.
fn print_start<'a, P: Page>(
    page: &mut P,
    number: usize,
    channel: &Channel,
    starts: bool,
    contents: &'a [u128],
    clock: &[u8],
) -> &'a [u128]
    ensures text { P.went page.old page.new (if starts
        then decimal number ++ (codes " start " ++ (channel.now.name ++
        (spaced (take (length channel.now.widths) contents.now) ++ clock.now)))
        else []) }
    ensures rest { result.now ≡ drop (length (if starts then channel.now.widths else [])) contents.now }
{
    if !starts {
        return contents;
    }
    let (content, after) = split_content(channel, contents);
    print_number(page, number);
    page.print(b" start ");
    page.print(channel.name.as_slice());
    print_numbers(page, content);
    page.print(clock);
    after
}

fn print_ends<P: Page>(
    page: &mut P,
    channels: &[Channel],
    number: usize,
    packet: &Packet,
    clock: &[u8],
)
    ensures { P.went page.old page.new (said.end_lines channels.now number packet.now clock.now) }
{
    for (c, channel) in channels.iter().enumerate() {
        let ends = names(packet.ends, c);
        print_end(page, number, channel, ends, clock);
    }
}

/// Prints the line of a channel where it completes.
pub(crate) fn print_end<P: Page>(
    page: &mut P,
    number: usize,
    channel: &Channel,
    ends: bool,
    clock: &[u8],
)
    ensures { P.went page.old page.new (if ends
        then decimal number ++ (codes " end " ++ (channel.now.name ++ clock.now)) else []) }
{
    if !ends {
        return;
    }
    print_number(page, number);
    page.print(b" end ");
    page.print(channel.name.as_slice());
    page.print(clock);
}
