//! Writing one packet in place, without memory.

ghost use Rattle.std.specs.Prelude.{◌≡◌, ℕ, List, true, ◌+◌, ◌*◌, ◌≤◌, ◌^◌, ◌<◌, [], ◌∷◌, ◌++◌, length, drop, All, sum_by, if◌then◌else◌};
ghost use Rattle.std.specs.Int.{bytes_high_first};
ghost use Rattle.vec_clock.specs.vidi_bits.Number.{has};
ghost use Rattle.vec_clock.specs.trace_model.declared.channel.Channel.{Channel as OneChannel};
ghost use Rattle.vec_clock.specs.trace_model.declared.packet.TheConstants.{GAP_LIMIT, RESET_LEN};
ghost use Rattle.vec_clock.specs.trace_model.Channel.{byte_count, IsChannel, IsTable};
ghost use Rattle.vec_clock.specs.trace_model.Length.{head_len, longest_packet, packet_len};
ghost use Rattle.vec_clock.specs.trace_model.Packet.{widths_under};
ghost use Rattle.vec_clock.specs.trace_model.Recording.{has_event, reset_packet};
ghost use Rattle.vec_clock.specs.trace_model.Row.{IsOver};
ghost use Rattle.trace_code.specs.Encoding.{gap_bytes, mask_bytes, number_bytes, packet_bytes, row_bytes};
ghost use Rattle.trace_code.specs.Writing.{overwritten, picked, tagged_bytes};

use crate::number::byte_count;
use vec_clock::trace_model::{Channel, Channels, Row, names};

/// Writes a piece at a place of the buffer, and gives the place after it.
pub(crate) fn write_at(buf: &mut [u8], at: usize, piece: &[u8]) -> usize
    requires { at + length piece.now ≤ length buf.old }
    ensures bytes { buf.new ≡ overwritten buf.old at piece.now }
    ensures place { result ≡ at + length piece.now }
{
    let after = at + piece.len();
    buf[at..after].copy_from_slice(piece);
    after
}

/// Writes a mask of this many channels, the lowest byte first.
fn write_mask(buf: &mut [u8], at: usize, channels: usize, mask: u128) -> usize
    requires few { channels ≤ 128 }
    requires room { at + length (mask_bytes channels mask) ≤ length buf.old }
    ensures bytes { buf.new ≡ overwritten buf.old at (mask_bytes channels mask) }
    ensures place { result ≡ at + length (mask_bytes channels mask) }
{
    let bytes = mask.to_le_bytes();
    write_at(buf, at, &bytes[..channels.div_ceil(8)])
}

/// Writes a number of this width in bits, the highest byte first.
fn write_number(buf: &mut [u8], at: usize, width: u8, number: u128) -> usize
    requires small { width ≤ 128 }
    requires room { at + byte_count width ≤ length buf.old }
    ensures bytes { buf.new ≡ overwritten buf.old at (bytes_high_first (byte_count width) number) }
    ensures place { result ≡ at + byte_count width }
{
    let bytes = number.to_be_bytes();
    write_at(buf, at, &bytes[16 - byte_count(width)..])
}

/// Writes a content: a number of each width.
fn write_content(buf: &mut [u8], at: usize, widths: &[u8], content: &[u128]) -> usize
    requires small { All (λ w. w ≤ 128) widths.now }
    requires one_each { length content.now ≡ length widths.now }
    requires room { at + sum_by byte_count widths.now ≤ length buf.old }
    ensures bytes { buf.new ≡ overwritten buf.old at (number_bytes widths.now content.now) }
    ensures place { result ≡ at + length (number_bytes widths.now content.now) }
{
    let mut place = at;
    for (width, number) in widths.iter().zip(content) {
        place = write_number(buf, place, *width, *number);
    }
    place
}

/// Writes the content of a channel, where it starts.
fn write_start(buf: &mut [u8], at: usize, widths: &[u8], content: &[u128], starts: bool) -> usize
    requires small { All (λ w. w ≤ 128) widths.now }
    requires one_each { length content.now ≡ length widths.now }
    requires room { at + sum_by byte_count (if starts then widths.now else []) ≤ length buf.old }
    ensures bytes { buf.new ≡ overwritten buf.old at
        (number_bytes (if starts then widths.now else []) (if starts then content.now else [])) }
    ensures place { result ≡ at + length (number_bytes (if starts then widths.now else []) (if starts then content.now else [])) }
{
    if starts {
        write_content(buf, at, widths, content)
    } else {
        at
    }
}

/// Writes the contents of the channels that start, out of those of the channels that are listed.
fn write_contents(
    buf: &mut [u8],
    at: usize,
    channels: &[Channel],
    listed: u128,
    starts: u128,
    contents: &[u128],
) -> usize
    requires each { All IsChannel channels.now }
    requires some { (c : ℕ) → has starts c ≡ true → has listed c ≡ true }
    requires one_each { length (widths_under listed channels.now) ≤ length contents.now }
    requires room { at + sum_by byte_count (widths_under starts channels.now) ≤ length buf.old }
    ensures bytes { buf.new ≡ overwritten buf.old at (number_bytes (widths_under starts channels.now)
        (picked listed starts 0 channels.now contents.now)) }
    ensures place { result ≡ at + length (number_bytes (widths_under starts channels.now)
        (picked listed starts 0 channels.now contents.now)) }
{
    let mut place = at;
    let mut rest = contents;
    for (c, channel) in channels.iter().enumerate() {
        if !names(listed, c) {
            continue;
        }
        let (content, after) = rest.split_at(channel.widths.len());
        let starting = names(starts, c);
        place = write_start(buf, place, channel.widths.as_slice(), content, starting);
        rest = after;
    }
    place
}

/// The byte with which a packet begins, and its gap.
fn tag_bytes(tag: u8, gap: u32) -> [u8; 3]
    ensures { result ≡ tag ∷ gap_bytes gap }
{
    let [_, _, high, low] = gap.to_be_bytes();
    [tag, high, low]
}

/// What a packet with events has before its contents.
#[derive(Clone, Copy)]
pub(crate) struct Events {
    pub(crate) gap: u32,
    pub(crate) starts: u128,
    pub(crate) ends: u128,
}

/// Writes the packet of these events at the front of the buffer, and gives its length. The contents are those of the listed channels,
/// among which are those that start.
pub(crate) fn write_events(
    buf: &mut [u8],
    channels: &[Channel],
    listed: u128,
    events: Events,
    contents: &[u128],
) -> usize
    requires few { length channels.now ≤ 128 }
    requires each { All IsChannel channels.now }
    requires some { (c : ℕ) → has events.starts c ≡ true → has listed c ≡ true }
    requires one_each { length (widths_under listed channels.now) ≤ length contents.now }
    requires room { head_len (length channels.now) + sum_by byte_count (widths_under events.starts channels.now) ≤ length buf.old }
    ensures bytes { buf.new ≡ tagged_bytes channels.now events.gap events.starts events.ends
        (picked listed events.starts 0 channels.now contents.now) ++ drop result buf.old }
    ensures place { result ≡ length (tagged_bytes channels.now events.gap events.starts events.ends
        (picked listed events.starts 0 channels.now contents.now)) }
{
    let tagged = write_at(buf, 0, &tag_bytes(1, events.gap));
    let started = write_mask(buf, tagged, channels.len(), events.starts);
    let ended = write_mask(buf, started, channels.len(), events.ends);
    write_contents(buf, ended, channels, listed, events.starts, contents)
}

/// Writes a reset behind this gap at the front of the buffer, and gives its length, which is 3. The other bytes stay. The gap is below
/// 65,536, and the buffer has 3 places.
pub fn write_reset(gap: u32, buf: &mut [u8]) -> usize
    requires gap { gap < GAP_LIMIT }
    requires room { RESET_LEN ≤ length buf.old }
    ensures bytes { (channels : List OneChannel) → buf.new ≡ packet_bytes channels (reset_packet gap) ++ drop result buf.old }
    ensures len { result ≡ RESET_LEN }
{
    write_at(buf, 0, &tag_bytes(2, gap))
}

/// Whether something starts or ends in a row.
fn has_event(row: &Row) -> bool
    ensures { result ≡ has_event row.now }
{
    row.starts != 0 || row.ends != 0
}

/// Writes the packet of a row behind this gap at the front of the buffer, and gives its length: 0 where the row has no event. The other
/// bytes stay. The gap is below 65,536, the row is over these channels, and the buffer has room for a packet in which all of them start.
pub fn write_packet(row: &Row, gap: u32, channels: &Channels, buf: &mut [u8]) -> usize
    requires table { IsTable channels.now }
    requires row { IsOver channels.now row.now }
    requires gap { gap < GAP_LIMIT }
    requires room { longest_packet channels.now ≤ length buf.old }
    ensures bytes { buf.new ≡ row_bytes channels.now gap row.now ++ drop result buf.old }
    ensures place { result ≡ length (row_bytes channels.now gap row.now) }
    ensures len { result ≡ packet_len channels.now row.now.starts row.now.ends }
{
    if !has_event(row) {
        return 0;
    }
    let contents = row.contents.as_slice();
    let events = Events {
        gap,
        starts: row.starts,
        ends: row.ends,
    };
    write_events(buf, channels.as_slice(), u128::MAX, events, contents)
}
