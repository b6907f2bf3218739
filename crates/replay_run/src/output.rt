//! The trace that a replay writes.

ghost use Rattle.std.specs.Prelude.{◌≡◌, ◌+◌, ◌-◌, ◌^◌, ◌≤◌, ◌<◌, ◌++◌, ◌∷◌, [], ℕ, List, IfOk, if◌then◌else◌, length, take};
ghost use Rattle.trace_code.specs.trace_model.declared.packet.TheConstants.{GAP_LIMIT, MOST_CYCLES, RESET_LEN};
ghost use Rattle.trace_code.specs.trace_model.declared.channel.Channel.{Channel as OneChannel};
ghost use Rattle.trace_code.specs.trace_model.declared.row.Row.{Row as OneRow};
ghost use Rattle.trace_code.specs.trace_model.Channel.{IsTable};
ghost use Rattle.trace_code.specs.trace_model.Length.{longest_packet, packet_len};
ghost use Rattle.trace_code.specs.trace_model.Recording.{trace_of};
ghost use Rattle.trace_code.specs.trace_model.Row.{IsOver};
ghost use Rattle.trace_code.specs.Encoding.{encode, end_mark, row_bytes};
ghost use Rattle.replay_run.specs.declared.output.TheConstants.{END_LEN};
ghost use Rattle.replay_run.specs.Output.{fresh_bytes, HasRoomFor, IsWritten, IsWrittenBefore};

use std::alloc::Global;
use trace_code::trace_model::{Channels, RESET_LEN, Row, longest_packet};
use trace_code::vidi_bits::{Bytes, Items, Memory};
use trace_code::{end_mark, header_bytes, write_packet, write_reset};

/// The bytes of an encoded trace's end.
const END_LEN: usize = 5;

/// Writes the packet of a row behind this gap, where the row has an event, behind the first `len` bytes, and gives how many there are then.
fn write_row(row: &Row, gap: u32, channels: &Channels, out: &mut [u8], len: usize) -> usize
    requires table { IsTable channels.now }
    requires over { IsOver channels.now row.now }
    requires gap { gap < GAP_LIMIT }
    requires room { len + longest_packet channels.now ≤ length out.old }
    ensures bytes { take result out.new ≡ take len out.old ++ row_bytes channels.now gap row.now }
    ensures place { result ≡ len + packet_len channels.now row.now.starts row.now.ends }
    ensures most { result ≤ len + longest_packet channels.now }
{
    let written = write_packet(row, gap, channels, &mut out[len..]);
    len + written
}

/// Writes the reset before a row behind this gap, where the row is fresh, behind the first `len` bytes, and gives how many there are then.
fn write_fresh(row: &Row, gap: u32, out: &mut [u8], len: usize) -> usize
    requires gap { gap < GAP_LIMIT }
    requires room { len + RESET_LEN ≤ length out.old }
    ensures bytes { (channels : List OneChannel) → take result out.new ≡ take len out.old ++ fresh_bytes channels gap row.now }
    ensures place { result ≡ len + (if row.now.fresh then RESET_LEN else 0) }
{
    if row.fresh {
        len + write_reset(gap, &mut out[len..])
    } else {
        len
    }
}

/// Writes the end of a trace of so many packets behind the first `len` bytes, and gives how many there are then.
fn write_end(packets: u32, out: &mut [u8], len: usize) -> usize
    requires room { len + END_LEN ≤ length out.old }
    ensures bytes { take result out.new ≡ take len out.old ++ end_mark packets }
    ensures place { result ≡ len + END_LEN }
{
    let mark = end_mark(packets);
    let after = len + mark.len();
    out[len..after].copy_from_slice(&mark);
    after
}

/// An encoded trace that grows row by row, in memory that is taken at once.
#[derive(Drop)]
pub(crate) struct Output {
    /// What is written, and the room for what isn't yet.
    pub(crate) bytes: Vec<u8>,
    /// How many bytes are written.
    pub(crate) len: usize,
    /// How many packets are written.
    pub(crate) packets: u32,
    /// The cycle at which the last of them ends, 0 before the first.
    pub(crate) end: u32,
}

impl Output {
    /// The header, with room for the longest packets of so many rows, a reset before each of them, and the end. Only this call takes memory.
    pub(crate) fn new(alloc: Global, channels: &Channels, rows: u32) -> Result<Output, Memory>
        requires table { IsTable channels.now }
        requires few { rows ≤ MOST_CYCLES }
        ensures written { IfOk result (λ output. IsWritten channels.now [] output) }
        ensures room { IfOk result (λ output. HasRoomFor channels.now rows output) }
    {
        let mut bytes = header_bytes(alloc, channels)?.into_vec();
        let len = bytes.len();
        let room = rows as usize * (longest_packet(channels.as_slice()) + RESET_LEN);
        bytes.resize(len + room + END_LEN, 0)?;
        Ok(Output {
            bytes,
            len,
            packets: 0,
            end: 0,
        })
    }

    /// Writes the reset before the row of a cycle, where the row is fresh.
    fn push_reset(&mut self, cycle: u32, row: &Row)
        requires room { self.old.len + RESET_LEN ≤ length self.old.bytes.items }
        requires cycle { cycle < MOST_CYCLES }
        requires end { self.old.end ≤ cycle }
        requires few { self.old.packets < 2 ^ 32 - 1 }
        ensures written { (channels : List OneChannel) (rows : List OneRow) → length rows ≡ cycle → IsWritten channels rows self.old
            → IsWrittenBefore channels rows row.now self.new }
        ensures len { self.new.len ≤ self.old.len + RESET_LEN }
        ensures room { length self.new.bytes.items ≡ length self.old.bytes.items }
        ensures end { self.new.end ≤ cycle }
        ensures few { self.new.packets ≤ self.old.packets + 1 }
    {
        let gap = cycle - self.end;
        self.len = write_fresh(row, gap, self.bytes.as_mut_slice(), self.len);
        if row.fresh {
            self.packets += 1;
            self.end = cycle;
        }
    }

    /// Writes the packet of the row of a cycle, where it has an event, behind the reset before it.
    fn push_own(&mut self, cycle: u32, row: &Row, channels: &Channels)
        requires table { IsTable channels.now }
        requires over { IsOver channels.now row.now }
        requires room { self.old.len + longest_packet channels.now ≤ length self.old.bytes.items }
        requires cycle { cycle < MOST_CYCLES }
        requires end { self.old.end ≤ cycle }
        requires few { self.old.packets < 2 ^ 32 - 1 }
        ensures written { (rows : List OneRow) → length rows ≡ cycle → IsWrittenBefore channels.now rows row.now self.old
            → IsWritten channels.now (rows ++ row.now ∷ []) self.new }
        ensures len { self.new.len ≤ self.old.len + longest_packet channels.now }
        ensures room { length self.new.bytes.items ≡ length self.old.bytes.items }
    {
        let gap = cycle - self.end;
        let before = self.len;
        self.len = write_row(row, gap, channels, self.bytes.as_mut_slice(), before);
        if self.len > before {
            self.packets += 1;
            self.end = cycle + 1;
        }
    }

    /// Writes the packets of the row of a cycle: the reset before it, where it is fresh, and its own, where it has an event.
    pub(crate) fn push(&mut self, cycle: u32, row: &Row, channels: &Channels)
        requires table { IsTable channels.now }
        requires over { IsOver channels.now row.now }
        requires room { HasRoomFor channels.now 1 self.old }
        requires cycle { cycle < MOST_CYCLES }
        requires end { self.old.end ≤ cycle }
        requires few { self.old.packets < 2 ^ 32 - 2 }
        ensures written { (rows : List OneRow) → length rows ≡ cycle → IsWritten channels.now rows self.old
            → IsWritten channels.now (rows ++ row.now ∷ []) self.new }
        ensures room { (n : ℕ) → HasRoomFor channels.now (n + 1) self.old → HasRoomFor channels.now n self.new }
    {
        self.push_reset(cycle, row);
        self.push_own(cycle, row, channels);
    }

    /// Writes the end, and gives the whole trace.
    pub(crate) fn close(self) -> Bytes
        requires { self.len + END_LEN ≤ length self.bytes.items }
        ensures { (channels : List OneChannel) (rows : List OneRow) → IsWritten channels rows self
            → result ≡ encode (trace_of channels rows) }
    {
        let Output {
            mut bytes,
            len,
            packets,
            ..
        } = self;
        let all = write_end(packets, bytes.as_mut_slice(), len);
        bytes.truncate(all);
        Items::from_vec(bytes)
    }
}
