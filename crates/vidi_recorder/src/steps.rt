//! The steps of a cycle.

ghost use Rattle.std.specs.Prelude.{◌≡◌, ◌+◌, ◌-◌, ◌*◌, ◌<◌, ◌≤◌, ◌^◌, ◌++◌, ◌&&◌, nat_lt, true, if◌then◌else◌, length, map, take, drop};
ghost use Rattle.std.specs.Prelude.{OnOk, OnErr};
ghost use Rattle.std.specs.Io.KnownBytes.{append_known};
ghost use Rattle.circular_buffer.specs.Buffer.{buffer};
ghost use Rattle.trace_code.specs.trace_model.declared.packet.TheConstants.{MOST_CYCLES};
ghost use Rattle.trace_code.specs.trace_model.Channel.{content_bytes, IsTable};
ghost use Rattle.trace_code.specs.trace_model.Recording.{has_event};
ghost use Rattle.trace_code.specs.trace_model.Row.{all_widths, IsOver};
ghost use Rattle.trace_code.specs.Encoding.{end_mark, row_bytes};
ghost use Rattle.room_ledger.specs.Gates.{drained, left};
ghost use Rattle.room_ledger.specs.Ledger.{may_reset, Emitted, MayEmit, Regranted};
ghost use Rattle.env_script.specs.Offered.{offers_on, AllFit};
ghost use Rattle.env_script.specs.Resets.{is_due};
ghost use Rattle.vidi_io.specs.Cause.{HasCause};
ghost use Rattle.vidi_io.specs.Sink.{AppendsSome, Frame};
ghost use Rattle.vidi_recorder.specs.Standing.{reset_bytes, IsRestarted};

use crate::cells::Cells;
use env_script::{Env, gather, is_due};
use room_ledger::Room;
use run_stage::Gated;
use trace_code::trace_model::{Channels, Row};
use trace_code::{end_mark, write_packet, write_reset};
use trace_store::Store;
use vidi_io::vidi_bits::Numbers;
use vidi_io::{Failed, Sink};

/// Makes what is given in the next cycle: what the environment offers now, and the gates that are up.
pub(crate) fn offer<E: Env>(env: &E, channels: &Channels, room: &Room, given: &mut Gated)
    requires channels { E.channels env.now ≡ channels.now }
    requires few { length channels.now ≤ 128 }
    requires fits { AllFit channels.now (E.current env.now) }
    requires places { length given.old.offers.contents ≡ length (all_widths channels.now) }
    ensures offers { given.new.offers ≡ offers_on channels.now (E.current env.now) }
    ensures gates { given.new.gates ≡ room.now.gates }
    ensures below { given.new.gates < 2 ^ length room.now.sizes }
{
    gather(env, channels, &mut given.offers);
    given.gates = room.gates();
}

/// Puts the packet of the row of a cycle into the store and the books, where the row has an event.
#[tactic(auto, using(crate::proofs::Passed::longest, crate::proofs::Lengths::packet_room, crate::proofs::Lengths::used_within))]
pub(crate) fn keep(row: &Row, cycle: u32, channels: &Channels, cells: &mut Cells)
    requires table { IsTable channels.now }
    requires row { IsOver channels.now row.now }
    requires may { MayEmit cells.old.room row.now.starts row.now.ends }
    requires sizes { cells.old.room.sizes ≡ map content_bytes channels.now }
    requires waits { length cells.old.store.items ≡ cells.old.room.used }
    requires capacity { cells.old.store.capacity ≡ cells.old.room.capacity }
    requires few { cycle < MOST_CYCLES }
    requires end { cells.old.end ≤ cycle }
    requires count { cells.old.packets ≤ 2 * cycle + 1 }
    ensures room { Emitted cells.old.room row.now.starts row.now.ends cells.new.room }
    ensures store { cells.new.store ≡ buffer
        (cells.old.store.items ++ row_bytes channels.now (cycle - cells.old.end) row.now) cells.old.store.capacity }
    ensures count { cells.new.packets ≡ cells.old.packets + (if has_event row.now then 1 else 0) }
    ensures end { cells.new.end ≡ (if has_event row.now then cycle + 1 else cells.old.end) }
    ensures within { cells.new.room.used ≤ cells.old.room.capacity }
    ensures given { cells.new.given ≡ cells.old.given }
    ensures out { cells.new.out ≡ cells.old.out }
    ensures resets { cells.new.resets ≡ cells.old.resets }
{
    let len = write_packet(row, cycle - cells.end, channels, &mut cells.packet);
    let _len = cells.room.emit(row.starts, row.ends);
    cells.store.put(&cells.packet[..len]);
    if len > 0 {
        cells.packets += 1;
        cells.end = cycle + 1;
    }
}

/// Whether a reset comes behind a cycle: there is a cycle behind it, the time of the next reset has come, and there is the permit.
pub(crate) fn reset_comes(cells: &Cells, resets: &Numbers, cycle: u32, cycles: u32) -> bool
    requires { cycle < MOST_CYCLES }
    ensures { result ≡ (nat_lt (cycle + 1) cycles && (is_due resets.now cells.now.resets (cycle + 1) && may_reset cells.now.room)) }
{
    cycle + 1 < cycles
        && is_due(resets.as_slice(), cells.resets, cycle + 1)
        && cells.room.may_reset()
}

/// Puts the packet of a reset behind a cycle into the store and the books, where one comes.
#[tactic(auto, using(crate::proofs::Lengths::reset_room))]
pub(crate) fn restart(cycle: u32, comes: bool, cells: &mut Cells)
    requires may { comes ≡ true → may_reset cells.old.room ≡ true }
    requires waits { length cells.old.store.items ≡ cells.old.room.used }
    requires capacity { cells.old.store.capacity ≡ cells.old.room.capacity }
    requires few { cycle < MOST_CYCLES }
    requires end { cells.old.end ≤ cycle + 1 }
    requires count { cells.old.packets ≤ 2 * cycle + 2 }
    requires resets { cells.old.resets ≤ cycle + 1 }
    requires within { cells.old.room.used ≤ cells.old.room.capacity }
    ensures room { IsRestarted comes cells.old.room cells.new.room }
    ensures store { cells.new.store ≡ buffer (cells.old.store.items ++ reset_bytes comes (cycle + 1 - cells.old.end)) cells.old.store.capacity }
    ensures count { cells.new.packets ≡ cells.old.packets + (if comes then 1 else 0) }
    ensures end { cells.new.end ≡ (if comes then cycle + 1 else cells.old.end) }
    ensures resets { cells.new.resets ≡ cells.old.resets + (if comes then 1 else 0) }
    ensures within { cells.new.room.used ≤ cells.old.room.capacity }
    ensures fresh { cells.new.fresh ≡ comes }
    ensures given { cells.new.given ≡ cells.old.given }
    ensures out { cells.new.out ≡ cells.old.out }
{
    cells.fresh = comes;
    if !comes {
        return;
    }
    let reset_len = write_reset(cycle + 1 - cells.end, &mut cells.packet);
    let _len = cells.room.reset();
    cells.store.put(&cells.packet[..reset_len]);
    cells.packets += 1;
    cells.end = cycle + 1;
    cells.resets += 1;
}

/// Pushes the first `n` bytes that wait, where there are any.
#[tactic(auto, using(vidi_io::proofs::Started::nothing_more))]
fn push_out<K: Sink>(
    store: &mut Store,
    out: &mut [u8],
    n: usize,
    sink: &mut K,
) -> Result<(), Failed>
    requires waits { n ≤ length store.old.items }
    requires places { n ≤ length out.old }
    ensures rest { store.new ≡ buffer (drop n store.old.items) store.old.capacity }
    ensures none { n ≡ 0 → sink.new ≡ sink.old }
    ensures ok { OnOk result (K.told sink.new ≡ append_known (K.told sink.old) (take n store.old.items)) }
    ensures err { OnErr result (AppendsSome (K.told sink.old) (K.told sink.new) (take n store.old.items)) }
    ensures place { K.place sink.new ≡ K.place sink.old }
    ensures frame { (f : Frame) → K.has_frame sink.old f → K.has_frame sink.new f }
    ensures cause { HasCause (K.faults sink.old) (K.faults sink.new) result }
{
    if n == 0 {
        return Ok(());
    }
    store.drain_into(out, n);
    sink.push(&out[..n])
}

/// What drains in a cycle leaves the books and goes out, and gates go up.
pub(crate) fn give<K: Sink>(
    room: &mut Room,
    allowance: Option<u32>,
    store: &mut Store,
    out: &mut [u8],
    sink: &mut K,
) -> Result<(), Failed>
    requires waits { length store.old.items ≡ room.old.used }
    requires places { room.old.used ≤ length out.old }
    ensures room { Regranted (record room.old { used = left allowance room.old.used }) room.new }
    ensures rest { store.new ≡ buffer (drop (drained allowance room.old.used) store.old.items) store.old.capacity }
    ensures none { drained allowance room.old.used ≡ 0 → sink.new ≡ sink.old }
    ensures ok { OnOk result (K.told sink.new
        ≡ append_known (K.told sink.old) (take (drained allowance room.old.used) store.old.items)) }
    ensures err { OnErr result (AppendsSome (K.told sink.old) (K.told sink.new)
        (take (drained allowance room.old.used) store.old.items)) }
    ensures place { K.place sink.new ≡ K.place sink.old }
    ensures frame { (f : Frame) → K.has_frame sink.old f → K.has_frame sink.new f }
    ensures cause { HasCause (K.faults sink.old) (K.faults sink.new) result }
{
    let bytes = room.drain(allowance);
    room.regrant();
    push_out(store, out, bytes as usize, sink)
}

/// Pushes the rest, where there is any, and the end mark.
pub(crate) fn close<K: Sink>(
    store: &mut Store,
    packets: u32,
    out: &mut [u8],
    sink: &mut K,
) -> Result<(), Failed>
    requires places { length store.old.items ≤ length out.old }
    ensures ok { OnOk result (K.told sink.new ≡ append_known (K.told sink.old) (store.old.items ++ end_mark packets)) }
    ensures err { OnErr result (AppendsSome (K.told sink.old) (K.told sink.new) (store.old.items ++ end_mark packets)) }
    ensures place { K.place sink.new ≡ K.place sink.old }
    ensures frame { (f : Frame) → K.has_frame sink.old f → K.has_frame sink.new f }
    ensures cause { HasCause (K.faults sink.old) (K.faults sink.new) result }
{
    let rest = store.waiting();
    push_out(store, out, rest, sink)?;
    sink.push(&end_mark(packets))
}
