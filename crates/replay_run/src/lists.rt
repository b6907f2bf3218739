//! The lists of *End of replay*.

ghost use Rattle.std.specs.Prelude.{◌≡◌, ◌≢◌, ◌+◌, ◌<◌, ◌≤◌, ◌++◌, [], ℕ, not, List, IfOk, length, slice_index, vec_len, vec_capacity};
ghost use Rattle.std.specs.List.{filter, flat_map};
ghost use Rattle.trace_code.specs.trace_model.declared.channel.Channel.{Channel as OneChannel};
ghost use Rattle.trace_code.specs.trace_model.declared.event.Event.{Event as OneEvent};
ghost use Rattle.trace_code.specs.trace_model.declared.packet.Packet.{Packet};
ghost use Rattle.trace_code.specs.trace_model.declared.row.Row.{Row as OneRow};
ghost use Rattle.trace_code.specs.trace_model.declared.trace.Trace.{Trace};
ghost use Rattle.trace_code.specs.trace_model.Counting.{IsNth};
ghost use Rattle.trace_code.specs.trace_model.Packet.{does};
ghost use Rattle.trace_code.specs.Stands.{Stands};
ghost use Rattle.run_stage.specs.run_model.Held.{await_on, awaits, controlled_in, event_in, held_event, held_if, held_of, held_reset, is_held};
ghost use Rattle.run_stage.specs.run_model.Held.{next_event_in, recorded_next_in, reset_event, same_event, waits_of, waits_reset};
ghost use Rattle.run_stage.specs.run_model.Replay.{done};
ghost use Rattle.replay_run.specs.Behind.{epoch_at, epoch_clock, has_later, AreBehind};
ghost use Rattle.replay_run.specs.Lists.{AreSpare, HasRoom, IsKept};

use crate::cursors::{Cursors, cursor_of, has_next};
use run_stage::run_model::{Await, Awaits, Held, Helds};
use std::alloc::Global;
use trace_code::Cursor;
use trace_code::trace_model::{Channel, Channels, Dir, Event, Events, Kind, Row, is_in_flight};
use trace_code::vec_clock::Clock;
use trace_code::vidi_bits::{Items, Memory};

/// Room for the lists of *End of replay*: one event for each channel, and the reset. Only `new` takes memory.
#[derive(Drop)]
pub(crate) struct Lists {
    pub(crate) held: Vec<Held>,
    pub(crate) waits: Vec<Event>,
    /// For each of these events room for what it awaits.
    pub(crate) awaits: Vec<Vec<Await>>,
}

/// So many empty lists, each with room for one of each channel.
fn spare_lists(alloc: Global, channels: usize, many: usize) -> Result<Vec<Vec<Await>>, Memory>
    ensures { IfOk result (λ spare. AreSpare channels many spare.items) }
{
    let mut spare = Vec::with_capacity(alloc, many)?;
    for _ in 0..many {
        spare.push(Vec::with_capacity(alloc, channels)?)?;
    }
    Ok(spare)
}

impl Lists {
    /// Room for the lists of so many channels.
    pub(crate) fn new(alloc: Global, channels: usize) -> Result<Lists, Memory>
        requires few { channels ≤ 128 }
        ensures { IfOk result (λ lists. HasRoom channels lists) }
    {
        let events = channels + 1;
        let held = Vec::with_capacity(alloc, events)?;
        let waits = Vec::with_capacity(alloc, events)?;
        let awaits = spare_lists(alloc, channels, events)?;
        Ok(Lists {
            held,
            waits,
            awaits,
        })
    }
}

/// Adds channel `c` where it has fewer completions than needed. There is room for it.
fn put_await(out: &mut Vec<Await>, c: usize, have: u32, need: u32)
    requires { vec_len out.old < vec_capacity out.old }
    ensures items { out.new.items ≡ out.old.items ++ await_on (λ d. have) (λ d. need) c }
    ensures len { vec_len out.new ≤ vec_len out.old + 1 }
    ensures capacity { vec_capacity out.new ≡ vec_capacity out.old }
{
    if have < need {
        out.push_reserved(Await {
            channel: c,
            have,
            need,
        });
    }
}

/// Adds what the event awaits at which a cursor stands. There is room for one of each channel.
fn list_awaits(out: &mut Vec<Await>, channels: &[Channel], have: &Clock, cursor: &Cursor)
    requires stands { (t : Trace) × (j : ℕ) × Stands cursor.now t j × (t.channels ≡ channels.now) }
    requires have { length have.now ≡ length channels.now }
    requires room { vec_len out.old + length channels.now ≤ vec_capacity out.old }
    ensures { (t : Trace) (j p : ℕ) (packet : Packet) → Stands cursor.now t j → t.channels ≡ channels.now
        → IsNth (does cursor.now.kind cursor.now.channel) t.packets j p packet
        → out.new.items ≡ out.old.items ++ awaits channels.now (slice_index have.now) (epoch_clock t.packets p) }
{
    for (c, _channel) in channels.iter().enumerate() {
        let need = cursor.need(c);
        put_await(out, c, have.get(c), need);
    }
}

/// Adds an event with what it awaits, if it awaits anything. There is room for it.
fn put_held(out: &mut Vec<Held>, event: Event, awaits: Awaits)
    requires { vec_len out.old < vec_capacity out.old }
    ensures items { out.new.items ≡ out.old.items ++ held_if event awaits }
    ensures len { vec_len out.new ≤ vec_len out.old + 1 }
    ensures capacity { vec_capacity out.new ≡ vec_capacity out.old }
{
    if !awaits.is_empty() {
        out.push_reserved(Held { event, awaits });
    }
}

/// Adds the next event of this kind on channel `c` where it is recorded and held back. `list` is empty, with room for one await of
/// each channel, and `out` has room for the event.
fn put_event(
    out: &mut Vec<Held>,
    mut list: Vec<Await>,
    channels: &[Channel],
    cursors: &Cursors,
    have: &Clock,
    kind: Kind,
    c: usize,
)
    requires kind { kind ≢ Kind.Reset }
    requires stands { (t : Trace) × (before : ℕ → ℕ) × AreBehind t before cursors.now × (t.channels ≡ channels.now) }
    requires channel { c < length channels.now }
    requires have { length have.now ≡ length channels.now }
    requires empty { list.items ≡ [] }
    requires list { vec_len list + length channels.now ≤ vec_capacity list }
    requires room { vec_len out.old < vec_capacity out.old }
    ensures items { (t : Trace) (rows : List OneRow) → AreBehind t (done rows) cursors.now → t.channels ≡ channels.now
        → ((d : ℕ) → d < length channels.now → slice_index have.now d ≡ done rows d)
        → out.new.items ≡ out.old.items
        ++ held_event channels.now (epoch_at t cursors.now) rows (event_in cursors.now.epoch c kind (done rows c)) }
    ensures len { vec_len out.new ≤ vec_len out.old + 1 }
    ensures capacity { vec_capacity out.new ≡ vec_capacity out.old }
{
    if has_next(cursors, kind, c) {
        list_awaits(&mut list, channels, have, cursor_of(cursors, kind, c));
        let event = Event {
            channel: c,
            kind,
            index: have.get(c),
            epoch: cursors.epoch,
        };
        put_held(out, event, Items::from_vec(list));
    }
}

/// Adds what is held back of channel `c`, which has this direction. `list` is empty, with room for one await of each channel, and `out` has room for an event.
fn put_controlled(
    out: &mut Vec<Held>,
    list: Vec<Await>,
    channels: &[Channel],
    cursors: &Cursors,
    have: &Clock,
    last: &Row,
    c: usize,
    dir: Dir,
)
    requires stands { (t : Trace) × (before : ℕ → ℕ) × AreBehind t before cursors.now × (t.channels ≡ channels.now) }
    requires channel { c < length channels.now }
    requires have { length have.now ≡ length channels.now }
    requires empty { list.items ≡ [] }
    requires list { vec_len list + length channels.now ≤ vec_capacity list }
    requires room { vec_len out.old < vec_capacity out.old }
    ensures items { (t : Trace) (rows : List OneRow) → AreBehind t (done rows) cursors.now → t.channels ≡ channels.now
        → IsKept (length channels.now) rows have.now last.now
        → out.new.items ≡ out.old.items
        ++ flat_map (held_event channels.now (epoch_at t cursors.now) rows) (controlled_in cursors.now.epoch rows c dir) }
    ensures len { vec_len out.new ≤ vec_len out.old + 1 }
    ensures capacity { vec_capacity out.new ≡ vec_capacity out.old }
{
    match dir {
        Dir::Inward => {
            if !is_in_flight(last, c) {
                put_event(out, list, channels, cursors, have, Kind::Start, c);
            }
        }
        Dir::Outward => put_event(out, list, channels, cursors, have, Kind::End, c),
    }
}

/// The reset behind this epoch, which has the epoch's number among the resets.
fn reset_event(epoch: u32) -> Event
    ensures { result ≡ reset_event epoch }
{
    Event {
        channel: 0,
        kind: Kind::Reset,
        index: epoch,
        epoch,
    }
}

/// Adds the reset behind the epoch, where there is one and it is held back. `list` is empty, with room for one await of each channel, and `out`
/// has room for the event.
fn put_reset(
    out: &mut Vec<Held>,
    mut list: Vec<Await>,
    channels: &[Channel],
    cursors: &Cursors,
    have: &Clock,
)
    requires stands { (t : Trace) × (before : ℕ → ℕ) × AreBehind t before cursors.now × (t.channels ≡ channels.now) }
    requires have { length have.now ≡ length channels.now }
    requires empty { list.items ≡ [] }
    requires list { vec_len list + length channels.now ≤ vec_capacity list }
    requires room { vec_len out.old < vec_capacity out.old }
    ensures { (t : Trace) (rows : List OneRow) → AreBehind t (done rows) cursors.now → t.channels ≡ channels.now
        → ((d : ℕ) → d < length channels.now → slice_index have.now d ≡ done rows d)
        → out.new.items ≡ out.old.items
        ++ held_reset cursors.now.epoch (has_later t cursors.now) channels.now (epoch_at t cursors.now) rows }
{
    if !cursors.reset.at_end() {
        list_awaits(&mut list, channels, have, &cursors.reset);
        put_held(out, reset_event(cursors.epoch), Items::from_vec(list));
    }
}

/// What a replay holds back: in channel order, each next event of the epoch that the replayers control, where it is recorded and its clock
/// isn't covered, and last the epoch's reset, each with everything that it awaits. `out` and the lists of `spare` are empty, with room for
/// one of each channel and one more.
fn list_held(
    mut out: Vec<Held>,
    mut spare: Vec<Vec<Await>>,
    channels: &[Channel],
    cursors: &Cursors,
    have: &Clock,
    last: &Row,
) -> Helds
    requires stands { (t : Trace) × (before : ℕ → ℕ) × AreBehind t before cursors.now × (t.channels ≡ channels.now) }
    requires have { length have.now ≡ length channels.now }
    requires empty { out.items ≡ [] }
    requires room { vec_len out + (length channels.now + 1) ≤ vec_capacity out }
    requires spare { AreSpare (length channels.now) (length channels.now + 1) spare.items }
    ensures { (t : Trace) (rows : List OneRow) → AreBehind t (done rows) cursors.now → t.channels ≡ channels.now
        → IsKept (length channels.now) rows have.now last.now
        → result ≡ held_of cursors.now.epoch (has_later t cursors.now) channels.now (epoch_at t cursors.now) rows }
{
    for (c, channel) in channels.iter().enumerate() {
        let list = spare.take_last();
        put_controlled(
            &mut out,
            list,
            channels,
            cursors,
            have,
            last,
            c,
            channel.dir,
        );
    }
    put_reset(&mut out, spare.take_last(), channels, cursors, have);
    Items::from_vec(out)
}

/// The next event of channel `c` in this epoch: a start while it is idle, else the completion.
fn next_event(have: &Clock, last: &Row, c: usize, epoch: u32) -> Event
    requires { c < length have.now }
    ensures channel { result.channel ≡ c }
    ensures kind { result.kind ≢ Kind.Reset }
    ensures next { (n : ℕ) (rows : List OneRow) → IsKept n rows have.now last.now → c < n → result ≡ next_event_in epoch rows c }
{
    let kind = if is_in_flight(last, c) {
        Kind::End
    } else {
        Kind::Start
    };
    Event {
        channel: c,
        kind,
        index: have.get(c),
        epoch,
    }
}

fn same_event(a: Event, b: Event) -> bool
    ensures { result ≡ same_event a b }
{
    a.epoch == b.epoch && a.channel == b.channel && a.kind == b.kind && a.index == b.index
}

/// Whether an event is one of those held back.
fn is_held(helds: &[Held], event: Event) -> bool
    ensures { result ≡ is_held helds.now event }
{
    for held in helds {
        if same_event(held.event, event) {
            return true;
        }
    }
    false
}

/// Adds the next event of channel `c`, where it is recorded and isn't held back. There is room for it.
fn put_wait(
    out: &mut Vec<Event>,
    helds: &[Held],
    cursors: &Cursors,
    have: &Clock,
    last: &Row,
    c: usize,
)
    requires stands { (t : Trace) × (before : ℕ → ℕ) × AreBehind t before cursors.now × (c < length t.channels) }
    requires have { c < length have.now }
    requires room { vec_len out.old < vec_capacity out.old }
    ensures items { (t : Trace) (rows : List OneRow) → AreBehind t (done rows) cursors.now
        → IsKept (length t.channels) rows have.now last.now → c < length t.channels
        → out.new.items ≡ out.old.items ++ filter (λ (e : OneEvent). not (is_held helds.now e))
        (recorded_next_in cursors.now.epoch (epoch_at t cursors.now) rows c) }
    ensures len { vec_len out.new ≤ vec_len out.old + 1 }
    ensures capacity { vec_capacity out.new ≡ vec_capacity out.old }
{
    let event = next_event(have, last, c, cursors.epoch);
    if has_next(cursors, event.kind, c) && !is_held(helds, event) {
        out.push_reserved(event);
    }
}

/// Adds the reset behind the epoch, where there is one and it isn't held back. There is room for it.
fn put_reset_wait(out: &mut Vec<Event>, helds: &[Held], cursors: &Cursors)
    requires stands { (t : Trace) × (before : ℕ → ℕ) × AreBehind t before cursors.now }
    requires room { vec_len out.old < vec_capacity out.old }
    ensures { (t : Trace) (have : ℕ → ℕ) (channels : List OneChannel) (rows : List OneRow) → AreBehind t have cursors.now
        → helds.now ≡ held_of cursors.now.epoch (has_later t cursors.now) channels (epoch_at t cursors.now) rows
        → out.new.items ≡ out.old.items
        ++ waits_reset cursors.now.epoch (has_later t cursors.now) channels (epoch_at t cursors.now) rows }
{
    let event = reset_event(cursors.epoch);
    if !cursors.reset.at_end() && !is_held(helds, event) {
        out.push_reserved(event);
    }
}

/// What a replay waits for: in channel order, each channel's next recorded event of the epoch that isn't held back, and last the epoch's
/// reset. `out` is empty, with room for one of each channel and one more.
fn list_waits(
    mut out: Vec<Event>,
    helds: &[Held],
    channels: &[Channel],
    cursors: &Cursors,
    have: &Clock,
    last: &Row,
) -> Events
    requires stands { (t : Trace) × (before : ℕ → ℕ) × AreBehind t before cursors.now × (t.channels ≡ channels.now) }
    requires have { length have.now ≡ length channels.now }
    requires empty { out.items ≡ [] }
    requires room { vec_len out + (length channels.now + 1) ≤ vec_capacity out }
    ensures { (t : Trace) (rows : List OneRow) → AreBehind t (done rows) cursors.now → t.channels ≡ channels.now
        → IsKept (length channels.now) rows have.now last.now
        → helds.now ≡ held_of cursors.now.epoch (has_later t cursors.now) channels.now (epoch_at t cursors.now) rows
        → result ≡ waits_of cursors.now.epoch (has_later t cursors.now) channels.now (epoch_at t cursors.now) rows }
{
    for (c, _channel) in channels.iter().enumerate() {
        put_wait(&mut out, helds, cursors, have, last, c);
    }
    put_reset_wait(&mut out, helds, cursors);
    Items::from_vec(out)
}

/// What a replay holds back after its rows, and what it waits for: `have` has the completions of each channel in them, and which
/// channels are in flight the last row says. The room is that of `Lists::new`.
pub(crate) fn held_and_waits(
    room: Lists,
    channels: &Channels,
    cursors: &Cursors,
    have: &Clock,
    last: &Row,
) -> (Helds, Events)
    requires room { HasRoom (length channels.now) room }
    requires have { length have.now ≡ length channels.now }
    requires stands { (t : Trace) × (before : ℕ → ℕ) × AreBehind t before cursors.now × (t.channels ≡ channels.now) }
    ensures held { (t : Trace) (rows : List OneRow) → AreBehind t (done rows) cursors.now → t.channels ≡ channels.now
        → IsKept (length channels.now) rows have.now last.now
        → result.0 ≡ held_of cursors.now.epoch (has_later t cursors.now) channels.now (epoch_at t cursors.now) rows }
    ensures waits { (t : Trace) (rows : List OneRow) → AreBehind t (done rows) cursors.now → t.channels ≡ channels.now
        → IsKept (length channels.now) rows have.now last.now
        → result.1 ≡ waits_of cursors.now.epoch (has_later t cursors.now) channels.now (epoch_at t cursors.now) rows }
{
    let Lists {
        held,
        waits,
        awaits,
    } = room;
    let channels = channels.as_slice();
    let helds = list_held(held, awaits, channels, cursors, have, last);
    let events = list_waits(waits, helds.as_slice(), channels, cursors, have, last);
    (helds, events)
}
