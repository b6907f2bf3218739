//! The environment that a memory is.

ghost use Rattle.std.proofs.Common.{sym};
ghost use Rattle.std.specs.Prelude.{◌≡◌, ◌≤◌, ◌<◌, ◌^◌, ◌%◌, ℕ, true, List, Some, None, [], length, slice_get, slice_index, IfOk, if◌then◌else◌};
ghost use Rattle.std.proofs.Props.{props};
ghost use Rattle.axi_burst.specs.declared.axi_text.AxiText.{AxiText};
ghost use Rattle.axi_burst.specs.Binding.{IsBound};
ghost use Rattle.axi_burst.specs.Passes.{IsAddress};
ghost use Rattle.axi_burst.specs.Transfers.{begun_address};
ghost use Rattle.trace_model.proofs.ContentsLemmas.{fit_prop};
ghost use Rattle.env_script.specs.trace_model.declared.channel.Channel.{Channel};
ghost use Rattle.env_script.specs.trace_model.Channel.{IsTable};
ghost use Rattle.env_script.specs.trace_model.Packet.{widths_of};
ghost use Rattle.env_script.specs.trace_model.Row.{IsOver, content_at};
ghost use Rattle.env_script.specs.trace_model.vidi_bits.Findings.{first};
ghost use Rattle.env_script.specs.Offered.{AreLasting};
ghost use Rattle.axi_memory.specs.Lack.{lacks};
ghost use Rattle.axi_memory.specs.Memory.{is_place, memory_offer, offer_of, read_number, role_at, word_of, word_under};
ghost use Rattle.axi_memory.specs.Stands.{AreBeats, AreServed, AreTurns, OffersAsKept, StandsFor, answers, has_address, id_of, later};
ghost use Rattle.axi_memory.specs.Stands.{moved, next_read};
ghost use Rattle.axi_memory.specs.Stands.{next_shown, next_words, next_write, number_of, ports_of, served, standing, wants};

use crate::content::{content_at, number_at};
use crate::served::{Ports, Served};
use crate::turn::Turn;
use crate::word::{word_at, write_word};
use axi_burst::{AddressPorts, Axi, Role, address_at};
use env_script::Env;
use env_script::trace_model::vidi_bits::{Memory, Numbers};
use env_script::trace_model::{Channel, Channels, Row, names};
use std::alloc::Global;

/// A memory that answers the port of a design that makes requests: one burst of writes and one of reads at a time.
#[derive(Drop)]
pub struct MemoryEnv<'a> {
    channels: &'a Channels,
    ports: Ports,
    words: Numbers,
    /// The next beat of the write burst that is out, or the place behind its last one.
    writing: Option<Turn>,
    /// The read beat that is offered.
    reading: Option<Turn>,
    /// The word of that beat, 0 while there is none.
    shown: u128,
    /// How many rows were committed.
    cycle: u32,
    ghost wired: { AreServed channels.now ports },
    ghost kept: { OffersAsKept (served channels.now ports) } by { Prim.hlevel props },
    ghost lasting: { AreLasting channels.now (memory_offer (served channels.now ports)) } by { Prim.hlevel (props, fit_prop) },
    ghost writes: { AreTurns writing },
    ghost reads: { AreBeats reading },
}

/// What channel of the port a channel is.
fn role_at(ports: &Ports, channel: usize) -> Option<Role>
    ensures { result ≡ role_at ports.now channel }
{
    if channel == ports.writes.aw.channel {
        Some(Role::WriteAddress)
    } else if channel == ports.writes.w {
        Some(Role::WriteData)
    } else if channel == ports.writes.b {
        Some(Role::WriteResponse)
    } else if channel == ports.reads.ar.channel {
        Some(Role::ReadAddress)
    } else if channel == ports.reads.r {
        Some(Role::ReadData)
    } else {
        None
    }
}

/// Whether a write burst has beats to come.
fn wants(writing: &Option<Turn>) -> bool
    ensures { result ≡ wants writing.now }
{
    match writing {
        Some(turn) => turn.beat < turn.ask.beats,
        None => false,
    }
}

/// Whether all beats of a write burst have come.
fn answers(writing: &Option<Turn>) -> bool
    ensures { result ≡ answers writing.now }
{
    match writing {
        Some(turn) => turn.ask.beats <= turn.beat,
        None => false,
    }
}

fn id_of(writing: &Option<Turn>) -> u128
    ensures { result ≡ id_of writing.now }
{
    match writing {
        Some(turn) => turn.ask.id,
        None => 0,
    }
}

fn is_place(place: Option<usize>, port: usize) -> bool
    ensures { result ≡ is_place place port }
{
    match place {
        Some(place) => place == port,
        None => false,
    }
}

/// The number of a port of the response, 0 while none is given.
fn response(ports: &Ports, writing: &Option<Turn>, port: usize) -> u128
    ensures { result ≡ (if answers writing.now then (if is_place ports.now.writes.id port then id_of writing.now else 0) else 0) }
{
    if answers(writing) && is_place(ports.writes.id, port) {
        id_of(writing)
    } else {
        0
    }
}

/// The number of a port of the read beat, 0 where there is none.
fn read_number(ports: &Ports, turn: &Option<Turn>, shown: u128, port: usize) -> u128
    requires { AreBeats turn.now }
    ensures { (channels : List Channel) → result ≡ read_number (served channels ports.now) turn.now shown port }
{
    let Some(turn) = turn else {
        return 0;
    };
    if ports.places.rdata == port {
        shown
    } else if is_place(ports.reads.id, port) {
        turn.ask.id
    } else if is_place(ports.reads.last, port) {
        u128::from(turn.beat + 1 == turn.ask.beats)
    } else {
        0
    }
}

/// The bits of a number for which a port of this width has room.
fn low_bits(number: u128, width: u8) -> u128
    ensures { result ≡ number % 2 ^ width }
{
    if width >= 128 {
        return number;
    }
    number % (1 << width)
}

/// The width of a channel's port.
fn width_of(channels: &[Channel], channel: usize, port: usize) -> u8
    requires channel { channel < length channels.now }
    requires port { port < length (widths_of (slice_get channels.now channel)) }
    ensures { result ≡ slice_index (widths_of (slice_get channels.now channel)) port }
{
    channels[channel].widths.as_slice()[port]
}

/// The first beat of the burst that an address channel asks for in a row.
fn first_turn(channels: &[Channel], beat: u32, ports: &AddressPorts, row: &Row) -> Turn
    requires over { IsOver channels.now row.now }
    requires ports { has_address channels.now ports.now ≡ true }
    ensures { result ≡ record { ask = begun_address beat ports.now (content_at channels.now row.now.contents ports.now.channel); beat = 0 } }
{
    let content = content_at(channels, row.contents.as_slice(), ports.channel);
    Turn {
        ask: address_at(beat, ports, content),
        beat: 0,
    }
}

/// The beat behind one.
fn moved(turn: Turn) -> Turn
    requires { turn.beat < 2 ^ 31 }
    ensures { result ≡ moved turn }
{
    Turn {
        beat: turn.beat + 1,
        ..turn
    }
}

/// The beat behind the one that is offered, where its burst has more.
fn later(turn: Option<Turn>) -> Option<Turn>
    requires { AreBeats turn }
    ensures { result ≡ later turn }
{
    let turn = turn?;
    if turn.beat + 1 == turn.ask.beats {
        return None;
    }
    Some(moved(turn))
}

/// The next beat of the write burst that is out behind a row.
fn next_write(channels: &[Channel], ports: &Ports, turn: Option<Turn>, row: &Row) -> Option<Turn>
    requires over { IsOver channels.now row.now }
    requires served { AreServed channels.now ports.now }
    requires turn { AreTurns turn }
    ensures { result ≡ next_write (served channels.now ports.now) row.now turn }
{
    if names(row.ends, ports.writes.b) {
        return None;
    }
    if names(row.ends, ports.writes.aw.channel) {
        return Some(first_turn(channels, ports.beat, &ports.writes.aw, row));
    }
    if !names(row.ends, ports.writes.w) {
        return turn;
    }
    match turn {
        Some(turn) => Some(moved(turn)),
        None => None,
    }
}

/// The read beat that is offered behind a row.
fn next_read(channels: &[Channel], ports: &Ports, turn: Option<Turn>, row: &Row) -> Option<Turn>
    requires over { IsOver channels.now row.now }
    requires served { AreServed channels.now ports.now }
    requires turn { AreBeats turn }
    ensures { result ≡ next_read (served channels.now ports.now) row.now turn }
{
    if names(row.ends, ports.reads.ar.channel) {
        return Some(first_turn(channels, ports.beat, &ports.reads.ar, row));
    }
    if names(row.ends, ports.reads.r) {
        return later(turn);
    }
    turn
}

/// The number of a beat's word.
fn word_of(ports: &Ports, turn: &Turn) -> u128
    requires beat { 1 ≤ ports.now.beat }
    requires ask { IsAddress turn.now.ask }
    ensures { (channels : List Channel) → result ≡ word_of (served channels ports.now) turn.now }
{
    turn.address() / u128::from(ports.beat)
}

/// Writes the beat that a row completes into its word.
fn store(words: &mut Numbers, channels: &[Channel], ports: &Ports, turn: &Option<Turn>, row: &Row)
    requires served { AreServed channels.now ports.now }
    requires turn { AreTurns turn.now }
    ensures { words.new ≡ next_words (served channels.now ports.now) row.now turn.now words.old }
{
    if !names(row.ends, ports.writes.w) {
        return;
    }
    let Some(turn) = turn else {
        return;
    };
    let content = content_at(channels, row.contents.as_slice(), ports.writes.w);
    let new = number_at(content, ports.places.wdata);
    let strobe = number_at(content, ports.places.wstrb);
    write_word(words, ports.beat, word_of(ports, turn), new, strobe);
}

/// The word of a beat, 0 where there is none.
fn word_under(words: &Numbers, ports: &Ports, turn: &Option<Turn>) -> u128
    requires beat { 1 ≤ ports.now.beat }
    requires turn { AreBeats turn.now }
    ensures { (channels : List Channel) → result ≡ word_under (served channels ports.now) words.now turn.now }
{
    match turn {
        Some(turn) => word_at(words, word_of(ports, turn)),
        None => 0,
    }
}

/// The word that is shown behind a row: it is read where a read beat comes to be offered, and then stays.
fn next_shown(words: &Numbers, ports: &Ports, turn: &Option<Turn>, row: &Row, shown: u128) -> u128
    requires beat { 1 ≤ ports.now.beat }
    requires turn { AreBeats turn.now }
    ensures { (channels : List Channel) → result ≡ next_shown (served channels ports.now) row.now turn.now words.now shown }
{
    if names(row.ends, ports.reads.ar.channel) || names(row.ends, ports.reads.r) {
        return word_under(words, ports, turn);
    }
    shown
}

/// The memory's size and port, where a file lacks nothing of them.
fn ports_of(axi: &Axi) -> Option<Ports>
    ensures { result ≡ ports_of axi.now }
{
    Some(Ports {
        beat: axi.beat,
        words: axi.memory?,
        writes: axi.writes?,
        reads: axi.reads?,
        places: axi.places?,
    })
}

impl<'a> MemoryEnv<'a> {
    /// A memory of zeros behind a port that was bound to these channels. It takes memory for its words alone.
    pub fn new(alloc: Global, axi: &Axi, channels: &'a Channels) -> Result<MemoryEnv<'a>, Memory>
        requires table { IsTable channels.now }
        requires bound { (text : AxiText) × IsBound text channels.now axi.now }
        requires whole { first (lacks axi.now channels.now) ≡ None }
        ensures plan { IfOk result (λ env. ports_of axi.now ≡ Some env.ports) }
        ensures channels { IfOk result (λ env. env.channels.now ≡ channels.now) }
        ensures committed { IfOk result (λ env. env.cycle ≡ 0) }
        ensures rows { IfOk result (λ env. StandsFor (served env.channels.now env.ports) env.writing env.reading env.shown env.words env.cycle []) }
    {
        let Some(ports) = ports_of(axi) else {
            unreachable!()
        };
        let words = Numbers::from_vec(vec![in alloc; 0u128; ports.words as usize]?);
        Ok(MemoryEnv {
            channels,
            ports,
            words,
            writing: None,
            reading: None,
            shown: 0,
            cycle: 0,
        })
    }

    /// The number of a port before upper bits are lost.
    fn number(&self, channel: usize, port: usize) -> u128
        ensures { result ≡ number_of (served self.now.channels.now self.now.ports) (standing self.now.writing self.now.reading self.now.shown)
            (role_at self.now.ports channel) port }
    {
        match role_at(&self.ports, channel) {
            Some(Role::WriteResponse) => response(&self.ports, &self.writing, port),
            Some(Role::ReadData) => read_number(&self.ports, &self.reading, self.shown, port),
            _ => 0,
        }
    }
}

impl<'a> Env for MemoryEnv<'a> {
    type Plan = Served;

    ghost plan = { λ s. served s.channels.now s.ports };

    ghost channels = { λ s. s.channels.now };

    ghost offer = { memory_offer };

    ghost stands_for = { λ s rows. StandsFor (served s.channels.now s.ports) s.writing s.reading s.shown s.words s.cycle rows };

    ghost current = { λ s c. offer_of (served s.channels.now s.ports) (standing s.writing s.reading s.shown) c };

    ghost committed = { λ s. s.cycle };

    ghost offers_now = { λ s rows stands c. s.kept s.writing s.reading s.shown s.words s.cycle rows stands c };

    ghost counts = { λ s rows stands. sym stands.cycle_is };

    ghost fits = { λ s rows c channel at. s.lasting.fits rows c channel at };

    ghost stays = { λ s rows row c carries up unended. s.lasting.stays rows row c carries up unended };

    fn valid(&self, channel: usize) -> bool {
        match role_at(&self.ports, channel) {
            Some(Role::WriteResponse) => answers(&self.writing),
            Some(Role::ReadData) => self.reading.is_some(),
            _ => false,
        }
    }

    fn content(&self, channel: usize, port: usize) -> u128 {
        let width = width_of(self.channels.as_slice(), channel, port);
        low_bits(self.number(channel, port), width)
    }

    fn ready(&self, channel: usize) -> bool {
        match role_at(&self.ports, channel) {
            Some(Role::WriteAddress) => self.writing.is_none(),
            Some(Role::WriteData) => wants(&self.writing),
            Some(Role::ReadAddress) => self.reading.is_none(),
            _ => false,
        }
    }

    fn commit(&mut self, row: &Row) {
        let channels = self.channels.as_slice();
        store(&mut self.words, channels, &self.ports, &self.writing, row);
        self.writing = next_write(channels, &self.ports, self.writing, row);
        self.reading = next_read(channels, &self.ports, self.reading, row);
        self.shown = next_shown(&self.words, &self.ports, &self.reading, row, self.shown);
        self.cycle += 1;
    }
}
