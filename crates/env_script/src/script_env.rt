//! The environment that plays a script.

ghost use Rattle.std.proofs.Common.{sym};
ghost use Rattle.std.specs.Prelude.{◌≡◌, ◌≤◌, ℕ, [], length, replicate, slice_get, slice_index, IfOk};
ghost use Rattle.std.specs.Option.{option_copied};
ghost use Rattle.std.proofs.Props.{props};
ghost use Rattle.trace_model.proofs.ContentsLemmas.{fit_prop};
ghost use Rattle.env_script.specs.Fits.{steps_of, FitsChannels};
ghost use Rattle.env_script.specs.Offered.{AreLasting};
ghost use Rattle.env_script.specs.ScriptOffer.{script_offer};
ghost use Rattle.env_script.specs.Places.{AllReadWithin, OffersAtPlaces, StandsFor, step_at, offer_at, reads_prop};

use crate::env::Env;
use crate::place::{Place, count_ends, move_on};
use crate::script::{Script, Step};
use run_model::chan_map::Map;
use run_model::trace_model::{Channels, Row};
use run_model::vidi_bits::Memory;
use std::alloc::Global;

/// The environment that plays a script: on each channel its steps one after the other.
#[derive(Drop)]
pub struct ScriptEnv<'a> {
    script: &'a Script,
    channels: &'a Channels,
    /// The place of each channel in its steps.
    places: Vec<Place>,
    /// How often each channel has completed.
    done: Vec<u32>,
    /// How many rows were committed.
    cycle: u32,
    ghost lists: { length script.now.steps ≡ length channels.now },
    ghost reads: { (c : ℕ) → AllReadWithin (length channels.now) (steps_of script.now c) } by { Prim.hlevel (props, reads_prop) },
    ghost offered: { OffersAtPlaces channels.now script.now } by { Prim.hlevel props },
    ghost lasting: { AreLasting channels.now (script_offer script.now) } by { Prim.hlevel (props, fit_prop) },
    ghost all_places: { length places.items ≡ length channels.now },
    ghost all_done: { length done.items ≡ length channels.now },
    ghost few: { (c : ℕ) → slice_index done.items c ≤ cycle },
}

/// A number for each of so many channels, all 0.
fn zeros(alloc: Global, channels: usize) -> Result<Vec<u32>, Memory>
    ensures { IfOk result (λ numbers. numbers.items ≡ replicate channels 0) }
{
    let numbers = vec![in alloc; 0u32; channels]?;
    Ok(numbers)
}

/// A place at the first step for each of so many channels.
fn first_places(alloc: Global, channels: usize) -> Result<Vec<Place>, Memory>
    ensures { IfOk result (λ places. places.items ≡ replicate channels (record { step = 0; reached = 0; before = 0 })) }
{
    let first = Place {
        step: 0,
        reached: 0,
        before: 0,
    };
    let places = vec![in alloc; first; channels]?;
    Ok(places)
}

/// The step with this number of a channel, `None` where there is none.
fn step_of(script: &Script, channel: usize, number: usize) -> Option<&Step>
    ensures { option_copied result ≡ slice_get (steps_of script.now channel) number }
{
    match script.steps.get(channel) {
        Some(steps) => steps.get(number),
        None => None,
    }
}

/// The step at a channel's place, `None` where no step is left.
fn step_at<'a>(script: &'a Script, places: &[Place], channel: usize) -> Option<&'a Step>
    ensures { option_copied result ≡ step_at script.now channel (slice_get places.now channel) }
{
    match places.get(channel) {
        Some(place) => step_of(script, channel, place.step),
        None => None,
    }
}

/// The number of a port, 0 where there is none.
fn number_at(content: &[u128], port: usize) -> u128
    ensures { result ≡ slice_index content.now port }
{
    match content.get(port) {
        Some(number) => *number,
        None => 0,
    }
}

impl<'a> ScriptEnv<'a> {
    /// Plays a script from its first steps on. The script was read with this map. It takes memory for the channels alone.
    pub fn new(alloc: Global, script: &'a Script, map: &'a Map) -> Result<ScriptEnv<'a>, Memory>
        requires { FitsChannels map.now.channels script.now }
        ensures plan { IfOk result (λ env. env.script.now ≡ script.now) }
        ensures channels { IfOk result (λ env. env.channels.now ≡ map.now.channels) }
        ensures committed { IfOk result (λ env. env.cycle ≡ 0) }
        ensures rows { IfOk result (λ env. StandsFor script.now env.places.items env.done.items env.cycle []) }
    {
        let channels = map.channels();
        let done = zeros(alloc, channels.len())?;
        let mut places = first_places(alloc, channels.len())?;
        move_on(script, done.as_slice(), 0, places.as_mut_slice());
        Ok(ScriptEnv {
            script,
            channels,
            places,
            done,
            cycle: 0,
        })
    }

    /// The step of a channel that decides now.
    fn step(&self, channel: usize) -> Option<&Step>
        ensures { option_copied result ≡ step_at self.now.script.now channel (slice_get self.now.places.items channel) }
    {
        step_at(self.script, self.places.as_slice(), channel)
    }
}

impl<'a> Env for ScriptEnv<'a> {
    type Plan = Script;

    ghost plan = { λ s. s.script.now };

    ghost channels = { λ s. s.channels.now };

    ghost offer = { script_offer };

    ghost stands_for = { λ s rows. StandsFor s.script.now s.places.items s.done.items s.cycle rows };

    ghost current = { λ s c. offer_at s.script.now s.places.items c };

    ghost committed = { λ s. s.cycle };

    ghost offers_now = { λ s rows stands c. s.offered s.places.items s.done.items s.cycle rows s.all_places stands c };

    ghost counts = { λ s rows stands. sym stands.counts.cycle_is };

    ghost fits = { λ s rows c channel at. s.lasting.fits rows c channel at };

    ghost stays = { λ s rows row c carries up unended. s.lasting.stays rows row c carries up unended };

    fn valid(&self, channel: usize) -> bool {
        matches!(self.step(channel), Some(Step::Send { .. }))
    }

    fn content(&self, channel: usize, port: usize) -> u128 {
        match self.step(channel) {
            Some(Step::Send { content }) => number_at(content.as_slice(), port),
            _ => 0,
        }
    }

    fn ready(&self, channel: usize) -> bool {
        matches!(self.step(channel), Some(Step::Take { .. } | Step::TakeAll))
    }

    fn commit(&mut self, row: &Row) {
        self.cycle += 1;
        count_ends(self.done.as_mut_slice(), row.ends);
        move_on(
            self.script,
            self.done.as_slice(),
            self.cycle,
            self.places.as_mut_slice(),
        );
    }
}
