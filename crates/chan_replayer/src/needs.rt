//! The clocks of all channels' next events.

ghost use Rattle.std.specs.Prelude.{◌≡◌, ◌≢◌, ◌+◌, ◌*◌, ◌<◌, ◌≤◌, ◌⊎◌, ℕ, true, IfOk, length, replicate, slice_index, slice_set};
ghost use Rattle.vec_clock.specs.vidi_bits.Number.{has};
ghost use Rattle.chan_replayer.specs.Needs.{clock_at, AreUsers};

use std::alloc::Global;
use std::marker::Model;
use vec_clock::vidi_bits::{Bytes, Items, Memory, Numbers};

/// The clocks of all channels' next events. A contract sees them as one list: the clock of channel 0, one number a channel, then that of
/// channel 1, and so on. A clock that several channels have stands once. Only `new` and `of_numbers` take memory.
#[derive(Drop)]
pub struct Needs {
    /// Places for as many clocks as there are channels.
    clocks: Items<u32>,
    /// The place of each channel's clock.
    places: Bytes,
    /// For each place the channels that have it: bit c is channel c.
    users: Numbers,
}

impl Model for Needs {
    ghost use Rattle.std.specs.Prelude.{ℕ, List};

    ghost Value = { List ℕ };

    ghost use Rattle.chan_replayer.specs.Needs.{all_clocks, AreShared};

    ghost view = { λ s. all_clocks s.places s.clocks };

    ghost invariant = { λ s. AreShared s.places s.users s.clocks };
}

/// A place of its own for each of so many channels.
fn own_places(alloc: Global, channels: usize) -> Result<(Bytes, Numbers), Memory>
    requires { channels ≤ 128 }
    ensures { IfOk result (λ x. (length x.0 ≡ channels) × AreUsers x.0 x.1 × ((c : ℕ) → c < channels → slice_index x.0 c ≡ c)) }
{
    let mut places = Bytes::new(alloc);
    let mut users = Numbers::new(alloc);
    for c in 0..channels {
        places.push(c as u8)?;
        users.push(1u128 << c)?;
    }
    Ok((places, users))
}

/// A place that no channel has.
fn free_place(users: &[u128]) -> usize
    requires { (p : ℕ) × (p < length users.now) × (slice_index users.now p ≡ 0) }
    ensures within { result < length users.now }
    ensures free { slice_index users.now result ≡ 0 }
{
    let mut place = 0;
    while users[place] != 0 {
        place += 1;
    }
    place
}

/// Gives channel `c` this place.
fn move_to(places: &mut [u8], users: &mut [u128], c: usize, place: usize)
    requires users { AreUsers places.old users.old }
    requires channel { c < length places.old }
    requires place { place < length places.old }
    ensures users { AreUsers places.new users.new }
    ensures places { places.new ≡ slice_set places.old c place }
{
    users[usize::from(places[c])] &= !(1 << c);
    users[place] |= 1 << c;
    places[c] = place as u8;
}

/// Gives channel `c` a place that no other channel has.
fn part(places: &mut [u8], users: &mut [u128], c: usize) -> usize
    requires users { AreUsers places.old users.old }
    requires channel { c < length places.old }
    ensures users { AreUsers places.new users.new }
    ensures within { result < length places.old }
    ensures places { places.new ≡ slice_set places.old c result }
    ensures alone { (d : ℕ) → d < length places.old → d ≢ c → slice_index places.old d ≢ result }
{
    let place = usize::from(places[c]);
    if users[place] == 1 << c {
        return place;
    }
    let free = free_place(users);
    move_to(places, users, c, free);
    free
}

/// The clock at a place, of so many numbers.
fn clock_from(clocks: &[u32], channels: usize, place: usize) -> &[u32]
    requires few { channels ≤ 128 }
    requires place { place < channels }
    requires long { length clocks.now ≡ channels * channels }
    ensures { result.now ≡ clock_at channels clocks.now place }
{
    let (_below, from) = clocks.split_at(channels * place);
    let (clock, _above) = from.split_at(channels);
    clock
}

/// Writes a clock of so many numbers from place `at` on.
fn write_clock<F: Fn(usize) -> u32>(clocks: &mut [u32], at: usize, channels: usize, number: F)
    requires room { at + channels ≤ length clocks.old }
    requires told { (d : ℕ) → d < channels → F.pre number d }
    ensures here { (d : ℕ) → d < channels → F.post number d (slice_index clocks.new (at + d)) }
    ensures others { (i : ℕ) → (i < at) ⊎ (at + channels ≤ i) → slice_index clocks.new i ≡ slice_index clocks.old i }
{
    for d in 0..channels {
        clocks[at + d] = number(d);
    }
}

impl Needs {
    /// The clocks of so many channels, of which there are at most 128; all numbers are 0.
    pub fn new(alloc: Global, channels: usize) -> Result<Needs, Memory>
        requires { channels ≤ 128 }
        ensures { IfOk result (λ needs. needs ≡ replicate (channels * channels) 0) }
    {
        let numbers = vec![in alloc; 0u32; channels * channels]?;
        Needs::of_numbers(alloc, channels, Items::from_vec(numbers))
    }

    /// The clocks of so many channels, of which there are at most 128, that these numbers are.
    pub fn of_numbers(alloc: Global, channels: usize, numbers: Items<u32>) -> Result<Needs, Memory>
        requires few { channels ≤ 128 }
        requires long { length numbers ≡ channels * channels }
        ensures { IfOk result (λ needs. needs ≡ numbers) }
    {
        let (places, users) = own_places(alloc, channels)?;
        Ok(Needs {
            clocks: numbers,
            places,
            users,
        })
    }

    /// The clock of channel `c`, one number a channel.
    pub fn clock(&self, c: usize) -> &[u32]
        requires { (n : ℕ) × (length self.now ≡ n * n) × (c < n) }
        ensures { (n : ℕ) → length self.now ≡ n * n → result.now ≡ clock_at n self.now c }
    {
        let place = usize::from(self.places.as_slice()[c]);
        clock_from(self.clocks.as_slice(), self.places.len(), place)
    }

    /// The channels whose clock stands where that of channel `c` does, so that they have the same: bit d is channel d.
    pub fn together(&self, c: usize) -> u128
        requires { (n : ℕ) × (length self.now ≡ n * n) × (c < n) }
        ensures own { has result c ≡ true }
        ensures same { (n d : ℕ) → length self.now ≡ n * n → has result d ≡ true → (d < n) × (clock_at n self.now d ≡ clock_at n self.now c) }
    {
        self.users.as_slice()[usize::from(self.places.as_slice()[c])]
    }

    /// Makes the clock of channel `c` these numbers, number d that of channel d.
    pub fn write<F: Fn(usize) -> u32>(&mut self, c: usize, number: F)
        requires there { (n : ℕ) × (length self.old ≡ n * n) × (c < n) × ((d : ℕ) → d < n → F.pre number d) }
        ensures long { length self.new ≡ length self.old }
        ensures here { (n d : ℕ) → length self.old ≡ n * n → d < n → F.post number d (slice_index self.new (n * c + d)) }
        ensures others { (n d : ℕ) → length self.old ≡ n * n → d ≢ c → clock_at n self.new d ≡ clock_at n self.old d }
    {
        let channels = self.places.len();
        let place = part(self.places.as_mut_slice(), self.users.as_mut_slice(), c);
        write_clock(
            self.clocks.as_mut_slice(),
            channels * place,
            channels,
            number,
        );
    }

    /// Makes the clock of channel `c` that of channel `b`. No number is copied.
    pub fn share(&mut self, c: usize, b: usize)
        requires there { (n : ℕ) × (length self.old ≡ n * n) × (c < n) × (b < n) }
        ensures long { length self.new ≡ length self.old }
        ensures here { (n : ℕ) → length self.old ≡ n * n → clock_at n self.new c ≡ clock_at n self.old b }
        ensures others { (n d : ℕ) → length self.old ≡ n * n → d ≢ c → clock_at n self.new d ≡ clock_at n self.old d }
    {
        let place = usize::from(self.places.as_slice()[b]);
        move_to(
            self.places.as_mut_slice(),
            self.users.as_mut_slice(),
            c,
            place,
        );
    }
}
