//! What is named at least once, and what is named at least twice.

ghost use Rattle.std.specs.Prelude.{◌≡◌, ℕ, ◌==◌, ◌&&◌, ◌||◌, false, OnOk};
ghost use Rattle.std.specs.List.{list_any};
ghost use Rattle.net_design.specs.vidi_bits.Number.{has};
ghost use Rattle.net_design.specs.Bits.{named};
ghost use Rattle.net_code.specs.BitMap.{in_map, is_among};

use crate::bit_map::BitMap;
use net_design::Mask;
use net_design::vidi_bits::Memory;
use std::alloc::Global;

/// What is named at least once, and what at least twice, as bits of nets. Of numbers that are named it is bit 0.
#[derive(Drop)]
pub struct Tally {
    pub once: BitMap,
    pub more: BitMap,
}

/// Adds those bits of a mask that are in a set to another.
fn add_again(once: &BitMap, more: &mut BitMap, mask: Mask) -> Result<(), Memory>
    ensures { OnOk result ((m k : ℕ) → in_map more.new m k
        ≡ (in_map more.old m k || (in_map once.now m k && ((mask.net == m) && has mask.bits k)))) }
{
    let seen = once.mask(mask.net) & mask.bits;
    more.add(mask.net, seen)?;
    Ok(())
}

/// Adds those bits of masks that are in a set to another.
fn add_all_again(once: &BitMap, more: &mut BitMap, masks: &[Mask]) -> Result<(), Memory>
    ensures { OnOk result ((m k : ℕ) → in_map more.new m k ≡ (in_map more.old m k || (in_map once.now m k && named masks.now m k))) }
{
    for mask in masks {
        add_again(once, more, *mask)?;
    }
    Ok(())
}

/// Adds a number that is in a set to another.
fn add_key_again(once: &BitMap, more: &mut BitMap, key: usize) -> Result<(), Memory>
    ensures { OnOk result ((m : ℕ) → in_map more.new m 0 ≡ (in_map more.old m 0 || (in_map once.now m 0 && (key == m)))) }
{
    let mask = Mask { net: key, bits: 1 };
    add_again(once, more, mask)?;
    Ok(())
}

/// Adds those of the numbers that are in a set to another.
fn add_keys_again(once: &BitMap, more: &mut BitMap, keys: &[usize]) -> Result<(), Memory>
    ensures { OnOk result ((m : ℕ) → in_map more.new m 0
        ≡ (in_map more.old m 0 || list_any (λ i. in_map once.now m 0 && (i == m)) keys.now)) }
{
    for key in keys {
        add_key_again(once, more, *key)?;
    }
    Ok(())
}

impl Tally {
    /// Nothing is named.
    pub fn new(alloc: Global) -> Tally
        ensures once { (m k : ℕ) → in_map result.once m k ≡ false }
        ensures more { (m k : ℕ) → in_map result.more m k ≡ false }
    {
        Tally {
            once: BitMap::new(alloc),
            more: BitMap::new(alloc),
        }
    }

    /// Names bits of a net.
    pub fn add(&mut self, net: usize, bits: u128) -> Result<(), Memory>
        ensures once { OnOk result ((m k : ℕ) → in_map self.new.once m k ≡ (in_map self.old.once m k || ((net == m) && has bits k))) }
        ensures more { OnOk result ((m k : ℕ) → in_map self.new.more m k
            ≡ (in_map self.old.more m k || (in_map self.old.once m k && ((net == m) && has bits k)))) }
    {
        let mask = Mask { net, bits };
        add_again(&self.once, &mut self.more, mask)?;
        self.once.add(net, bits)?;
        Ok(())
    }

    /// Names the bits of masks, each bit once, also where more than one of the masks has it.
    pub fn add_masks(&mut self, masks: &[Mask]) -> Result<(), Memory>
        ensures once { OnOk result ((m k : ℕ) → in_map self.new.once m k ≡ (in_map self.old.once m k || named masks.now m k)) }
        ensures more { OnOk result ((m k : ℕ) → in_map self.new.more m k
            ≡ (in_map self.old.more m k || (in_map self.old.once m k && named masks.now m k))) }
    {
        add_all_again(&self.once, &mut self.more, masks)?;
        self.once.add_masks(masks)?;
        Ok(())
    }

    /// Names numbers, each once, also where it is among them more than once.
    pub fn add_keys(&mut self, keys: &[usize]) -> Result<(), Memory>
        ensures once { OnOk result ((m : ℕ) → in_map self.new.once m 0 ≡ (in_map self.old.once m 0 || is_among m keys.now)) }
        ensures more { OnOk result ((m : ℕ) → in_map self.new.more m 0
            ≡ (in_map self.old.more m 0 || (in_map self.old.once m 0 && is_among m keys.now))) }
    {
        add_keys_again(&self.once, &mut self.more, keys)?;
        self.once.add_keys(keys)?;
        Ok(())
    }
}
