//! Sets of bits of nets, as a mask for each net.

ghost use Rattle.std.specs.Prelude.{◌≡◌, ℕ, ◌==◌, ◌&&◌, ◌||◌, not, false, if◌then◌else◌, OnOk, IfOk};
ghost use Rattle.net_design.specs.vidi_bits.Number.{has};
ghost use Rattle.net_design.specs.Bits.{named};
ghost use Rattle.net_code.specs.BitMap.{mask_of, in_map, is_among};

use net_design::Mask;
use net_design::vidi_bits::{Items, Memory};
use std::alloc::Global;
use std::collections::BTreeMap;

/// A set of bits of nets.
#[derive(Drop)]
pub struct BitMap {
    masks: BTreeMap<usize, u128>,
}

impl BitMap {
    /// The empty set.
    pub fn new(alloc: Global) -> BitMap
        ensures { (m k : ℕ) → in_map result m k ≡ false }
    {
        BitMap {
            masks: BTreeMap::new(alloc),
        }
    }

    /// The bits that masks name.
    pub fn of_masks(alloc: Global, masks: &[Mask]) -> Result<BitMap, Memory>
        ensures { IfOk result (λ map. (m k : ℕ) → in_map map m k ≡ named masks.now m k) }
    {
        let mut map = BitMap::new(alloc);
        map.add_masks(masks)?;
        Ok(map)
    }

    /// The bits of a net that are in the set.
    pub fn mask(&self, net: usize) -> u128
        ensures { result ≡ mask_of self.now net }
    {
        self.masks.get(&net).copied().unwrap_or(0)
    }

    fn set_mask(&mut self, net: usize, mask: u128) -> Result<(), Memory>
        ensures { OnOk result ((m : ℕ) → mask_of self.new m ≡ (if net == m then mask else mask_of self.old m)) }
    {
        self.masks.insert(net, mask)?;
        Ok(())
    }

    /// Adds bits of a net.
    pub fn add(&mut self, net: usize, bits: u128) -> Result<(), Memory>
        ensures { OnOk result ((m k : ℕ) → in_map self.new m k ≡ (in_map self.old m k || ((net == m) && has bits k))) }
    {
        if bits == 0 {
            return Ok(());
        }
        let mask = self.mask(net);
        self.set_mask(net, mask | bits)?;
        Ok(())
    }

    /// Adds the bits that masks name.
    pub fn add_masks(&mut self, masks: &[Mask]) -> Result<(), Memory>
        ensures { OnOk result ((m k : ℕ) → in_map self.new m k ≡ (in_map self.old m k || named masks.now m k)) }
    {
        for mask in masks {
            self.add(mask.net, mask.bits)?;
        }
        Ok(())
    }

    /// Adds a number, where the set is one of numbers: each stands in it as bit 0 of the net of that number.
    pub fn add_key(&mut self, key: usize) -> Result<(), Memory>
        ensures { OnOk result ((m : ℕ) → in_map self.new m 0 ≡ (in_map self.old m 0 || (key == m))) }
    {
        self.add(key, 1)?;
        Ok(())
    }

    /// Adds numbers.
    pub fn add_keys(&mut self, keys: &[usize]) -> Result<(), Memory>
        ensures { OnOk result ((m : ℕ) → in_map self.new m 0 ≡ (in_map self.old m 0 || is_among m keys.now)) }
    {
        for key in keys {
            self.add_key(*key)?;
        }
        Ok(())
    }

    /// Takes bits of a net out of the set.
    pub fn remove(&mut self, net: usize, bits: u128) -> Result<(), Memory>
        ensures { OnOk result ((m k : ℕ) → in_map self.new m k ≡ (in_map self.old m k && not ((net == m) && has bits k))) }
    {
        let mask = self.mask(net);
        self.set_mask(net, mask & !bits)?;
        Ok(())
    }

    /// The set as masks, one for each net, in the order of the nets.
    pub fn to_masks(&self, alloc: Global) -> Result<Items<Mask>, Memory>
        ensures { IfOk result (λ masks. (m k : ℕ) → named masks m k ≡ in_map self.now m k) }
    {
        let mut out = Items::new(alloc);
        for (net, bits) in &self.masks {
            out.push(Mask {
                net: *net,
                bits: *bits,
            })?;
        }
        Ok(out)
    }
}
