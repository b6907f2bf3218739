//! The modules of a file by name.

ghost use Rattle.std.specs.Prelude.{◌≡◌, ℕ, List, map, Some, None, IfOk, OnOk, nat_eq, if◌then◌else◌};
ghost use Rattle.std.specs.Cmp.Lexicographic.{pointwise};
ghost use Rattle.std.specs.Str.{bytes_eq};
ghost use Rattle.indexmap.specs.IndexMap.{get_by};
ghost use Rattle.vlog_size.specs.vidi_bits.Findings.{or_first};
ghost use Rattle.vlog_tree.specs.Plain.{plain_module};
ghost use Rattle.vlog_hierarchy.specs.Outlines.{place_of};
ghost use Rattle.vlog_hierarchy.specs.Places.{IsIndex};

use indexmap::IndexMap;
use std::alloc::Global;
use vlog_size::vidi_bits::Memory;
use vlog_tree::Module;

/// The place of the first module of each name, counted from 0.
pub type Places = IndexMap<Vec<u8>, usize>;

/// The modules of a file, and their places by name.
#[derive(Drop)]
pub struct Index<'a> {
    pub modules: &'a [Module],
    pub places: Places,
}

/// The place under this name.
fn place_under(places: &Places, name: &[u8]) -> Option<usize>
    ensures { result ≡ get_by (λ v. pointwise nat_eq name.now v.items) places.now }
{
    places.get(name).copied()
}

/// Adds a place, unless there is one of this name.
fn add_place(alloc: Global, places: &mut Places, name: &[u8], place: usize) -> Result<(), Memory>
    ensures { OnOk result ((q : List ℕ) → get_by (λ v. pointwise nat_eq q v.items) places.new
        ≡ or_first (get_by (λ v. pointwise nat_eq q v.items) places.old) (if bytes_eq q name.now then Some place else None)) }
{
    if place_under(places, name).is_some() {
        return Ok(());
    }
    let key = Vec::from_slice(alloc, name)?;
    places.insert(key, place)?;
    Ok(())
}

/// The places of the modules of a file.
fn places_of(alloc: Global, modules: &[Module]) -> Result<Places, Memory>
    ensures { IfOk result (λ t. (name : List ℕ) → get_by (λ v. pointwise nat_eq name v.items) t
        ≡ place_of (map plain_module modules.now) name) }
{
    let mut places = Places::new(alloc);
    for (place, module) in modules.iter().enumerate() {
        add_place(alloc, &mut places, module.name.as_slice(), place)?;
    }
    Ok(places)
}

/// The modules of a file, and their places by name.
pub fn index_of(alloc: Global, modules: &[Module]) -> Result<Index<'_>, Memory>
    ensures is { IfOk result IsIndex }
    ensures same { IfOk result (λ x. x.modules.now ≡ modules.now) }
{
    let places = places_of(alloc, modules)?;
    Ok(Index { modules, places })
}

/// The place of the first module of this name.
pub fn place_named(index: &Index<'_>, name: &[u8]) -> Option<usize>
    requires { IsIndex index.now }
    ensures { result ≡ place_of (map plain_module index.now.modules.now) name.now }
{
    place_under(&index.places, name)
}
