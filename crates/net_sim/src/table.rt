//! The table of nets by name.

ghost use Rattle.std.specs.Prelude.{◌≡◌, ◌<◌, ◌≤◌, ◌==◌, ◌∷◌, [], nat_eq, All, IfOk, OnOk, length, slice_index, if◌then◌else◌};
ghost use Rattle.std.specs.Map.{lookup};
ghost use Rattle.net_design.specs.Names.{AreAfterParents};
ghost use Rattle.indexmap.specs.IndexMap.{insert_entry};
ghost use Rattle.net_sim.specs.Table.{hash_from, ArePaths, IsTable};

use indexmap::IndexMap;
use net_design::{Instance, Net};
use net_order::vidi_bits::{Items, Memory};
use std::alloc::Global;

/// Places of nets, each under the number of its full name. Of nets with one number one is there.
pub type Table = IndexMap<u64, usize>;

/// What a number is multiplied with before a byte is added.
const FACTOR: u64 = 1_099_511_628_211;

/// The number of a text, which goes on from that of the text before it.
fn hash(before: u64, text: &[u8]) -> u64
    ensures { result ≡ hash_from before text.now }
{
    let mut hash = before;
    for byte in text {
        hash = hash.wrapping_mul(FACTOR).wrapping_add(u64::from(*byte));
    }
    hash
}

/// The number of the path of instance `i`, from those of the paths before it.
fn path_hash(hashes: &[u64], i: usize, instance: &Instance) -> u64
    requires { 1 ≤ i → instance.now.parent < length hashes.now }
    ensures { result ≡ (if i == 0 then 0 else hash_from (hash_from (slice_index hashes.now instance.now.parent) instance.now.name) (46 ∷ [])) }
{
    if i == 0 {
        return 0;
    }
    hash(
        hash(hashes[instance.parent], instance.name.as_slice()),
        b".",
    )
}

/// The numbers of the paths of instances.
fn path_hashes(alloc: Global, instances: &[Instance]) -> Result<Items<u64>, Memory>
    requires { AreAfterParents instances.now }
    ensures { IfOk result (λ hashes. ArePaths instances.now (length instances.now) hashes) }
{
    let mut hashes = Items::new(alloc);
    for (i, instance) in instances.iter().enumerate() {
        let hash = path_hash(hashes.as_slice(), i, instance);
        hashes.push(hash)?;
    }
    Ok(hashes)
}

/// The place under a number.
pub fn place_under(table: &Table, hash: u64) -> Option<usize>
    ensures { result ≡ lookup (nat_eq hash) table.now.entries }
{
    table.get(&hash).copied()
}

/// The place under the number of a name.
pub fn place_of(table: &Table, name: &[u8]) -> Option<usize>
    ensures { result ≡ lookup (nat_eq (hash_from 0 name.now)) table.now.entries }
{
    place_under(table, hash(0, name))
}

/// Puts a place under the number of a net's name.
fn add_net(table: &mut Table, path: u64, name: &[u8], m: usize) -> Result<(), Memory>
    ensures { OnOk result (table.new.entries ≡ insert_entry nat_eq table.old.entries (hash_from path name.now) m) }
{
    table.insert(hash(path, name), m)?;
    Ok(())
}

/// The table of nets by name.
pub fn table_of(alloc: Global, instances: &[Instance], nets: &[Net]) -> Result<Table, Memory>
    requires parents { AreAfterParents instances.now }
    requires within { All (λ n. n.instance < length instances.now) nets.now }
    ensures { IfOk result (λ table. IsTable instances.now nets.now (length nets.now) table.entries) }
{
    let hashes = path_hashes(alloc, instances)?;
    let paths = hashes.as_slice();
    let mut table = Table::new(alloc);
    for (m, net) in nets.iter().enumerate() {
        add_net(&mut table, paths[net.instance], net.name.as_slice(), m)?;
    }
    Ok(table)
}
