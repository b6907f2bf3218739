//! The instances of the flat design.

ghost use Rattle.std.specs.Prelude.{◌≡◌, ◌+◌, ◌-◌, ◌<◌, ◌≤◌, ◌↔◌, ◌++◌, ◌∷◌, [], IsTrue, IfOk, OnOk, length, take, slice_get, Some};
ghost use Rattle.net_design.specs.Names.{list_at};
ghost use Rattle.flat_parts.specs.vlog_hierarchy.Plain.{plain_path};
ghost use Rattle.flat_parts.specs.vlog_elab.Plain.{plain_instances};
ghost use Rattle.flat_layout.specs.Layout.{AreInstances, paths_of};

use flat_parts::vidi_bits::{Items, Memory, Name, copied};
use flat_parts::vlog_elab::ModuleInstance;
use net_design::Instance;
use std::alloc::Global;

fn same_name(a: &Name, b: &Name) -> bool
    ensures { IsTrue result ↔ (a.now ≡ b.now) }
{
    a.as_slice() == b.as_slice()
}

/// Whether the names of `front` are the first of `path`.
fn begins_with(path: &[&Name], front: &[&Name]) -> bool
    requires { length front.now < length path.now }
    ensures { IsTrue result → take (length front.now) (plain_path path.now) ≡ plain_path front.now }
{
    for (place, name) in front.iter().enumerate() {
        if !same_name(path[place], name) {
            return false;
        }
    }
    true
}

/// The last name of a path, of which `front` are all names but the last. `Memory` where they aren't.
fn name_behind(alloc: Global, path: &[&Name], front: &[&Name]) -> Result<Name, Memory>
    ensures { IfOk result (λ name. plain_path path.now ≡ plain_path front.now ++ name ∷ []) }
{
    if path.len() != front.len() + 1 || !begins_with(path, front) {
        return Err(Memory);
    }
    copied(alloc, path[front.len()].as_slice())
}

/// The instance that the top is.
#[tactic(auto, using(crate::proofs::Chains::path_there))]
fn top_of(alloc: Global, list: &[ModuleInstance<'_>]) -> Result<Instance, Memory>
    requires { 0 < length list.now }
    ensures { IfOk result (λ _. list_at (paths_of (plain_instances list.now)) 0 ≡ []) }
{
    if !list[0].path.is_empty() {
        return Err(Memory);
    }
    Ok(Instance {
        parent: 0,
        name: Items::new(alloc),
    })
}

/// The instance of this number, which stands in that of the number `parent`. `Memory` where their paths say otherwise.
#[tactic(auto, using(crate::proofs::Chains::path_there))]
fn child_of(
    alloc: Global,
    list: &[ModuleInstance<'_>],
    number: usize,
    parent: usize,
) -> Result<Instance, Memory>
    requires { number < length list.now }
    ensures before { IfOk result (λ x. x.parent < number) }
    ensures path { IfOk result (λ x. list_at (paths_of (plain_instances list.now)) number
        ≡ list_at (paths_of (plain_instances list.now)) x.parent ++ x.name ∷ []) }
{
    if parent >= number {
        return Err(Memory);
    }
    let path = list[number].path.as_slice();
    let name = name_behind(alloc, path, list[parent].path.as_slice())?;
    Ok(Instance { parent, name })
}

/// The number of the last instance with one name less in its path, where `chain` has for each length of path the number of the last one.
fn parent_of(chain: &[usize], names: usize) -> Result<usize, Memory>
    ensures { IfOk result (λ p. slice_get chain.now (names - 1) ≡ Some p) }
{
    if names == 0 {
        return Err(Memory);
    }
    match chain.get(names - 1) {
        Some(number) => Ok(*number),
        None => Err(Memory),
    }
}

/// Makes the instance of this number the last with so many names in its path.
fn follow(chain: &mut Items<usize>, names: usize, number: usize) -> Result<(), Memory>
    ensures { OnOk result (chain.new ≡ take names chain.old ++ number ∷ []) }
{
    if names < chain.len() {
        chain.truncate(names);
    }
    chain.push(number)
}

fn add_top(
    alloc: Global,
    list: &[ModuleInstance<'_>],
    number: usize,
    out: &mut Items<Instance>,
) -> Result<(), Memory>
    requires first { number ≡ 0 }
    requires there { number < length list.now }
    requires before { AreInstances out.old (take number (plain_instances list.now)) }
    ensures { OnOk result (AreInstances out.new (take (number + 1) (plain_instances list.now))) }
{
    let top = top_of(alloc, list)?;
    out.push(top)
}

fn add_child(
    alloc: Global,
    list: &[ModuleInstance<'_>],
    chain: &[usize],
    number: usize,
    out: &mut Items<Instance>,
) -> Result<(), Memory>
    requires later { 1 ≤ number }
    requires there { number < length list.now }
    requires before { AreInstances out.old (take number (plain_instances list.now)) }
    ensures { OnOk result (AreInstances out.new (take (number + 1) (plain_instances list.now))) }
{
    let parent = parent_of(chain, list[number].path.len())?;
    let child = child_of(alloc, list, number, parent)?;
    out.push(child)
}

/// Adds the instance of this number, behind all before it.
fn add_instance(
    alloc: Global,
    list: &[ModuleInstance<'_>],
    chain: &[usize],
    number: usize,
    out: &mut Items<Instance>,
) -> Result<(), Memory>
    requires there { number < length list.now }
    requires before { AreInstances out.old (take number (plain_instances list.now)) }
    ensures { OnOk result (AreInstances out.new (take (number + 1) (plain_instances list.now))) }
{
    if number == 0 {
        add_top(alloc, list, number, out)
    } else {
        add_child(alloc, list, chain, number, out)
    }
}

/// The instances of the design: those of the file, which stand in preorder. `Memory` also where some instance has no parent there.
pub fn instances(alloc: Global, list: &[ModuleInstance<'_>]) -> Result<Items<Instance>, Memory>
    ensures { IfOk result (λ d. AreInstances d (plain_instances list.now)) }
{
    let mut out = Items::new(alloc);
    let mut chain: Items<usize> = Items::new(alloc);
    for (number, instance) in list.iter().enumerate() {
        add_instance(alloc, list, chain.as_slice(), number, &mut out)?;
        follow(&mut chain, instance.path.len(), number)?;
    }
    Ok(out)
}
