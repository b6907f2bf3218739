//! Full names as text.

ghost use Rattle.std.specs.Prelude.{◌≡◌, ◌++◌, ◌∷◌, [], IfOk, OnOk};
ghost use Rattle.flat_parts.specs.vlog_hierarchy.Plain.{plain_path};
ghost use Rattle.flat_parts.specs.vlog_elab.Plain.{plain_instances};
ghost use Rattle.flat_drive.specs.Reasons.{dotted, dotted_all, net_texts, memory_texts, text_at};

use flat_parts::vidi_bits::{Items, Memory, Name};
use flat_parts::vlog_elab::ModuleInstance;
use flat_parts::vlog_size::Table;
use std::alloc::Global;

/// The dot between names.
const DOT: u8 = b'.';

/// Adds bytes.
fn add_bytes(bytes: &[u8], out: &mut Name) -> Result<(), Memory>
    ensures { OnOk result (out.new ≡ out.old ++ bytes.now) }
{
    for byte in bytes {
        out.push(*byte)?;
    }
    Ok(())
}

/// Adds a name and the dot behind it.
fn add_part(part: &Name, out: &mut Name) -> Result<(), Memory>
    ensures { OnOk result (out.new ≡ out.old ++ (part.now ++ 46 ∷ [])) }
{
    add_bytes(part.as_slice(), out)?;
    out.push(DOT)
}

/// A name in the instance at a path.
fn dotted(alloc: Global, path: &[&Name], name: &[u8]) -> Result<Name, Memory>
    ensures { IfOk result (λ text. text ≡ dotted (plain_path path.now) name.now) }
{
    let mut out = Items::new(alloc);
    for part in path {
        add_part(part, &mut out)?;
    }
    add_bytes(name, &mut out)?;
    Ok(out)
}

/// The name at a place of a table of the instance at a path; empty where there is none.
#[tactic(auto, using(crate::proofs::Places::at_some, crate::proofs::Places::at_none))]
fn name_in<V>(alloc: Global, path: &[&Name], table: &Table<V>, place: usize) -> Result<Name, Memory>
    ensures { IfOk result (λ text. text ≡ text_at (dotted_all (plain_path path.now) table.now) place) }
{
    match table.name_at(place) {
        Some(name) => dotted(alloc, path, name),
        None => Ok(Items::new(alloc)),
    }
}

/// The full name of a net of the design.
pub fn net_name(alloc: Global, list: &[ModuleInstance<'_>], net: usize) -> Result<Name, Memory>
    ensures { IfOk result (λ text. text ≡ text_at (net_texts (plain_instances list.now)) net) }
{
    let mut left = net;
    for instance in list {
        let count = instance.scope.nets.len();
        if left < count {
            return name_in(alloc, instance.path.as_slice(), &instance.scope.nets, left);
        }
        left -= count;
    }
    Ok(Items::new(alloc))
}

/// The full name of a memory of the design.
pub fn memory_name(
    alloc: Global,
    list: &[ModuleInstance<'_>],
    memory: usize,
) -> Result<Name, Memory>
    ensures { IfOk result (λ text. text ≡ text_at (memory_texts (plain_instances list.now)) memory) }
{
    let mut left = memory;
    for instance in list {
        let count = instance.scope.memories.len();
        if left < count {
            return name_in(
                alloc,
                instance.path.as_slice(),
                &instance.scope.memories,
                left,
            );
        }
        left -= count;
    }
    Ok(Items::new(alloc))
}
