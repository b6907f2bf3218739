//! The drivers of the connections of an instance's ports.

ghost use Rattle.std.specs.Prelude.{◌≡◌, ◌≤◌, ◌++◌, ◌∷◌, [], IsTrue, IfOk, OnOk, map};
ghost use Rattle.std.specs.List.{flat_map};
ghost use Rattle.vlog_tree.specs.Plain.{plain_instance, plain_conn};
ghost use Rattle.flat_parts.specs.vlog_hierarchy.Plain.{plain_path};
ghost use Rattle.flat_parts.specs.vlog_driver.Sites.{site_of};
ghost use Rattle.flat_parts.specs.vlog_driver.Duties.{DoMore, conn_duties};
ghost use Rattle.flat_parts.specs.Seats.{seat_named};
ghost use Rattle.flat_parts.specs.Drivers.{joined_duties};
ghost use Rattle.flat_drivers.specs.Seated.{IsFlat, seats_in};

use crate::fits::conns_fit;
use crate::flat::Flat;
use flat_parts::vidi_bits::{Items, Memory, Name};
use flat_parts::vlog_driver::{Site, add_conns};
use flat_parts::vlog_names::Declarations;
use net_design::Driver;
use std::alloc::Global;
use vlog_tree::{Conn, Instance};

fn is_same_name(a: &Name, b: &Name) -> bool
    ensures { IsTrue result → a.now ≡ b.now }
{
    a.as_slice() == b.as_slice()
}

/// Whether two paths have the same names.
fn is_same_path(a: &[&Name], b: &[&Name]) -> bool
    ensures { IsTrue result → plain_path a.now ≡ plain_path b.now }
{
    if a.len() != b.len() {
        return false;
    }
    for k in 0..a.len() {
        if !is_same_name(a[k], b[k]) {
            return false;
        }
    }
    true
}

/// Whether a path is another one with one more name.
fn is_longer_path(longer: &[&Name], path: &[&Name], name: &Name) -> bool
    ensures { IsTrue result → plain_path longer.now ≡ plain_path path.now ++ name.now ∷ [] }
{
    match longer.split_last() {
        Some((last, front)) => is_same_path(front, path) && is_same_name(last, name),
        None => false,
    }
}

/// Adds the drivers of connections in which nothing is found, and gives up at others.
fn add_fit_conns<'a>(
    alloc: Global,
    parent: &Site<'a>,
    child: &Site<'a>,
    names: &Declarations,
    conns: &[Conn],
    out: &mut Items<Driver>,
) -> Result<(), Memory>
    ensures { OnOk result (DoMore (flat_map (conn_duties names.now (site_of parent.now) (site_of child.now)) (map plain_conn conns.now))
        out.old out.new) }
{
    if !conns_fit(alloc, parent, child, names, conns)? {
        return Err(Memory);
    }
    add_conns(alloc, parent, child, names, conns, out)
}

/// Adds the drivers of the connections of a child, which stands at this place of the list.
pub fn add_child<'b>(
    alloc: Global,
    flat: &Flat<'b, '_>,
    path: &[&Name],
    site: &Site<'b>,
    at: usize,
    instance: &Instance,
    out: &mut Items<Driver>,
) -> Result<(), Memory>
    requires { IsFlat flat.now }
    ensures { OnOk result (DoMore (joined_duties (site_of site.now) (plain_instance instance.now)
        (seat_named (seats_in flat.now) (plain_path path.now ++ (plain_instance instance.now).id.name ∷ []))) out.old out.new) }
{
    let Some(child) = flat.list.get(at) else {
        return Err(Memory);
    };
    let Some(base) = flat.bases.get(at) else {
        unreachable!();
    };
    let Some(names) = flat.modules.value_at(child.place) else {
        unreachable!();
    };
    if !is_longer_path(child.path.as_slice(), path, &instance.id.name) {
        return Err(Memory);
    }
    let inner = Site {
        scope: &child.scope,
        base: *base,
    };
    add_fit_conns(alloc, site, &inner, names, instance.ports.as_slice(), out)
}

/// The place of the first instance behind this one whose path isn't longer.
pub fn past_child(flat: &Flat<'_, '_>, at: usize) -> usize
    ensures { at ≤ result }
{
    let Some(child) = flat.list.get(at) else {
        return at;
    };
    for next in at + 1..flat.list.len() {
        if flat.list[next].path.len() <= child.path.len() {
            return next;
        }
    }
    flat.list.len()
}
