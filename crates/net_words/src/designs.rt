//! Flat designs of design texts, and the full names of what is in them.

ghost use Rattle.std.specs.Prelude.{IfOk};
ghost use Rattle.net_design.specs.Lawful.{IsLawful};

use net_design::{Design, Instance};
use net_sim::vidi_bits::{Items, Memory, Name};
use std::alloc::Global;
use vlog_design::elaborate;
use vlog_design::vlog_elab::ElabError;
use vlog_words::report_text::{Draft, Page};
use vlog_words::vidi_io::Shelf;
use vlog_words::{Ended, tree_in};

/// The design that a text means.
pub(crate) fn design_in<S: Shelf>(
    alloc: Global,
    shelf: &mut S,
    name: &str,
    top: &str,
) -> Result<Design, Ended>
    ensures { IfOk result IsLawful }
{
    let file = tree_in(alloc, shelf, name)?;
    match elaborate(alloc, &file, top.as_bytes()) {
        Ok(design) => Ok(design),
        Err(ElabError::Memory) => Err(Ended::Memory),
        Err(_) => Err(Ended::NoDesign),
    }
}

/// For each instance its path, with a dot behind each name.
pub(crate) fn paths(alloc: Global, design: &Design) -> Result<Items<Name>, Memory> {
    let mut known: Items<Name> = Items::new(alloc);
    for (number, instance) in design.instances.as_slice().iter().enumerate() {
        let path = path_of(alloc, &known, number, instance)?;
        known.push(path)?;
    }
    Ok(known)
}

/// The path of an instance, where those before it are known; that of the top is empty.
fn path_of(
    alloc: Global,
    known: &Items<Name>,
    number: usize,
    instance: &Instance,
) -> Result<Name, Memory> {
    let mut path = Draft::new(alloc);
    if number > 0 {
        if let Some(parent) = known.get(instance.parent) {
            path.print(parent.as_slice());
        }
        path.print(instance.name.as_slice());
        path.print(b".");
    }
    path.finish()
}

/// The path of this instance.
pub(crate) fn path_at(paths: &Items<Name>, instance: usize) -> &[u8] {
    match paths.get(instance) {
        Some(path) => path.as_slice(),
        None => b"?.",
    }
}

/// Prints the full name of what has this name in an instance.
pub(crate) fn print_name(paths: &Items<Name>, instance: usize, name: &Name, page: &mut Draft) {
    page.print(path_at(paths, instance));
    page.print(name.as_slice());
}

/// Prints the full name of a net.
pub(crate) fn print_net(design: &Design, paths: &Items<Name>, net: usize, page: &mut Draft) {
    match design.nets.get(net) {
        Some(net) => print_name(paths, net.instance, &net.name, page),
        None => page.print(b"?"),
    }
}
