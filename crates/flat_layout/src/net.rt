//! The nets of the flat design.

ghost use Rattle.std.specs.Prelude.{◌≡◌, ◌<◌, ◌++◌, IfOk, OnOk, length, map, slice_get, Some};
ghost use Rattle.std.specs.Option.{option_map};
ghost use Rattle.flat_parts.specs.vlog_elab.Plain.{plain_instances};
ghost use Rattle.flat_parts.specs.Seats.{seats_of};
ghost use Rattle.flat_parts.specs.Nets.{net_of, flat_nets};

use flat_parts::vidi_bits::{Items, Memory, copied};
use flat_parts::vlog_elab::ModuleInstance;
use flat_parts::vlog_size::ScopeNets;
use net_design::Net;
use std::alloc::Global;

/// The net at a place of an instance's nets.
fn net_at(alloc: Global, number: usize, list: &ScopeNets, place: usize) -> Result<Net, Memory>
    requires { place < length list.now }
    ensures { IfOk result (λ n. option_map (net_of number) (slice_get list.now place) ≡ Some n) }
{
    let Some(name) = list.name_at(place) else {
        unreachable!();
    };
    let Some(net) = list.value_at(place) else {
        unreachable!();
    };
    let width = net.width;
    let name = copied(alloc, name)?;
    Ok(Net {
        instance: number,
        name,
        width,
    })
}

/// Adds the nets of the instance of this number.
#[tactic(auto, using(crate::proofs::Lists::next_of))]
fn add_nets(
    alloc: Global,
    number: usize,
    list: &ScopeNets,
    nets: &mut Items<Net>,
) -> Result<(), Memory>
    ensures { OnOk result (nets.new ≡ nets.old ++ map (net_of number) list.now) }
{
    for place in 0..list.len() {
        let net = net_at(alloc, number, list, place)?;
        nets.push(net)?;
    }
    Ok(())
}

/// The nets of all instances, in their order and within one in text order.
pub fn nets(alloc: Global, instances: &[ModuleInstance<'_>]) -> Result<Items<Net>, Memory>
    ensures { IfOk result (λ ns. ns ≡ flat_nets (seats_of (plain_instances instances.now))) }
{
    let mut nets = Items::new(alloc);
    for (number, instance) in instances.iter().enumerate() {
        add_nets(alloc, number, &instance.scope.nets, &mut nets)?;
    }
    Ok(nets)
}
