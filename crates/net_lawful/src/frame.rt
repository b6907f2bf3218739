//! Instances, nets, memories, ports and the clock.

ghost use Rattle.std.specs.Prelude.{◌≡◌, ℕ, ◌^◌, ◌<◌, ◌≤◌, ◌↔◌, IsTrue, length, slice_index, slice_get, map};
ghost use Rattle.std.specs.List.{sum_by};
ghost use Rattle.net_design.specs.declared.design.Net.{Net};
ghost use Rattle.net_design.specs.declared.design.DesignMemory.{DesignMemory};
ghost use Rattle.net_design.specs.Names.{AreAfterParents};
ghost use Rattle.net_design.specs.Settled.{net_width, word_count};
ghost use Rattle.net_design.specs.Lawful.{AreSmall, counts, is_input, is_input_port};
ghost use Rattle.net_lawful.specs.Frame.{AreNets, AreMemories, HaveRooms, IsPortNet, HavePortNets, HasClock, IsFramed};

use net_code::is_width;
use net_design::{Design, DesignMemory, Direction, Instance, Net, Port};

/// The width of net `m`, 0 past the last one.
pub fn net_width(design: &Design, m: usize) -> u32
    ensures { result ≡ net_width design.now m }
{
    let nets = design.nets.as_slice();
    if m < nets.len() { nets[m].width } else { 0 }
}

/// Whether net `m` is an input of the top.
pub fn is_input(design: &Design, m: usize) -> bool
    ensures { result ≡ is_input design.now m }
{
    match design.ports.get(m) {
        None => false,
        Some(port) => port.direction == Direction::Input,
    }
}

/// Whether each instance but the top comes after the one that holds it.
fn have_parents(instances: &[Instance]) -> bool
    ensures { IsTrue result ↔ AreAfterParents instances.now }
{
    for i in 1..instances.len() {
        if instances[i].parent >= i {
            return false;
        }
    }
    true
}

fn are_nets(nets: &[Net], instances: usize) -> bool
    ensures { IsTrue result ↔ AreNets instances nets.now }
{
    nets.iter()
        .all(|net| is_width(net.width) && net.instance < instances)
}

fn are_memories(memories: &[DesignMemory], instances: usize) -> bool
    ensures { IsTrue result ↔ AreMemories instances memories.now }
{
    memories.iter().all(|a| is_width(a.width) && 1 <= a.room.length && a.instance < instances)
}

/// Whether the words of the memories stand one memory after the other.
fn have_rooms(memories: &[DesignMemory]) -> bool
    requires { sum_by (λ (a : DesignMemory). a.room.length) memories.now < 2 ^ 64 }
    ensures { IsTrue result ↔ HaveRooms memories.now }
{
    let mut total: usize = 0;
    for i in 0..memories.len() {
        if memories[i].room.first != total {
            return false;
        }
        total += memories[i].room.length;
    }
    true
}

fn is_port_net(port: &Port, net: &Net) -> bool
    ensures { IsTrue result ↔ IsPortNet port.now net.now }
{
    net.name.as_slice() == port.name.as_slice() && net.width == port.width && net.instance == 0
}

/// Whether each port is the net of its place.
fn have_port_nets(ports: &[Port], nets: &[Net]) -> bool
    requires { length ports.now ≤ length nets.now }
    ensures { IsTrue result ↔ HavePortNets ports.now nets.now }
{
    for k in 0..ports.len() {
        if !is_port_net(&ports[k], &nets[k]) {
            return false;
        }
    }
    true
}

/// Whether the clock, where there is one, is an input of one bit.
fn has_clock(design: &Design) -> bool
    ensures { IsTrue result ↔ HasClock design.now }
{
    match design.clock {
        None => true,
        Some(k) => is_input(design, k) && net_width(design, k) == 1,
    }
}

/// Whether instances, nets and memories are in range.
fn are_in_range(design: &Design) -> bool
    ensures { IsTrue result ↔ (AreNets (length design.now.instances) design.now.nets
        × AreMemories (length design.now.instances) design.now.memories × AreAfterParents design.now.instances) }
{
    let count = design.instances.len();
    are_nets(design.nets.as_slice(), count)
        && are_memories(design.memories.as_slice(), count)
        && have_parents(design.instances.as_slice())
}

/// Whether port k is net k.
fn ports_first(design: &Design) -> bool
    ensures { IsTrue result ↔ ((length design.now.ports ≤ length design.now.nets) × HavePortNets design.now.ports design.now.nets) }
{
    design.ports.len() <= design.nets.len()
        && have_port_nets(design.ports.as_slice(), design.nets.as_slice())
}

/// Whether all but code and state is lawful.
pub fn is_framed(design: &Design) -> bool
    ensures { IsTrue result ↔ IsFramed design.now }
{
    design.is_small()
        && 1 <= design.instances.len()
        && are_in_range(design)
        && have_rooms(design.memories.as_slice())
        && ports_first(design)
        && has_clock(design)
}
