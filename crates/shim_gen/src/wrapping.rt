//! A design's file with the shims round it.

ghost use Rattle.std.specs.Prelude.{◌≡◌, ◌++◌, [], ◌∷◌, IfOk, OnOk, map, length};
ghost use Rattle.std.specs.Str.{bytes_eq};
ghost use Rattle.vlog_copy.specs.vidi_bits.Findings.{Judged};
ghost use Rattle.vlog_tree.specs.Plain.{plain, plain_port, plain_module};
ghost use Rattle.shim_trees.specs.Pieces as pieces;
ghost use Rattle.shim_trees.specs.RecordTop as recording;
ghost use Rattle.shim_trees.specs.ReplayTop as replaying;
ghost use Rattle.shim_trees.specs.Wrapped as spec;
ghost use Rattle.shim_gen.specs.Plain.{wrap_told};

use crate::error::WrapError;
use crate::monitor::monitor_tree;
use crate::record_top::record_top;
use crate::replay_top::replay_top;
use crate::replayer::replayer_of;
use shim_trees::chan_map::Map;
use shim_trees::trace_model::Channel;
use std::alloc::Global;
use vlog_copy::copy_module;
use vlog_copy::vidi_bits::{Items, Memory, copied};
use vlog_tree::{File, Module, Modules, Port};

/// Whether a name is kept for shims.
fn is_reserved(name: &[u8]) -> bool
    ensures { result ≡ spec.is_reserved name.now }
{
    name.starts_with(b"vidi_".as_slice())
}

/// Refuses the first module whose name is kept for shims.
fn check_names(alloc: Global, modules: &[Module]) -> Result<(), WrapError>
    ensures { Judged wrap_told result (spec.reserved_names (record { modules = map plain_module modules.now })) }
{
    for module in modules {
        let name = module.name.as_slice();
        if is_reserved(name) {
            let name = copied(alloc, name)?;
            return Err(WrapError::Reserved { name });
        }
    }
    Ok(())
}

/// Whether the module has this name.
fn is_named(tree: &Module, name: &[u8]) -> bool
    ensures { result ≡ bytes_eq name.now tree.now.name }
{
    name == tree.name.as_slice()
}

/// The ports of the first module of this name; none where there is no such module.
pub fn ports_of<'a>(modules: &'a [Module], name: &[u8]) -> &'a [Port]
    ensures { map plain_port result.now ≡ spec.ports_in (spec.module_named (map plain_module modules.now) name.now) }
{
    for module in modules {
        if is_named(module, name) {
            return module.ports.as_slice();
        }
    }
    &[]
}

/// Adds copies of the design's modules.
fn add_copies(alloc: Global, modules: &mut Modules, design: &[Module]) -> Result<(), Memory>
    ensures { OnOk result (map plain_module modules.new ≡ map plain_module modules.old ++ map plain_module design.now) }
{
    for module in design {
        let copy = copy_module(alloc, module)?;
        modules.push(copy)?;
    }
    Ok(())
}

/// Adds the monitor and the replayer of channel n of `count`.
fn add_channel(
    alloc: Global,
    modules: &mut Modules,
    count: usize,
    n: usize,
    channel: &Channel,
) -> Result<(), Memory>
    ensures { OnOk result (map plain_module modules.new
        ≡ map plain_module modules.old ++ spec.channel_shims count n channel.now) }
{
    let monitor = monitor_tree(alloc, channel, n)?;
    modules.push(monitor)?;
    let replayer = replayer_of(alloc, count, n, channel)?;
    modules.push(replayer)
}

/// Adds the monitors and replayers of all channels.
fn add_channels(alloc: Global, modules: &mut Modules, channels: &[Channel]) -> Result<(), Memory>
    ensures { OnOk result (map plain_module modules.new
        ≡ map plain_module modules.old ++ pieces.each_some (spec.channel_shims (length channels.now)) 0 channels.now) }
{
    let count = channels.len();
    for (n, channel) in channels.iter().enumerate() {
        add_channel(alloc, modules, count, n, channel)?;
    }
    Ok(())
}

/// Adds the two tops, round a design whose top has the ports `design`.
fn add_tops(alloc: Global, modules: &mut Modules, pins: &Map, design: &[Port]) -> Result<(), Memory>
    ensures { OnOk result (map plain_module modules.new ≡ map plain_module modules.old
        ++ recording.record_top pins.now (map plain_port design.now) ∷ replaying.replay_top pins.now (map plain_port design.now) ∷ []) }
{
    let recording = record_top(alloc, pins, design)?;
    modules.push(recording)?;
    let replaying = replay_top(alloc, pins, design)?;
    modules.push(replaying)
}

/// Adds the modules of the wrapped file.
fn add_modules(
    alloc: Global,
    modules: &mut Modules,
    design: &[Module],
    pins: &Map,
) -> Result<(), Memory>
    ensures { OnOk result (map plain_module modules.new ≡ map plain_module modules.old
        ++ (spec.wrapped (record { modules = map plain_module design.now }) pins.now).modules) }
{
    add_copies(alloc, modules, design)?;
    add_channels(alloc, modules, pins.channels.as_slice())?;
    let ports = ports_of(design, pins.top.as_slice());
    add_tops(alloc, modules, pins, ports)
}

/// The file with the shims of this map round its top: its modules, then for each channel its monitor and its replayer, then the tops
/// `vidi_record_top` and `vidi_replay_top`. The design's modules keep their lines; what is generated has line 0. The time is linear in the
/// size of the result.
///
/// `Reserved` comes with the first module whose name begins with `vidi_`, exactly where there is one. `Memory` comes where no memory was
/// found.
pub fn wrap(alloc: Global, file: &File, map: &Map) -> Result<File, WrapError>
    ensures names { Judged wrap_told result (spec.reserved_names (plain file.now)) }
    ensures tree { IfOk result (λ w. plain w ≡ spec.wrapped (plain file.now) map.now) }
{
    check_names(alloc, file.modules.as_slice())?;
    let mut modules = Items::new(alloc);
    add_modules(alloc, &mut modules, file.modules.as_slice(), map)?;
    Ok(File { modules })
}
