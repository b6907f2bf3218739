//! What the texts of a design and a map say together.

ghost use Rattle.std.specs.Prelude.{◌≡◌, ◌≤◌, IfOk, IfErr, Ok, length};
ghost use Rattle.vlog_tree.specs.Plain.{plain};
ghost use Rattle.net_design.specs.Lawful.{IsLawful};
ghost use Rattle.env_script.specs.chan_map.Text.{ReadsMap};
ghost use Rattle.env_script.specs.chan_map.Bound.{BindsMap};
ghost use Rattle.vidi_bench.specs.Design.{text_limit, Building, IsAccepted};
ghost use Rattle.vidi_bench.specs.Devices.{Binding, IsDevice, IsNoMap, IsRunnable, IsUnbound, Wiring};
ghost use Rattle.vidi_answer.specs.Ended.{EndsWith};
ghost use Rattle.vidi_answer.specs.Steps.{Never};

use crate::design::{design_of, file_of, order_of};
use crate::refusal::refused_for;
use env_script::chan_map::{Map, MapText, bind_map, lawful_ports_have_widths, read_map};
use env_script::run_model::bound_is_map_of;
use net_design::Design;
use std::alloc::Global;
use vidi_answer::{Ended, Word};
use vlog_design::net_order::Order;
use vlog_tree::File;

/// A design with an order of its drivers, and the map bound to it.
#[derive(Drop)]
pub struct Device {
    pub design: Design,
    pub order: Order,
    pub map: Map,
}

/// What the texts of a design and a map say, or the first reason for which they are refused: those of the design's text, of the
/// map's lines, of the design, and of the map.
pub fn device_of(alloc: Global, design: &[u8], map: &[u8]) -> Result<Device, Ended>
    requires design { length design.now ≤ text_limit }
    requires map { length map.now ≤ text_limit }
    ensures device { IfOk result (IsDevice design.now map.now) }
    ensures runnable { IfOk result IsRunnable }
    ensures refused { IfErr result (EndsWith (Wiring design.now map.now (λ _. Never))) }
{
    let file = file_of(alloc, design)?;
    let text = map_text_of(alloc, map)?;
    built(alloc, &file, &text)
}

/// The design of a tree with the top of a map, and the map bound to it.
pub fn built(alloc: Global, file: &File, text: &MapText) -> Result<Device, Ended>
    ensures accepted { IfOk result (λ v. IsAccepted text.now.top (plain file.now) v.design) }
    ensures bound { IfOk result (λ v. BindsMap text.now v.design (Ok v.map)) }
    ensures runnable { IfOk result IsRunnable }
    ensures refused { IfErr result (EndsWith (Building text.now.top (plain file.now) (λ d. Binding text.now d (λ _. Never)))) }
{
    bound_is_map_of();
    let design = design_of(alloc, file, text.top().as_slice())?;
    let order = order_of(alloc, &design)?;
    let map = map_of(alloc, text, &design)?;
    Ok(Device { design, order, map })
}

/// The lines of a map.
pub fn map_text_of(alloc: Global, map: &[u8]) -> Result<MapText, Ended>
    requires { length map.now ≤ text_limit }
    ensures mapped { IfOk result (λ text. ReadsMap map.now (Ok text)) }
    ensures refused { IfErr result (EndsWith (IsNoMap map.now)) }
{
    match read_map(alloc, map) {
        Ok(text) => Ok(text),
        Err(error) => Err(Ended::Refused(refused_for(alloc, Word::Map, error)?)),
    }
}

/// The map bound to a design.
fn map_of(alloc: Global, text: &MapText, design: &Design) -> Result<Map, Ended>
    requires { IsLawful design.now }
    ensures bound { IfOk result (λ map. BindsMap text.now design.now (Ok map)) }
    ensures refused { IfErr result (EndsWith (IsUnbound text.now design.now)) }
{
    lawful_ports_have_widths();
    match bind_map(alloc, text, design) {
        Ok(map) => Ok(map),
        Err(error) => Err(Ended::Refused(refused_for(alloc, Word::Map, error)?)),
    }
}
