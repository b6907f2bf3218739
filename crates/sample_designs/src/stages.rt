//! The designs, ready to run.

ghost use Rattle.std.specs.Prelude.{◌≡◌, ◌++◌, ◌∷◌, [], IfOk, IfSome, OnOk};
ghost use Rattle.net_design.specs.Lawful.{IsLawful};
ghost use Rattle.run_model.specs.Building.{PortsAreNets};
ghost use Rattle.run_model.specs.MapOf.{IsMapOf};
ghost use Rattle.sample_designs.specs.Stage.{flick_channels, stage_channels};

use crate::texts::{Sample, texts_of};
use net_design::Design;
use net_sim::Sim;
use net_sim::net_order::order;
use net_sim::vidi_bits::{Bytes, Memory};
use run_model::bound_is_map_of;
use run_model::chan_map::{Map, MapText, bind_map, lawful_ports_have_widths, read_map};
use run_model::trace_model::{Channel, Channels, Dir, same_channels};
use std::alloc::Global;
use vlog_design::elaborate;
use vlog_parse::parse;
use vlog_parse::vlog_lex::lex;

/// The most bytes that a text may have.
const LONGEST_TEXT: usize = 4_194_304;

/// The design that a text means with this top.
fn design_of(alloc: Global, text: &[u8], top: &[u8]) -> Option<Design>
    ensures { IfSome result IsLawful }
{
    if text.len() > LONGEST_TEXT {
        return None;
    }
    let tokens = lex(alloc, text).ok()?;
    let file = parse(alloc, &tokens).ok()?;
    elaborate(alloc, &file, top).ok()
}

/// The map of these lines.
fn map_text_of(alloc: Global, lines: &[u8]) -> Option<MapText> {
    if lines.len() > LONGEST_TEXT {
        return None;
    }
    read_map(alloc, lines).ok()
}

/// A map, bound to a design.
fn bound(alloc: Global, text: &MapText, design: &Design) -> Option<Map>
    requires { IsLawful design.now }
    ensures { IfSome result (λ map. IsMapOf design.now map) }
{
    bound_is_map_of();
    lawful_ports_have_widths();
    match bind_map(alloc, text, design) {
        Ok(map) => Some(map),
        Err(_) => None,
    }
}

/// A map with these channels, bound to a design.
fn map_over(alloc: Global, text: &MapText, design: &Design, channels: &Channels) -> Option<Map>
    requires { IsLawful design.now }
    ensures mapped { IfSome result (λ map. IsMapOf design.now map) }
    ensures table { IfSome result (λ map. map.channels ≡ channels.now) }
{
    let map = bound(alloc, text, design)?;
    match same_channels(&map.channels, channels) {
        None => Some(map),
        Some(_) => None,
    }
}

/// The simulator of a design.
#[tactic(auto, using(crate::proofs::PortNets::port_nets))]
fn sim_of(alloc: Global, design: Design) -> Option<Sim>
    requires { IsLawful design }
    ensures nets { IfSome result (λ sim. PortsAreNets sim.design) }
    ensures design { IfSome result (λ sim. sim.design ≡ design) }
{
    let Ok(order) = order(alloc, &design) else {
        return None;
    };
    match Sim::new(alloc, design, order) {
        Ok(sim) => Some(sim),
        Err(_) => None,
    }
}

/// A design that runs, with its map.
#[derive(Drop)]
pub struct Stage {
    pub sim: Sim,
    pub map: Map,
}

/// A design's simulator, with its map.
fn stage_of(alloc: Global, design: Design, map: Map) -> Option<Stage>
    requires lawful { IsLawful design }
    requires mapped { IsMapOf design map }
    ensures nets { IfSome result (λ stage. PortsAreNets stage.sim.design) }
    ensures mapped { IfSome result (λ stage. IsMapOf stage.sim.design stage.map) }
    ensures map { IfSome result (λ stage. stage.map ≡ map) }
{
    let sim = sim_of(alloc, design)?;
    Some(Stage { sim, map })
}

/// A design ready to run, whose map has these channels. `None` where it has others, or there isn't enough memory.
pub fn sample_stage(alloc: Global, sample: Sample, channels: &Channels) -> Option<Stage>
    ensures nets { IfSome result (λ stage. PortsAreNets stage.sim.design) }
    ensures mapped { IfSome result (λ stage. IsMapOf stage.sim.design stage.map) }
    ensures table { IfSome result (λ stage. stage.map.channels ≡ channels.now) }
{
    let texts = texts_of(sample);
    let map_text = map_text_of(alloc, texts.map)?;
    let design = design_of(alloc, texts.design, map_text.top().as_slice())?;
    let map = map_over(alloc, &map_text, &design, channels)?;
    stage_of(alloc, design, map)
}

/// Adds a channel of one letter, with one port of 8 bits.
fn push_channel(channels: &mut Channels, alloc: Global, dir: Dir, letter: u8) -> Result<(), Memory>
    ensures { OnOk result (channels.new ≡ channels.old ++ record { dir = dir; name = letter ∷ []; widths = 8 ∷ [] } ∷ []) }
{
    let mut name = Bytes::new(alloc);
    name.push(letter)?;
    let mut widths = Bytes::new(alloc);
    widths.push(8)?;
    channels.push(Channel { dir, name, widths })?;
    Ok(())
}

/// The channels of the designs that have two.
pub fn stage_channels(alloc: Global) -> Result<Channels, Memory>
    ensures { IfOk result (λ channels. channels ≡ stage_channels) }
{
    let mut channels = Channels::new(alloc);
    push_channel(&mut channels, alloc, Dir::Inward, b'a')?;
    push_channel(&mut channels, alloc, Dir::Outward, b'b')?;
    Ok(channels)
}

/// The channel of the design whose valid rises and falls.
pub fn flick_channels(alloc: Global) -> Result<Channels, Memory>
    ensures { IfOk result (λ channels. channels ≡ flick_channels) }
{
    let mut name = Bytes::new(alloc);
    name.push(b'b')?;
    let mut channels = Channels::new(alloc);
    channels.push(Channel {
        dir: Dir::Outward,
        name,
        widths: Bytes::new(alloc),
    })?;
    Ok(channels)
}

/// A design of two channels, ready to run. `None` where it has others, or there isn't enough memory.
pub fn two_channel_stage(alloc: Global, sample: Sample) -> Option<Stage>
    ensures nets { IfSome result (λ stage. PortsAreNets stage.sim.design) }
    ensures mapped { IfSome result (λ stage. IsMapOf stage.sim.design stage.map) }
    ensures table { IfSome result (λ stage. stage.map.channels ≡ stage_channels) }
{
    let channels = stage_channels(alloc).ok()?;
    sample_stage(alloc, sample, &channels)
}
