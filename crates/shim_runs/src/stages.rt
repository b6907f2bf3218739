//! Designs with their maps and their wrapped files, ready to run.

ghost use Rattle.std.specs.Prelude.{◌≡◌, ◌≤◌, ℕ, List, IfOk, length};
ghost use Rattle.vlog_tree.specs.Tree.{FileOf};
ghost use Rattle.vlog_tree.specs.Plain.{plain};
ghost use Rattle.net_design.specs.declared.design.Design.{Design as OneDesign};
ghost use Rattle.net_design.specs.Lawful.{IsLawful};
ghost use Rattle.shim_cosim.specs.net_order.Order.{IsOrder};
ghost use Rattle.shim_cosim.specs.run_model.Building.{PortsAreNets};
ghost use Rattle.shim_cosim.specs.run_model.MapOf.{IsMapOf};
ghost use Rattle.shim_cosim.specs.vlog_design.Design.{IsDesignOf};
ghost use Rattle.shim_cosim.specs.Top.{IsWrapOf};

use crate::ended::Ended;
use crate::texts::bytes_in;
use net_design::Design;
use report_text::vidi_io::Shelf;
use shim_cosim::chan_map::{Map, MapText, bind_map, lawful_ports_have_widths, read_map};
use shim_cosim::net_order::order;
use shim_cosim::net_sim::Sim;
use shim_cosim::run_model::bound_is_map_of;
use shim_cosim::shim_gen::wrap;
use shim_cosim::vlog_design::elaborate;
use std::alloc::Global;
use vlog_parse::parse;
use vlog_parse::vlog_lex::lex;
use vlog_tree::File;

/// A design that runs, its map, and the wrapped file.
#[derive(Drop)]
pub struct Stage {
    pub sim: Sim,
    pub map: Map,
    pub wrapped: File,
}

/// The tree of a design text.
fn file_of(alloc: Global, text: &[u8]) -> Result<File, Ended>
    requires { length text.now ≤ 4194304 }
{
    let tokens = lex(alloc, text)?;
    Ok(parse(alloc, &tokens)?)
}

/// The map of these lines, bound to a design of the file with the top that they name.
fn map_of(alloc: Global, text: &MapText, design: &Design) -> Result<Map, Ended>
    requires { IsLawful design.now }
    ensures mapped { IfOk result (λ map. IsMapOf design.now map) }
    ensures top { IfOk result (λ map. map.top ≡ text.now.top) }
{
    bound_is_map_of();
    lawful_ports_have_widths();
    match bind_map(alloc, text, design) {
        Ok(map) => Ok(map),
        Err(error) => Err(Ended::from(error)),
    }
}

/// The simulator of a design.
#[tactic(auto, using(crate::proofs::Wraps::nets_of))]
fn sim_of(alloc: Global, design: Design) -> Result<Sim, Ended>
    requires { IsLawful design }
    ensures nets { IfOk result (λ sim. PortsAreNets sim.design) }
    ensures design { IfOk result (λ sim. sim.design ≡ design) }
    ensures order { IfOk result (λ sim. (drivers : List ℕ) × IsOrder design drivers) }
{
    let order = order(alloc, &design)?;
    Ok(Sim::new(alloc, design, order)?)
}

/// A design of a file, its map and the wrapped file.
fn staged(alloc: Global, file: &File, design: Design, map: Map) -> Result<Stage, Ended>
    requires design { IsDesignOf (plain file.now) map.top design }
    requires mapped { IsMapOf design map }
    ensures nets { IfOk result (λ stage. PortsAreNets stage.sim.design) }
    ensures mapped { IfOk result (λ stage. IsMapOf stage.sim.design stage.map) }
    ensures wrapped { IfOk result (λ stage. (f : FileOf ℕ) × (d : OneDesign) × IsWrapOf (plain stage.wrapped) f stage.map d) }
{
    let wrapped = wrap(alloc, file, &map)?;
    let sim = sim_of(alloc, design)?;
    Ok(Stage { sim, map, wrapped })
}

/// What the tree of a design and the lines of a map say, and the wrapped file.
fn stage_over(alloc: Global, file: &File, text: &MapText) -> Result<Stage, Ended>
    ensures nets { IfOk result (λ stage. PortsAreNets stage.sim.design) }
    ensures mapped { IfOk result (λ stage. IsMapOf stage.sim.design stage.map) }
    ensures wrapped { IfOk result (λ stage. (f : FileOf ℕ) × (d : OneDesign) × IsWrapOf (plain stage.wrapped) f stage.map d) }
{
    let design = elaborate(alloc, file, text.top().as_slice())?;
    let map = map_of(alloc, text, &design)?;
    staged(alloc, file, design, map)
}

/// What the tree of a design and the text of a map say, and the wrapped file.
fn stage_under(alloc: Global, file: &File, map: &[u8]) -> Result<Stage, Ended>
    requires { length map.now ≤ 4194304 }
    ensures nets { IfOk result (λ stage. PortsAreNets stage.sim.design) }
    ensures mapped { IfOk result (λ stage. IsMapOf stage.sim.design stage.map) }
    ensures wrapped { IfOk result (λ stage. (f : FileOf ℕ) × (d : OneDesign) × IsWrapOf (plain stage.wrapped) f stage.map d) }
{
    let text = read_map(alloc, map)?;
    stage_over(alloc, file, &text)
}

/// What the texts of a design and of a map say, and the wrapped file.
pub(crate) fn stage_of(alloc: Global, design: &[u8], map: &[u8]) -> Result<Stage, Ended>
    requires design { length design.now ≤ 4194304 }
    requires map { length map.now ≤ 4194304 }
    ensures nets { IfOk result (λ stage. PortsAreNets stage.sim.design) }
    ensures mapped { IfOk result (λ stage. IsMapOf stage.sim.design stage.map) }
    ensures wrapped { IfOk result (λ stage. (f : FileOf ℕ) × (d : OneDesign) × IsWrapOf (plain stage.wrapped) f stage.map d) }
{
    let file = file_of(alloc, design)?;
    stage_under(alloc, &file, map)
}

/// The same of the files of these names.
pub fn stage_in<S: Shelf>(
    alloc: Global,
    shelf: &mut S,
    design: &str,
    map: &str,
) -> Result<Stage, Ended>
    ensures nets { IfOk result (λ stage. PortsAreNets stage.sim.design) }
    ensures mapped { IfOk result (λ stage. IsMapOf stage.sim.design stage.map) }
    ensures wrapped { IfOk result (λ stage. (f : FileOf ℕ) × (d : OneDesign) × IsWrapOf (plain stage.wrapped) f stage.map d) }
{
    let design = bytes_in(alloc, shelf, design)?;
    let map = bytes_in(alloc, shelf, map)?;
    stage_of(alloc, design.as_slice(), map.as_slice())
}
