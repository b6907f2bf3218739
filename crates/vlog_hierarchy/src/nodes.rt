//! The instances of a design in preorder, and E12.

ghost use Rattle.vlog_hierarchy.specs.declared.nodes.TheConstants.{MOST_INSTANCES, MOST_NETS};
ghost use Rattle.std.specs.Prelude.{◌≡◌, ◌≤◌, ◌<◌, ◌+◌, ◌++◌, [], ◌∷◌, List, map, IfOk, OnOk, IfErr, length};
ghost use Rattle.std.specs.List.{flat_map};
ghost use Rattle.vlog_tree.specs.Plain.{plain};
ghost use Rattle.vlog_hierarchy.specs.Outlines.{outlines_of, place_of, nets_at, children_at};
ghost use Rattle.vlog_hierarchy.specs.Plain.{plain_child, plain_outlines, plain_node, plain_nodes, plain_path};
ghost use Rattle.vlog_hierarchy.specs.Nodes.{nodes, child_nodes, nodes_of, net_total, firsts, count_faults, net_faults, size_faults};
ghost use Rattle.vlog_hierarchy.specs.Nodes.{IsTooMany, AreTooManyNets};
ghost use Rattle.vlog_size.specs.vidi_bits.Findings.{Judged};
ghost use Rattle.vlog_hierarchy.specs.Told.{hierarchy_told};

use crate::error::{HierarchyError, HierarchyLimit};
use crate::outline::{Child, Outline, outlines};
use crate::places::{index_of, place_named};
use std::alloc::Global;
use vlog_size::vidi_bits::{Items, Memory, Name};
use vlog_tree::File;

/// The most instances of a design.
pub const MOST_INSTANCES: usize = 4_096;

/// The most levels of instances that are looked at: one more than there can be with the most instances.
pub const MOST_LEVELS: usize = 4_097;

/// The most nets of a design.
pub const MOST_NETS: u128 = 65_536;

/// An instance of the design.
#[derive(Drop)]
pub struct Node<'a> {
    /// The names of the instances that lead to it, its own the last; the top's is left out.
    pub path: Items<&'a Name>,
    /// The place of its module in the file, counted from 0.
    pub place: usize,
}

/// The instances of a design, in preorder and text order.
#[derive(Drop)]
pub struct Nodes<'a> {
    pub nodes: Items<Node<'a>>,
    /// For each instance the number of its first net, which is the number of nets of the instances before it.
    pub firsts: Items<u128>,
    /// The number of nets of all instances.
    pub nets: u128,
}

/// A copy of a path.
fn copied_path<'a>(alloc: Global, path: &[&'a Name]) -> Result<Items<&'a Name>, Memory>
    ensures { IfOk result (λ p. plain_path p ≡ plain_path path.now) }
{
    let mut copy = Items::new(alloc);
    for name in path {
        copy.push(*name)?;
    }
    Ok(copy)
}

/// A path with one more name.
fn longer_path<'a>(
    alloc: Global,
    path: &[&'a Name],
    name: &'a Name,
) -> Result<Items<&'a Name>, Memory>
    ensures { IfOk result (λ p. plain_path p ≡ plain_path path.now ++ name.now ∷ []) }
{
    let mut longer = copied_path(alloc, path)?;
    longer.push(name)?;
    Ok(longer)
}

/// Adds an instance, unless there are 4,096.
fn add_node<'a>(
    alloc: Global,
    path: &[&'a Name],
    place: usize,
    out: &mut Items<Node<'a>>,
) -> Result<(), HierarchyError>
    ensures value { OnOk result (plain_nodes out.new ≡ plain_nodes out.old ++ record { path = plain_path path.now; place = place } ∷ []) }
    ensures few { OnOk result (length out.old < MOST_INSTANCES) }
    ensures many { IfErr result (λ e. IsTooMany e (length out.old + 1)) }
{
    if out.len() >= MOST_INSTANCES {
        return Err(HierarchyError::TooBig {
            what: HierarchyLimit::Instances,
        });
    }
    let path = copied_path(alloc, path)?;
    out.push(Node { path, place })?;
    Ok(())
}

/// Adds an instance of a module, and all those in it.
#[cycle(add)]
fn add_nodes<'a>(
    alloc: Global,
    outlines: &[Outline<'a>],
    depth: usize,
    path: &[&'a Name],
    place: usize,
    out: &mut Items<Node<'a>>,
) -> Result<(), HierarchyError>
    requires { length out.old ≤ MOST_INSTANCES }
    ensures value { OnOk result (plain_nodes out.new
        ≡ plain_nodes out.old ++ nodes depth (plain_outlines outlines.now) (plain_path path.now) place) }
    ensures few { OnOk result (length out.new ≤ MOST_INSTANCES) }
    ensures many { IfErr result (λ e.
        IsTooMany e (length out.old + length (nodes depth (plain_outlines outlines.now) (plain_path path.now) place))) }
{
    if depth == 0 {
        return Ok(());
    }
    add_node(alloc, path, place, out)?;
    add_inside(alloc, outlines, depth - 1, path, place, out)?;
    Ok(())
}

/// Adds all instances in an instance of a module.
#[cycle(add)]
fn add_inside<'a>(
    alloc: Global,
    outlines: &[Outline<'a>],
    depth: usize,
    path: &[&'a Name],
    place: usize,
    out: &mut Items<Node<'a>>,
) -> Result<(), HierarchyError>
    requires { length out.old ≤ MOST_INSTANCES }
    ensures value { OnOk result (plain_nodes out.new ≡ plain_nodes out.old
        ++ flat_map (child_nodes depth (plain_outlines outlines.now) (plain_path path.now))
        (children_at (plain_outlines outlines.now) place)) }
    ensures few { OnOk result (length out.new ≤ MOST_INSTANCES) }
    ensures many { IfErr result (λ e. IsTooMany e (length out.old + length (flat_map
        (child_nodes depth (plain_outlines outlines.now) (plain_path path.now)) (children_at (plain_outlines outlines.now) place)))) }
{
    match outlines.get(place) {
        Some(outline) => add_children(
            alloc,
            outlines,
            depth,
            path,
            outline.children.as_slice(),
            out,
        ),
        None => Ok(()),
    }
}

/// Adds all instances in an instance of a module with these children.
#[cycle(add)]
fn add_children<'a>(
    alloc: Global,
    outlines: &[Outline<'a>],
    depth: usize,
    path: &[&'a Name],
    children: &[Child<'a>],
    out: &mut Items<Node<'a>>,
) -> Result<(), HierarchyError>
    requires { length out.old ≤ MOST_INSTANCES }
    ensures value { OnOk result (plain_nodes out.new ≡ plain_nodes out.old
        ++ flat_map (child_nodes depth (plain_outlines outlines.now) (plain_path path.now)) (map plain_child children.now)) }
    ensures few { OnOk result (length out.new ≤ MOST_INSTANCES) }
    ensures many { IfErr result (λ e. IsTooMany e (length out.old + length
        (flat_map (child_nodes depth (plain_outlines outlines.now) (plain_path path.now)) (map plain_child children.now)))) }
{
    for child in children {
        let path = longer_path(alloc, path, &child.instance.id.name)?;
        add_nodes(alloc, outlines, depth, path.as_slice(), child.place, out)?;
    }
    Ok(())
}

/// The instances of a top, at most 4,096.
#[tactic(auto, unfolding(crate::specs::Nodes::nodes_of))]
fn nodes_below<'a>(
    alloc: Global,
    outlines: &[Outline<'a>],
    top: Option<usize>,
) -> Result<Items<Node<'a>>, HierarchyError>
    ensures judged { Judged hierarchy_told result (count_faults (nodes_of (plain_outlines outlines.now) top)) }
    ensures value { IfOk result (λ ns. plain_nodes ns ≡ nodes_of (plain_outlines outlines.now) top) }
{
    let mut nodes = Items::new(alloc);
    match top {
        Some(place) => {
            let path = Items::new(alloc);
            add_nodes(
                alloc,
                outlines,
                MOST_LEVELS,
                path.as_slice(),
                place,
                &mut nodes,
            )?;
            Ok(nodes)
        }
        None => Ok(nodes),
    }
}

/// The numbers of first nets, and the number of all nets.
#[derive(Drop)]
struct Numbering {
    firsts: Items<u128>,
    nets: u128,
}

/// The number of nets of a module.
fn nets_at(outlines: &[Outline<'_>], place: usize) -> u128
    ensures { result ≡ nets_at (plain_outlines outlines.now) place }
{
    match outlines.get(place) {
        Some(outline) => outline.nets,
        None => 0,
    }
}

impl Numbering {
    /// Adds an instance with so many nets, unless there are more than 65,536 with them.
    fn add(&mut self, nets: u128) -> Result<(), HierarchyError>
        requires { self.old.nets ≤ MOST_NETS }
        ensures firsts { OnOk result (self.new.firsts ≡ self.old.firsts ++ self.old.nets ∷ []) }
        ensures nets { OnOk result (self.new.nets ≡ self.old.nets + nets) }
        ensures few { OnOk result (self.new.nets ≤ MOST_NETS) }
        ensures many { IfErr result (λ e. AreTooManyNets e (self.old.nets + nets)) }
    {
        if nets > MOST_NETS - self.nets {
            return Err(HierarchyError::TooBig {
                what: HierarchyLimit::Nets,
            });
        }
        self.firsts.push(self.nets)?;
        self.nets += nets;
        Ok(())
    }
}

/// Numbers the first nets of these instances.
fn numbered(
    alloc: Global,
    outlines: &[Outline<'_>],
    nodes: &[Node<'_>],
) -> Result<Numbering, HierarchyError>
    ensures judged { Judged hierarchy_told result (net_faults (plain_outlines outlines.now) (plain_nodes nodes.now)) }
    ensures firsts { IfOk result (λ n. n.firsts ≡ firsts (plain_outlines outlines.now) 0 (plain_nodes nodes.now)) }
    ensures nets { IfOk result (λ n. n.nets ≡ net_total (plain_outlines outlines.now) (plain_nodes nodes.now)) }
{
    let mut numbering = Numbering {
        firsts: Items::new(alloc),
        nets: 0,
    };
    for node in nodes {
        numbering.add(nets_at(outlines, node.place))?;
    }
    Ok(numbering)
}

/// The instances of a top in preorder, with their modules and first nets; none where the top isn't declared
/// (E4). E12 `TooBig` where there are more than 4,096 instances, else where they have more than 65,536 nets.
pub fn nodes_of<'a>(alloc: Global, file: &'a File, top: &[u8]) -> Result<Nodes<'a>, HierarchyError>
    ensures judged { Judged hierarchy_told result (size_faults (outlines_of (plain file.now).modules)
        (nodes_of (outlines_of (plain file.now).modules) (place_of (plain file.now).modules top.now))) }
    ensures nodes { IfOk result (λ r. plain_nodes r.nodes
        ≡ nodes_of (outlines_of (plain file.now).modules) (place_of (plain file.now).modules top.now)) }
    ensures firsts { IfOk result (λ r. r.firsts ≡ firsts (outlines_of (plain file.now).modules) 0 (plain_nodes r.nodes)) }
    ensures nets { IfOk result (λ r. r.nets ≡ net_total (outlines_of (plain file.now).modules) (plain_nodes r.nodes)) }
{
    let index = index_of(alloc, file.modules.as_slice())?;
    let place = place_named(&index, top);
    let outlines = outlines(alloc, &index)?;
    let nodes = nodes_below(alloc, outlines.as_slice(), place)?;
    let Numbering { firsts, nets } = numbered(alloc, outlines.as_slice(), nodes.as_slice())?;
    Ok(Nodes {
        nodes,
        firsts,
        nets,
    })
}
