//! Names that are joined to input ports of the top, in each instance.

ghost use Rattle.std.specs.Prelude.{◌≡◌, ◌<◌, [], ◌∷◌, ◌++◌, map, length, option_map, IfOk, OnOk};
ghost use Rattle.std.specs.Option.{option_copied};
ghost use Rattle.std.specs.List.{flat_map};
ghost use Rattle.vlog_size.specs.Table.{value_of};
ghost use Rattle.vlog_tree.specs.Plain.{plain_expr, plain_unary, plain_ref, plain_conn, plain_instance};
ghost use Rattle.vlog_hierarchy.specs.Outlines.{children_at};
ghost use Rattle.vlog_hierarchy.specs.Plain.{plain_child, plain_outlines, plain_path};
ghost use Rattle.vlog_hierarchy.specs.Clock.{ports_from, ref_name, plain_name, port_of_value, conn_joined, child_joined};
ghost use Rattle.vlog_hierarchy.specs.Clock.{scopes, child_scopes, scopes_of, joined_at};

use crate::nodes::MOST_LEVELS;
use crate::outline::{Child, Outline};
use std::alloc::Global;
use vlog_size::Table;
use vlog_size::vidi_bits::{Items, Memory, Name, copied};
use vlog_tree::{Conn, Expr, Instance, Operand, Ref, Unary, see_concat, see_repeat};

/// An instance.
#[derive(Drop)]
pub struct Scope {
    /// The place of its module in the file, counted from 0.
    pub place: usize,
    /// Its names that are joined, by plain names through ports, to a 1-bit input port of the top, each with that
    /// port's place among these ports, counted from 0.
    pub joined: Table<usize>,
}

/// The port to which a name is joined.
pub fn port_of(joined: &Table<usize>, name: &[u8]) -> Option<usize>
    ensures { result ≡ value_of joined.now name.now }
{
    joined.get(name).copied()
}

/// The name that a reference without brackets is.
fn ref_name(name: &Ref) -> Option<&Name>
    ensures { option_copied result ≡ ref_name (plain_ref name.now) }
{
    if name.index.is_some() || name.sel.is_some() {
        return None;
    }
    Some(&name.id.name)
}

fn unary_name(unary: &Unary) -> Option<&Name>
    ensures { option_copied result ≡ plain_name (plain_unary unary.now) }
{
    if unary.sign.is_some() {
        return None;
    }
    match &unary.prim {
        Operand::Number(_) => None,
        Operand::Ref(name) => ref_name(name),
        Operand::Paren { .. } => None,
        Operand::Concat { line, parts } => {
            see_concat(*line, parts);
            None
        }
        Operand::Repeat {
            line,
            count: _,
            parts,
        } => {
            see_repeat(*line, parts);
            None
        }
    }
}

/// The name that an expression is.
pub fn plain_name(e: &Expr) -> Option<&Name>
    ensures { option_copied result ≡ plain_name (plain_expr e.now) }
{
    match e {
        Expr::Unary(unary) => unary_name(unary),
        Expr::Binary { .. } => None,
        Expr::Choice { .. } => None,
    }
}

/// The port to which what is connected is joined.
fn port_of_value(joined: &Table<usize>, value: &Option<Expr>) -> Option<usize>
    ensures { result ≡ port_of_value joined.now (option_map plain_expr value.now) }
{
    match value {
        None => None,
        Some(e) => match plain_name(e) {
            None => None,
            Some(name) => port_of(joined, name.as_slice()),
        },
    }
}

/// Adds what a connection joins.
fn add_joined(
    alloc: Global,
    joined: &Table<usize>,
    conn: &Conn,
    inner: &mut Table<usize>,
) -> Result<(), Memory>
    ensures { OnOk result (inner.new ≡ conn_joined joined.now inner.old (plain_conn conn.now)) }
{
    match port_of_value(joined, &conn.value) {
        Some(port) => {
            let name = copied(alloc, conn.id.name.as_slice())?;
            inner.push(name, port)?;
            Ok(())
        }
        None => Ok(()),
    }
}

/// The joined names of a child.
#[tactic(auto, unfolding(crate::specs::Clock::child_joined))]
fn child_joined(
    alloc: Global,
    joined: &Table<usize>,
    instance: &Instance,
) -> Result<Table<usize>, Memory>
    ensures { IfOk result (λ js. js ≡ child_joined joined.now (plain_instance instance.now)) }
{
    let mut inner = Table::new(alloc);
    for conn in instance.ports.as_slice() {
        add_joined(alloc, joined, conn, &mut inner)?;
    }
    Ok(inner)
}

/// The joined names of a child of the instance at place `at` of the list.
fn inner_of(
    alloc: Global,
    scopes: &[Scope],
    at: usize,
    instance: &Instance,
) -> Result<Table<usize>, Memory>
    requires { at < length scopes.now }
    ensures { IfOk result (λ js. js ≡ child_joined (joined_at scopes.now at) (plain_instance instance.now)) }
{
    child_joined(alloc, &scopes[at].joined, instance)
}

/// Adds an instance of a module, and all those in it.
#[cycle(add)]
fn add_scopes(
    alloc: Global,
    outlines: &[Outline<'_>],
    depth: usize,
    joined: Table<usize>,
    place: usize,
    out: &mut Items<Scope>,
) -> Result<(), Memory>
    ensures { OnOk result (out.new ≡ out.old ++ scopes depth (plain_outlines outlines.now) joined place) }
{
    if depth == 0 {
        return Ok(());
    }
    let at = out.len();
    out.push(Scope { place, joined })?;
    add_inside(alloc, outlines, depth - 1, at, place, out)?;
    Ok(())
}

/// Adds all instances in the instance at place `at` of the list, whose module is at this place.
#[cycle(add)]
fn add_inside(
    alloc: Global,
    outlines: &[Outline<'_>],
    depth: usize,
    at: usize,
    place: usize,
    out: &mut Items<Scope>,
) -> Result<(), Memory>
    requires { at < length out.old }
    ensures { OnOk result (out.new ≡ out.old ++ flat_map
        (child_scopes depth (plain_outlines outlines.now) (joined_at out.old at)) (children_at (plain_outlines outlines.now) place)) }
{
    match outlines.get(place) {
        Some(outline) => add_children(alloc, outlines, depth, at, outline.children.as_slice(), out),
        None => Ok(()),
    }
}

/// Adds all instances in the instance at place `at` of the list, which has these children.
#[cycle(add)]
fn add_children(
    alloc: Global,
    outlines: &[Outline<'_>],
    depth: usize,
    at: usize,
    children: &[Child<'_>],
    out: &mut Items<Scope>,
) -> Result<(), Memory>
    requires { at < length out.old }
    ensures { OnOk result (out.new ≡ out.old
        ++ flat_map (child_scopes depth (plain_outlines outlines.now) (joined_at out.old at)) (map plain_child children.now)) }
{
    for child in children {
        let inner = inner_of(alloc, out.as_slice(), at, child.instance)?;
        add_scopes(alloc, outlines, depth, inner, child.place, out)?;
    }
    Ok(())
}

/// The joined names of the top.
fn top_joined(alloc: Global, inputs: &[&Name]) -> Result<Table<usize>, Memory>
    ensures { IfOk result (λ js. js ≡ ports_from 0 [] (plain_path inputs.now)) }
{
    let mut joined = Table::new(alloc);
    for (port, name) in inputs.iter().enumerate() {
        let copy = copied(alloc, name.as_slice())?;
        joined.push(copy, port)?;
    }
    Ok(joined)
}

/// The instances of a top with these 1-bit input ports.
#[tactic(auto, unfolding(crate::specs::Clock::scopes_of))]
pub fn scopes_of(
    alloc: Global,
    outlines: &[Outline<'_>],
    inputs: &[&Name],
    top: Option<usize>,
) -> Result<Items<Scope>, Memory>
    ensures { IfOk result (λ ss. ss ≡ scopes_of (plain_outlines outlines.now) (plain_path inputs.now) top) }
{
    let mut out = Items::new(alloc);
    match top {
        Some(place) => {
            let joined = top_joined(alloc, inputs)?;
            add_scopes(alloc, outlines, MOST_LEVELS, joined, place, &mut out)?;
            Ok(out)
        }
        None => Ok(out),
    }
}
