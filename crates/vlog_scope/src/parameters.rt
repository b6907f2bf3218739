//! The parameters of a module instance.

ghost use Rattle.std.specs.Prelude.{◌≡◌, OnOk, IfOk, map, option_map, min};
ghost use Rattle.vlog_tree.specs.Plain.{plain_expr, plain_range, plain_conn, plain_parameter, plain_named, plain_item};
ghost use Rattle.vlog_scope.specs.declared.extent.Extent.TheVariants.{NoRange};
ghost use Rattle.vlog_size.specs.Names.{Readable, readable_in, params_alone, fixed};
ghost use Rattle.vlog_size.specs.Size.{Sizes, sizes_of, number, or_zero, constant_at};
ghost use Rattle.vlog_size.specs.Facts.{Shows, ShowsNumber};
ghost use Rattle.vlog_size.specs.Table.{value_of};
ghost use Rattle.vlog_scope.specs.Extents.{MOST, constant_sizes, parameter_extent};
ghost use Rattle.vlog_scope.specs.Params as params;
ghost use Rattle.vlog_scope.specs.Given.{sizes_in, given_in};

use crate::extent::{Extent, MOST, extent_of, parameter_extent};
use std::alloc::Global;
use vlog_size::vidi_bits::{Memory, copied};
use vlog_size::{
    Const, Facts, Numbered, Param, Params, Table, View, assigned_number, fixed, numbered,
    params_view,
};
use vlog_tree::{Conn, Expr, Item, NamedValue, Parameter};

/// The connections of an instance's parameters, by name.
#[derive(Drop)]
pub struct Overrides<'a> {
    /// What they may read.
    pub view: View<'a>,
    pub values: Table<&'a Expr>,
}

/// Adds a connection that isn't empty.
#[tactic(auto, using(crate::proofs::Overridden::sizes_added))]
fn add_override<'a>(
    alloc: Global,
    values: &mut Table<&'a Expr>,
    conn: &'a Conn,
) -> Result<(), Memory>
    ensures { (r : Readable) → OnOk result (sizes_in (fixed r) values.new
        ≡ params.with_override r (sizes_in (fixed r) values.old) (plain_conn conn.now).id.name (plain_conn conn.now).value) }
{
    if let Some(value) = &conn.value {
        let name = copied(alloc, conn.id.name.as_slice())?;
        values.push(name, value)?;
    }
    Ok(())
}

/// The connections that aren't empty, in text order.
fn values_of<'a>(alloc: Global, conns: &'a [Conn]) -> Result<Table<&'a Expr>, Memory>
    ensures { (r : Readable) → IfOk result (λ values. sizes_in (fixed r) values ≡ params.overrides_of r (map plain_conn conns.now)) }
{
    let mut values = Table::new(alloc);
    for conn in conns {
        add_override(alloc, &mut values, conn)?;
    }
    Ok(values)
}

/// The overrides that an instance's connections give, which its parent's names may read.
pub fn overrides_of<'a>(
    alloc: Global,
    view: &View<'a>,
    conns: &'a [Conn],
) -> Result<Overrides<'a>, Memory>
    ensures { IfOk result (λ o. given_in o ≡ params.overrides_of (readable_in view.now) (map plain_conn conns.now)) }
{
    let values = values_of(alloc, conns)?;
    Ok(Overrides {
        view: fixed(view),
        values,
    })
}

/// The width of an expression's constant; 0, which is no lawful one, where a part that makes it has
/// no lawful one.
fn constant_width(facts: &Facts) -> u32
    ensures { (E : Sizes) → Shows facts.now E → result ≡ params.constant_width E }
{
    if facts.parts_lawful {
        facts.width.min(2_147_483_648) as u32
    } else {
        0
    }
}

/// The constant of an expression, with number 0 where it has none.
#[tactic(auto, using(crate::proofs::Overridden::plain_number))]
fn own_const(whole: &Numbered) -> Const
    ensures { (E : Sizes) → ShowsNumber whole.now E → result ≡ constant_at E.plain (params.constant_width E) (or_zero (number E)) }
{
    if whole.facts.plain {
        Const::Plain {
            n: whole.facts.whole.unwrap_or(0),
        }
    } else {
        Const::Sized {
            width: constant_width(&whole.facts),
            n: whole.number.unwrap_or(0),
        }
    }
}

/// A parameter without a range that this expression makes.
fn own_param(view: &View<'_>, e: &Expr) -> Param
    ensures { result ≡ params.own_param (sizes_of (readable_in view.now) (plain_expr e.now)) }
{
    let whole = numbered(view, e);
    Param {
        value: own_const(&whole),
        known: whole.number.is_some(),
    }
}

/// So many bits and their number, where there is one.
fn ranged_param(width: u32, number: Option<u128>) -> Param
    ensures { result ≡ params.ranged_param width number }
{
    Param {
        value: Const::Sized {
            width,
            n: number.unwrap_or(0),
        },
        known: number.is_some(),
    }
}

/// The number that an expression gives to so many bits, where these are lawful.
fn assigned(view: &View<'_>, e: &Expr, width: u32) -> Option<u128>
    ensures { result ≡ params.assigned width (sizes_of (readable_in view.now) (plain_expr e.now)) }
{
    if 0 < width && width <= 128 {
        assigned_number(view, e, width)
    } else {
        None
    }
}

/// A parameter that this expression makes.
fn param_of(view: &View<'_>, extent: Extent, e: &Expr) -> Param
    ensures { result ≡ params.param_of extent (sizes_of (readable_in view.now) (plain_expr e.now)) }
{
    match extent {
        Extent::NoRange => own_param(view, e),
        Extent::Bits(w) => ranged_param(w, assigned(view, e, w)),
        Extent::AtFault => ranged_param(MOST, None),
    }
}

/// A parameter that the connection of its name makes, or else its own expression.
#[tactic(auto, using(crate::proofs::Overridden::given_some, crate::proofs::Overridden::given_none))]
fn header_param(view: &View<'_>, given: &Overrides<'_>, extent: Extent, p: &Parameter) -> Param
    ensures { result ≡ params.param_of extent (params.given_or (value_of (given_in given.now) (plain_parameter p.now).id.name)
        (constant_sizes (readable_in view.now) (plain_parameter p.now).value)) }
{
    match given.values.get(p.id.name.as_slice()) {
        Some(value) => param_of(&given.view, extent, value),
        None => param_of(&fixed(view), extent, &p.value),
    }
}

/// Adds a parameter of the header, and answers the range that is in force behind it.
fn add_parameter(
    alloc: Global,
    so_far: &mut Params,
    given: &Overrides<'_>,
    before: Extent,
    p: &Parameter,
) -> Result<Extent, Memory>
    ensures extent { IfOk result (λ x. x ≡ parameter_extent (params_alone so_far.old) before (plain_parameter p.now).head) }
    ensures value { IfOk result (λ x. so_far.new ≡ params.with_param x so_far.old (plain_parameter p.now).id.name
        (params.given_or (value_of (given_in given.now) (plain_parameter p.now).id.name)
        (constant_sizes (params_alone so_far.old) (plain_parameter p.now).value))) }
{
    let view = params_view(so_far);
    let extent = parameter_extent(&view, before, &p.head);
    let param = header_param(&view, given, extent, p);
    let name = copied(alloc, p.id.name.as_slice())?;
    so_far.push(name, param)?;
    Ok(extent)
}

/// Adds the header's parameters, of which these are overridden.
pub fn add_parameters(
    alloc: Global,
    so_far: &mut Params,
    given: &Overrides<'_>,
    list: &[Parameter],
) -> Result<(), Memory>
    ensures { OnOk result (so_far.new ≡ params.header_params (given_in given.now) NoRange so_far.old (map plain_parameter list.now)) }
{
    let mut extent = Extent::NoRange;
    for p in list {
        extent = add_parameter(alloc, so_far, given, extent, p)?;
    }
    Ok(())
}

/// Adds a parameter of a `localparam` whose range this is.
fn add_local(
    alloc: Global,
    so_far: &mut Params,
    extent: Extent,
    v: &NamedValue,
) -> Result<(), Memory>
    ensures { OnOk result (so_far.new ≡ params.with_param extent so_far.old (plain_named v.now).id.name
        (constant_sizes (params_alone so_far.old) (plain_named v.now).value)) }
{
    let view = params_view(so_far);
    let param = param_of(&fixed(&view), extent, &v.value);
    let name = copied(alloc, v.id.name.as_slice())?;
    so_far.push(name, param)?;
    Ok(())
}

/// Adds the parameters of a `localparam` whose range this is.
fn add_locals(
    alloc: Global,
    so_far: &mut Params,
    extent: Extent,
    list: &[NamedValue],
) -> Result<(), Memory>
    ensures { OnOk result (so_far.new ≡ params.local_params extent so_far.old (map plain_named list.now)) }
{
    for v in list {
        add_local(alloc, so_far, extent, v)?;
    }
    Ok(())
}

/// Adds the parameters of an item.
fn add_item(alloc: Global, so_far: &mut Params, item: &Item) -> Result<(), Memory>
    ensures { OnOk result (so_far.new ≡ params.item_params so_far.old (plain_item item.now)) }
{
    match item {
        Item::Localparams { range, parameters } => {
            let extent = extent_of(&params_view(so_far), range);
            add_locals(alloc, so_far, extent, parameters.as_slice())
        }
        _ => Ok(()),
    }
}

/// Adds the parameters of the items.
pub fn add_items(alloc: Global, so_far: &mut Params, items: &[Item]) -> Result<(), Memory>
    ensures { OnOk result (so_far.new ≡ params.items_params so_far.old (map plain_item items.now)) }
{
    for item in items {
        add_item(alloc, so_far, item)?;
    }
    Ok(())
}
