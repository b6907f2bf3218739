//! Good shape of files, modules, ports and items.

ghost use Rattle.std.specs.Prelude.{◌↔◌, ℕ, IsTrue, option_map, map};
ghost use Rattle.vlog_tree.specs.Tree.{IdentOf, ParameterOf, PortOf, NamedValueOf, Reg1Of, AssignOf, ConnOf, ItemOf, ModuleOf};
ghost use Rattle.vlog_tree.specs.Plain.{plain_ident, plain_range, plain_head, plain_port, plain_named, plain_tail, plain_reg, plain_assign};
ghost use Rattle.vlog_tree.specs.Plain.{plain_event, plain_always, plain_item, plain_module, plain, plain_expr, plain_parameter_head};
ghost use Rattle.vlog_tree.specs.Plain.{plain_parameter, plain_conn, plain_instance};
ghost use Rattle.vlog_tree.specs.Shape.{IsGoodOption, IsGoodExpr, IsGoodIdent, IsGoodRange, IsGoodHead, IsGoodPort};
ghost use Rattle.vlog_tree.specs.Shape.{IsFirstDirected, IsGoodNamed, IsGoodTail, IsGoodReg, IsGoodAssign, IsGoodEvent, IsGoodAlways};
ghost use Rattle.vlog_tree.specs.Shape.{IsGoodItem, IsGoodModule, IsGood, IsGoodParameterHead, IsGoodParameter, IsFirstHeaded};
ghost use Rattle.vlog_tree.specs.Shape.{IsGoodConn, IsGoodInstance};

use crate::shape::expr::good_expr;
use crate::shape::listed::{Shaped, each_good, some_good};
use crate::shape::stmt::{good_body, good_target};
use crate::shape::token::good_name;
use vlog_tree::{
    Always, Assign, Conn, Event, Expr, File, Ident, Instance, Item, Module, NamedValue, Parameter,
    ParameterHead, Port, PortHead, Range, Reg1, RegTail,
};

impl Shaped for Ident {
    ghost Plain = { IdentOf ℕ };

    ghost plain = { plain_ident };

    ghost is_good = { IsGoodIdent };

    fn good(&self) -> bool {
        good_name(&self.name)
    }
}

fn good_bounds(range: &Range) -> bool
    ensures { IsTrue result ↔ IsGoodRange (plain_range range.now) }
{
    good_expr(&range.first) && good_expr(&range.second)
}

fn good_range(range: &Option<Range>) -> bool
    ensures { IsTrue result ↔ IsGoodOption IsGoodRange (option_map plain_range range.now) }
{
    match range {
        None => true,
        Some(range) => good_bounds(range),
    }
}

fn good_head(head: &Option<PortHead>) -> bool
    ensures { IsTrue result ↔ IsGoodOption IsGoodHead (option_map plain_head head.now) }
{
    match head {
        None => true,
        Some(head) => good_range(&head.range),
    }
}

fn good_init(init: &Option<Expr>) -> bool
    ensures { IsTrue result ↔ IsGoodOption IsGoodExpr (option_map plain_expr init.now) }
{
    match init {
        None => true,
        Some(value) => good_expr(value),
    }
}

fn good_parameter_head(head: &Option<ParameterHead>) -> bool
    ensures { IsTrue result ↔ IsGoodOption IsGoodParameterHead (option_map plain_parameter_head head.now) }
{
    match head {
        None => true,
        Some(head) => good_range(&head.range),
    }
}

impl Shaped for Parameter {
    ghost Plain = { ParameterOf ℕ };

    ghost plain = { plain_parameter };

    ghost is_good = { IsGoodParameter };

    fn good(&self) -> bool {
        good_parameter_head(&self.head) && good_name(&self.id.name) && good_expr(&self.value)
    }
}

impl Shaped for Port {
    ghost Plain = { PortOf ℕ };

    ghost plain = { plain_port };

    ghost is_good = { IsGoodPort };

    fn good(&self) -> bool {
        good_head(&self.head) && good_name(&self.id.name) && good_init(&self.init)
    }
}

impl Shaped for NamedValue {
    ghost Plain = { NamedValueOf ℕ };

    ghost plain = { plain_named };

    ghost is_good = { IsGoodNamed };

    fn good(&self) -> bool {
        good_name(&self.id.name) && good_expr(&self.value)
    }
}

fn good_tail(tail: &Option<RegTail>) -> bool
    ensures { IsTrue result ↔ IsGoodOption IsGoodTail (option_map plain_tail tail.now) }
{
    match tail {
        None => true,
        Some(RegTail::Init(value)) => good_expr(value),
        Some(RegTail::Memory(range)) => good_bounds(range),
    }
}

impl Shaped for Reg1 {
    ghost Plain = { Reg1Of ℕ };

    ghost plain = { plain_reg };

    ghost is_good = { IsGoodReg };

    fn good(&self) -> bool {
        good_name(&self.id.name) && good_tail(&self.tail)
    }
}

impl Shaped for Assign {
    ghost Plain = { AssignOf ℕ };

    ghost plain = { plain_assign };

    ghost is_good = { IsGoodAssign };

    fn good(&self) -> bool {
        good_target(&self.target) && good_expr(&self.value)
    }
}

fn good_event(event: &Event) -> bool
    ensures { IsTrue result ↔ IsGoodEvent (plain_event event.now) }
{
    match event {
        Event::Posedge(clock) => good_name(&clock.name),
        Event::Implicit { parens: _ } => true,
    }
}

fn good_always(always: &Always) -> bool
    ensures { IsTrue result ↔ IsGoodAlways (plain_always always.now) }
{
    good_event(&always.event) && good_body(&always.body)
}

impl Shaped for Conn {
    ghost Plain = { ConnOf ℕ };

    ghost plain = { plain_conn };

    ghost is_good = { IsGoodConn };

    fn good(&self) -> bool {
        good_name(&self.id.name) && good_init(&self.value)
    }
}

fn good_instance(instance: &Instance) -> bool
    ensures { IsTrue result ↔ IsGoodInstance (plain_instance instance.now) }
{
    good_name(&instance.module_id.name)
        && each_good(instance.parameters.as_slice())
        && good_name(&instance.id.name)
        && each_good(instance.ports.as_slice())
}

impl Shaped for Item {
    ghost Plain = { ItemOf ℕ };

    ghost plain = { plain_item };

    ghost is_good = { IsGoodItem };

    fn good(&self) -> bool {
        match self {
            Item::Wires { range, names } => good_range(range) && some_good(names.as_slice()),
            Item::DrivenWires { range, wires } => good_range(range) && some_good(wires.as_slice()),
            Item::Regs { range, regs } => good_range(range) && some_good(regs.as_slice()),
            Item::Localparams { range, parameters } => {
                good_range(range) && some_good(parameters.as_slice())
            }
            Item::Assign { assigns } => some_good(assigns.as_slice()),
            Item::Always(always) => good_always(always),
            Item::Instance(instance) => good_instance(instance),
        }
    }
}

/// Whether the first parameter, where there is one, has the word `parameter`.
fn first_headed(parameters: &[Parameter]) -> bool
    ensures { IsTrue result ↔ IsFirstHeaded (map plain_parameter parameters.now) }
{
    match parameters {
        [] => true,
        [first, ..] => first.head.is_some(),
    }
}

/// Whether the first port, where there is one, has a direction.
fn first_directed(ports: &[Port]) -> bool
    ensures { IsTrue result ↔ IsFirstDirected (map plain_port ports.now) }
{
    match ports {
        [] => true,
        [first, ..] => first.head.is_some(),
    }
}

impl Shaped for Module {
    ghost Plain = { ModuleOf ℕ };

    ghost plain = { plain_module };

    ghost is_good = { IsGoodModule };

    fn good(&self) -> bool {
        good_name(&self.name)
            && first_headed(self.parameters.as_slice())
            && each_good(self.parameters.as_slice())
            && first_directed(self.ports.as_slice())
            && each_good(self.ports.as_slice())
            && each_good(self.items.as_slice())
    }
}

/// Whether the tree has good shape: it is one of the grammar, names and numbers are lawful tokens,
/// operands stand at or above the level that their place asks, a lone bracket of a ref is its last one
/// and no `else` could belong to a nearer `if`. Lines don't count.
pub fn good_shape(file: &File) -> bool
    ensures { IsTrue result ↔ IsGood (plain file.now) }
{
    some_good(file.modules.as_slice())
}
