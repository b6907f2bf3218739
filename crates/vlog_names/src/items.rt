//! Names in headers and items that aren't declared.

ghost use Rattle.std.specs.Prelude.{◌≡◌, map, option_map};
ghost use Rattle.std.specs.List.{flat_map};
ghost use Rattle.vlog_tree.specs.Plain.{plain_parameter, plain_parameter_head, plain_port, plain_head, plain_named, plain_reg};
ghost use Rattle.vlog_tree.specs.Plain.{plain_tail, plain_assign, plain_event, plain_always, plain_item};
ghost use Rattle.vlog_names.specs.Unknown.{unknown_parameter_head, unknown_parameter, unknown_port_head, unknown_port, unknown_named};
ghost use Rattle.vlog_names.specs.Unknown.{unknown_tail, unknown_reg, unknown_assign, unknown_event, unknown_always, unknown_item};
ghost use Rattle.vlog_size.specs.vidi_bits.Findings.{Judged};
ghost use Rattle.vlog_names.specs.Told.{name_told};

use crate::connections::known_instance;
use crate::declaration::{Declarations, ModuleTable};
use crate::error::NameError;
use crate::expressions::{known, known_bounds, known_expr, known_range, known_value};
use crate::statements::{known_body, known_target};
use std::alloc::Global;
use vlog_tree::{
    Always, Assign, Event, Item, NamedValue, Parameter, ParameterHead, Port, PortHead, Reg1,
    RegTail,
};

fn known_parameter_head(
    alloc: Global,
    names: &Declarations,
    head: &Option<ParameterHead>,
) -> Result<(), NameError>
    ensures { Judged name_told result (unknown_parameter_head names.now (option_map plain_parameter_head head.now)) }
{
    match head {
        None => Ok(()),
        Some(head) => known_range(alloc, names, &head.range),
    }
}

pub fn known_parameters(
    alloc: Global,
    names: &Declarations,
    parameters: &[Parameter],
) -> Result<(), NameError>
    ensures { Judged name_told result (flat_map (unknown_parameter names.now) (map plain_parameter parameters.now)) }
{
    for parameter in parameters {
        known_parameter_head(alloc, names, &parameter.head)?;
        known_expr(alloc, names, &parameter.value)?;
    }
    Ok(())
}

fn known_port_head(
    alloc: Global,
    names: &Declarations,
    head: &Option<PortHead>,
) -> Result<(), NameError>
    ensures { Judged name_told result (unknown_port_head names.now (option_map plain_head head.now)) }
{
    match head {
        None => Ok(()),
        Some(head) => known_range(alloc, names, &head.range),
    }
}

pub fn known_ports(alloc: Global, names: &Declarations, ports: &[Port]) -> Result<(), NameError>
    ensures { Judged name_told result (flat_map (unknown_port names.now) (map plain_port ports.now)) }
{
    for port in ports {
        known_port_head(alloc, names, &port.head)?;
        known_value(alloc, names, &port.init)?;
    }
    Ok(())
}

fn known_named(alloc: Global, names: &Declarations, values: &[NamedValue]) -> Result<(), NameError>
    ensures { Judged name_told result (flat_map (unknown_named names.now) (map plain_named values.now)) }
{
    for value in values {
        known_expr(alloc, names, &value.value)?;
    }
    Ok(())
}

fn known_tail(alloc: Global, names: &Declarations, tail: &Option<RegTail>) -> Result<(), NameError>
    ensures { Judged name_told result (unknown_tail names.now (option_map plain_tail tail.now)) }
{
    match tail {
        None => Ok(()),
        Some(RegTail::Init(e)) => known_expr(alloc, names, e),
        Some(RegTail::Memory(range)) => known_bounds(alloc, names, range),
    }
}

fn known_regs(alloc: Global, names: &Declarations, regs: &[Reg1]) -> Result<(), NameError>
    ensures { Judged name_told result (flat_map (unknown_reg names.now) (map plain_reg regs.now)) }
{
    for reg in regs {
        known_tail(alloc, names, &reg.tail)?;
    }
    Ok(())
}

fn known_assigns(alloc: Global, names: &Declarations, assigns: &[Assign]) -> Result<(), NameError>
    ensures { Judged name_told result (flat_map (unknown_assign names.now) (map plain_assign assigns.now)) }
{
    for assign in assigns {
        known_target(alloc, names, &assign.target)?;
        known_expr(alloc, names, &assign.value)?;
    }
    Ok(())
}

fn known_event(alloc: Global, names: &Declarations, event: &Event) -> Result<(), NameError>
    ensures { Judged name_told result (unknown_event names.now (plain_event event.now)) }
{
    match event {
        Event::Posedge(ident) => known(alloc, names, ident),
        Event::Implicit { parens: _ } => Ok(()),
    }
}

fn known_always(alloc: Global, names: &Declarations, always: &Always) -> Result<(), NameError>
    ensures { Judged name_told result (unknown_always names.now (plain_always always.now)) }
{
    known_event(alloc, names, &always.event)?;
    known_body(alloc, names, &always.body)
}

fn known_item(
    alloc: Global,
    modules: &ModuleTable,
    names: &Declarations,
    item: &Item,
) -> Result<(), NameError>
    ensures { Judged name_told result (unknown_item modules.now names.now (plain_item item.now)) }
{
    match item {
        Item::Wires { range, names: _ } => known_range(alloc, names, range),
        Item::DrivenWires { range, wires } => {
            known_range(alloc, names, range)?;
            known_named(alloc, names, wires.as_slice())
        }
        Item::Regs { range, regs } => {
            known_range(alloc, names, range)?;
            known_regs(alloc, names, regs.as_slice())
        }
        Item::Localparams { range, parameters } => {
            known_range(alloc, names, range)?;
            known_named(alloc, names, parameters.as_slice())
        }
        Item::Assign { assigns } => known_assigns(alloc, names, assigns.as_slice()),
        Item::Always(always) => known_always(alloc, names, always),
        Item::Instance(instance) => known_instance(alloc, modules, names, instance),
    }
}

pub fn known_items(
    alloc: Global,
    modules: &ModuleTable,
    names: &Declarations,
    items: &[Item],
) -> Result<(), NameError>
    ensures { Judged name_told result (flat_map (unknown_item modules.now names.now) (map plain_item items.now)) }
{
    for item in items {
        known_item(alloc, modules, names, item)?;
    }
    Ok(())
}
