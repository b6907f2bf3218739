//! Headers and items.

ghost use Rattle.std.specs.Prelude.{◌≡◌, map, option_map};
ghost use Rattle.std.specs.List.{flat_map};
ghost use Rattle.vlog_tree.specs.Plain.{plain_parameter, plain_parameter_head, plain_port, plain_head, plain_named, plain_reg};
ghost use Rattle.vlog_tree.specs.Plain.{plain_tail, plain_assign, plain_event, plain_always, plain_item};
ghost use Rattle.vlog_names.specs.vidi_bits.Findings.{Judged};
ghost use Rattle.vlog_names.specs.Told.{kind_told};
ghost use Rattle.vlog_names.specs.Uses.{in_parameter_head, in_parameter, in_port_head, in_port, wrong_init, in_named, in_tail, in_reg};
ghost use Rattle.vlog_names.specs.Uses.{in_assign, in_event, is_clocked, in_always, in_item};

use crate::declaration::{Declarations, ModuleTable};
use crate::kinds::connections::check_instance;
use crate::kinds::error::KindError;
use crate::kinds::expressions::{check_bounds, check_expr, check_range, check_value, refuse_if};
use crate::kinds::roles::{is_memory, is_output_reg};
use crate::kinds::statements::check_body;
use crate::kinds::targets::check_driven_target;
use vlog_tree::{
    Always, Assign, Event, Item, NamedValue, Parameter, ParameterHead, Port, PortHead, Reg1,
    RegTail,
};

fn check_parameter_head(names: &Declarations, head: &Option<ParameterHead>) -> Result<(), KindError>
    ensures { Judged kind_told result (in_parameter_head names.now (option_map plain_parameter_head head.now)) }
{
    match head {
        None => Ok(()),
        Some(head) => check_range(names, &head.range),
    }
}

pub fn check_parameters(names: &Declarations, parameters: &[Parameter]) -> Result<(), KindError>
    ensures { Judged kind_told result (flat_map (in_parameter names.now) (map plain_parameter parameters.now)) }
{
    for parameter in parameters {
        check_parameter_head(names, &parameter.head)?;
        check_expr(names, &parameter.value)?;
    }
    Ok(())
}

fn check_port_head(names: &Declarations, head: &Option<PortHead>) -> Result<(), KindError>
    ensures { Judged kind_told result (in_port_head names.now (option_map plain_head head.now)) }
{
    match head {
        None => Ok(()),
        Some(head) => check_range(names, &head.range),
    }
}

/// Refuses an initialiser on a port that isn't `output reg`.
fn check_init(names: &Declarations, port: &Port) -> Result<(), KindError>
    ensures { Judged kind_told result (wrong_init names.now (plain_port port.now)) }
{
    match &port.init {
        None => Ok(()),
        Some(_) => refuse_if(!is_output_reg(names, &port.id), port.id.line),
    }
}

pub fn check_ports(names: &Declarations, ports: &[Port]) -> Result<(), KindError>
    ensures { Judged kind_told result (flat_map (in_port names.now) (map plain_port ports.now)) }
{
    for port in ports {
        check_port_head(names, &port.head)?;
        check_init(names, port)?;
        check_value(names, &port.init)?;
    }
    Ok(())
}

fn check_named(names: &Declarations, values: &[NamedValue]) -> Result<(), KindError>
    ensures { Judged kind_told result (flat_map (in_named names.now) (map plain_named values.now)) }
{
    for value in values {
        check_expr(names, &value.value)?;
    }
    Ok(())
}

fn check_tail(names: &Declarations, tail: &Option<RegTail>) -> Result<(), KindError>
    ensures { Judged kind_told result (in_tail names.now (option_map plain_tail tail.now)) }
{
    match tail {
        None => Ok(()),
        Some(RegTail::Init(e)) => check_expr(names, e),
        Some(RegTail::Memory(range)) => check_bounds(names, range),
    }
}

fn check_regs(names: &Declarations, regs: &[Reg1]) -> Result<(), KindError>
    ensures { Judged kind_told result (flat_map (in_reg names.now) (map plain_reg regs.now)) }
{
    for reg in regs {
        check_tail(names, &reg.tail)?;
    }
    Ok(())
}

fn check_assigns(names: &Declarations, assigns: &[Assign]) -> Result<(), KindError>
    ensures { Judged kind_told result (flat_map (in_assign names.now) (map plain_assign assigns.now)) }
{
    for assign in assigns {
        check_driven_target(names, &assign.target)?;
        check_expr(names, &assign.value)?;
    }
    Ok(())
}

/// Refuses a memory in a sensitivity.
fn check_event(names: &Declarations, event: &Event) -> Result<(), KindError>
    ensures { Judged kind_told result (in_event names.now (plain_event event.now)) }
{
    match event {
        Event::Posedge(ident) => refuse_if(is_memory(names, ident), ident.line),
        Event::Implicit { parens: _ } => Ok(()),
    }
}

fn is_clocked(event: &Event) -> bool
    ensures { result ≡ is_clocked (plain_event event.now) }
{
    match event {
        Event::Posedge(_) => true,
        Event::Implicit { parens: _ } => false,
    }
}

fn check_always(names: &Declarations, always: &Always) -> Result<(), KindError>
    ensures { Judged kind_told result (in_always names.now (plain_always always.now)) }
{
    check_event(names, &always.event)?;
    check_body(is_clocked(&always.event), names, &always.body)
}

fn check_item(modules: &ModuleTable, names: &Declarations, item: &Item) -> Result<(), KindError>
    ensures { Judged kind_told result (in_item modules.now names.now (plain_item item.now)) }
{
    match item {
        Item::Wires { range, names: _ } => check_range(names, range),
        Item::DrivenWires { range, wires } => {
            check_range(names, range)?;
            check_named(names, wires.as_slice())
        }
        Item::Regs { range, regs } => {
            check_range(names, range)?;
            check_regs(names, regs.as_slice())
        }
        Item::Localparams { range, parameters } => {
            check_range(names, range)?;
            check_named(names, parameters.as_slice())
        }
        Item::Assign { assigns } => check_assigns(names, assigns.as_slice()),
        Item::Always(always) => check_always(names, always),
        Item::Instance(instance) => check_instance(modules, names, instance),
    }
}

pub fn check_items(
    modules: &ModuleTable,
    names: &Declarations,
    items: &[Item],
) -> Result<(), KindError>
    ensures { Judged kind_told result (flat_map (in_item modules.now names.now) (map plain_item items.now)) }
{
    for item in items {
        check_item(modules, names, item)?;
    }
    Ok(())
}
