//! Copies of modules, ports and items.

ghost use Rattle.std.specs.Prelude.{◌≡◌, ℕ, IfOk};
ghost use Rattle.vlog_tree.specs.Tree.{IdentOf, ExprOf, RangeOf, ParameterHeadOf, ParameterOf, PortHeadOf, PortOf, NamedValueOf, RegTailOf};
ghost use Rattle.vlog_tree.specs.Tree.{Reg1Of, AssignOf, ConnOf, ItemOf};
ghost use Rattle.vlog_tree.specs.Plain.{plain_ident, plain_expr, plain_range, plain_parameter_head, plain_parameter, plain_head, plain_port};
ghost use Rattle.vlog_tree.specs.Plain.{plain_named, plain_tail, plain_reg, plain_assign, plain_event, plain_always, plain_conn};
ghost use Rattle.vlog_tree.specs.Plain.{plain_instance, plain_item, plain_module};

use crate::expr::{copy_boxed, copy_expr, copy_ident};
use crate::listed::{Part, copy_all, copy_some};
use crate::stmt::{copy_body, copy_target};
use std::alloc::Global;
use vlog_tree::vidi_bits::{Memory, copied};
use vlog_tree::{
    Always, Assign, Conn, Event, Expr, Ident, Instance, Item, Module, NamedValue, Parameter,
    ParameterHead, Port, PortHead, Range, Reg1, RegTail,
};

impl Part for Ident {
    ghost Plain = { IdentOf ℕ };

    ghost plain = { plain_ident };

    fn copy(&self, alloc: Global) -> Result<Ident, Memory> {
        copy_ident(alloc, self)
    }
}

impl Part for Expr {
    ghost Plain = { ExprOf ℕ };

    ghost plain = { plain_expr };

    fn copy(&self, alloc: Global) -> Result<Expr, Memory> {
        copy_expr(alloc, self)
    }
}

impl Part for Range {
    ghost Plain = { RangeOf ℕ };

    ghost plain = { plain_range };

    fn copy(&self, alloc: Global) -> Result<Range, Memory> {
        let first = copy_boxed(alloc, &self.first)?;
        let second = copy_boxed(alloc, &self.second)?;
        Ok(Range {
            first: Box::into_inner(first),
            second: Box::into_inner(second),
        })
    }
}

impl Part for ParameterHead {
    ghost Plain = { ParameterHeadOf ℕ };

    ghost plain = { plain_parameter_head };

    fn copy(&self, alloc: Global) -> Result<ParameterHead, Memory> {
        let range = copy_some(alloc, &self.range)?;
        Ok(ParameterHead { range })
    }
}

impl Part for Parameter {
    ghost Plain = { ParameterOf ℕ };

    ghost plain = { plain_parameter };

    fn copy(&self, alloc: Global) -> Result<Parameter, Memory> {
        let value = copy_boxed(alloc, &self.value)?;
        let id = copy_ident(alloc, &self.id)?;
        let head = copy_some(alloc, &self.head)?;
        Ok(Parameter {
            head,
            id,
            value: Box::into_inner(value),
        })
    }
}

impl Part for PortHead {
    ghost Plain = { PortHeadOf ℕ };

    ghost plain = { plain_head };

    fn copy(&self, alloc: Global) -> Result<PortHead, Memory> {
        let range = copy_some(alloc, &self.range)?;
        Ok(PortHead {
            direction: self.direction,
            range,
        })
    }
}

impl Part for Port {
    ghost Plain = { PortOf ℕ };

    ghost plain = { plain_port };

    fn copy(&self, alloc: Global) -> Result<Port, Memory> {
        let id = copy_ident(alloc, &self.id)?;
        let init = copy_some(alloc, &self.init)?;
        let head = copy_some(alloc, &self.head)?;
        Ok(Port { head, id, init })
    }
}

impl Part for NamedValue {
    ghost Plain = { NamedValueOf ℕ };

    ghost plain = { plain_named };

    fn copy(&self, alloc: Global) -> Result<NamedValue, Memory> {
        let id = copy_ident(alloc, &self.id)?;
        let value = copy_expr(alloc, &self.value)?;
        Ok(NamedValue { id, value })
    }
}

impl Part for RegTail {
    ghost Plain = { RegTailOf ℕ };

    ghost plain = { plain_tail };

    fn copy(&self, alloc: Global) -> Result<RegTail, Memory> {
        match self {
            RegTail::Init(value) => {
                let value = copy_expr(alloc, value)?;
                Ok(RegTail::Init(value))
            }
            RegTail::Memory(range) => {
                let range = range.copy(alloc)?;
                Ok(RegTail::Memory(range))
            }
        }
    }
}

impl Part for Reg1 {
    ghost Plain = { Reg1Of ℕ };

    ghost plain = { plain_reg };

    fn copy(&self, alloc: Global) -> Result<Reg1, Memory> {
        let id = copy_ident(alloc, &self.id)?;
        let tail = copy_some(alloc, &self.tail)?;
        Ok(Reg1 { id, tail })
    }
}

impl Part for Assign {
    ghost Plain = { AssignOf ℕ };

    ghost plain = { plain_assign };

    fn copy(&self, alloc: Global) -> Result<Assign, Memory> {
        let value = copy_boxed(alloc, &self.value)?;
        let target = copy_target(alloc, &self.target)?;
        Ok(Assign {
            target,
            value: Box::into_inner(value),
        })
    }
}

fn copy_event(alloc: Global, event: &Event) -> Result<Event, Memory>
    ensures { IfOk result (λ c. plain_event c ≡ plain_event event.now) }
{
    match event {
        Event::Posedge(clock) => {
            let clock = copy_ident(alloc, clock)?;
            Ok(Event::Posedge(clock))
        }
        Event::Implicit { parens } => Ok(Event::Implicit { parens: *parens }),
    }
}

fn copy_always(alloc: Global, always: &Always) -> Result<Always, Memory>
    ensures { IfOk result (λ c. plain_always c ≡ plain_always always.now) }
{
    let event = copy_event(alloc, &always.event)?;
    let body = copy_body(alloc, &always.body)?;
    Ok(Always {
        line: always.line,
        event,
        body,
    })
}

impl Part for Conn {
    ghost Plain = { ConnOf ℕ };

    ghost plain = { plain_conn };

    fn copy(&self, alloc: Global) -> Result<Conn, Memory> {
        let id = copy_ident(alloc, &self.id)?;
        let value = copy_some(alloc, &self.value)?;
        Ok(Conn {
            line: self.line,
            id,
            value,
        })
    }
}

fn copy_instance(alloc: Global, instance: &Instance) -> Result<Instance, Memory>
    ensures { IfOk result (λ c. plain_instance c ≡ plain_instance instance.now) }
{
    let module_id = copy_ident(alloc, &instance.module_id)?;
    let parameters = copy_all(alloc, instance.parameters.as_slice())?;
    let id = copy_ident(alloc, &instance.id)?;
    let ports = copy_all(alloc, instance.ports.as_slice())?;
    Ok(Instance {
        module_id,
        parameters,
        id,
        ports,
    })
}

impl Part for Item {
    ghost Plain = { ItemOf ℕ };

    ghost plain = { plain_item };

    fn copy(&self, alloc: Global) -> Result<Item, Memory> {
        match self {
            Item::Wires { range, names } => {
                let names = copy_all(alloc, names.as_slice())?;
                let range = copy_some(alloc, range)?;
                Ok(Item::Wires { range, names })
            }
            Item::DrivenWires { range, wires } => {
                let wires = copy_all(alloc, wires.as_slice())?;
                let range = copy_some(alloc, range)?;
                Ok(Item::DrivenWires { range, wires })
            }
            Item::Regs { range, regs } => {
                let regs = copy_all(alloc, regs.as_slice())?;
                let range = copy_some(alloc, range)?;
                Ok(Item::Regs { range, regs })
            }
            Item::Localparams { range, parameters } => {
                let parameters = copy_all(alloc, parameters.as_slice())?;
                let range = copy_some(alloc, range)?;
                Ok(Item::Localparams { range, parameters })
            }
            Item::Assign { assigns } => {
                let assigns = copy_all(alloc, assigns.as_slice())?;
                Ok(Item::Assign { assigns })
            }
            Item::Always(always) => {
                let always = copy_always(alloc, always)?;
                Ok(Item::Always(always))
            }
            Item::Instance(instance) => {
                let instance = copy_instance(alloc, instance)?;
                Ok(Item::Instance(instance))
            }
        }
    }
}

/// A copy of a port, with the same lines.
pub fn copy_port(alloc: Global, port: &Port) -> Result<Port, Memory>
    ensures { IfOk result (λ c. plain_port c ≡ plain_port port.now) }
{
    port.copy(alloc)
}

/// A copy of a module, with the same lines.
pub fn copy_module(alloc: Global, declared: &Module) -> Result<Module, Memory>
    ensures { IfOk result (λ c. plain_module c ≡ plain_module declared.now) }
{
    let name = copied(alloc, declared.name.as_slice())?;
    let parameters = copy_all(alloc, declared.parameters.as_slice())?;
    let ports = copy_all(alloc, declared.ports.as_slice())?;
    let items = copy_all(alloc, declared.items.as_slice())?;
    Ok(Module {
        name,
        parameters,
        ports,
        items,
    })
}
