//! The first fault of a module instance.

ghost use Rattle.std.specs.Prelude.{◌≡◌, ◌↔◌, [], map, option_map, IsTrue, Some};
ghost use Rattle.vlog_size.specs.vidi_bits.Findings.{Judged};
ghost use Rattle.vlog_tree.specs.Plain.{plain_parameter_head, plain_parameter, plain_head, plain_port, plain_module};
ghost use Rattle.vlog_size.specs.Names.{readable_in};
ghost use Rattle.vlog_scope.specs.Faults as faults;
ghost use Rattle.vlog_scope.specs.declared.extent.Extent.TheVariants.{NoRange};

use crate::expressions::{constant_fault, fixed_fault, name_fault, range_fault};
use crate::extent::{Extent, parameter_extent, port_extent};
use crate::fault::FaultKind;
use crate::items::items_fault;
use crate::scope::{after_name, view_at};
use vlog_size::{Scope, SizeError, View};
use vlog_tree::{Module, Parameter, ParameterHead, Port, PortHead};

/// The fault of the range behind the word `parameter`.
fn parameter_head_fault(
    kind: FaultKind,
    view: &View<'_>,
    head: &Option<ParameterHead>,
) -> Result<(), SizeError>
    ensures { Judged Some result (faults.parameter_head_faults kind (readable_in view.now) (option_map plain_parameter_head head.now)) }
{
    match head {
        None => Ok(()),
        Some(head) => range_fault(kind, view, &head.range),
    }
}

/// The fault of a parameter of the header, whose range this is.
fn parameter_fault(
    kind: FaultKind,
    view: &View<'_>,
    extent: Extent,
    p: &Parameter,
) -> Result<(), SizeError>
    ensures { Judged Some result (faults.parameter_faults kind (readable_in view.now) extent (plain_parameter p.now)) }
{
    parameter_head_fault(kind, view, &p.head)?;
    name_fault(kind, extent, &p.id)?;
    constant_fault(kind, view, &p.value)
}

/// The fault of the header's parameters.
fn parameters_fault(kind: FaultKind, scope: &Scope, list: &[Parameter]) -> Result<(), SizeError>
    ensures { Judged Some result (faults.parameters_faults kind scope.now 0 NoRange (map plain_parameter list.now)) }
{
    let mut count = 0;
    let mut extent = Extent::NoRange;
    for p in list {
        let view = view_at(scope, count);
        extent = parameter_extent(&view, extent, &p.head);
        parameter_fault(kind, &view, extent, p)?;
        count = after_name(&scope.params, count, &p.id);
    }
    Ok(())
}

/// The fault of the range behind a direction.
fn port_head_fault(
    kind: FaultKind,
    view: &View<'_>,
    head: &Option<PortHead>,
) -> Result<(), SizeError>
    ensures { Judged Some result (faults.port_head_faults kind (readable_in view.now) (option_map plain_head head.now)) }
{
    match head {
        None => Ok(()),
        Some(head) => range_fault(kind, view, &head.range),
    }
}

/// The fault of a port, whose range this is.
fn port_fault(
    kind: FaultKind,
    view: &View<'_>,
    extent: Extent,
    port: &Port,
) -> Result<(), SizeError>
    ensures { Judged Some result (faults.port_faults kind (readable_in view.now) extent (plain_port port.now)) }
{
    port_head_fault(kind, view, &port.head)?;
    name_fault(kind, extent, &port.id)?;
    fixed_fault(kind, view, &port.init)
}

/// The fault of the ports.
fn ports_fault(kind: FaultKind, view: &View<'_>, ports: &[Port]) -> Result<(), SizeError>
    ensures { Judged Some result (faults.ports_faults kind (readable_in view.now) NoRange (map plain_port ports.now)) }
{
    let mut extent = Extent::NoRange;
    for port in ports {
        extent = port_extent(view, extent, &port.head);
        port_fault(kind, view, extent, port)?;
    }
    Ok(())
}

/// The first fault of this kind.
#[tactic(auto, unfolding(crate::specs::Faults::scope_faults))]
fn scope_fault(kind: FaultKind, module: &Module, scope: &Scope) -> Result<(), SizeError>
    ensures { Judged Some result (faults.scope_faults kind (plain_module «module».now) scope.now) }
{
    parameters_fault(kind, scope, module.parameters.as_slice())?;
    ports_fault(
        kind,
        &view_at(scope, scope.declared),
        module.ports.as_slice(),
    )?;
    items_fault(kind, scope, scope.declared, module.items.as_slice())
}

/// Looks for E5 in an instance of a module that has this scope, where neither E4 nor E7 holds.
///
/// # Errors
///
/// The first `Const` in text order.
pub fn const_fault(module: &Module, scope: &Scope) -> Result<(), SizeError>
    ensures { Judged Some result (faults.const_faults (plain_module «module».now) scope.now) }
{
    scope_fault(FaultKind::Constant, module, scope)
}

/// Looks for E6 in an instance of a module that has this scope, where neither E4 nor E7 holds.
///
/// # Errors
///
/// The first `Width` in text order.
pub fn width_fault(module: &Module, scope: &Scope) -> Result<(), SizeError>
    ensures { Judged Some result (faults.width_faults (plain_module «module».now) scope.now) }
{
    scope_fault(FaultKind::Width, module, scope)
}

/// Whether neither E5 nor E6 is found in an instance of a module that has this scope, where neither E4 nor E7 holds.
#[tactic(auto, using(crate::proofs::EitherFaults::of_scope))]
pub fn is_faultless(module: &Module, scope: &Scope) -> bool
    ensures { IsTrue result ↔ ((faults.const_faults (plain_module «module».now) scope.now ≡ [])
        × (faults.width_faults (plain_module «module».now) scope.now ≡ [])) }
{
    scope_fault(FaultKind::Either, module, scope).is_ok()
}
