//! The flat design of a wrapped file with one of its tops, ready to run.

ghost use Rattle.std.specs.Prelude.{◌≡◌, IfOk, MatchResult};
ghost use Rattle.vlog_tree.specs.Plain.{plain};
ghost use Rattle.net_design.specs.Settled.{initial};
ghost use Rattle.net_design.specs.Lawful.{IsLawful};
ghost use Rattle.net_sim.specs.net_order.Order.{IsOrder, IsLoop};
ghost use Rattle.shim_cosim.specs.Top as spec;
ghost use Rattle.shim_cosim.specs.Top.{IsClearDesign, IsTopDesign, IsTopError};

use crate::error::CosimError;
use net_design::{Block, Design};
use net_sim::Sim;
use net_sim::net_order::{Order, OrderError, order};
use std::alloc::Global;
use vlog_design::elaborate;
use vlog_tree::File;

/// The design of a file and its top, of which none of E3 to E9 and E11 to E13 holds.
fn design_of(alloc: Global, file: &File, top: &[u8]) -> Result<Design, CosimError>
    ensures { MatchResult result (IsClearDesign (plain file.now) top.now) (IsTopError (plain file.now) top.now) }
{
    match elaborate(alloc, file, top) {
        Ok(design) => Ok(design),
        Err(error) => match error.number() {
            Some(number) => Err(CosimError::Top { number }),
            None => Err(CosimError::Memory),
        },
    }
}

/// An order of its drivers.
fn order_of(alloc: Global, design: &Design) -> Result<Order, CosimError>
    requires { IsLawful design.now }
    ensures { MatchResult result (λ order. IsOrder design.now order.drivers) (spec.IsOrderError design.now) }
{
    match order(alloc, design) {
        Ok(order) => Ok(order),
        Err(OrderError::Loop { drivers: _ }) => Err(CosimError::Top { number: 10 }),
        Err(OrderError::Memory) => Err(CosimError::Memory),
    }
}

/// The simulator of a file's flat design with this top, in its initial state.
pub(crate) fn sim_of(alloc: Global, file: &File, top: &[u8]) -> Result<Sim, CosimError>
    ensures told { MatchResult result (λ sim. IsTopDesign (plain file.now) top.now sim.design) (IsTopError (plain file.now) top.now) }
    ensures state { IfOk result (λ sim. ⟦<Sim as Block>⟧.state sim ≡ initial sim.design) }
{
    let design = design_of(alloc, file, top)?;
    let order = order_of(alloc, &design)?;
    Ok(Sim::new(alloc, design, order)?)
}
