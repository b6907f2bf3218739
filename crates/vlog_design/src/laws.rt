//! Laws of the definitions.

ghost use Rattle.vlog_design.specs.Laws.{LoopsAlike};

use net_order::order_or_loop;

/// Where one design of a file has a loop of drivers, no design of it has an order of them.
pub fn loops_alike()
    ensures { LoopsAlike }
{
    order_or_loop()
}
