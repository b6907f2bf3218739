//! Laws of the definitions.

ghost use Rattle.std.specs.Prelude.{ℕ, List};
ghost use Rattle.net_design.specs.declared.design.Design.{Design};
ghost use Rattle.net_design.specs.Lawful.{IsLawful};
ghost use Rattle.net_design.specs.Pins.{HasOneMap};
ghost use Rattle.net_order.specs.Order.{IsOrder, IsLoop};

/// Drivers that have an order have no loop.
pub fn order_or_loop()
    ensures { (d : Design) (order drivers : List ℕ) → IsOrder d order → IsLoop d drivers → ⊥ }
{}

/// A lawful design whose drivers have an order has exactly one settled map for each state and all fitting inputs with the clock 0.
pub fn one_settled_map()
    ensures { (d : Design) (order : List ℕ) → IsLawful d → IsOrder d order → HasOneMap d }
{}
