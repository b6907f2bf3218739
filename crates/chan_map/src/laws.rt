//! The condition of `bind_map`, and what holds of every reading of a map.

ghost use Rattle.std.specs.Prelude.{◌↔◌, ◌≤◌, IsTrue};
ghost use Rattle.net_design.specs.declared.design.Design.{Design};
ghost use Rattle.net_design.specs.Lawful.{IsLawful};
ghost use Rattle.chan_map.specs.Ports.{HaveWidths};
ghost use Rattle.chan_map.specs.Laws.{OneBinding, OneMapText};

use net_design::Port;

/// Whether each port has 1 to 128 bits, which is so of every lawful design.
pub fn have_widths(ports: &[Port]) -> bool
    ensures { IsTrue result ↔ HaveWidths ports.now }
{
    ports.iter().all(|p| 1 <= p.width && p.width <= 128)
}

/// The ports of a lawful design have 1 to 128 bits.
pub fn lawful_ports_have_widths()
    ensures { (d : Design) → IsLawful d → HaveWidths d.ports }
{}

/// The text of a map has one reading, and where it is refused one reason.
pub fn one_map_text()
    ensures { OneMapText }
{}

/// A map that was read is bound to a design in one way, or refused for one reason.
pub fn one_binding()
    ensures { OneBinding }
{}
