//! Lawful designs.

ghost use Rattle.std.specs.Prelude.{◌≡◌, ◌≢◌, ◌↔◌, ℕ, List, true, IsTrue, All, IfOk};
ghost use Rattle.std.specs.List.{AllPairs};
ghost use Rattle.net_design.specs.declared.act.Timing.TheVariants.{Blocking, Nonblocking};
ghost use Rattle.net_design.specs.Bits.{HasBits};
ghost use Rattle.net_design.specs.Lawful.{IsLawful};
ghost use Rattle.net_design.specs.Names.{net_names};
ghost use Rattle.net_lawful.specs.Frame.{IsFramed};
ghost use Rattle.net_lawful.specs.State.{HasState};
ghost use Rattle.net_lawful.specs.Coded.{HaveBits, HasCode};
ghost use Rattle.net_lawful.specs.Driven.{IsDriven};

use crate::code::has_code;
use crate::driven::is_driven;
use crate::frame::is_framed;
use crate::registers::{has_state, held_bits};
use net_code::vidi_bits::Memory;
use net_design::Design;
use std::alloc::Global;

/// Whether all code is lawful, and each bit of a net is given once.
fn is_driven_code(alloc: Global, design: &Design) -> Result<bool, Memory>
    requires framed { IsFramed design.now }
    requires state { HasState design.now }
    requires bits { HaveBits design.now }
    ensures { IfOk result (λ b. IsTrue b ↔ (HasCode design.now × IsDriven design.now)) }
{
    let held = held_bits(alloc, design)?;
    let code = has_code(alloc, design, &held)?;
    let driven = is_driven(alloc, design, &held)?;
    Ok(code && driven)
}

/// Whether a design is lawful, where the masks of all code are those of its bits and no two nets have the same full name. It takes
/// time in proportion to the design, but for a logarithm.
///
/// # Errors
///
/// `Memory`.
#[tactic(auto, using(crate::proofs::LawfulParts::lawful_by_parts))]
pub fn is_lawful(alloc: Global, design: &Design) -> Result<bool, Memory>
    requires drivers { All (λ x. HasBits Blocking x.code) design.now.drivers }
    requires blocks { All (λ c. HasBits Nonblocking c) design.now.blocks }
    requires names { AllPairs (λ (a b : List (List ℕ)). a ≢ b) (net_names design.now) }
    ensures { IfOk result (λ b. (b ≡ true) ↔ IsLawful design.now) }
{
    if !is_framed(design) {
        return Ok(false);
    }
    if !has_state(alloc, design)? {
        return Ok(false);
    }
    is_driven_code(alloc, design)
}
