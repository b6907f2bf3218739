//! What the tests offer.

ghost use Rattle.std.specs.Prelude.{◌≡◌, ◌<◌, All, IfOk, length};
ghost use Rattle.run_reference.specs.run_model.Offers.{AreZeroWhileDown};
ghost use Rattle.run_reference.specs.trace_model.Row.{AreOffers};
ghost use Rattle.run_stage.specs.Given.{FitsGates};
ghost use Rattle.run_checks.specs.Given.{IsSend};
ghost use Rattle.sample_designs.specs.Stage.{flick_channels, stage_channels};

use run_reference::trace_model::Offers;
use run_reference::vidi_bits::{Items, Memory, Numbers};
use run_stage::Gated;
use std::alloc::Global;

/// `a` offers this content, and `b` is taken.
#[tactic(auto, using(crate::proofs::SendLaws::send_up))]
fn sending(alloc: Global, content: u128) -> Result<Offers, Memory>
    requires fits { content < 256 }
    ensures { IfOk result IsSend }
{
    let mut contents = Numbers::new(alloc);
    contents.push(content)?;
    contents.push(0)?;
    Ok(Offers {
        valids: 1,
        readies: 2,
        contents,
    })
}

/// `a` offers nothing, and `b` is taken.
#[tactic(auto, using(crate::proofs::SendLaws::send_down))]
fn taking(alloc: Global) -> Result<Offers, Memory>
    ensures { IfOk result IsSend }
{
    let mut contents = Numbers::new(alloc);
    contents.push(0)?;
    contents.push(0)?;
    Ok(Offers {
        valids: 0,
        readies: 2,
        contents,
    })
}

/// What is offered in a cycle of `a send 5`, `a send 6` and `b take all`: the second content in cycles 1 and 2, since it isn't taken in
/// cycle 1.
fn sent(alloc: Global, cycle: usize) -> Result<Offers, Memory>
    ensures { IfOk result IsSend }
{
    match cycle {
        0 => sending(alloc, 5),
        1 | 2 => sending(alloc, 6),
        _ => taking(alloc),
    }
}

/// Six of these cycles.
fn six_cycles(alloc: Global) -> Result<Items<Offers>, Memory>
    ensures count { IfOk result (λ os. length os ≡ 6) }
    ensures sends { IfOk result (All IsSend) }
{
    let mut list = Items::new(alloc);
    for cycle in 0..6 {
        let offers = sent(alloc, cycle)?;
        list.push(offers)?;
    }
    Ok(list)
}

/// Six of these cycles, as a run takes them.
#[tactic(auto, using(crate::proofs::SendLaws::offers_of))]
pub fn two_sends(alloc: Global) -> Result<Items<Offers>, Memory>
    ensures count { IfOk result (λ os. length os ≡ 6) }
    ensures fit { IfOk result (All (AreOffers stage_channels)) }
{
    six_cycles(alloc)
}

/// The same behind these gates, as a shell takes them.
pub fn two_sends_behind(alloc: Global, gates: &[u128; 6]) -> Result<Items<Gated>, Memory>
    requires { All (λ g. g < 4) gates.now }
    ensures count { IfOk result (λ given. length given ≡ 6) }
    ensures fit { IfOk result (All (FitsGates stage_channels)) }
{
    let mut list = Items::new(alloc);
    for (cycle, gates) in gates.iter().enumerate() {
        let offers = sent(alloc, cycle)?;
        list.push(Gated {
            offers,
            gates: *gates,
        })?;
    }
    Ok(list)
}
