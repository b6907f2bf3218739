//! Where instances stand in the flat design.

ghost use Rattle.std.specs.Prelude.{◌≡◌, ◌+◌, length, map, IfOk};
ghost use Rattle.vlog_elab.specs.vlog_scope.Scope.{words_of};
ghost use Rattle.vlog_elab.specs.Plain.{plain_instances};
ghost use Rattle.flat_parts.specs.Seats.{base_of, seats_of};

use std::alloc::Global;
use vlog_driver::net_code::Base;
use vlog_elab::ModuleInstance;
use vlog_elab::vidi_bits::{Items, Memory};
use vlog_elab::vlog_scope::words_of;
use vlog_elab::vlog_size::Scope;

/// A sum of 32 bits.
fn small_sum(a: u32, b: usize) -> Result<u32, Memory>
    ensures { IfOk result (λ n. n ≡ a + b) }
{
    if b > (u32::MAX - a) as usize {
        return Err(Memory);
    }
    Ok(a + b as u32)
}

/// Where the instance stands that follows one of this scope.
fn base_after(base: Base, scope: &Scope) -> Result<Base, Memory>
    ensures net { IfOk result (λ b. b.net ≡ base.net + length scope.now.nets) }
    ensures word { IfOk result (λ b. b.word ≡ base.word + words_of scope.now.memories) }
{
    let net = small_sum(base.net, scope.nets.len())?;
    let word = small_sum(base.word, words_of(scope))?;
    Ok(Base { net, word })
}

/// Where each of these instances stands, which are all of a flat design in their order (this project's profile).
///
/// # Errors
///
/// `Memory`: there isn't enough memory, or nets or words can't be counted in 32 bits.
#[tactic(auto, unfolding(crate::specs::Seats::seats_of))]
pub fn bases_of(alloc: Global, list: &[ModuleInstance<'_>]) -> Result<Items<Base>, Memory>
    ensures { IfOk result (λ bases. bases ≡ map base_of (seats_of (plain_instances list.now))) }
{
    let mut bases = Items::new(alloc);
    let mut next = Base { net: 0, word: 0 };
    for instance in list {
        bases.push(next)?;
        next = base_after(next, &instance.scope)?;
    }
    Ok(bases)
}
