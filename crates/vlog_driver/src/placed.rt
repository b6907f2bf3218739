//! Expressions, targets and blocks as code of the flat design.

ghost use Rattle.std.specs.Prelude.{◌≡◌, ℕ, ◌≤◌, ◌↔◌, [], ◌∷◌, IfOk, map};
ghost use Rattle.net_drive.specs.net_code.Targets.{bit_count};
ghost use Rattle.vlog_tree.specs.Plain.{plain_expr, plain_target, plain_always};
ghost use Rattle.net_design.specs.declared.act.Act.{Set};
ghost use Rattle.net_design.specs.declared.act.Timing.{Timing};
ghost use Rattle.net_design.specs.declared.rhs.Rhs.{Rhs};
ghost use Rattle.net_design.specs.declared.values.Values.{Values};
ghost use Rattle.net_design.specs.Value as code;
ghost use Rattle.net_design.specs.Bits as bits;
ghost use Rattle.net_design.specs.Bits.{named, block_adds, HasBits};
ghost use Rattle.net_design.specs.Updates.{block_updates, run};
ghost use Rattle.net_design.specs.Last.{HasLast, IsNarrow};
ghost use Rattle.net_design.specs.declared.act.Timing.TheVariants.{Blocking};
ghost use Rattle.net_drive.specs.net_code.Moved.{moved_update};
ghost use Rattle.vlog_block.specs.Value.{value, width_of};
ghost use Rattle.vlog_block.specs.Targets as targets;
ghost use Rattle.vlog_block.specs.Bits.{reads};
ghost use Rattle.vlog_block.specs.Updates.{timing_of, body_updates};
ghost use Rattle.vlog_block.specs.Written.{target_writes, target_adds, target_reads, always_writes, always_adds, always_reads};
ghost use Rattle.vlog_block.specs.Faultless.{IsFaultless, IsFaultlessTarget, IsFaultlessBody};
ghost use Rattle.vlog_block.specs.Naming.{target_count, always_names, code_names};
ghost use Rattle.net_drive.specs.vidi_bits.Findings.{Judged};
ghost use Rattle.vlog_driver.specs.Told.{block_told};
ghost use Rattle.vlog_driver.specs.Blocks.{block_latches};
ghost use Rattle.vlog_driver.specs.Sites.{site_of, numbers_from, bits_at, count_at, names_at_site};

use crate::latches::{BlockError, bind_block};
use crate::site::Site;
use net_design::{Code, Lhs, Rhs};
use net_drive::net_code::{
    code_is_near, expression_is_near, move_code, move_expression, move_target, target_is_near,
};
use net_drive::vidi_bits::Memory;
use std::alloc::Global;
use vlog_block::vlog_size::{target_width, width};
use vlog_block::{bind_expr, bind_target};
use vlog_tree::{Always, Expr, Target};

/// The width of an expression in which nothing is found.
pub fn own_width(site: &Site<'_>, e: &Expr) -> u32
    requires { IsFaultless (site_of site.now).names (plain_expr e.now) }
    ensures value { result ≡ width_of (site_of site.now).names (plain_expr e.now) }
    ensures most { result ≤ 128 }
{
    match width(e, site.scope) {
        Ok(w) => w,
        Err(_) => unreachable!(),
    }
}

/// The width of a target in which nothing is found.
pub fn own_target_width(site: &Site<'_>, target: &Target) -> u32
    requires { IsFaultlessTarget (site_of site.now).names (plain_target target.now) }
    ensures value { result ≡ targets.target_width (site_of site.now).names (plain_target target.now) }
    ensures most { result ≤ 128 }
{
    match target_width(target, site.scope) {
        Ok(w) => w,
        Err(_) => unreachable!(),
    }
}

/// The code of an expression's number at `w` bits.
pub fn placed_value(alloc: Global, site: &Site<'_>, e: &Expr, w: u32) -> Result<Rhs, Memory>
    requires faultless { IsFaultless (site_of site.now).names (plain_expr e.now) }
    requires least { width_of (site_of site.now).names (plain_expr e.now) ≤ w }
    requires most { w ≤ 128 }
    ensures value { IfOk result (λ c. (v : Values) → code.value c v
        ≡ value (site_of site.now).names (numbers_from (site_of site.now) v) (plain_expr e.now) w) }
    ensures reads { IfOk result (λ c. (m k : ℕ) → bits.reads c m k
        ≡ bits_at (site_of site.now) (reads (site_of site.now).names (plain_expr e.now)) m k) }
{
    let mut code = bind_expr(alloc, e, site.scope, w)?;
    if !expression_is_near(&code) {
        return Err(Memory);
    }
    move_expression(&mut code, site.base);
    Ok(code)
}

/// The code of a target.
pub fn placed_target(alloc: Global, site: &Site<'_>, target: &Target) -> Result<Lhs, Memory>
    requires { IsFaultlessTarget (site_of site.now).names (plain_target target.now) }
    ensures holds { IfOk result (λ lhs. (e : Rhs) (x : ℕ) (v : Values) → IsNarrow v → code.value e v ≡ x
        → (run (Set lhs e ∷ []) v ≡ v) ↔ HasLast
        (targets.target_updates (site_of site.now).names (numbers_from (site_of site.now) v) (plain_target target.now) x)
        (numbers_from (site_of site.now) v)) }
    ensures writes { IfOk result (λ lhs. (m k : ℕ) → bits.target_writes lhs m k
        ≡ bits_at (site_of site.now) (target_writes (site_of site.now).names (plain_target target.now)) m k) }
    ensures adds { IfOk result (λ lhs. (m k : ℕ) → bits.target_adds lhs m k
        ≡ bits_at (site_of site.now) (target_adds (site_of site.now).names (plain_target target.now)) m k) }
    ensures reads { IfOk result (λ lhs. (m k : ℕ) → bits.target_reads lhs m k
        ≡ bits_at (site_of site.now) (target_reads (site_of site.now).names (plain_target target.now)) m k) }
    ensures count { IfOk result (λ lhs. (m k : ℕ) → bit_count lhs m k
        ≡ count_at (site_of site.now) (target_count (site_of site.now).names (plain_target target.now)) m k) }
{
    let mut places = bind_target(alloc, target, site.scope)?;
    if !target_is_near(&places) {
        return Err(Memory);
    }
    move_target(&mut places, site.base);
    Ok(places)
}

/// The code of an always block, whose bits are surely assigned (E9).
pub fn placed_block(alloc: Global, site: &Site<'_>, block: &Always) -> Result<Code, BlockError>
    requires { IsFaultlessBody (site_of site.now).names (plain_always block.now).body }
    ensures latch { Judged block_told result (block_latches (site_of site.now).names (plain_always block.now)) }
    ensures updates { IfOk result (λ c. (t : Timing) (v : Values) → block_updates t c.acts v
        ≡ map (moved_update site.now.base.net site.now.base.word)
        (body_updates (site_of site.now).names t (plain_always block.now).body (numbers_from (site_of site.now) v))) }
    ensures holds { IfOk result (λ c. (v : Values) → IsNarrow v → (run c.acts v ≡ v) ↔ HasLast
        (body_updates (site_of site.now).names Blocking (plain_always block.now).body (numbers_from (site_of site.now) v))
        (numbers_from (site_of site.now) v)) }
    ensures writes { IfOk result (λ c. (m k : ℕ) → named c.writes m k
        ≡ bits_at (site_of site.now) (always_writes (site_of site.now).names (plain_always block.now)) m k) }
    ensures adds { IfOk result (λ c. (m k : ℕ) → block_adds c.acts m k
        ≡ bits_at (site_of site.now) (always_adds (site_of site.now).names (plain_always block.now)) m k) }
    ensures reads { IfOk result (λ c. (m k : ℕ) → named c.reads m k
        ≡ bits_at (site_of site.now) (always_reads (site_of site.now).names (plain_always block.now)) m k) }
    ensures bits { IfOk result (λ c. HasBits (timing_of (plain_always block.now).event) c) }
    ensures names { IfOk result (λ c. code_names c.acts
        ≡ names_at_site (site_of site.now) (always_names (site_of site.now).names (plain_always block.now))) }
{
    let mut code = bind_block(alloc, block, site.scope)?;
    if !code_is_near(&code) {
        return Err(BlockError::Memory);
    }
    move_code(&mut code, site.base);
    Ok(code)
}
