//! The flat design of a file and its top, or the first reason against it.

ghost use Rattle.std.specs.Prelude.{◌≡◌, IfOk, MatchResult};
ghost use Rattle.vlog_tree.specs.Plain.{plain};
ghost use Rattle.flat_drive.specs.vlog_names.Entries.{modules_of};
ghost use Rattle.flat_drive.specs.vlog_elab.Instances.{instances};
ghost use Rattle.flat_drive.specs.vlog_elab.Plain.{plain_instances};
ghost use Rattle.flat_drive.specs.vlog_elab.Reasons as elab;
ghost use Rattle.net_order.specs.vidi_bits.Findings.{Judged};
ghost use Rattle.flat_drive.specs.vlog_elab.Told.{elab_told};
ghost use Rattle.net_design.specs.Lawful.{counts};
ghost use Rattle.vlog_design.specs.Design.{IsDesignOf, file_counts};
ghost use Rattle.vlog_design.specs.Reasons.{Refused, Clear, code_findings};

use crate::code::checked_code;
use crate::design::design_of;
use flat_clock::flat_parts::instances_are_paths;
use flat_drive::vlog_elab::{ElabError, ModuleInstance, instances_of};
use flat_drive::vlog_names::ModuleTable;
use flat_drivers::{instances_are_declared, instances_are_faultless};
use flat_layout::parts_are_counted;
use net_design::Design;
use std::alloc::Global;
use vlog_tree::File;

/// The flat design of these instances, where E9 and E8 find nothing.
#[tactic(auto, unfolding(crate::specs::Reasons::code_findings))]
fn designed(
    alloc: Global,
    file: &File,
    top: &[u8],
    modules: &ModuleTable,
    list: &[ModuleInstance<'_>],
) -> Result<Design, ElabError>
    requires clear { elab.Clear (plain file.now) top.now }
    requires modules { modules.now ≡ modules_of (plain file.now) }
    requires listed { plain_instances list.now ≡ instances (plain file.now) top.now }
    ensures told { Judged elab_told result (code_findings (plain file.now) top.now) }
    ensures design { IfOk result (λ d. IsDesignOf (plain file.now) top.now d) }
{
    instances_are_paths();
    instances_are_declared();
    instances_are_faultless();
    let parts = checked_code(alloc, modules, list)?;
    Ok(design_of(alloc, file, top, modules, list, parts)?)
}

/// The flat design of a file and its top: it is lawful, it has the drivers and clocked blocks of the file's instances in their order, and
/// it means what the file means (`specs/Design`).
///
/// # Errors
///
/// The first reason that holds of the file and its top, in the order E3, E4, E7, E11, E12 of instances, E12 of nets, E5, E6, E12 of
/// words, E13, E9, E8; of several findings of one reason the first in the file for E3, E4, E7 and E11, the first in the first instance in
/// preorder for E5, E6, E13 and E9, and the first net's lowest bit for E8, memories after all nets. `Memory`: there isn't enough memory,
/// or a test fails that no accepted file is known to fail (see `docs/DECISIONS.md`).
pub fn elaborate(alloc: Global, file: &File, top: &[u8]) -> Result<Design, ElabError>
    ensures told { MatchResult result (λ _. Clear (plain file.now) top.now) (Refused (plain file.now) top.now) }
    ensures design { IfOk result (λ d. IsDesignOf (plain file.now) top.now d) }
    ensures counts { IfOk result (λ d. counts d ≡ file_counts (plain file.now) top.now) }
{
    let found = instances_of(alloc, file, top)?;
    parts_are_counted();
    designed(alloc, file, top, &found.modules, found.list.as_slice())
}
