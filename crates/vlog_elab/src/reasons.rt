//! Why a design text is refused.

ghost use Rattle.std.specs.Prelude.{◌≡◌, ◌<◌, ◌^◌, ◌-◌, ◌↔◌, ℕ, [], map, min, length, slice_get, IfOk, IsTrue, MatchResult, Some};
ghost use Rattle.std.specs.List.{flat_map};
ghost use Rattle.vlog_tree.specs.Tree.{ModuleOf};
ghost use Rattle.vlog_tree.specs.Plain.{plain, plain_module};
ghost use Rattle.vlog_names.specs.Entries.{modules_of};
ghost use Rattle.vlog_hierarchy.specs.Outlines.{outlines_of, place_of};
ghost use Rattle.vlog_hierarchy.specs.Nodes.{nodes_of, firsts, net_total};
ghost use Rattle.vlog_elab.specs.Instances.{instances, node_of};
ghost use Rattle.vlog_elab.specs.Plain.{plain_instance, plain_instances, AreInstances};
ghost use Rattle.vlog_elab.specs.Reasons as reasons;
ghost use Rattle.vlog_hierarchy.specs.vidi_bits.Findings.{Judged};
ghost use Rattle.vlog_elab.specs.Told.{elab_told};

use crate::all::all_instances;
use crate::clock::one_clock;
use crate::error::{Big, ElabError};
use crate::instance::{ModuleInstance, ModuleInstances};
use std::alloc::Global;
use vlog_hierarchy::vidi_bits::{Items, Memory, Name, copied};
use vlog_hierarchy::{Nodes, nested};
use vlog_names::{ModuleTable, check_kinds, check_names};
use vlog_scope::{const_fault, is_faultless, width_fault, words_of};
use vlog_tree::File;

/// The most words of memories.
const MOST_WORDS: usize = 1_048_576;

/// E3, then E4.
#[tactic(auto, unfolding(crate::specs::Reasons::name_findings), using(crate::proofs::Firsts::name_first, crate::proofs::Passed::none_map))]
fn named(alloc: Global, file: &File, top: &[u8]) -> Result<ModuleTable, ElabError>
    ensures told { Judged elab_told result (reasons.name_findings (plain file.now) top.now) }
    ensures modules { IfOk result (λ t. t ≡ modules_of (plain file.now)) }
{
    Ok(check_names(alloc, file, top)?)
}

/// E7.
#[tactic(auto, unfolding(crate::specs::Reasons::kind_findings), using(crate::proofs::Firsts::kind_first, crate::proofs::Passed::none_map))]
fn of_right_kinds(modules: &ModuleTable, file: &File) -> Result<(), ElabError>
    requires { modules.now ≡ modules_of (plain file.now) }
    ensures { Judged elab_told result (reasons.kind_findings (plain file.now)) }
{
    Ok(check_kinds(modules, file)?)
}

/// E3, E4 and E7, over the whole file.
#[tactic(auto, unfolding(crate::specs::Reasons::text_findings))]
fn written(alloc: Global, file: &File, top: &[u8]) -> Result<ModuleTable, ElabError>
    ensures told { Judged elab_told result (reasons.text_findings (plain file.now) top.now) }
    ensures modules { IfOk result (λ t. t ≡ modules_of (plain file.now)) }
{
    let modules = named(alloc, file, top)?;
    of_right_kinds(&modules, file)?;
    Ok(modules)
}

/// The name of the module at this place of the file.
fn name_at(alloc: Global, file: &File, place: usize) -> Result<Name, Memory>
    requires { place < length file.now.modules }
    ensures { IfOk result (λ name. slice_get (map (λ (m : ModuleOf ℕ). m.name) (plain file.now).modules) place ≡ Some name) }
{
    let modules = file.modules.as_slice();
    copied(alloc, modules[place].name.as_slice())
}

/// E11.
#[tactic(auto, using(crate::proofs::Firsts::nested_there))]
fn not_nested(alloc: Global, file: &File, top: &[u8]) -> Result<(), ElabError>
    ensures { MatchResult result (λ _. reasons.IsNotNested (plain file.now) top.now)
        (reasons.NestedFinding (plain file.now) top.now) }
{
    match nested(alloc, file, top)? {
        Some(place) => {
            let name = name_at(alloc, file, place)?;
            Err(ElabError::Nested { name })
        }
        None => Ok(()),
    }
}

/// The instances that E12 counts, where there aren't too many instances or nets.
#[tactic(auto, using(crate::proofs::Firsts::hierarchy_first, crate::proofs::Passed::none_map))]
fn counted_nodes<'a>(alloc: Global, file: &'a File, top: &[u8]) -> Result<Nodes<'a>, ElabError>
    ensures told { Judged elab_told result (reasons.node_findings (outlines_of (plain file.now).modules)
        (nodes_of (outlines_of (plain file.now).modules) (place_of (plain file.now).modules top.now))) }
    ensures firsts { IfOk result (λ r. r.firsts ≡ firsts (outlines_of (plain file.now).modules) 0
        (nodes_of (outlines_of (plain file.now).modules) (place_of (plain file.now).modules top.now))) }
    ensures nets { IfOk result (λ r. r.nets ≡ net_total (outlines_of (plain file.now).modules)
        (nodes_of (outlines_of (plain file.now).modules) (place_of (plain file.now).modules top.now))) }
{
    Ok(vlog_hierarchy::nodes_of(alloc, file, top)?)
}

/// The numbers of first nets, and the number of all nets.
#[derive(Drop)]
struct Numbers {
    firsts: Items<u128>,
    nets: u128,
}

/// E12 of instances, then of nets.
#[tactic(auto, unfolding(crate::specs::Reasons::hierarchy_findings), using(crate::proofs::Same::same_nodes))]
fn counted(alloc: Global, file: &File, top: &[u8]) -> Result<Numbers, ElabError>
    ensures told { Judged elab_told result (reasons.hierarchy_findings (plain file.now) top.now) }
    ensures firsts { IfOk result (λ n. n.firsts
        ≡ firsts (outlines_of (plain file.now).modules) 0 (map node_of (instances (plain file.now) top.now))) }
    ensures nets { IfOk result (λ n. n.nets
        ≡ net_total (outlines_of (plain file.now).modules) (map node_of (instances (plain file.now) top.now))) }
{
    let Nodes {
        nodes: _nodes,
        firsts,
        nets,
    } = counted_nodes(alloc, file, top)?;
    Ok(Numbers { firsts, nets })
}

/// E5 of an instance.
#[tactic(auto, unfolding(crate::specs::Reasons::instance_consts), using(crate::proofs::Firsts::size_first, crate::proofs::Passed::none_map))]
fn instance_consts(instance: &ModuleInstance<'_>) -> Result<(), ElabError>
    ensures { Judged elab_told result (reasons.instance_consts (plain_instance instance.now)) }
{
    Ok(const_fault(instance.tree, &instance.scope)?)
}

/// E6 of an instance.
#[tactic(auto, unfolding(crate::specs::Reasons::instance_widths), using(crate::proofs::Firsts::size_first, crate::proofs::Passed::none_map))]
fn instance_widths(instance: &ModuleInstance<'_>) -> Result<(), ElabError>
    ensures { Judged elab_told result (reasons.instance_widths (plain_instance instance.now)) }
{
    Ok(width_fault(instance.tree, &instance.scope)?)
}

/// E5.
fn lawful_constants(list: &[ModuleInstance<'_>]) -> Result<(), ElabError>
    ensures { Judged elab_told result (flat_map reasons.instance_consts (plain_instances list.now)) }
{
    for instance in list {
        instance_consts(instance)?;
    }
    Ok(())
}

/// E6.
fn lawful_widths(list: &[ModuleInstance<'_>]) -> Result<(), ElabError>
    ensures { Judged elab_told result (flat_map reasons.instance_widths (plain_instances list.now)) }
{
    for instance in list {
        instance_widths(instance)?;
    }
    Ok(())
}

/// Whether neither E5 nor E6 is found in the instance.
#[tactic(auto, unfolding(crate::specs::Reasons::instance_consts, crate::specs::Reasons::instance_widths), using(crate::proofs::Passed::none_map))]
fn is_instance_faultless(instance: &ModuleInstance<'_>) -> bool
    ensures { IsTrue result ↔ ((reasons.instance_consts (plain_instance instance.now) ≡ [])
        × (reasons.instance_widths (plain_instance instance.now) ≡ [])) }
{
    is_faultless(instance.tree, &instance.scope)
}

/// Whether neither E5 nor E6 is found in any instance.
fn are_faultless(list: &[ModuleInstance<'_>]) -> bool
    ensures { IsTrue result ↔ ((flat_map reasons.instance_consts (plain_instances list.now) ≡ [])
        × (flat_map reasons.instance_widths (plain_instances list.now) ≡ [])) }
{
    for instance in list {
        if !is_instance_faultless(instance) {
            return false;
        }
    }
    true
}

/// The number of words of all memories, or the largest number where there are more.
fn word_total(list: &[ModuleInstance<'_>]) -> usize
    ensures { result ≡ min (reasons.word_total (plain_instances list.now)) (2 ^ 64 - 1) }
{
    let mut words: usize = 0;
    for instance in list {
        words = words.saturating_add(words_of(&instance.scope));
    }
    words
}

/// E12 of words.
#[tactic(auto, unfolding(crate::specs::Reasons::word_findings))]
fn few_words(list: &[ModuleInstance<'_>]) -> Result<(), ElabError>
    ensures { Judged elab_told result (reasons.word_findings (plain_instances list.now)) }
{
    if word_total(list) > MOST_WORDS {
        return Err(ElabError::TooBig { what: Big::Words });
    }
    Ok(())
}

/// E5, E6, then E12 of words. Most designs have neither E5 nor E6, which one walk tells.
#[tactic(auto, unfolding(crate::specs::Reasons::instance_findings))]
fn lawful(list: &[ModuleInstance<'_>]) -> Result<(), ElabError>
    ensures { Judged elab_told result (reasons.instance_findings (plain_instances list.now)) }
{
    if !are_faultless(list) {
        lawful_constants(list)?;
        lawful_widths(list)?;
    }
    few_words(list)
}

/// E5, E6, E12 of words, then E13.
#[tactic(auto, unfolding(crate::specs::Reasons::late_findings))]
fn judged(
    alloc: Global,
    file: &File,
    top: &[u8],
    list: &[ModuleInstance<'_>],
) -> Result<(), ElabError>
    ensures { Judged elab_told result (reasons.late_findings (plain file.now) top.now (plain_instances list.now)) }
{
    lawful(list)?;
    one_clock(alloc, file, top, list)
}

/// The instances, where nothing is found in them.
fn judged_instances<'a>(
    alloc: Global,
    modules: &ModuleTable,
    file: &'a File,
    top: &[u8],
) -> Result<Items<ModuleInstance<'a>>, ElabError>
    requires { modules.now ≡ modules_of (plain file.now) }
    ensures told { Judged elab_told result (reasons.late_findings (plain file.now) top.now (instances (plain file.now) top.now)) }
    ensures value { IfOk result (λ is. plain_instances is ≡ instances (plain file.now) top.now) }
{
    let list = all_instances(alloc, modules, file, top)?;
    judged(alloc, file, top, list.as_slice())?;
    Ok(list)
}

/// The instances, where E12 finds nothing and nothing is found in them.
#[tactic(auto, unfolding(crate::specs::Reasons::size_findings))]
fn sized<'a>(
    alloc: Global,
    modules: ModuleTable,
    file: &'a File,
    top: &[u8],
) -> Result<ModuleInstances<'a>, ElabError>
    requires { modules ≡ modules_of (plain file.now) }
    ensures told { Judged elab_told result (reasons.size_findings (plain file.now) top.now) }
    ensures value { IfOk result (λ r. AreInstances (plain file.now) top.now r) }
    ensures modules { IfOk result (λ r. r.modules ≡ modules_of (plain file.now)) }
{
    let Numbers { firsts, nets } = counted(alloc, file, top)?;
    let list = judged_instances(alloc, &modules, file, top)?;
    Ok(ModuleInstances {
        modules,
        list,
        firsts,
        nets,
    })
}

/// The instances, where E11, E12, E5, E6 and E13 find nothing.
fn below_top<'a>(
    alloc: Global,
    modules: ModuleTable,
    file: &'a File,
    top: &[u8],
) -> Result<ModuleInstances<'a>, ElabError>
    requires { modules ≡ modules_of (plain file.now) }
    ensures told { MatchResult result (λ _. reasons.ClearLater (plain file.now) top.now)
        (reasons.RefusedLater (plain file.now) top.now) }
    ensures value { IfOk result (λ r. AreInstances (plain file.now) top.now r) }
    ensures modules { IfOk result (λ r. r.modules ≡ modules_of (plain file.now)) }
{
    not_nested(alloc, file, top)?;
    sized(alloc, modules, file, top)
}

/// The instances of a file and its top in preorder and text order, each with its path, module, scope and first net; and what each module
/// of the file declares.
///
/// # Errors
///
/// The first reason that holds of the file and its top, in the order E3, E4, E7, E11, E12 of instances, E12 of nets, E5, E6, E12 of
/// words, E13; of several findings of one reason the first in the file for E3, E4, E7 and E11, and for E5, E6 and E13 the first in the
/// first instance in preorder. `Memory`: there isn't enough memory.
pub fn instances_of<'a>(
    alloc: Global,
    file: &'a File,
    top: &[u8],
) -> Result<ModuleInstances<'a>, ElabError>
    ensures told { MatchResult result (λ _. reasons.Clear (plain file.now) top.now) (reasons.Refused (plain file.now) top.now) }
    ensures value { IfOk result (λ r. AreInstances (plain file.now) top.now r) }
    ensures modules { IfOk result (λ r. r.modules ≡ modules_of (plain file.now)) }
{
    let modules = written(alloc, file, top)?;
    below_top(alloc, modules, file, top)
}
