//! A design with the shims of a map round it: its tree, the reasons that hold of it, and its text.

ghost use Rattle.std.specs.Prelude.{◌≡◌, ℕ, ◌≤◌, List, [], IfOk, IfErr, length};
ghost use Rattle.net_design.specs.Lawful.{IsLawful};
ghost use Rattle.vidi_bench.specs.net_order.Order.{IsOrder};
ghost use Rattle.shim_gen.specs.shim_trees.Laws.{IsMapIn};
ghost use Rattle.shim_gen.specs.shim_trees.Wrapped.{reserved_names, wrapped};
ghost use Rattle.vlog_print.specs.vlog_parse.Marks.{all_marked};
ghost use Rattle.vlog_print.specs.vlog_parse.Depth.{IsShallow};
ghost use Rattle.vlog_tree.specs.Plain.{plain};
ghost use Rattle.vlog_tree.specs.Shape.{IsGood};
ghost use Rattle.vlog_tree.specs.Spelling.{toks};
ghost use Rattle.vidi_bench.specs.AnswerText.{text_of};
ghost use Rattle.vidi_bench.specs.Design.{text_limit, IsAccepted};
ghost use Rattle.vidi_bench.specs.Ended.{EndsWith};
ghost use Rattle.wrap_command.specs.Shims.{file_text};
ghost use Rattle.wrap_command.specs.Shims.{IsClearTop, IsClearTree, IsDeepTree, IsFaulty, IsFaultyAs, IsFaultyTop, IsFaultyTree};
ghost use Rattle.wrap_command.specs.Shims.{IsLong, IsLoopedTop, IsRefusedTop, IsReserved, IsUnwrapped, IsWrapped};

use net_design::Design;
use shim_gen::chan_map::Map;
use shim_gen::shim_trees::wrapped_is_good;
use shim_gen::{WrapError, wrap};
use std::alloc::Global;
use vidi_bench::net_order::{OrderError, order};
use vidi_bench::vlog_design::elaborate;
use vidi_bench::vlog_elab::ElabError;
use vidi_bench::{Answer, Ended, Reason, TEXT_LIMIT, Word, refused};
use vlog_print::vidi_bits::{Bytes, Memory};
use vlog_print::vlog_parse::{ParseError, parse};
use vlog_print::{print, printed_is_read, printed_is_spelled, tokens_of};
use vlog_tree::File;

/// The text of a file with the shims of a map round its top, or the first reason for which they aren't wrapped: a name that is kept for
/// shims, then a reason that holds of the wrapped tree, then the length of its text.
pub fn wrapped_text(alloc: Global, file: &File, map: &Map) -> Result<Bytes, Ended>
    requires good { IsGood (plain file.now) }
    requires map { IsMapIn (plain file.now) map.now }
    ensures wrapped { IfOk result (λ _. IsWrapped (plain file.now) map.now) }
    ensures text { IfOk result (λ text. text ≡ file_text (wrapped (plain file.now) map.now)) }
    ensures refused { IfErr result (EndsWith (IsUnwrapped (plain file.now) map.now)) }
{
    printed_is_read();
    let tree = wrapped_tree(alloc, file, map)?;
    check_tree(alloc, &tree)?;
    short_text(alloc, &tree)
}

/// The wrapped tree.
fn wrapped_tree(alloc: Global, file: &File, map: &Map) -> Result<File, Ended>
    requires good { IsGood (plain file.now) }
    requires map { IsMapIn (plain file.now) map.now }
    ensures names { IfOk result (λ _. reserved_names (plain file.now) ≡ []) }
    ensures tree { IfOk result (λ tree. plain tree ≡ wrapped (plain file.now) map.now) }
    ensures good { IfOk result (λ tree. IsGood (plain tree)) }
    ensures refused { IfErr result (EndsWith (IsReserved (plain file.now))) }
{
    wrapped_is_good();
    match wrap(alloc, file, map) {
        Ok(tree) => Ok(tree),
        Err(WrapError::Reserved { name }) => {
            let answer = refused(alloc, Word::Design, Reason::Reserved { name })?;
            Err(Ended::Refused(answer))
        }
        Err(WrapError::Memory) => Err(Ended::Memory),
    }
}

/// Refuses a wrapped tree of which a reason holds: E14 of its tokens, else one with the top that records, else one with the top that
/// replays.
fn check_tree(alloc: Global, tree: &File) -> Result<(), Ended>
    requires { IsGood (plain tree.now) }
    ensures clear { IfOk result (λ _. IsClearTree (plain tree.now)) }
    ensures refused { IfErr result (EndsWith (IsFaultyTree (plain tree.now))) }
{
    check_depth(alloc, tree)?;
    check_top(alloc, tree, b"vidi_record_top")?;
    check_top(alloc, tree, b"vidi_replay_top")
}

/// Refuses a tree at whose tokens a limit of nesting or length is passed.
fn check_depth(alloc: Global, tree: &File) -> Result<(), Ended>
    requires { IsGood (plain tree.now) }
    ensures shallow { IfOk result (λ _. IsShallow (all_marked (toks (plain tree.now)))) }
    ensures refused { IfErr result (EndsWith (IsDeepTree (plain tree.now))) }
{
    printed_is_read();
    printed_is_spelled();
    let tokens = tokens_of(alloc, tree)?;
    match parse(alloc, &tokens) {
        Ok(_) => Ok(()),
        Err(ParseError::Deep { line: _ }) => Err(Ended::Refused(faulty(alloc, 14)?)),
        Err(ParseError::Item { line: _ }) => unreachable!(),
        Err(ParseError::Memory) => Err(Ended::Memory),
    }
}

/// Refuses a tree of which a reason holds with this top.
fn check_top(alloc: Global, tree: &File, top: &[u8]) -> Result<(), Ended>
    ensures clear { IfOk result (λ _. IsClearTop top.now (plain tree.now)) }
    ensures refused { IfErr result (EndsWith (IsFaultyTop top.now (plain tree.now))) }
{
    let design = top_design(alloc, tree, top)?;
    check_order(alloc, &design)
}

/// The design of a tree and a top, of which none of E3 to E9 and E11 to E13 holds.
fn top_design(alloc: Global, tree: &File, top: &[u8]) -> Result<Design, Ended>
    ensures accepted { IfOk result (IsAccepted top.now (plain tree.now)) }
    ensures refused { IfErr result (EndsWith (IsRefusedTop top.now (plain tree.now))) }
{
    match elaborate(alloc, tree, top) {
        Ok(design) => Ok(design),
        Err(error) => Err(Ended::Refused(faulty_as(alloc, &error)?)),
    }
}

/// Refuses a design whose drivers have no order.
fn check_order(alloc: Global, design: &Design) -> Result<(), Ended>
    requires { IsLawful design.now }
    ensures ordered { IfOk result (λ _. (drivers : List ℕ) × IsOrder design.now drivers) }
    ensures refused { IfErr result (EndsWith (IsLoopedTop design.now)) }
{
    match order(alloc, design) {
        Ok(_) => Ok(()),
        Err(OrderError::Loop { drivers: _ }) => Err(Ended::Refused(faulty(alloc, 10)?)),
        Err(OrderError::Memory) => Err(Ended::Memory),
    }
}

fn faulty_as(alloc: Global, error: &ElabError) -> Result<Answer, Memory>
    ensures { IfOk result (λ a. IsFaultyAs error.now a.status (text_of a.text)) }
{
    match error.number() {
        Some(number) => faulty(alloc, number),
        None => Err(Memory),
    }
}

/// The answer where the reason of this number holds of a wrapped tree.
fn faulty(alloc: Global, number: u32) -> Result<Answer, Memory>
    ensures { IfOk result (λ a. IsFaulty number a.status (text_of a.text)) }
{
    refused(alloc, Word::Design, Reason::Wrapped { number })
}

/// The text of a wrapped tree, which has at most as many bytes as a design's text.
fn short_text(alloc: Global, tree: &File) -> Result<Bytes, Ended>
    requires { IsGood (plain tree.now) }
    ensures text { IfOk result (λ text. text ≡ file_text (plain tree.now)) }
    ensures fits { IfOk result (λ text. length text ≤ text_limit) }
    ensures refused { IfErr result (EndsWith (IsLong (plain tree.now))) }
{
    let text = print(alloc, tree)?;
    if text.len() as u64 > TEXT_LIMIT {
        return Err(Ended::Refused(refused(alloc, Word::Design, Reason::WrapLong)?));
    }
    Ok(text)
}
