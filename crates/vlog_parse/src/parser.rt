//! Whole lists of tokens as one file.

ghost use Rattle.std.specs.Prelude.{◌≡◌, ℕ, Err, IfOk, IfErr, MatchResult};
ghost use Rattle.vlog_tree.specs.Tree.{FileOf};
ghost use Rattle.vlog_tree.specs.Plain.{plain};
ghost use Rattle.vlog_tree.specs.Lines.{bare};
ghost use Rattle.vlog_parse.specs.declared.error.ParseError.TheVariants as variants;
ghost use Rattle.vlog_item.specs.vlog_expr.declared.unread.Unread.{Unread};
ghost use Rattle.vlog_item.specs.vlog_expr.Marks.{all_marked};
ghost use Rattle.vlog_parse.specs.FileReader.{file_of};
ghost use Rattle.vlog_parse.specs.Depth.{IsDeep, IsShallow};
ghost use Rattle.vlog_parse.specs.Parsing.{IsFileOf, IsLinedFileOf, Refuses};
ghost use Rattle.vlog_item.specs.vlog_expr.Given.{Gives};

use crate::depth::{deep_line, overruns};
use crate::error::ParseError;
use crate::module::file_of;
use crate::units::item_line;
use std::alloc::Global;
use vlog_item::vidi_bits::Memory;
use vlog_item::vlog_expr::{Unread, are_lawful, fuel_for};
use vlog_item::vlog_lex::{Token, Tokens};
use vlog_tree::File;

/// The file of all the tokens, whose names and numbers aren't looked at.
#[tactic(auto, using(crate::proofs::Passed::marked_length), unfolding(crate::specs::FileReader::file_of))]
fn whole_file(alloc: Global, tokens: &[Token]) -> Result<File, Unread>
    ensures { Gives plain result (file_of (all_marked tokens.now)) }
{
    file_of(alloc, tokens, fuel_for(tokens))
}

/// The file that all the tokens spell, where their names and numbers are lawful.
fn lawful_file(alloc: Global, tokens: &[Token]) -> Result<File, Unread>
    ensures found { IfOk result (λ f. IsLinedFileOf tokens.now (plain f)) }
    ensures only { (f : FileOf (Unit {0})) → IsFileOf tokens.now f → MatchResult result (λ g. bare (plain g) ≡ f) (λ e. e ≡ Unread.Memory) }
{
    if !are_lawful(tokens) {
        return Err(Unread::Fault);
    }
    whole_file(alloc, tokens)
}

/// The file of good shape that all the tokens spell (IEEE 1364-2005, this project's profile), with the
/// lines that a tree keeps.
///
/// `Deep` comes exactly where a limit of nesting or length is passed, else `Item` exactly where no file
/// of good shape has these tokens, with the line of the first token behind the longest list of whole units.
/// `Memory` comes where no memory was found, and where an expression has more than 2,048 tokens outside of brackets, for
/// which the stack may have no room.
pub fn parse(alloc: Global, tokens: &Tokens) -> Result<File, ParseError>
    // No limit is passed, the file has good shape, and the tokens are its words, lines included.
    ensures found { IfOk result (λ f. IsShallow (all_marked tokens.now) × IsLinedFileOf tokens.now (plain f)) }
    // Each refusal has its cause.
    ensures refused { IfErr result (λ e. Refuses tokens.now e) }
    // Where a limit is passed, that is the answer.
    ensures deep { (line : ℕ) → IsDeep (all_marked tokens.now) line → result ≡ Err (variants.Deep line) }
    // The file of good shape that has these tokens is read, unless memory runs out.
    ensures only { (f : FileOf (Unit {0})) → IsShallow (all_marked tokens.now) → IsFileOf tokens.now f
        → MatchResult result (λ g. bare (plain g) ≡ f) (λ e. e ≡ variants.Memory) }
{
    if let Some(line) = deep_line(tokens.as_slice()) {
        return Err(ParseError::Deep { line });
    }
    if overruns(tokens.as_slice()) {
        return Err(ParseError::Memory);
    }
    match lawful_file(alloc, tokens.as_slice()) {
        Ok(file) => Ok(file),
        Err(Unread::Fault) => match item_line(alloc, tokens.as_slice()) {
            Ok(line) => Err(ParseError::Item { line }),
            Err(Memory) => Err(ParseError::Memory),
        },
        Err(Unread::Memory) => Err(ParseError::Memory),
    }
}
