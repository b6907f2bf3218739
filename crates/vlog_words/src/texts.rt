//! The Verilog texts of a case, and what is read of them.

ghost use Rattle.std.specs.Prelude.{IfOk};
ghost use Rattle.vlog_tree.specs.Plain.{plain};
ghost use Rattle.vlog_tree.specs.Shape.{IsGood};

use crate::ended::Ended;
use report_text::vidi_io::{Shelf, Text, read_whole};
use report_text::vidi_lines::{Lines, lines_of, number};
use report_text::{Draft, Page};
use std::alloc::Global;
use vlog_print::vidi_bits::Name;
use vlog_print::vlog_expr::{Unread, fuel_for, parse_expression, target_of};
use vlog_print::vlog_lex::{Tokens, lex};
use vlog_print::vlog_parse::parse;
use vlog_tree::{Expr, File, Target};

/// The longest file of a case, in bytes.
const TEXT_LIMIT: u64 = 4_194_304;

/// The lines of a file, as words.
pub fn lines_in<S: Shelf>(alloc: Global, shelf: &mut S, name: &str) -> Result<Lines, Ended> {
    let bytes = read_whole(alloc, shelf, name, TEXT_LIMIT)?;
    Ok(lines_of(alloc, bytes.as_slice())?)
}

/// The number that a word of a file writes.
pub fn number_in(word: &Name) -> Result<u128, Ended> {
    number(word.as_slice()).ok_or(Ended::Usage)
}

fn tokens_of(alloc: Global, text: &[u8]) -> Result<Tokens, Ended> {
    if text.len() as u64 > TEXT_LIMIT {
        return Err(Ended::Usage);
    }
    Ok(lex(alloc, text)?)
}

/// The tree of a design text.
pub(crate) fn tree_of(alloc: Global, text: &[u8]) -> Result<File, Ended>
    ensures { IfOk result (λ file. IsGood (plain file)) }
{
    let tokens = tokens_of(alloc, text)?;
    Ok(parse(alloc, &tokens)?)
}

/// The tree of the design text of this name.
pub fn tree_in<S: Shelf>(alloc: Global, shelf: &mut S, name: &str) -> Result<File, Ended>
    ensures { IfOk result (λ file. IsGood (plain file)) }
{
    let text = read_whole(alloc, shelf, name, TEXT_LIMIT)?;
    tree_of(alloc, text.as_slice())
}

/// Prints the words of a block, which begin with `@`, or the text of the one file that they name.
pub(crate) fn print_block_text<S: Shelf>(
    alloc: Global,
    words: &[Text],
    shelf: &mut S,
    page: &mut Draft,
) -> Result<(), Ended> {
    match words {
        [name] if !name.as_str().starts_with("@") => {
            let text = read_whole(alloc, shelf, name.as_str(), TEXT_LIMIT)?;
            page.print(text.as_slice());
        }
        _ => print_words(words, page),
    }
    Ok(())
}

/// Prints words, each on a line of its own.
fn print_words(words: &[Text], page: &mut Draft) {
    for word in words {
        page.print(word.as_str().as_bytes());
        page.print(b"\n");
    }
}

/// The tokens of words, the first of which stands on line 1.
fn tokens_of_words(alloc: Global, words: &[Text]) -> Result<Tokens, Ended> {
    let mut page = Draft::new(alloc);
    print_words(words, &mut page);
    let text = page.finish()?;
    tokens_of(alloc, text.as_slice())
}

/// The expression that words are.
pub(crate) fn expression_of(alloc: Global, words: &[Text]) -> Result<Expr, Ended> {
    let tokens = tokens_of_words(alloc, words)?;
    Ok(parse_expression(alloc, tokens.as_slice())?)
}

/// The target that words are.
pub(crate) fn target_of_words(alloc: Global, words: &[Text]) -> Result<Target, Ended> {
    let tokens = tokens_of_words(alloc, words)?;
    match target_of(alloc, tokens.as_slice(), fuel_for(tokens.as_slice()))? {
        (target, []) => Ok(target),
        _ => Err(Ended::from(Unread::Fault)),
    }
}
