//! The words on trees.

ghost use Rattle.vlog_tree.specs.Plain.{plain};
ghost use Rattle.vlog_tree.specs.Shape.{IsGood};

use crate::ended::Ended;
use crate::expr_notes::note_expr;
use crate::file_notes::note_file;
use crate::notes::{Noted, Notes};
use crate::texts::{expression_of, tree_in, tree_of};
use report_text::vidi_io::{Shelf, Text};
use report_text::{Draft, Page};
use std::alloc::Global;
use vlog_print::vidi_bits::Memory;
use vlog_print::vlog_lex::Token;
use vlog_print::{print, tokens_of};
use vlog_tree::{Expr, File};

/// What a word asks for of a file.
#[derive(Clone, Copy)]
pub(crate) enum FileWord {
    /// Notes on its tree.
    Notes(Noted),
    /// The tokens of which its tree is spelled.
    Spelled,
    /// The text as which its tree is printed.
    Printed,
}

/// `expr-tree E..`, `expr-lines E..`
pub(crate) fn print_expression_notes(
    alloc: Global,
    noted: Noted,
    words: &[Text],
    page: &mut Draft,
) -> Result<(), Ended> {
    let e = expression_of(alloc, words)?;
    print_expr_notes(alloc, noted, &e, page)
}

fn print_expr_notes(alloc: Global, noted: Noted, e: &Expr, page: &mut Draft) -> Result<(), Ended> {
    let mut notes = Notes::new(alloc, noted);
    note_expr(&mut notes, e);
    notes.print(page)
}

/// `tree FILE`, `lines FILE`, `spelled FILE`, `print FILE`
pub(crate) fn print_file<S: Shelf>(
    alloc: Global,
    word: FileWord,
    name: &str,
    shelf: &mut S,
    page: &mut Draft,
) -> Result<(), Ended> {
    let file = tree_in(alloc, shelf, name)?;
    print_tree(alloc, word, &file, page)
}

fn print_tree(alloc: Global, word: FileWord, file: &File, page: &mut Draft) -> Result<(), Ended>
    requires { IsGood (plain file.now) }
{
    match word {
        FileWord::Notes(noted) => {
            let mut notes = Notes::new(alloc, noted);
            note_file(&mut notes, file);
            notes.print(page)
        }
        FileWord::Spelled => print_spelled(alloc, file, page),
        FileWord::Printed => print_printed(alloc, file, page),
    }
}

/// Prints the tokens of a tree, with a space between them.
fn print_spelled(alloc: Global, file: &File, page: &mut Draft) -> Result<(), Ended> {
    let tokens = tokens_of(alloc, file)?;
    for (place, token) in tokens.as_slice().iter().enumerate() {
        page.print(if place > 0 { b" " } else { b"" });
        page.print(token.text.as_slice());
    }
    page.print(b"\n");
    Ok(())
}

/// Prints the text of a tree, and a line more where this text is read as another tree.
fn print_printed(alloc: Global, file: &File, page: &mut Draft) -> Result<(), Ended>
    requires { IsGood (plain file.now) }
{
    let printed = print(alloc, file)?;
    page.print(printed.as_slice());
    let same = is_read_as(alloc, printed.as_slice(), file)?;
    page.print(if same { b"" } else { b"another tree\n" });
    Ok(())
}

/// Whether a text is read as this tree, lines aside: both trees are spelled by the same tokens.
fn is_read_as(alloc: Global, text: &[u8], file: &File) -> Result<bool, Ended> {
    let again = tree_of(alloc, text)?;
    let same = are_same(alloc, file, &again)?;
    Ok(same)
}

fn are_same(alloc: Global, a: &File, b: &File) -> Result<bool, Memory> {
    let left = tokens_of(alloc, a)?;
    let right = tokens_of(alloc, b)?;
    Ok(
        left.len() == right.len()
            && left
                .as_slice()
                .iter()
                .zip(right.as_slice())
                .all(|(a, b)| same_token(a, b)),
    )
}

fn same_token(a: &Token, b: &Token) -> bool {
    a.kind == b.kind && a.text.as_slice() == b.text.as_slice()
}
