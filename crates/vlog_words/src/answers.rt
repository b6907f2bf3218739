//! What the words of a case on a Verilog text are answered.

use crate::blocks::{BlockWord, print_block};
use crate::ended::Ended;
use crate::expressions::{
    ExpressionWord, SizedWord, TargetWord, print_expression, print_sized, print_target,
};
use crate::files::{FileWord, print_expression_notes, print_file};
use crate::names::{Names, names_in};
use crate::notes::Noted;
use crate::tables::entry_of;
use report_text::Draft;
use report_text::vidi_io::{Shelf, Text};
use std::alloc::Global;

/// What a word asks for.
#[derive(Clone, Copy)]
enum Word {
    /// Something of a file.
    File(FileWord),
    /// Notes on the tree of an expression.
    Notes(Noted),
    /// Something that names and their numbers give.
    Named(NamedWord),
}

/// What a word asks for of what reads names.
#[derive(Clone, Copy)]
enum NamedWord {
    Expression(ExpressionWord),
    Sized(SizedWord),
    Target(TargetWord),
    Block(BlockWord),
}

const WORDS: [(&str, Word); 16] = [
    ("tree", Word::File(FileWord::Notes(Noted::File))),
    ("lines", Word::File(FileWord::Notes(Noted::Lines))),
    ("spelled", Word::File(FileWord::Spelled)),
    ("print", Word::File(FileWord::Printed)),
    ("expr-tree", Word::Notes(Noted::Expression)),
    ("expr-lines", Word::Notes(Noted::Lines)),
    (
        "fixed",
        Word::Named(NamedWord::Expression(ExpressionWord::Fixed)),
    ),
    (
        "facts",
        Word::Named(NamedWord::Expression(ExpressionWord::Facts)),
    ),
    (
        "constant",
        Word::Named(NamedWord::Expression(ExpressionWord::Constant)),
    ),
    (
        "width",
        Word::Named(NamedWord::Expression(ExpressionWord::Width)),
    ),
    (
        "assigned",
        Word::Named(NamedWord::Sized(SizedWord::Assigned)),
    ),
    ("value", Word::Named(NamedWord::Sized(SizedWord::Value))),
    ("target", Word::Named(NamedWord::Target(TargetWord::Facts))),
    (
        "target-width",
        Word::Named(NamedWord::Target(TargetWord::Width)),
    ),
    ("block", Word::Named(NamedWord::Block(BlockWord::Changes))),
    ("latch", Word::Named(NamedWord::Block(BlockWord::Latch))),
];

/// Prints what these words ask for of a Verilog text: `Usage` where they are none of those.
pub fn answer<S: Shelf>(
    alloc: Global,
    words: &[Text],
    shelf: &mut S,
    page: &mut Draft,
) -> Result<(), Ended> {
    let [word, rest @ ..] = words else {
        return Err(Ended::Usage);
    };
    match (entry_of(&WORDS, word.as_str().as_bytes()), rest) {
        (Some(Word::File(word)), [name]) => print_file(alloc, word, name.as_str(), shelf, page),
        (Some(Word::Notes(noted)), _) => print_expression_notes(alloc, noted, rest, page),
        (Some(Word::Named(word)), _) => {
            let names = names_in(alloc, shelf)?;
            print_named(alloc, word, rest, &names, shelf, page)
        }
        _ => Err(Ended::Usage),
    }
}

/// Prints what reads these names.
fn print_named<S: Shelf>(
    alloc: Global,
    word: NamedWord,
    words: &[Text],
    names: &Names,
    shelf: &mut S,
    page: &mut Draft,
) -> Result<(), Ended> {
    match (word, words) {
        (NamedWord::Expression(word), _) => {
            print_expression(alloc, word, words, &names.scope, page)
        }
        (NamedWord::Sized(word), [width, words @ ..]) => {
            print_sized(alloc, word, width, words, names, page)
        }
        (NamedWord::Sized(_), []) => Err(Ended::Usage),
        (NamedWord::Target(word), _) => print_target(alloc, word, words, &names.scope, page),
        (NamedWord::Block(word), _) => print_block(alloc, word, words, names, shelf, page),
    }
}
