//! What the words of a case are answered.

ghost use Rattle.net_design.specs.Lawful.{IsLawful};

use crate::cycles::{print_order, print_settled, print_start};
use crate::designs::{design_in, paths};
use crate::drivers::{print_blocks, print_drivers};
use crate::parts::{print_nets, print_parts};
use crate::runs::print_run;
use net_design::Design;
use std::alloc::Global;
use vlog_words::report_text::Draft;
use vlog_words::vidi_io::{Shelf, Text};
use vlog_words::{Ended, entry_of};

/// What a word asks for of a flat design.
#[derive(Clone, Copy)]
enum Word {
    Drivers,
    Blocks,
    Parts,
    Nets,
    Order,
    Start,
    Settle,
    Run,
}

const WORDS: [(&str, Word); 8] = [
    ("drivers", Word::Drivers),
    ("blocks", Word::Blocks),
    ("parts", Word::Parts),
    ("nets", Word::Nets),
    ("order", Word::Order),
    ("start", Word::Start),
    ("settle", Word::Settle),
    ("run", Word::Run),
];

/// Prints what these words ask for.
pub(crate) fn answer<S: Shelf>(
    alloc: Global,
    words: &[Text],
    shelf: &mut S,
    page: &mut Draft,
) -> Result<(), Ended> {
    if let [word, file, top, rest @ ..] = words {
        if let Some(word) = entry_of(&WORDS, word.as_str().as_bytes()) {
            let design = design_in(alloc, shelf, file.as_str(), top.as_str())?;
            return of_design(alloc, word, design, rest, shelf, page);
        }
    }
    vlog_words::answer(alloc, words, shelf, page)
}

/// The words on a flat design.
fn of_design<S: Shelf>(
    alloc: Global,
    word: Word,
    design: Design,
    rest: &[Text],
    shelf: &mut S,
    page: &mut Draft,
) -> Result<(), Ended>
    requires { IsLawful design }
{
    match word {
        Word::Run => print_run(alloc, design, shelf, rest, page),
        _ => of_flat(alloc, word, &design, rest, shelf, page),
    }
}

/// The words on a flat design that isn't run.
fn of_flat<S: Shelf>(
    alloc: Global,
    word: Word,
    design: &Design,
    rest: &[Text],
    shelf: &mut S,
    page: &mut Draft,
) -> Result<(), Ended>
    requires { IsLawful design.now }
{
    let paths = paths(alloc, design)?;
    match (word, rest) {
        (Word::Drivers, []) => print_drivers(design, &paths, page),
        (Word::Blocks, []) => print_blocks(design, &paths, page),
        (Word::Parts, []) => print_parts(design, &paths, page),
        (Word::Nets, []) => print_nets(design, &paths, page),
        (Word::Order, []) => print_order(alloc, design, page)?,
        (Word::Start, []) => print_start(alloc, design, &paths, page)?,
        (Word::Settle, [state]) => {
            print_settled(alloc, design, &paths, state.as_str(), shelf, page)?;
        }
        _ => return Err(Ended::Usage),
    }
    Ok(())
}
