//! The words on always blocks: what they change, and the bits that they leave open.

use crate::ended::Ended;
use crate::names::{Names, WordPlace};
use crate::texts::{print_block_text, tree_of};
use net_design::{Timing, Values};
use net_reference::after_block;
use report_text::vidi_io::{Shelf, Text};
use report_text::{Draft, Page, print_number};
use std::alloc::Global;
use vlog_driver::bind_block;
use vlog_driver::vlog_block::{block_code, is_faultless};
use vlog_tree::{Always, Event, File, Item};

/// What a word asks for of a block.
#[derive(Clone, Copy)]
pub(crate) enum BlockWord {
    /// The nets and words that it changes.
    Changes,
    /// Whether bits are left open.
    Latch,
}

/// The module whose block the words are; `always` stands on line 2.
fn module_of<S: Shelf>(alloc: Global, words: &[Text], shelf: &mut S) -> Result<File, Ended> {
    let mut page = Draft::new(alloc);
    page.print(b"module t(input c);\nalways ");
    print_block_text(alloc, words, shelf, &mut page)?;
    page.print(b"endmodule\n");
    let text = page.finish()?;
    tree_of(alloc, text.as_slice())
}

fn first_item(file: &File) -> Option<&Item> {
    let module = file.modules.get(0)?;
    module.items.get(0)
}

fn timing_of(block: &Always) -> Timing {
    match block.event {
        Event::Posedge(_) => Timing::Nonblocking,
        Event::Implicit { .. } => Timing::Blocking,
    }
}

/// `block B..`: the nets and words that a block changes, a line each; `latch B..`: nothing, where no bit is left open.
pub(crate) fn print_block<S: Shelf>(
    alloc: Global,
    word: BlockWord,
    words: &[Text],
    names: &Names,
    shelf: &mut S,
    page: &mut Draft,
) -> Result<(), Ended> {
    let file = module_of(alloc, words, shelf)?;
    match first_item(&file) {
        Some(Item::Always(block)) => print_said(alloc, word, block, names, page),
        _ => Err(Ended::Usage),
    }
}

fn print_said(
    alloc: Global,
    word: BlockWord,
    block: &Always,
    names: &Names,
    page: &mut Draft,
) -> Result<(), Ended> {
    if !is_faultless(block, &names.scope) {
        return Err(Ended::Usage);
    }
    match word {
        BlockWord::Changes => {
            let code = block_code(alloc, block, &names.scope)?;
            let now = after_block(alloc, timing_of(block), &code.acts, &names.values)?;
            print_nets(names, &now, page);
            print_words(names, &now, page);
        }
        BlockWord::Latch => {
            bind_block(alloc, block, &names.scope)?;
        }
    }
    Ok(())
}

/// `NAME NUMBER` for each net that is another number.
fn print_nets(names: &Names, now: &Values, page: &mut Draft) {
    let before = names.values.nets.as_slice();
    for (place, (was, is)) in before.iter().zip(now.nets.as_slice()).enumerate() {
        if was != is {
            page.print(names.scope.nets.name_at(place).unwrap_or(b"?"));
            print_end(*is, page);
        }
    }
}

/// ` NUMBER`, and the end of the line
fn print_end(number: u128, page: &mut Draft) {
    page.print(b" ");
    print_number(page, number);
    page.print(b"\n");
}

/// `NAME[PLACE] NUMBER` for each word that is another number.
fn print_words(names: &Names, now: &Values, page: &mut Draft) {
    let before = names.values.words.as_slice();
    for (place, (was, is)) in before.iter().zip(now.words.as_slice()).enumerate() {
        if was != is {
            if let Some(word) = names.words.get(place) {
                print_place(names, *word, page);
            }
            print_end(*is, page);
        }
    }
}

/// `NAME[PLACE]`
fn print_place(names: &Names, word: WordPlace, page: &mut Draft) {
    page.print(names.scope.memories.name_at(word.memory).unwrap_or(b"?"));
    page.print(b"[");
    print_number(page, word.index);
    page.print(b"]");
}
