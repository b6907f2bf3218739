//! The names of the words on expressions and blocks, with their numbers: the file `names` of a case.

use crate::ended::Ended;
use crate::tables::entry_of;
use crate::texts::{lines_in, number_in};
use net_design::Values;
use report_text::vidi_io::Shelf;
use report_text::vidi_lines::Line;
use std::alloc::Global;
use vlog_driver::vlog_size::{Const, Param, Scope, ScopeMemory, ScopeNet, Table};
use vlog_print::vidi_bits::{Items, Name, copied};

/// The most words of a memory.
const MOST_WORDS: u32 = 65_536;

/// A word of a memory: the memory's place, and the word's place in it.
#[derive(Clone, Copy)]
pub(crate) struct WordPlace {
    pub memory: usize,
    pub index: u32,
}

/// Names and their numbers.
#[derive(Drop)]
pub(crate) struct Names {
    pub scope: Scope,
    pub values: Values,
    /// Where each of the words stands.
    pub words: Items<WordPlace>,
    /// The number of parameters that are declared before the expression, where it isn't all.
    declared: Option<usize>,
}

/// The names that the file `names` declares.
pub(crate) fn names_in<S: Shelf>(alloc: Global, shelf: &mut S) -> Result<Box<Names>, Ended> {
    let lines = lines_in(alloc, shelf, "names")?;
    let mut names = no_names(alloc);
    add_lines(alloc, &mut names, lines.as_slice())?;
    names.scope.declared = names.declared.unwrap_or(names.scope.params.len());
    Ok(Box::new(alloc, names)?)
}

fn no_names(alloc: Global) -> Names {
    Names {
        scope: Scope {
            params: Table::new(alloc),
            declared: 0,
            nets: Table::new(alloc),
            memories: Table::new(alloc),
        },
        values: Values {
            nets: Items::new(alloc),
            words: Items::new(alloc),
        },
        words: Items::new(alloc),
        declared: None,
    }
}

fn add_lines(alloc: Global, names: &mut Names, lines: &[Line]) -> Result<(), Ended> {
    for line in lines {
        add_line(alloc, names, line)?;
    }
    Ok(())
}

/// What a line declares.
#[derive(Clone, Copy)]
enum Kind {
    Plain,
    Sized,
    Behind,
    Net,
    Memory,
}

const KINDS: [(&str, Kind); 5] = [
    ("plain", Kind::Plain),
    ("sized", Kind::Sized),
    ("behind", Kind::Behind),
    ("net", Kind::Net),
    ("memory", Kind::Memory),
];

fn add_line(alloc: Global, names: &mut Names, line: &Line) -> Result<(), Ended> {
    let [kind, words @ ..] = line.words.as_slice() else {
        return Ok(());
    };
    match (entry_of(&KINDS, kind.as_slice()), words) {
        (Some(Kind::Plain), [name, number]) => add_plain(alloc, names, name, number),
        (Some(Kind::Sized), [name, width, number]) => add_sized(alloc, names, name, width, number),
        (Some(Kind::Behind), []) => {
            names.declared = Some(names.scope.params.len());
            Ok(())
        }
        (Some(Kind::Net), [name, width, number @ ..]) => add_net(alloc, names, name, width, number),
        (Some(Kind::Memory), [name, width, length, numbers @ ..]) => {
            add_memory(alloc, names, name, width, length, numbers)
        }
        _ => Err(Ended::Usage),
    }
}

/// Adds a name to a table.
fn declare<V: Drop>(
    alloc: Global,
    table: &mut Table<V>,
    name: &Name,
    value: V,
) -> Result<(), Ended> {
    let name = copied(alloc, name.as_slice())?;
    table.push(name, value)?;
    Ok(())
}

fn is_known(number: &Name) -> bool {
    number.as_slice() != b"?".as_slice()
}

/// `plain NAME NUMBER`, or with `?` one whose number isn't known
fn add_plain(alloc: Global, names: &mut Names, name: &Name, number: &Name) -> Result<(), Ended> {
    let known = is_known(number);
    let n = if known { width_in(number)? } else { 0 };
    let value = Const::Plain { n };
    declare(alloc, &mut names.scope.params, name, Param { value, known })
}

/// `sized NAME WIDTH NUMBER`, or with `?` one whose number isn't known
fn add_sized(
    alloc: Global,
    names: &mut Names,
    name: &Name,
    width: &Name,
    number: &Name,
) -> Result<(), Ended> {
    let known = is_known(number);
    let width = width_in(width)?;
    let n = if known { number_in(number)? } else { 0 };
    let value = Const::Sized { width, n };
    declare(alloc, &mut names.scope.params, name, Param { value, known })
}

/// `net NAME WIDTH`, with its number behind it where it has one
fn add_net(
    alloc: Global,
    names: &mut Names,
    name: &Name,
    width: &Name,
    number: &[Name],
) -> Result<(), Ended> {
    let width = width_in(width)?;
    names.values.nets.push(first_number(number)?)?;
    declare(alloc, &mut names.scope.nets, name, ScopeNet { width })
}

/// The number of at most one word, 0 of none.
fn first_number(words: &[Name]) -> Result<u128, Ended> {
    match words {
        [] => Ok(0),
        [number] => number_in(number),
        _ => Err(Ended::Usage),
    }
}

/// `memory NAME WIDTH LENGTH`, with the numbers of its words behind it; those that aren't given are 0
fn add_memory(
    alloc: Global,
    names: &mut Names,
    name: &Name,
    width: &Name,
    length: &Name,
    numbers: &[Name],
) -> Result<(), Ended> {
    let width = width_in(width)?;
    let length = width_in(length)?;
    add_words(names, length.min(MOST_WORDS), numbers)?;
    let memory = ScopeMemory { width, length };
    declare(alloc, &mut names.scope.memories, name, memory)
}

fn add_words(names: &mut Names, length: u32, numbers: &[Name]) -> Result<(), Ended> {
    let memory = names.scope.memories.len();
    let mut rest = numbers.iter();
    for index in 0..length {
        let number = match rest.next() {
            Some(number) => number_in(number)?,
            None => 0,
        };
        names.values.words.push(number)?;
        names.words.push(WordPlace { memory, index })?;
    }
    Ok(())
}

/// A number of 32 bits.
fn width_in(word: &Name) -> Result<u32, Ended> {
    match u32::try_from(number_in(word)?) {
        Ok(n) => Ok(n),
        Err(_) => Err(Ended::Usage),
    }
}
