//! Case files played by a caller that says the files that its words name: what comes out, what can't be read, and what
//! is reported.

use crate::tests::failing_sink;
use case_player::vidi_io::{Fails, MemShelf, MemSink, Shelf, Sink, Text, Words};
use case_player::{Caller, PlayError, play_files, play_text};
use std::alloc::Global;
use std::process::Abort;
use vidi_lines::vidi_bits::{Memory, Numbers};

/// Says each word's file where there is one, adds `.` to the file `out`, and answers 1 where there is a word.
struct Echo;

impl Caller for Echo {
    fn call(
        &self,
        _alloc: Global,
        _case_file: &str,
        words: &Words,
        shelf: &mut MemShelf,
        out: &mut MemSink,
    ) -> u8 {
        for word in words.as_slice() {
            if let Some(bytes) = shelf.file(word.as_str()) {
                let _ = out.push(bytes);
            }
            if word.as_str() == "out" {
                let _ = shelf.append("out", b".");
            }
        }
        u8::from(!words.is_empty())
    }
}

fn sink(alloc: Global) -> MemSink {
    MemSink::new(alloc, Numbers::new(alloc))
}

/// Whether so many of all cases of a text are right, and the whole report is this.
fn is_played(alloc: Global, text: &[u8], right: u64, all: u64, said: &str) -> bool {
    let mut report = sink(alloc);
    match play_text(alloc, &Echo, "f", text, &mut report) {
        Ok(score) => {
            score.right == right && score.all == all && report.bytes() == said.as_bytes()
        }
        Err(_) => false,
    }
}

/// A text, how many of how many cases in it are right, and the report.
type Played<'a> = (&'a str, u64, u64, &'a str);

/// Asserts that texts are played so.
fn expect(rt: &impl Abort, alloc: Global, cases: &[Played<'_>]) {
    for (text, right, all, said) in cases {
        assert!(rt;
            is_played(alloc, text.as_bytes(), *right, *all, said),
            "{said}"
        );
    }
}

// A case that comes out, one whose exit number is another, one whose text is, one whose file is, and one that adds a
// file that it doesn't name.
#[test]
fn cases_come_out_whole(rt: HostRuntime) {
    let cases: [Played<'_>; 5] = [
        ("== a\n-- a\nx\ny\n>> 1\nx\ny\n", 1, 1, "f: 1 of 1\n"),
        (
            "== a\n-- a\nx\n>> 0\nx\n",
            0,
            1,
            "f line 1: a\n  wanted 0\nx\n  came 1\nx\nf: 0 of 1\n",
        ),
        (
            "== a\n-- a\nx\ny\n>> 1\nx\n",
            0,
            1,
            "f line 1: a\n  wanted 1\nx\n  came 1\nx\ny\nf: 0 of 1\n",
        ),
        (
            "== out\n-x out\n2d\n>> 1\n-",
            0,
            1,
            "f line 5 can't be read\nf: 0 of 1\n",
        ),
        (
            "** here\n== out\n>> 1\n",
            0,
            1,
            "f line 2: out\n  wanted 1\n  came 1\n  came file out of 1 bytes 2e\nf: 0 of 1\n",
        ),
    ];
    expect(&rt, rt.alloc(), &cases);
}

// The files of a group, those of a case over them, those that the case before left, and comments that are in no text.
#[test]
fn files_are_passed_on(rt: HostRuntime) {
    let cases: [Played<'_>; 2] = [
        (
            "## a file of\n** a group\n-- a\n## no text\nx\n== a\n>> 1\nx\n== a\n-* a\n2 \"y\\n\"\n>> 1\ny\ny\n== a\n>> 1\nx\n##\n",
            3,
            3,
            "f: 3 of 3\n",
        ),
        (
            "** a\n== out\n>> 1\n>x out\n2E\n++ a out\n-- a\nz\n-* out\n1 \".\\n\"\n>> 1\nz\n.\n>* out\n1 2e0a\n1 2e\n",
            2,
            2,
            "f: 2 of 2\n",
        ),
    ];
    expect(&rt, rt.alloc(), &cases);
}

// Each is wanted to fail, and does, but the last: it comes out.
#[test]
fn a_case_may_be_wanted_to_fail(rt: HostRuntime) {
    let cases: [Played<'_>; 7] = [
        ("=! a\n", 1, 1, "f: 1 of 1\n"),
        ("=!\n", 1, 1, "f: 1 of 1\n"),
        ("=!\n>> zero\n", 1, 1, "f: 1 of 1\n"),
        ("=!\n>> 0\n>> 0\n", 1, 1, "f: 1 of 1\n"),
        ("=!\n-x a\n1\n>> 0\n", 1, 1, "f: 1 of 1\n"),
        ("=!\n!! look 1\n>> 0\n", 1, 1, "f: 1 of 1\n"),
        (
            "=!\n>> 0\n",
            0,
            1,
            "f line 1:\n  wanted to fail\n  wanted 0\n  came 0\nf: 0 of 1\n",
        ),
    ];
    expect(&rt, rt.alloc(), &cases);
}

// What can't be read is no case that came out: in a case, and outside cases.
#[test]
fn what_cannot_be_read_is_wrong(rt: HostRuntime) {
    let cases: [Played<'_>; 10] = [
        (
            "== a\n",
            0,
            1,
            "f line 1: a\n  no exit number\n  came 1\nf: 0 of 1\n",
        ),
        (
            "==\n-x a\n1\n>> 0\n",
            0,
            1,
            "f line 1:\n  line 2 can't be read\n  came 0\nf: 0 of 1\n",
        ),
        (
            "++\n>> 0\n",
            0,
            1,
            "f line 1:\n  line 1 can't be read\n  came 0\nf: 0 of 1\n",
        ),
        ("", 0, 1, "f has no case\nf: 0 of 1\n"),
        ("** a\n", 0, 1, "f has no case\nf: 0 of 1\n"),
        ("x\n==\n>> 0\n", 0, 1, "f line 1 can't be read\nf: 0 of 1\n"),
        (
            "** a\nx\n==\n>> 0\n",
            0,
            1,
            "f line 1 can't be read\nf: 0 of 1\n",
        ),
        (
            "** a\n>> 0\n==\n>> 0\n",
            0,
            1,
            "f line 2 can't be read\nf: 0 of 1\n",
        ),
        (
            "** a\n-x b\n0\n==\n>> 0\n",
            0,
            1,
            "f line 2 can't be read\nf: 0 of 1\n",
        ),
        (
            "==\n>> 0\n==\n>> 0",
            0,
            1,
            "f line 4 can't be read\nf: 0 of 1\n",
        ),
    ];
    expect(&rt, rt.alloc(), &cases);
    let said = "f isn't a text\nf: 0 of 1\n";
    assert!(rt; is_played(rt.alloc(), b"==\xff\n", 0, 1, said));
}

/// A shelf that has a file of two cases.
fn shelf_of_two(alloc: Global) -> Result<MemShelf, Memory> {
    let mut shelf = MemShelf::new(alloc, Fails::new(alloc));
    shelf.put_file("two", b"==\n>> 0\n== a\n>> 1\n")?;
    Ok(shelf)
}

/// The names of that file and of one that isn't there.
fn two_and_none(alloc: Global) -> Result<Words, Memory> {
    let mut names = Words::new(alloc);
    names.push(Text::from_str(alloc, "two")?)?;
    names.push(Text::from_str(alloc, "none")?)?;
    Ok(names)
}

/// Whether two of three cases are right, and the report says so.
fn are_two_played(
    alloc: Global,
    names: &Words,
    shelf: &mut MemShelf,
    report: &mut MemSink,
) -> bool {
    let said = b"two: 2 of 2\nnone can't be read\nnone: 0 of 1\nall: 2 of 3\n";
    match play_files(alloc, &Echo, names, shelf, report) {
        Ok(score) => {
            score.right == 2
                && score.all == 3
                && !score.is_full()
                && report.bytes() == said.as_slice()
        }
        Err(_) => false,
    }
}

/// Whether a report whose first push fails is an error.
fn is_unsaid(alloc: Global, names: &Words, shelf: &mut MemShelf) -> bool {
    match failing_sink(alloc, 1) {
        Ok(mut full) => matches!(
            play_files(alloc, &Echo, names, shelf, &mut full),
            Err(PlayError::Write)
        ),
        Err(_) => false,
    }
}

fn are_files_played(alloc: Global) -> Result<bool, Memory> {
    let names = two_and_none(alloc)?;
    let mut shelf = shelf_of_two(alloc)?;
    let played = are_two_played(alloc, &names, &mut shelf, &mut sink(alloc));
    Ok(played && is_unsaid(alloc, &names, &mut shelf))
}

// One file of two cases, one that isn't there, and the sum. A report that can't be written is an error.
#[test]
fn files_are_played_one_after_the_other(rt: HostRuntime) {
    assert!(rt; are_files_played(rt.alloc()) == Ok(true));
}
