//! Texts that a wave's would be but for one line.

use crate::wave_tests::{FLICK, is_refused};
use std::alloc::Global;
use wave_text::text_page::{Draft, Page};

fn print_line(page: &mut Draft, line: &str) {
    page.print(line.as_bytes());
    page.print(b"\n");
}

fn print_words(page: &mut Draft, line: &str, place: usize) {
    for (k, word) in line.split(' ').enumerate() {
        if k > 0 {
            page.print(b" ");
        }
        page.print(if k == place { b"?" } else { word.as_bytes() });
    }
    page.print(b"\n");
}

/// Whether what was printed is refused.
fn ends_refused(alloc: Global, page: Draft) -> bool {
    match page.finish() {
        Ok(text) => is_refused(alloc, text.as_slice()),
        Err(_) => false,
    }
}

/// Whether `FLICK` is refused with this line so many times in the place of once.
fn is_refused_with(alloc: Global, at: usize, times: usize) -> bool {
    let mut page = Draft::new(alloc);
    for (i, line) in FLICK.lines().enumerate() {
        for _ in 0..if i == at { times } else { 1 } {
            print_line(&mut page, line);
        }
    }
    ends_refused(alloc, page)
}

/// Whether `FLICK` is refused with another word at a place of a line.
fn is_refused_changed(alloc: Global, at: usize, place: usize) -> bool {
    let mut page = Draft::new(alloc);
    for (i, line) in FLICK.lines().enumerate() {
        if i == at {
            print_words(&mut page, line, place);
        } else {
            print_line(&mut page, line);
        }
    }
    ends_refused(alloc, page)
}

/// Whether a line of `FLICK` tells a number that changed, so that without it the text is another wave's.
fn tells_a_change(line: &str) -> bool {
    line == "1\"" || line == "1$"
}

#[test]
fn each_line_counts(rt: HostRuntime) {
    let mut refused = true;
    for (at, line) in FLICK.lines().enumerate() {
        let left_out = is_refused_with(rt.alloc(), at, 0);
        refused = refused && left_out != tells_a_change(line) && is_refused_with(rt.alloc(), at, 2);
    }
    assert!(rt; refused);
}

#[test]
fn each_word_counts(rt: HostRuntime) {
    let mut refused = true;
    for (at, line) in FLICK.lines().enumerate() {
        for (place, _word) in line.split(' ').enumerate() {
            refused = refused && is_refused_changed(rt.alloc(), at, place);
        }
    }
    assert!(rt; refused);
}

/// Whether a text of two nets of 2 bits is refused, which has these names and lines of numbers.
fn is_pair_refused(alloc: Global, top: &[u8], first: &[u8], second: &[u8], rows: &[u8]) -> bool {
    let mut page = Draft::new(alloc);
    page.print(b"$timescale 1 ns $end\n$scope module ");
    page.print(top);
    page.print(b" $end\n$var wire 2 ! ");
    page.print(first);
    page.print(b" $end\n$var wire 2 \" ");
    page.print(second);
    page.print(b" $end\n$upscope $end\n$enddefinitions $end\n");
    page.print(rows);
    ends_refused(alloc, page)
}

#[test]
fn lines_of_numbers_count(rt: HostRuntime) {
    let alloc = rt.alloc();
    assert!(rt;
        !is_pair_refused(
            alloc,
            b"m",
            b"a",
            b"b",
            b"#0\nb1 !\nb0 \"\n#1\nb10 \"\n#2\n"
        )
    );
    assert!(rt;
        is_pair_refused(
            alloc,
            b"m",
            b"a",
            b"b",
            b"#0\nb1 !\nb0 \"\n#1\nb1 !\nb10 \"\n#2\n"
        )
    );
    assert!(rt; is_pair_refused(alloc, b"m", b"a", b"b", b"#0\nb0 \"\n#1\nb10 \"\n#2\n"));
    assert!(rt;
        is_pair_refused(
            alloc,
            b"m",
            b"a",
            b"b",
            b"#0\nb01 !\nb0 \"\n#1\nb10 \"\n#2\n"
        )
    );
    assert!(rt; is_pair_refused(alloc, b"m", b"a", b"b", b"#0\nb1 !\nb0 \"\n#1\nb10 \"\n#2"));
    assert!(rt;
        is_pair_refused(
            alloc,
            b"m",
            b"a",
            b"b",
            b"#0\nb1 !\nb100 \"\n#1\nb10 \"\n#2\n"
        )
    );
    assert!(rt;
        is_pair_refused(
            alloc,
            b"m",
            b"a",
            b"b",
            b"#0\nb1 !\nb0 \"\n#1\nb10 \"\n#2\n#2\n"
        )
    );
}

#[test]
fn names_count(rt: HostRuntime) {
    let alloc = rt.alloc();
    assert!(rt; !is_pair_refused(alloc, b"m", b"a", b"aa", b"#0\n"));
    assert!(rt; is_pair_refused(alloc, b"m", b"a", b"a", b"#0\n"));
    assert!(rt; is_pair_refused(alloc, b"module", b"a", b"b", b"#0\n"));
    assert!(rt; is_pair_refused(alloc, b"m", b"a", b"wire", b"#0\n"));
    assert!(rt; is_pair_refused(alloc, b"m", b"a", b"a.b", b"#0\n"));
}
