//! AXI files that are written by hand.

use axi_burst::{AxiError, AxiText, Entry, Role, read_axi};
use std::alloc::Global;

/// A port with all signals.
const WHOLE: &str =
    "# a port\n\nbeat 128\naw aw 0 1 2 3 4\nw w 0x1 # LAST\nb b 0\nr r 0 1\nar ar 0 1 2 3 4\n";

/// A port that a memory of 16 words answers.
const SERVED: &str =
    "beat 4\ndata 0 1 0\naw aw none 0 none none none\nw w none\nb b none\nar ar none 0 none none none\nmemory 16\nr r none none";

/// A port without IDs that only reads words.
const LITE: &str = "beat 4\nar ar none 0 none none none\nr r none none";

fn read(alloc: Global, text: &str) -> Result<AxiText, AxiError> {
    let bytes = text.as_bytes();
    if bytes.len() > 1_000 {
        return Err(AxiError::Memory);
    }
    read_axi(alloc, bytes)
}

/// Whether a file is read, with so many bytes of the bus and so many lines.
fn is_read(alloc: Global, text: &str, beat: u32, lines: usize) -> bool {
    match read(alloc, text) {
        Ok(read) => read.beat == beat && read.lines.len() == lines,
        Err(_) => false,
    }
}

/// Whether a file is refused with this line.
fn is_refused(alloc: Global, text: &str, at: u32) -> bool {
    match read(alloc, text) {
        Err(AxiError::Line { line }) => line == at,
        _ => false,
    }
}

/// Whether the second line of `LITE` says what it should.
fn says_address(alloc: Global) -> bool {
    let Ok(read) = read(alloc, LITE) else {
        return false;
    };
    let Some(line) = read.lines.get(0) else {
        return false;
    };
    match &line.entry {
        Entry::Channel {
            role: Role::ReadAddress,
            channel,
            places,
        } => {
            line.line == 2
                && channel.as_slice() == b"ar".as_slice()
                && places.as_slice() == [None, Some(0), None, None, None].as_slice()
        }
        _ => false,
    }
}

#[test]
fn files_are_read(rt: HostRuntime) {
    assert!(rt; is_read(rt.alloc(), WHOLE, 128, 5) && is_read(rt.alloc(), LITE, 4, 2));
    assert!(rt; says_address(rt.alloc()));
}

#[test]
fn first_line_counts(rt: HostRuntime) {
    assert!(rt; is_refused(rt.alloc(), "", 1) && is_refused(rt.alloc(), "\n\n", 3));
    assert!(rt; is_refused(rt.alloc(), "\nbeat 3\n", 2) && is_refused(rt.alloc(), "beat 256", 1));
    assert!(rt; is_refused(rt.alloc(), "ar ar none 0 none none none\nbeat 4", 1));
}

#[test]
fn forms_count(rt: HostRuntime) {
    assert!(rt;
        is_refused(
            rt.alloc(),
            "beat 4\nar ar none none none none none\nr r none none",
            2
        )
    );
    assert!(rt;
        is_refused(
            rt.alloc(),
            "beat 4\nar ar none 0 none none\nr r none none",
            2
        )
    );
    assert!(rt;
        is_refused(
            rt.alloc(),
            "beat 4\nar ar none 0 none none x\nr r none none",
            2
        )
    );
    assert!(rt; is_refused(rt.alloc(), "beat 4\nmemory 0\nr r none none", 2));
    assert!(rt; is_refused(rt.alloc(), "beat 4\nmemory 65537\nr r none none", 2));
    assert!(rt; is_refused(rt.alloc(), "beat 4\nr r none none\nr s none none\nx", 3));
    assert!(rt; is_refused(rt.alloc(), "beat 4\nx\nr r none none\u{7f}", 2));
}

#[test]
fn data_needs_all_channels(rt: HostRuntime) {
    assert!(rt; is_read(rt.alloc(), SERVED, 4, 7));
    assert!(rt;
        is_refused(
            rt.alloc(),
            "beat 4\ndata 0 1 0\nar a none 0 none none none\nr r none none\nx",
            2
        )
    );
    assert!(rt; is_refused(rt.alloc(), "beat 4\ndata 0 1 0\naw\nw\nb\nar\nr", 3));
    assert!(rt; is_refused(rt.alloc(), "beat 4\naw\ndata 0 none 0\nw\nb\nar\nr", 2));
}

#[test]
fn channels_come_together(rt: HostRuntime) {
    assert!(rt; is_refused(rt.alloc(), "beat 4\n", 2));
    assert!(rt; is_refused(rt.alloc(), "beat 4\nr r none none\n", 3));
    assert!(rt;
        is_refused(
            rt.alloc(),
            "beat 4\naw a none 0 none none none\nw w none\n",
            4
        )
    );
    assert!(rt; is_refused(rt.alloc(), "beat 4\nb b none\nw w none\n\n", 5));
}
