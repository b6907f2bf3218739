//! Shelves, sinks and readings with ample memory and with failing calls.

use case_player::vidi_io::{
    Fail, FailCall, Fails, FetchError, FixedSink, HostShelf, HostSink, MemShelf, MemSink,
    ReadError, Shelf, ShelfSink, Sink, Text, read_whole,
};
use std::alloc::Global;
use std::rt::{Env, Files};
use std::{env, fs, process};
use vidi_lines::vidi_bits::{Bytes, Memory, Numbers};

fn is_copied(alloc: Global, text: &str) -> bool {
    match Text::from_str(alloc, text) {
        Ok(copy) => copy.as_str() == text,
        Err(_) => false,
    }
}

fn is_taken(alloc: Global, text: &str) -> bool {
    match String::from_str(alloc, text) {
        Ok(owned) => Text::from_string(owned).as_str() == text,
        Err(_) => false,
    }
}

#[test]
fn texts_keep_their_bytes(rt: HostRuntime) {
    assert!(rt; is_copied(rt.alloc(), "réplay") && is_taken(rt.alloc(), "dump"));
}

/// Whether each call of an empty shelf in memory answers, and its files are then what was put, started and added.
fn are_files_kept(shelf: &mut MemShelf) -> bool {
    shelf.put_file("a", b"one").is_ok()
        && shelf.room_for("b", 4).is_ok()
        && shelf.file("b") == None
        && shelf.start("b").is_ok()
        && shelf.append("b", b"two").is_ok()
        && shelf.append("c", b"three").is_ok()
        && shelf.put_file("a", b"four").is_ok()
        && shelf.file("a") == Some(b"four".as_slice())
        && shelf.file("b") == Some(b"two".as_slice())
        && shelf.file("c") == Some(b"three".as_slice())
        && shelf.start("c").is_ok()
        && shelf.file("c") == Some(b"".as_slice())
}

#[test]
fn memory_shelf_answers_with_ample_memory(rt: HostRuntime) {
    let mut shelf = MemShelf::new(rt.alloc(), Fails::new(rt.alloc()));
    let kept = are_files_kept(&mut shelf);
    assert!(rt; kept);
}

/// Whether a file holds this, which is at most so many bytes.
fn holds_at_most(
    alloc: Global,
    shelf: &mut impl Shelf,
    name: &str,
    limit: u64,
    want: &[u8],
) -> bool {
    match read_whole(alloc, shelf, name, limit) {
        Ok(bytes) => bytes.as_slice() == want,
        Err(_) => false,
    }
}

/// Whether a file of at most 64 bytes holds this.
fn holds(alloc: Global, shelf: &mut impl Shelf, name: &str, want: &[u8]) -> bool {
    holds_at_most(alloc, shelf, name, 64, want)
}

/// Whether a file of at most so many bytes isn't read, for this reason.
fn is_unread(
    alloc: Global,
    shelf: &mut impl Shelf,
    name: &str,
    limit: u64,
    why: ReadError,
) -> bool {
    match read_whole(alloc, shelf, name, limit) {
        Ok(_) => false,
        Err(error) => error == why,
    }
}

/// Whether a file of these 70,000 bytes is read whole, but not where it may have one byte less.
fn is_long_file_read(alloc: Global, shelf: &mut MemShelf, bytes: &[u8]) -> bool {
    let too_long = ReadError::TooLong { limit: 69999 };
    shelf.put_file("long", bytes).is_ok()
        && holds_at_most(alloc, shelf, "long", 70000, bytes)
        && is_unread(alloc, shelf, "long", 69999, too_long)
        && is_unread(alloc, shelf, "none", 70000, ReadError::Missing)
}

fn is_memory_read(alloc: Global) -> Option<bool> {
    let bytes = vec![in alloc; 7u8; 70000].ok()?;
    let mut shelf = MemShelf::new(alloc, Fails::new(alloc));
    Some(is_long_file_read(alloc, &mut shelf, bytes.as_slice()))
}

// A file of more than one fetch, within its limit and one byte past it.
#[test]
fn files_are_read_whole(rt: HostRuntime) {
    assert!(rt; is_memory_read(rt.alloc()) == Some(true));
}

/// A shelf of no files, of which these calls fail.
fn failing_shelf(alloc: Global, calls: &[Fail]) -> Result<MemShelf, Memory> {
    let mut fails = Fails::new(alloc);
    for call in calls {
        fails.push(*call)?;
    }
    Ok(MemShelf::new(alloc, fails))
}

/// Whether the second append of a shelf fails and keeps one byte, and the first fetch and the first start fail.
fn fails_as_listed(shelf: &mut MemShelf) -> bool {
    let mut buf = [0u8; 8];
    shelf.put_file("a", b"one").is_ok()
        && shelf.fetch("a", 0, &mut buf) == Err(FetchError::Failed)
        && shelf.fetch("a", 1, &mut buf) == Ok(2)
        && shelf.start("a").is_err()
        && shelf.append("a", b"two").is_ok()
        && shelf.append("a", b"six").is_err()
        && shelf.file("a") == Some(b"onetwos".as_slice())
}

// The first call of a kind has number 1, and each kind is counted by itself.
#[test]
fn listed_calls_fail(rt: HostRuntime) {
    let calls = [
        Fail {
            call: FailCall::Append,
            number: 2,
            kept: 1,
        },
        Fail {
            call: FailCall::Fetch,
            number: 1,
            kept: 0,
        },
        Fail {
            call: FailCall::Start,
            number: 1,
            kept: 0,
        },
    ];
    let failed = match failing_shelf(rt.alloc(), &calls) {
        Ok(mut shelf) => fails_as_listed(&mut shelf),
        Err(_) => false,
    };
    assert!(rt; failed);
}

/// A sink of no bytes, of which the push of this number fails.
pub(crate) fn failing_sink(alloc: Global, number: u128) -> Result<MemSink, Memory> {
    let mut fails = Numbers::new(alloc);
    fails.push(number)?;
    Ok(MemSink::new(alloc, fails))
}

/// Whether the second push of a sink fails, and it keeps what the others pushed.
fn is_second_refused(sink: &mut MemSink) -> bool {
    sink.room_for(3).is_ok()
        && sink.push(b"on").is_ok()
        && sink.push(b"two").is_err()
        && sink.push(b"e").is_ok()
        && sink.bytes() == b"one".as_slice()
}

#[test]
fn memory_sink_fails_where_listed(rt: HostRuntime) {
    let refused = match failing_sink(rt.alloc(), 2) {
        Ok(mut sink) => is_second_refused(&mut sink),
        Err(_) => false,
    };
    assert!(rt; refused);
}

/// Whether a sink of four bytes takes the pieces that fit, and those alone.
fn is_filled(sink: &mut FixedSink) -> bool {
    sink.push(b"abc").is_ok()
        && sink.push(b"de").is_err()
        && sink.push(b"d").is_ok()
        && sink.push(b"").is_ok()
        && sink.push(b"e").is_err()
        && sink.bytes() == b"abcd".as_slice()
}

#[test]
fn a_fixed_sink_is_filled_to_its_last_byte(rt: HostRuntime) {
    let filled = match vec![in rt.alloc(); 0u8; 4] {
        Ok(buf) => is_filled(&mut FixedSink::new(Bytes::from_vec(buf))),
        Err(_) => false,
    };
    assert!(rt; filled);
}

/// Pushes of nothing, "one" and "two" to a file that holds "old", on a shelf of which one call fails.
struct Pushes {
    fail: Fail,
    /// Whether "one" is done.
    one: bool,
    /// Whether "two" is done.
    two: bool,
    /// What the file holds then.
    file: &'static str,
}

/// Whether a shelf leaves what it has to.
fn leaves(shelf: &mut MemShelf, pushes: &Pushes) -> bool {
    let held = shelf.put_file("a", b"old").is_ok() && shelf.room_for("a", 8).is_ok();
    let mut sink = ShelfSink::new(shelf, "a");
    let none = sink.push(b"").is_ok();
    let one = sink.push(b"one").is_ok();
    let two = sink.push(b"two").is_ok();
    let done = held && none && one == pushes.one && two == pushes.two;
    done && shelf.file("a") == Some(pushes.file.as_bytes())
}

fn are_left(alloc: Global, pushes: &Pushes) -> bool {
    match failing_shelf(alloc, &[pushes.fail]) {
        Ok(mut shelf) => leaves(&mut shelf, pushes),
        Err(_) => false,
    }
}

const PUSHES: [Pushes; 5] = [
    Pushes {
        fail: Fail {
            call: FailCall::Append,
            number: 3,
            kept: 0,
        },
        one: true,
        two: true,
        file: "onetwo",
    },
    Pushes {
        fail: Fail {
            call: FailCall::Start,
            number: 1,
            kept: 0,
        },
        one: false,
        two: true,
        file: "two",
    },
    Pushes {
        fail: Fail {
            call: FailCall::Start,
            number: 2,
            kept: 0,
        },
        one: true,
        two: true,
        file: "onetwo",
    },
    Pushes {
        fail: Fail {
            call: FailCall::Append,
            number: 1,
            kept: 2,
        },
        one: false,
        two: true,
        file: "ontwo",
    },
    Pushes {
        fail: Fail {
            call: FailCall::Append,
            number: 2,
            kept: 1,
        },
        one: true,
        two: false,
        file: "onet",
    },
];

#[test]
fn a_file_holds_what_was_pushed(rt: HostRuntime) {
    for pushes in &PUSHES {
        assert!(rt; are_left(rt.alloc(), pushes), "{}", pushes.file);
    }
}

/// The path of a file of the process of this number, in the folder for files that are soon removed.
fn own_path<R: Env + AllocGlobal>(rt: &R, process: u32, name: &str) -> Option<String> {
    let folder = env::temp_dir(rt).ok()?;
    format!(in rt.alloc(); "{}/vidi_io-{process}-{name}", folder.as_str()).ok()
}

/// Whether a name is missing, and a file of that name, which is started again, holds what was added to it.
fn is_written(alloc: Global, shelf: &mut impl Shelf, file: &str) -> bool {
    is_unread(alloc, shelf, file, 8, ReadError::Missing)
        && shelf.append(file, b"old").is_ok()
        && shelf.start(file).is_ok()
        && shelf.append(file, b"on").is_ok()
        && shelf.append(file, b"e").is_ok()
        && holds_at_most(alloc, shelf, file, 3, b"one")
}

/// Whether a shelf of real files is right: of one of this name, of a path below it, and of a directory in its place.
fn is_shelf_right<R: Files + AllocGlobal>(
    rt: &R,
    shelf: &mut impl Shelf,
    file: &str,
    below: &str,
) -> bool {
    is_written(rt.alloc(), shelf, file)
        && is_unread(rt.alloc(), shelf, below, 8, ReadError::Failed)
        && is_removed(rt, file)
        && fs::create_dir(rt, file).is_ok()
        && is_unread(rt.alloc(), shelf, file, 8, ReadError::Failed)
        && shelf.start(file).is_err()
        && fs::remove_dir(rt, file).is_ok()
}

fn is_host_right<R: Env + Files + AllocGlobal>(rt: &R, process: u32) -> Option<bool> {
    let file = own_path(rt, process, "one")?;
    let below = own_path(rt, process, "one/below")?;
    let mut shelf = HostShelf::new(rt);
    Some(is_shelf_right(rt, &mut shelf, file.as_str(), below.as_str()))
}

// A real file, a name that isn't there, a path below a plain file, and a directory in place of a file.
#[test]
fn host_files_are_written_and_read(rt: HostRuntime) {
    assert!(rt; is_host_right(&rt, process::id(rt.process())) == Some(true));
    assert!(rt; HostSink::new(&rt).push(b"one\n").is_ok());
}

/// Whether two files that are added to by turns hold their own pieces.
fn hold_turns(alloc: Global, shelf: &mut impl Shelf, one: &str, two: &str) -> bool {
    shelf.append(one, b"a").is_ok()
        && shelf.append(one, b"b").is_ok()
        && shelf.append(two, b"c").is_ok()
        && shelf.append(one, b"d").is_ok()
        && shelf.append(two, b"e").is_ok()
        && holds(alloc, shelf, one, b"abd")
        && holds(alloc, shelf, two, b"ce")
}

/// Whether files that are started again, the open one and then the other, hold what was added since.
fn are_started_again(alloc: Global, shelf: &mut impl Shelf, one: &str, two: &str) -> bool {
    shelf.start(two).is_ok()
        && holds(alloc, shelf, two, b"")
        && shelf.append(two, b"f").is_ok()
        && shelf.start(one).is_ok()
        && shelf.append(one, b"g").is_ok()
        && shelf.append(two, b"h").is_ok()
        && holds(alloc, shelf, one, b"g")
        && holds(alloc, shelf, two, b"fh")
}

fn is_removed<R: Files>(rt: &R, file: &str) -> bool {
    fs::remove_file(rt, file).is_ok()
}

/// Whether a shelf of real files holds what is added to two by turns.
fn are_turns_held<R: Files + AllocGlobal>(rt: &R, one: &str, two: &str) -> bool {
    let mut shelf = HostShelf::new(rt);
    hold_turns(rt.alloc(), &mut shelf, one, two)
        && are_started_again(rt.alloc(), &mut shelf, one, two)
}

fn are_turns_right<R: Env + Files + AllocGlobal>(rt: &R, process: u32) -> Option<bool> {
    let one = own_path(rt, process, "turn")?;
    let two = own_path(rt, process, "other")?;
    let held = are_turns_held(rt, one.as_str(), two.as_str());
    Some(held && is_removed(rt, one.as_str()) && is_removed(rt, two.as_str()))
}

// Two real files that are added to by turns; one is started again while it is open, and one while the other is.
#[test]
fn host_files_are_added_to_by_turns(rt: HostRuntime) {
    assert!(rt; are_turns_right(&rt, process::id(rt.process())) == Some(true));
}

/// Whether a device on which every write fails tells each of two, and the file's own pieces are whole.
fn is_fault_told(alloc: Global, shelf: &mut impl Shelf, file: &str) -> bool {
    shelf.append(file, b"o").is_ok()
        && shelf.append("/dev/full", b"lost").is_err()
        && shelf.append("/dev/full", b"lost").is_err()
        && shelf.append(file, b"ne").is_ok()
        && holds(alloc, shelf, file, b"one")
}

fn is_host_fault_told<R: Files + AllocGlobal>(rt: &R, file: &str) -> bool {
    let mut shelf = HostShelf::new(rt);
    is_fault_told(rt.alloc(), &mut shelf, file)
}

fn is_full_told<R: Env + Files + AllocGlobal>(rt: &R, process: u32) -> bool {
    match own_path(rt, process, "full") {
        Some(file) => is_host_fault_told(rt, file.as_str()) && is_removed(rt, file.as_str()),
        None => false,
    }
}

// A device on which every write fails, between two pieces of a real file.
#[test]
fn a_failed_write_is_told(rt: HostRuntime) {
    assert!(rt; is_full_told(&rt, process::id(rt.process())));
}
