//! The playing of case files by a program.

ghost use Rattle.std.specs.Prelude.{◌≤◌};

use crate::caller::Caller;
use crate::error::PlayError;
use crate::playing::play_files;
use crate::score::Score;
use std::env;
use std::io::ErrorKind;
use std::rt::{Env, Files};
use vidi_io::{HostShelf, HostSink, Text, Words};

/// Plays the case files that the program's words name, and reports on standard output. Gives the exit status: 0 where
/// every case was right, 1 where one wasn't, 2 where there was no memory, a word isn't UTF-8, or the report couldn't be
/// written.
pub fn play_program<R: Env + Files + Print + AllocGlobal, C: Caller>(rt: &R, caller: &C) -> u8
    ensures { result ≤ 2 }
{
    match play_words(rt, caller) {
        Ok(score) if score.is_full() => 0,
        Ok(_) => 1,
        Err(_) => 2,
    }
}

/// Plays the case files that the program's words name.
fn play_words<R: Env + Files + Print + AllocGlobal, C: Caller>(
    rt: &R,
    caller: &C,
) -> Result<Score, PlayError> {
    let mut names = Words::new(rt.alloc());
    let args = match env::args(rt) {
        Ok(args) => args,
        Err(error) if error.kind() == ErrorKind::OutOfMemory => return Err(PlayError::Memory),
        Err(_) => return Err(PlayError::Words),
    };
    for arg in args.skip(1) {
        names.push(Text::from_string(arg))?;
    }
    let mut shelf = HostShelf::new(rt);
    let mut report = HostSink::new(rt);
    play_files(rt.alloc(), caller, &names, &mut shelf, &mut report)
}
