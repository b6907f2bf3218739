//! Plays the case files that its words name, over files and an output in memory: calls of `vidi`, and words on Verilog texts and on wrapped
//! designs. docs/CASES.md has the words.
#![tactic(auto)]

use case_player::vidi_io::{MemShelf, MemSink, Words};
use case_player::{Caller, play_program};
use std::alloc::Global;
use std::process::ExitCode;
use vidi_commands::vidi;

/// What answers the words of a case. The folder of its case file says which of the three it is.
struct Answerer;

impl Caller for Answerer {
    fn call(
        &self,
        alloc: Global,
        case_file: &str,
        words: &Words,
        shelf: &mut MemShelf,
        out: &mut MemSink,
    ) -> u8 {
        let folder = folder_of(case_file);
        if folder.ends_with("verilog") {
            net_words::say(alloc, words, shelf, out)
        } else if folder.ends_with("wrapped") {
            shim_words::say(alloc, words, shelf, out)
        } else {
            vidi(alloc, words, shelf, out).exit_number()
        }
    }
}

/// The folder that a file of this name lies in.
fn folder_of(name: &str) -> &str {
    match name.rsplit_once('/') {
        Some((folder, _)) => folder,
        None => "",
    }
}

fn main(rt: HostRuntime) -> ExitCode {
    ExitCode::from(play_program(&rt, &Answerer))
}
