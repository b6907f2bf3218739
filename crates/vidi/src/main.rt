//! The program `vidi`: verified record and replay for hardware channels. `main` gives the call `vidi` of `vidi_commands` its words, the
//! files and standard output.
#![tactic(auto)]

use std::env;
use std::io::ErrorKind;
use std::process::ExitCode;
use std::rt::Env;
use vidi_commands::vidi_bits::Memory;
use vidi_commands::vidi_io::{HostShelf, HostSink, Text, Words};
use vidi_commands::{Status, vidi};

fn main(rt: HostRuntime) -> ExitCode {
    let status = match words_after_name(&rt) {
        Ok(words) => {
            let mut shelf = HostShelf::new(&rt);
            let mut out = HostSink::new(&rt);
            vidi(rt.alloc(), &words, &mut shelf, &mut out)
        }
        Err(Memory) => Status::Memory,
    };
    ExitCode::from(status.exit_number())
}

/// The program's words after its name, or none where one isn't UTF-8.
fn words_after_name(rt: &(impl Env + AllocGlobal)) -> Result<Words, Memory> {
    let mut words = Words::new(rt.alloc());
    let args = match env::args(rt) {
        Ok(args) => args,
        Err(error) if error.kind() == ErrorKind::OutOfMemory => return Err(Memory),
        Err(_) => return Ok(words),
    };
    for arg in args.skip(1) {
        words.push(Text::from_string(arg))?;
    }
    Ok(words)
}
