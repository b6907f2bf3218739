//! What the words of a case are answered.

use crate::alike::Around;
use crate::fed_nets::fed_nets;
use crate::nets::nets;
use crate::rows::rows;
use shim_runs::vidi_io::{Shelf, Text};
use shim_runs::{Ended, record, replay};
use std::alloc::Global;

/// The text that these words ask for.
pub(crate) fn answer<S: Shelf>(
    alloc: Global,
    words: &[Text],
    shelf: &mut S,
) -> Result<Vec<u8>, Ended> {
    let [word, rest @ ..] = words else {
        return Err(Ended::Usage);
    };
    match word.as_str().as_bytes() {
        b"record" => record(alloc, rest, shelf),
        b"replay" => replay(alloc, rest, shelf),
        b"nets" => nets(alloc, rest, shelf),
        b"fed_nets" => fed_nets(alloc, rest, shelf),
        b"rows" => rows(alloc, Around::Monitors, rest, shelf),
        b"fed_rows" => rows(alloc, Around::Replayers, rest, shelf),
        _ => Err(Ended::Usage),
    }
}
