//! Feeds of replayers as lines of a file: `more N needs N .. contents N ..`.

ghost use Rattle.std.specs.Prelude.{◌≤◌, IfOk, length};
ghost use Rattle.shim_runs.specs.chan_replayer.Feed.{IsFeedOver};
ghost use Rattle.shim_runs.specs.trace_model.declared.packet.TheConstants.{MOST_CHANNELS};

use shim_runs::Ended;
use shim_runs::chan_replayer::{Feed, Needs};
use shim_runs::trace_model::{Channels, Row, is_over};
use shim_runs::vidi_bits::{Items, Name, Numbers};
use shim_runs::vidi_lines::{Line, number};
use std::alloc::Global;

/// The numbers behind this word, up to the next word that is none.
fn numbers_behind(alloc: Global, words: &[Name], mark: &[u8]) -> Result<Numbers, Ended> {
    let mut numbers = Items::new(alloc);
    let mut behind = false;
    for word in words {
        match number(word.as_slice()) {
            Some(n) if behind => numbers.push(n)?,
            Some(_) => {}
            None => behind = word.as_slice() == mark,
        }
    }
    Ok(numbers)
}

/// The same numbers, of 32 bits each.
fn words_of(alloc: Global, numbers: &[u128]) -> Result<Items<u32>, Ended> {
    let mut words = Items::new(alloc);
    for n in numbers {
        match u32::try_from(*n) {
            Ok(word) => words.push(word)?,
            Err(_) => return Err(Ended::Usage),
        }
    }
    Ok(words)
}

/// The feed of a line, over these channels.
pub(crate) fn feed_of(alloc: Global, line: &Line, channels: &Channels) -> Result<Feed, Ended>
    requires { length channels.now ≤ MOST_CHANNELS }
    ensures { IfOk result (IsFeedOver channels.now) }
{
    let words = line.words.as_slice();
    let more = numbers_behind(alloc, words, b"more")?;
    let needs = numbers_behind(alloc, words, b"needs")?;
    let needs = words_of(alloc, needs.as_slice())?;
    let contents = numbers_behind(alloc, words, b"contents")?;
    let [more] = more.as_slice() else {
        return Err(Ended::Usage);
    };
    checked(alloc, channels, *more, needs, contents)
}

/// A feed of these parts, where they are one over the channels.
fn checked(
    alloc: Global,
    channels: &Channels,
    more: u128,
    needs: Items<u32>,
    contents: Numbers,
) -> Result<Feed, Ended>
    requires { length channels.now ≤ MOST_CHANNELS }
    ensures { IfOk result (IsFeedOver channels.now) }
{
    let row = Row {
        fresh: false,
        gates: 0,
        valids: more,
        readies: 0,
        contents,
        starts: 0,
        ends: 0,
    };
    if needs.len() != channels.len() * channels.len() || !is_over(&row, channels) {
        return Err(Ended::Usage);
    }
    Ok(Feed {
        more,
        needs: Needs::of_numbers(alloc, channels.len(), needs)?,
        contents: row.contents,
    })
}
