//! The bytes of a word.

ghost use Rattle.std.specs.Prelude.{◌≡◌, ◌*◌, ◌<◌, ◌≤◌, slice_index, slice_set, if◌then◌else◌};
ghost use Rattle.trace_model.specs.vidi_bits.Number.{has, part_of};
ghost use Rattle.axi_memory.specs.Memory.{merged};

use env_script::trace_model::names;
use env_script::trace_model::vidi_bits::{Numbers, slice};

/// Byte k of a word: that of the new number where its strobe bit is 1, else of the old one.
fn byte(old: u128, new: u128, strobe: u128, k: u32) -> u128
    requires { k < 16 }
    ensures { result ≡ part_of (if has strobe k then new else old) (8 * k) 8 }
{
    if names(strobe, k as usize) {
        slice(new, 8 * k, 8)
    } else {
        slice(old, 8 * k, 8)
    }
}

/// A word of so many bytes: those of the new number whose strobe bit is 1, the others of the old one.
fn merged(bytes: u32, old: u128, new: u128, strobe: u128) -> u128
    requires { bytes ≤ 16 }
    ensures { result ≡ merged bytes old new strobe }
{
    let mut word = 0;
    for k in 0..bytes {
        word += byte(old, new, strobe, k) << (8 * k);
    }
    word
}

/// The word of this number, 0 past the end.
pub(crate) fn word_at(words: &Numbers, number: u128) -> u128
    ensures { result ≡ slice_index words.now number }
{
    if number >= words.len() as u128 {
        return 0;
    }
    words.as_slice()[number as usize]
}

/// Writes the bytes of a number whose strobe bit is 1 into the word of this number, where there is one.
pub(crate) fn write_word(words: &mut Numbers, bytes: u32, at: u128, new: u128, strobe: u128)
    requires { bytes ≤ 16 }
    ensures { words.new ≡ slice_set words.old at (merged bytes (slice_index words.old at) new strobe) }
{
    if at >= words.len() as u128 {
        return;
    }
    let old = word_at(words, at);
    words.set(at as usize, merged(bytes, old, new, strobe));
}
