//! Lines, their words, and the numbers that these write.

ghost use Rattle.std.specs.Prelude.{◌≡◌, ◌≤◌, ◌+◌, ◌-◌, ◌*◌, ◌==◌, min, length, drop};
ghost use Rattle.std.specs.List.{before_first, after_first, position_or_len};
ghost use Rattle.wave_text.specs.Reading.{is_space, word_at, first_line, behind_line, place_of, number_after, width_of, largest};
ghost use Rattle.wave_text.specs.Wave.{most_numbers};

use crate::lawful::MOST_NUMBERS;
use vidi_lines::number;

/// Past all widths.
const TOO_WIDE: u128 = 129;

/// What stands behind the first `n` bytes and the one that ends them, where one does.
fn behind(text: &[u8], n: usize) -> &[u8]
    ensures { result.now ≡ drop (n + 1) text.now }
{
    if n < text.len() { &text[n + 1..] } else { &[] }
}

/// The number of bytes up to the next newline, or to the end.
fn line_len(text: &[u8]) -> usize
    ensures value { result ≡ position_or_len (λ b. b == 10) text.now }
    ensures fits { result ≤ length text.now }
{
    text.iter().take_while(|b| **b != b'\n').count()
}

/// The number of bytes up to the next space, or to the end.
fn word_len(line: &[u8]) -> usize
    ensures value { result ≡ position_or_len is_space line.now }
    ensures fits { result ≤ length line.now }
{
    line.iter().take_while(|b| **b != b' ').count()
}

/// The line that a text begins with, and what stands behind it.
pub(crate) fn cut_line(text: &[u8]) -> (&[u8], &[u8])
    ensures line { result.0.now ≡ first_line text.now }
    ensures behind { result.1.now ≡ behind_line text.now }
{
    let len = line_len(text);
    (&text[..len], behind(text, len))
}

/// The word that a line begins with, and what stands behind it.
pub(crate) fn cut_word(line: &[u8]) -> (&[u8], &[u8])
    ensures word { result.0.now ≡ before_first is_space line.now }
    ensures behind { result.1.now ≡ after_first is_space line.now }
{
    let len = word_len(line);
    (&line[..len], behind(line, len))
}

/// Word `k` of a line, counted from 0.
pub(crate) fn word_at(line: &[u8], k: usize) -> &[u8]
    ensures { result.now ≡ word_at k line.now }
{
    let (word, behind) = cut_word(line);
    if k == 0 {
        return word;
    }
    word_at(behind, k - 1)
}

/// The place behind a digit of an ID.
fn with_digit(b: u8, place: usize) -> usize
    requires { place ≤ most_numbers }
    ensures { result ≡ min most_numbers ((b - 33) + 94 * place) }
{
    let digit = usize::from(b.saturating_sub(33));
    (digit + 94 * place).min(MOST_NUMBERS)
}

/// The place that an ID names; what is past all places of a wave stays past them.
pub(crate) fn place_of(id: &[u8]) -> usize
    ensures { result ≡ place_of id.now }
{
    let mut place = 0;
    for i in 0..id.len() {
        place = with_digit(id[id.len() - 1 - i], place);
    }
    place
}

/// A number with one more binary digit.
fn with_bit(number: u128, b: u8) -> u128
    ensures { result ≡ min largest (2 * number + (b - 48)) }
{
    let bit = u128::from(b.saturating_sub(48));
    number.saturating_mul(2).saturating_add(bit)
}

/// The number that binary digits write.
pub(crate) fn number_of_bits(digits: &[u8]) -> u128
    ensures { result ≡ number_after 0 digits.now }
{
    let mut number = 0;
    for b in digits {
        number = with_bit(number, *b);
    }
    number
}

/// The width that a word writes, 0 where it is no number.
pub(crate) fn width_of(word: &[u8]) -> u32
    ensures { result ≡ width_of word.now }
{
    match number(word) {
        Some(n) => n.min(TOO_WIDE) as u32,
        None => 0,
    }
}
