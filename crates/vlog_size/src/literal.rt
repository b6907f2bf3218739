//! The widths and the numbers of literals (IEEE 1364-2005, 3.5.1).

ghost use Rattle.std.specs.Prelude.{◌≡◌, ◌≤◌, ◌+◌, ◌*◌, ◌<◌, ◌^◌, length};
ghost use Rattle.vlog_tree.specs.vidi_bits.Limits.{below_top};
ghost use Rattle.vlog_size.specs.Literal.{digit, base_of, digits_from, based_number, size_of};
ghost use Rattle.vlog_size.specs.Literal.{literal_width, is_unsized_literal, spelled_number, literal_number, is_lawful, is_quote};
ghost use Rattle.vlog_size.specs.Literal.{is_bad_literal};
ghost use Rattle.vlog_size.specs.Limits.{TOP};
ghost use Rattle.std.specs.List.{position_or_len};
ghost use Rattle.std.specs.Prelude.{min, List, ℕ};
ghost use Rattle.vlog_tree.specs.declared.expr.NumberKind.TheVariants.{Based};

use vlog_tree::NumberKind;
use vlog_tree::vidi_bits::trim;

/// The number that a digit stands for.
fn digit(b: u8) -> u8
    ensures { result ≡ digit b }
{
    match b {
        0..=57 => b.saturating_sub(48),
        58..=70 => b - 55,
        _ => b.saturating_sub(87),
    }
}

/// The base that its letter names.
fn base_of(letter: u8) -> u8
    ensures within { 1 ≤ result }
    ensures value { result ≡ base_of letter }
{
    match letter {
        b'b' | b'B' => 2,
        b'o' | b'O' => 8,
        b'h' | b'H' => 16,
        _ => 10,
    }
}

/// `n` with a digit after it, where that is below `2^128`.
fn with_digit(base: u8, n: u128, b: u8) -> Option<u128>
    ensures { result ≡ below_top (n * base + digit b) }
{
    let shifted = n.checked_mul(u128::from(base))?;
    shifted.checked_add(u128::from(digit(b)))
}

/// The number that the digits make in this base, where it is below `2^128`.
fn digits(base: u8, text: &[u8]) -> Option<u128>
    requires { 1 ≤ base }
    ensures { result ≡ below_top (digits_from base 0 text.now) }
{
    let mut n: u128 = 0;
    for b in text {
        if *b != b'_' {
            n = with_digit(base, n, *b)?;
        }
    }
    Some(n)
}

/// The place of the `'`, or the length where there is none.
fn quote_at(text: &[u8]) -> usize
    ensures value { result ≡ position_or_len is_quote text.now }
    ensures within { result ≤ length text.now }
{
    text.iter().take_while(|b| **b != b'\'').count()
}

/// The number that a base's letter and digits make, where it is below `2^128`.
fn based_number(text: &[u8]) -> Option<u128>
    ensures { result ≡ below_top (based_number text.now) }
{
    match text {
        [] => Some(0),
        [letter, rest @ ..] => digits(base_of(*letter), rest),
    }
}

/// What is read off a literal.
#[derive(Clone, Copy)]
pub struct Literal {
    pub kind: NumberKind,
    /// Whether it is a based one without a size.
    pub is_unsized: bool,
    /// Its width, or the largest number where it is larger.
    pub width: u128,
    /// The number that is spelled, where it is below `2^128`.
    pub spelled: Option<u128>,
}

/// The size before the `'`, 32 without one, or the largest number where it is larger.
fn size_of(size: &[u8]) -> u128
    ensures { result ≡ min (size_of size.now) TOP }
{
    if size.is_empty() {
        return 32;
    }
    digits(10, size).unwrap_or(u128::MAX)
}

/// What is read off a based literal.
fn based_literal(text: &[u8]) -> Literal
    ensures kind { result.kind ≡ Based }
    ensures is_unsized { result.is_unsized ≡ is_unsized_literal Based text.now }
    ensures width { result.width ≡ min (literal_width Based text.now) TOP }
    ensures spelled { result.spelled ≡ spelled_number Based text.now }
{
    let at = quote_at(text);
    let size = &text[..at];
    let rest = if at < text.len() {
        &text[at + 1..]
    } else {
        &[]
    };
    Literal {
        kind: NumberKind::Based,
        is_unsized: size.is_empty(),
        width: size_of(size),
        spelled: based_number(rest),
    }
}

/// What is read off a literal.
pub fn read_literal(kind: NumberKind, text: &[u8]) -> Literal
    ensures kind { result.kind ≡ kind }
    ensures is_unsized { result.is_unsized ≡ is_unsized_literal kind text.now }
    ensures width { result.width ≡ min (literal_width kind text.now) TOP }
    ensures spelled { result.spelled ≡ spelled_number kind text.now }
{
    match kind {
        NumberKind::Decimal => Literal {
            kind,
            is_unsized: false,
            width: 32,
            spelled: digits(10, text),
        },
        NumberKind::Based => based_literal(text),
    }
}

/// Whether this is a lawful width, 1 to 128.
pub fn is_lawful(w: u128) -> bool
    ensures { result ≡ is_lawful w }
{
    0 < w && w <= 128
}

/// The number of a literal of lawful width.
pub fn read_number(literal: &Literal) -> Option<u128>
    ensures { (text : List ℕ) → literal.now.width ≡ min (literal_width literal.now.kind text) TOP
        → literal.now.spelled ≡ spelled_number literal.now.kind text → result ≡ literal_number literal.now.kind text }
{
    let n = literal.spelled?;
    match literal.kind {
        NumberKind::Decimal => Some(n),
        NumberKind::Based if is_lawful(literal.width) => Some(trim(n, literal.width as u32)),
        NumberKind::Based => None,
    }
}

/// The number of a literal of lawful width.
pub fn literal_number(kind: NumberKind, text: &[u8]) -> Option<u128>
    ensures { result ≡ literal_number kind text.now }
{
    read_number(&read_literal(kind, text))
}

/// Whether the number is `2^128` or more, or the width unlawful.
pub fn is_bad_literal(literal: &Literal) -> bool
    ensures { (text : List ℕ) → literal.now.width ≡ min (literal_width literal.now.kind text) TOP
        → literal.now.spelled ≡ spelled_number literal.now.kind text → result ≡ is_bad_literal literal.now.kind text }
{
    literal.spelled.is_none() || !is_lawful(literal.width)
}
