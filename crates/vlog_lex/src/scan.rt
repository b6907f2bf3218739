//! The next token of a text: a name, a number or a symbol (IEEE 1364-2005, 3.4 to 3.7).

ghost use Rattle.std.specs.Prelude.{◌≡◌, ◌≢◌, ◌≤◌, ℕ, List, ◌∷◌, IfSome, IfNone, length};
ghost use Rattle.std.specs.List.{prefix_len};
ghost use Rattle.vlog_lex.specs.Lexeme.{begins_name, continues_name, is_digit_of, continues_digits, IsName, IsDigits, IsBased, IsSymbol};
ghost use Rattle.vlog_lex.specs.Front.{IsLongestFront, IsNextToken, has_symbol};

use crate::token::TokenKind;
use crate::words::{is_reserved, is_symbol};

fn begins_name(b: u8) -> bool
    ensures { result ≡ begins_name b }
{
    b.is_ascii_alphabetic() || b == b'_'
}

fn continues_name(b: u8) -> bool
    ensures { result ≡ continues_name b }
{
    begins_name(b) || b.is_ascii_digit() || b == b'$'
}

/// Whether `b` is a digit of the base that the letter `base` names, in either case.
fn is_digit_of(base: u8, b: u8) -> bool
    ensures { result ≡ is_digit_of base b }
{
    match base {
        b'b' | b'B' => matches!(b, b'0'..=b'1'),
        b'o' | b'O' => matches!(b, b'0'..=b'7'),
        b'd' | b'D' => b.is_ascii_digit(),
        b'h' | b'H' => b.is_ascii_hexdigit(),
        _ => false,
    }
}

fn continues_digits(base: u8, b: u8) -> bool
    ensures { result ≡ continues_digits base b }
{
    is_digit_of(base, b) || b == b'_'
}

/// The number of bytes at the front that can stand in a name.
pub fn name_part_len(bytes: &[u8]) -> usize
    ensures value { result ≡ prefix_len continues_name bytes.now }
    ensures fits { result ≤ length bytes.now }
{
    bytes.iter().take_while(|b| continues_name(**b)).count()
}

/// The number of bytes at the front that can stand among digits of this base.
fn digit_part_len(base: u8, bytes: &[u8]) -> usize
    ensures value { result ≡ prefix_len (continues_digits base) bytes.now }
    ensures fits { result ≤ length bytes.now }
{
    bytes
        .iter()
        .take_while(|b| continues_digits(base, **b))
        .count()
}

/// The length of the longest name at the front, 0 where none begins.
fn name_len(bytes: &[u8]) -> usize
    ensures { IsLongestFront IsName result bytes.now }
{
    match bytes {
        [first, rest @ ..] if begins_name(*first) => 1 + name_part_len(rest),
        _ => 0,
    }
}

/// The length of the longest digits of this base at the front, 0 where none begin.
fn digits_len(base: u8, bytes: &[u8]) -> usize
    ensures { IsLongestFront (IsDigits base) result bytes.now }
{
    match bytes {
        [first, rest @ ..] if is_digit_of(base, *first) => 1 + digit_part_len(base, rest),
        _ => 0,
    }
}

/// The base letter that stands after a `'` at the front, and the bytes after it.
fn after_quote(bytes: &[u8]) -> Option<(u8, &[u8])>
    ensures found { IfSome result (λ f. bytes.now ≡ 39 ∷ f.0 ∷ f.1.now) }
    ensures none { IfNone result ((base : ℕ) (rest : List ℕ) → bytes.now ≢ 39 ∷ base ∷ rest) }
{
    match bytes {
        [b'\'', base, rest @ ..] => Some((*base, rest)),
        _ => None,
    }
}

/// The length of the longest based literal at the front, 0 where none begins.
fn based_len(bytes: &[u8]) -> usize
    ensures { IsLongestFront IsBased result bytes.now }
{
    let size = digits_len(b'd', bytes);
    let Some((base, rest)) = after_quote(&bytes[size..]) else {
        return 0;
    };
    let digits = digits_len(base, rest);
    if digits > 0 { size + 2 + digits } else { 0 }
}

/// Whether the first `n` bytes are a symbol.
fn has_symbol(bytes: &[u8], n: usize) -> bool
    ensures { result ≡ has_symbol bytes.now n }
{
    n <= bytes.len() && is_symbol(&bytes[..n])
}

/// The length of the longest symbol at the front, 0 where none begins.
fn symbol_len(bytes: &[u8]) -> usize
    ensures { IsLongestFront IsSymbol result bytes.now }
{
    if has_symbol(bytes, 3) {
        3
    } else if has_symbol(bytes, 2) {
        2
    } else if has_symbol(bytes, 1) {
        1
    } else {
        0
    }
}

/// The kind and the length of the longest token at the front, `None` where no token begins.
pub fn next_token(bytes: &[u8]) -> Option<(TokenKind, usize)>
    ensures { IsNextToken result bytes.now }
{
    let name = name_len(bytes);
    if name > 0 {
        let kind = if is_reserved(&bytes[..name]) {
            TokenKind::Reserved
        } else {
            TokenKind::Identifier
        };
        return Some((kind, name));
    }
    let based = based_len(bytes);
    if based > 0 {
        return Some((TokenKind::Based, based));
    }
    let decimal = digits_len(b'd', bytes);
    if decimal > 0 {
        return Some((TokenKind::Decimal, decimal));
    }
    let symbol = symbol_len(bytes);
    if symbol > 0 {
        return Some((TokenKind::Other, symbol));
    }
    None
}
