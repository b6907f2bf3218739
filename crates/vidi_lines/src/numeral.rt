//! Numbers as words: decimal, and hexadecimal after `0x`.

ghost use Rattle.std.specs.Prelude.{◌≡◌, ◌≤◌, ◌<◌, ◌+◌, ◌*◌, Some, None, if◌then◌else◌, nat_lt};
ghost use Rattle.std.specs.Char.{digit_value};
ghost use Rattle.vidi_bits.specs.Limits.{below_top};
ghost use Rattle.vidi_lines.specs.Number.{number_in, number_of};

/// The number that a digit of any base up to 36 stands for, 36 where the byte is no digit.
fn digit_value(b: u8) -> u8
    ensures { result ≡ digit_value b }
{
    match b {
        b'0'..=b'9' => b - b'0',
        b'A'..=b'Z' => b - b'A' + 10,
        b'a'..=b'z' => b - b'a' + 10,
        _ => 36,
    }
}

/// `n` with a digit of the base after it, where the byte is one and the number is below 2^128.
fn with_digit(base: u8, n: u128, b: u8) -> Option<u128>
    ensures { result ≡ (if nat_lt (digit_value b) base then below_top (n * base + digit_value b) else None) }
{
    let digit = digit_value(b);
    if digit >= base {
        return None;
    }
    let shifted = n.checked_mul(u128::from(base))?;
    shifted.checked_add(u128::from(digit))
}

/// The number that digits of the base write.
fn number_in(base: u8, text: &[u8]) -> Option<u128>
    requires { 1 ≤ base }
    ensures { result ≡ number_in base text.now }
{
    if text.is_empty() {
        return None;
    }
    let mut n: u128 = 0;
    for b in text {
        n = with_digit(base, n, *b)?;
    }
    Some(n)
}

/// The number that a word writes: one or more decimal digits, or `0x` and one or more hexadecimal digits of either
/// case. `None` exactly where the word is no number below 2^128. It takes no memory.
pub fn number(word: &[u8]) -> Option<u128>
    ensures { result ≡ number_of word.now }
{
    match word {
        [b'0', b'x', digits @ ..] => number_in(16, digits),
        _ => number_in(10, word),
    }
}
