//! Sums, products and shifts of numbers of some bits, which wrap at their width.

ghost use Rattle.std.specs.Prelude.{◌≡◌, ◌+◌, ◌-◌, ◌*◌, ◌/◌, ◌%◌, ◌^◌, ◌<◌, ◌≤◌};

use crate::bits::trim;

/// The sum modulo 2 to the power of `w`, where `w` is 1 to 128.
pub fn add_w(a: u128, b: u128, w: u32) -> u128
    requires some { 0 < w }
    requires most { w ≤ 128 }
    ensures { result ≡ (a + b) % 2 ^ w }
{
    trim(a.wrapping_add(b), w)
}

/// The difference modulo 2 to the power of `w`, where `w` is 1 to 128.
pub fn sub_w(a: u128, b: u128, w: u32) -> u128
    requires some { 0 < w }
    requires most { w ≤ 128 }
    ensures { result ≡ (a + (2 ^ w - b % 2 ^ w)) % 2 ^ w }
{
    trim(a.wrapping_sub(b), w)
}

/// The product modulo 2 to the power of `w`, where `w` is 1 to 128.
pub fn mul_w(a: u128, b: u128, w: u32) -> u128
    requires some { 0 < w }
    requires most { w ≤ 128 }
    ensures { result ≡ a * b % 2 ^ w }
{
    trim(a.wrapping_mul(b), w)
}

/// `a` shifted left by `n` bits at a width of `w` bits, which is 1 to 128: 0 where `n` is `w` or more.
pub fn shl_w(a: u128, n: u128, w: u32) -> u128
    requires some { 0 < w }
    requires most { w ≤ 128 }
    ensures { result ≡ a * 2 ^ n % 2 ^ w }
{
    if n >= u128::from(w) {
        return 0;
    }
    trim(a << (n as u32), w)
}

/// `a`, of `w` bits, shifted right by `n` bits, where `w` is 1 to 128: 0 where `n` is `w` or more.
pub fn shr_w(a: u128, n: u128, w: u32) -> u128
    requires most { w ≤ 128 }
    requires fits { a < 2 ^ w }
    ensures { result ≡ a / 2 ^ n }
{
    if n >= u128::from(w) {
        return 0;
    }
    a >> (n as u32)
}
