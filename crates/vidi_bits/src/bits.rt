//! Parts of a number by bits: cut out, put in, joined.

ghost use Rattle.std.specs.Prelude.{◌≡◌, ◌+◌, ◌-◌, ◌*◌, ◌/◌, ◌%◌, ◌^◌, ◌<◌, ◌≤◌};

/// The number of `w` ones, 1 to 128 of them.
pub fn ones(w: u32) -> u128
    requires some { 0 < w }
    requires most { w ≤ 128 }
    ensures { result ≡ 2 ^ w - 1 }
{
    u128::MAX >> (128 - w)
}

/// `x` modulo 2 to the power of `w`: its low `w` bits, 1 to 128 of them.
pub fn trim(x: u128, w: u32) -> u128
    requires some { 0 < w }
    requires most { w ≤ 128 }
    ensures { result ≡ x % 2 ^ w }
{
    x & ones(w)
}

/// The `w` bits of `x` from bit `low` on, 1 to 128 of them. Bits past 127 are 0.
pub fn slice(x: u128, low: u32, w: u32) -> u128
    requires some { 0 < w }
    requires most { w ≤ 128 }
    ensures { result ≡ x / 2 ^ low % 2 ^ w }
{
    if low >= 128 {
        return 0;
    }
    trim(x >> low, w)
}

/// `x` with its `w` bits from bit `low` on, 1 to 128 of them, replaced by the low bits of `part`.
/// Bits past 127 are dropped.
pub fn put(x: u128, low: u32, w: u32, part: u128) -> u128
    requires some { 0 < w }
    requires most { w ≤ 128 }
    ensures { result ≡ ((x / 2 ^ (low + w) * 2 ^ w + part % 2 ^ w) * 2 ^ low + x % 2 ^ low) % 2 ^ 128 }
{
    if low >= 128 {
        return x;
    }
    (x & !(ones(w) << low)) | (trim(part, w) << low)
}

/// The low `w` bits of `low`, 1 to 127 of them, with `high` above them.
pub fn join(high: u128, low: u128, w: u32) -> u128
    requires some { 0 < w }
    requires most { w ≤ 127 }
    requires fits { high < 2 ^ (128 - w) }
    ensures { result ≡ high * 2 ^ w + low % 2 ^ w }
{
    (high << w) | trim(low, w)
}
