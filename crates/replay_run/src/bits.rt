//! Bits of masks.

ghost use Rattle.std.specs.Prelude.{◌≡◌, ◌≢◌, ◌&&◌, ◌<◌, ◌≤◌, ℕ, not};
ghost use Rattle.trace_code.specs.vidi_bits.Number.{has};

/// The mask with the bit of a channel up or down.
pub(crate) fn with_bit_as(mask: u128, channel: usize, up: bool) -> u128
    requires few { channel < 128 }
    ensures here { has result channel ≡ up }
    ensures others { (c : ℕ) → c ≢ channel → has result c ≡ has mask c }
{
    if up {
        mask | 1 << channel
    } else {
        mask & !(1 << channel)
    }
}

/// The mask of the channels that `mask` names and `others` doesn't.
pub(crate) fn without(mask: u128, others: u128) -> u128
    ensures each { (c : ℕ) → has result c ≡ (has mask c && not (has others c)) }
    ensures most { result ≤ mask }
{
    mask & !others
}
