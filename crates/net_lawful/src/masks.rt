//! Masks and sets of bits, compared.

ghost use Rattle.std.specs.Prelude.{◌≡◌, ℕ, ◌<◌, ◌≤◌, ◌↔◌, ◌^◌, IsTrue, true, false, All};
ghost use Rattle.net_code.specs.vidi_bits.Number.{has};
ghost use Rattle.net_design.specs.Bits.{named};
ghost use Rattle.net_code.specs.BitMap.{in_map};
ghost use Rattle.net_lawful.specs.Masks.{MaskIs};

use net_code::BitMap;
use net_design::Mask;

/// Whether a number has at most `width` bits.
#[tactic(auto, using(crate::proofs::MaskTests::below_power))]
pub fn fits(number: u128, width: u32) -> bool
    requires { width ≤ 128 }
    ensures { IsTrue result ↔ (number < 2 ^ width) }
{
    width == 128 || number >> width == 0
}

/// Whether no bit is in both.
#[tactic(auto, using(crate::proofs::MaskTests::none_common))]
pub fn is_apart(a: u128, b: u128) -> bool
    ensures { IsTrue result ↔ ((k : ℕ) → has a k ≡ true → has b k ≡ false) }
{
    a & b == 0
}

/// Whether each bit of `a` is one of `b`.
#[tactic(auto, using(crate::proofs::MaskTests::all_common))]
pub fn is_within(a: u128, b: u128) -> bool
    ensures { IsTrue result ↔ ((k : ℕ) → has a k ≡ true → has b k ≡ true) }
{
    a & b == a
}

/// Whether no bit that a mask names is in a set.
pub fn mask_apart(mask: Mask, set: &BitMap) -> bool
    ensures { IsTrue result ↔ MaskIs set.now false mask }
{
    is_apart(mask.bits, set.mask(mask.net))
}

/// Whether each bit that a mask names is in a set.
fn mask_within(mask: Mask, set: &BitMap) -> bool
    ensures { IsTrue result ↔ MaskIs set.now true mask }
{
    is_within(mask.bits, set.mask(mask.net))
}

fn all_apart(masks: &[Mask], set: &BitMap) -> bool
    ensures { IsTrue result ↔ All (MaskIs set.now false) masks.now }
{
    masks.iter().all(|mask| mask_apart(*mask, set))
}

fn all_within(masks: &[Mask], set: &BitMap) -> bool
    ensures { IsTrue result ↔ All (MaskIs set.now true) masks.now }
{
    masks.iter().all(|mask| mask_within(*mask, set))
}

/// Whether no bit that masks name is in a set.
pub fn are_apart(masks: &[Mask], set: &BitMap) -> bool
    ensures { IsTrue result ↔ ((m k : ℕ) → named masks.now m k ≡ true → in_map set.now m k ≡ false) }
{
    all_apart(masks, set)
}

/// Whether each bit that masks name is in a set.
pub fn are_within(masks: &[Mask], set: &BitMap) -> bool
    ensures { IsTrue result ↔ ((m k : ℕ) → named masks.now m k ≡ true → in_map set.now m k ≡ true) }
{
    all_within(masks, set)
}
