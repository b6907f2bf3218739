//! Widths and numbers of constants.

ghost use Rattle.std.specs.Prelude.{◌≡◌, ◌≤◌, ◌+◌, ◌%◌, ◌^◌, Some, None, if◌then◌else◌, IfSome, ℕ};
ghost use Rattle.vlog_tree.specs.vidi_bits.Number.{IsWidth, side_by_side};
ghost use Rattle.vlog_size.specs.Literal.{is_lawful};
ghost use Rattle.vlog_tree.specs.Plain.{plain_ref};
ghost use Rattle.vlog_size.specs.Names.{readable_in};
ghost use Rattle.vlog_size.specs.Size.{sizes_of_ref, const_width, const_number, binary_width};

use crate::literal::is_lawful;
use crate::names::{Meaning, View, meaning_of};
use crate::operators::Kind;
use crate::scope::Const;
use vlog_tree::Ref;
use vlog_tree::vidi_bits::trim;

/// A constant's width. A plain one is 32 bits wide.
pub fn const_width(value: Const) -> u32
    ensures { result ≡ const_width value }
{
    match value {
        Const::Plain { .. } => 32,
        Const::Sized { width, .. } => width,
    }
}

/// `n` modulo 2 to the power of `width`.
#[tactic(auto, using(crate::proofs::Fits::no_bits, crate::proofs::Fits::all_bits))]
fn low_bits(n: u128, width: u32) -> u128
    ensures { result ≡ n % 2 ^ width }
{
    if width == 0 {
        return 0;
    }
    if width > 128 {
        return n;
    }
    trim(n, width)
}

/// A constant's number, modulo 2 to the power of its width.
pub fn const_number(value: Const) -> u128
    ensures { result ≡ const_number value }
{
    match value {
        Const::Plain { n } => u128::from(n),
        Const::Sized { width, n } => low_bits(n, width),
    }
}

/// The width of two operands of these widths with an operator of this kind between them.
pub fn binary_width(kind: Kind, left: u128, right: u128) -> u128
    ensures { result ≡ binary_width kind left right }
{
    match kind {
        Kind::Sum => left.max(right),
        Kind::Comparison | Kind::Logic => 1,
        Kind::Shift => left,
    }
}

/// The width, where it is lawful.
pub fn lawful_width(w: u128) -> Option<u32>
    ensures value { result ≡ (if is_lawful w then Some w else None) }
    ensures lawful { IfSome result (λ w. IsWidth w) }
{
    if is_lawful(w) { Some(w as u32) } else { None }
}

/// The number of a parameter that is known; any other name has none.
pub fn ref_number(view: &View<'_>, name: &Ref) -> Option<u128>
    ensures { (w : ℕ) → result ≡ (sizes_of_ref (readable_in view.now) (plain_ref name.now)).value w }
{
    match meaning_of(view, name.id.name.as_slice()) {
        Meaning::Parameter { value, known: true } => Some(const_number(value)),
        _ => None,
    }
}

/// The numbers of the parts before, of `before` bits, and of a part of `v` bits side by side.
pub fn join_part(before: u32, v: u32, high: u128, low: u128) -> u128
    requires part { IsWidth v }
    requires all { before + v ≤ 128 }
    ensures { result ≡ side_by_side high low before v }
{
    if before == 0 {
        trim(low, v)
    } else {
        vlog_tree::vidi_bits::joined(high, low, before, v)
    }
}
