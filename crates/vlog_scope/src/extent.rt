//! What ranges make of the names that they stand before.

ghost use Rattle.std.specs.Prelude.{◌≡◌, option_map};
ghost use Rattle.vlog_tree.specs.Plain.{plain_range, plain_parameter_head, plain_head};
ghost use Rattle.vlog_size.specs.Names.{readable_in};
ghost use Rattle.vlog_scope.specs.Extents as extents;

use vlog_size::{View, fixed, numbered};
use vlog_tree::{ParameterHead, PortHead, Range};

/// What a range makes of a name that is declared behind it.
#[derive(Clone, Copy, PartialEq, Eq)]
pub enum Extent {
    /// There is no range.
    NoRange,
    /// So many bits.
    Bits(u32),
    /// A bound is at fault, so that the bits aren't known.
    AtFault,
}

/// The most bits or words that a range can have.
pub const MOST: u32 = 2_147_483_648;

/// One more than a bound's number, where the other bound is 0.
fn counted(zero: Option<u128>, last: Option<u128>) -> Option<u32>
    ensures { result ≡ extents.counted zero last }
{
    match (zero, last) {
        (Some(0), Some(n)) if n < 2_147_483_648 => Some(n as u32 + 1),
        _ => None,
    }
}

/// The bits of a vector.
fn vector_width(view: &View<'_>, range: &Range) -> Option<u32>
    ensures { result ≡ extents.vector_width (readable_in view.now) (plain_range range.now) }
{
    let constants = fixed(view);
    let first = numbered(&constants, &range.first);
    let second = numbered(&constants, &range.second);
    counted(second.number, first.number)
}

/// The words of a memory, the most where a bound is at fault.
pub fn memory_length(view: &View<'_>, range: &Range) -> u32
    ensures { result ≡ extents.or_most (extents.memory_length (readable_in view.now) (plain_range range.now)) }
{
    let constants = fixed(view);
    let first = numbered(&constants, &range.first);
    let second = numbered(&constants, &range.second);
    counted(first.number, second.number).unwrap_or(MOST)
}

fn bits_of(width: Option<u32>) -> Extent
    ensures { result ≡ extents.bits_of width }
{
    match width {
        None => Extent::AtFault,
        Some(w) => Extent::Bits(w),
    }
}

/// What a range makes of a name.
pub fn extent_of(view: &View<'_>, range: &Option<Range>) -> Extent
    ensures { result ≡ extents.extent_of (readable_in view.now) (option_map plain_range range.now) }
{
    match range {
        None => Extent::NoRange,
        Some(range) => bits_of(vector_width(view, range)),
    }
}

/// The range behind the word `parameter`, else that of the parameter before.
pub fn parameter_extent(view: &View<'_>, before: Extent, head: &Option<ParameterHead>) -> Extent
    ensures { result ≡ extents.parameter_extent (readable_in view.now) before (option_map plain_parameter_head head.now) }
{
    match head {
        None => before,
        Some(head) => extent_of(view, &head.range),
    }
}

/// The range behind a direction, else that of the port before.
pub fn port_extent(view: &View<'_>, before: Extent, head: &Option<PortHead>) -> Extent
    ensures { result ≡ extents.port_extent (readable_in view.now) before (option_map plain_head head.now) }
{
    match head {
        None => before,
        Some(head) => extent_of(view, &head.range),
    }
}

/// The width of a net or of a memory's words, the most where the range is at fault.
pub fn net_width(extent: Extent) -> u32
    ensures { result ≡ extents.net_width extent }
{
    match extent {
        Extent::NoRange => 1,
        Extent::Bits(w) => w,
        Extent::AtFault => MOST,
    }
}
