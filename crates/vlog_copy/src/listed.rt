//! Copies of the parts of lists.

ghost use Rattle.std.specs.Prelude.{◌≡◌, IfOk, map, option_map};

use std::alloc::Global;
use vlog_tree::vidi_bits::{Items, Memory};

/// A part of a tree that stands in lists.
pub trait Part {
    /// What it is as plain data.
    ghost Plain: { Type 0 };

    ghost plain: { Self → Plain };

    /// A copy, with the same lines.
    fn copy(&self, alloc: Global) -> Result<Self, Memory>
        ensures { IfOk result (λ c. plain c ≡ plain self.now) };
}

/// Copies of all parts, in their order.
pub fn copy_all<T: Part + Drop>(alloc: Global, parts: &[T]) -> Result<Items<T>, Memory>
    ensures { IfOk result (λ c. map T.plain c ≡ map T.plain parts.now) }
{
    let mut copy = Items::new(alloc);
    for part in parts {
        let part = part.copy(alloc)?;
        copy.push(part)?;
    }
    Ok(copy)
}

/// A copy of a part that may be there.
pub fn copy_some<T: Part + Drop>(alloc: Global, part: &Option<T>) -> Result<Option<T>, Memory>
    ensures { IfOk result (λ c. option_map T.plain c ≡ option_map T.plain part.now) }
{
    match part {
        None => Ok(None),
        Some(part) => {
            let copy = part.copy(alloc)?;
            Ok(Some(copy))
        }
    }
}
