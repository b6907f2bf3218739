//! Lists of flags, with which modules and ports are marked.

ghost use Rattle.std.specs.Prelude.{◌≡◌, false, replicate, IfOk};

use std::alloc::Global;
use vlog_size::vidi_bits::{Items, Memory};

/// As many times `false`.
pub fn unmarked(alloc: Global, n: usize) -> Result<Items<bool>, Memory>
    ensures { IfOk result (λ marks. marks ≡ replicate n false) }
{
    let mut marks = Items::new(alloc);
    for _ in 0..n {
        marks.push(false)?;
    }
    Ok(marks)
}
