//! Why the hierarchy of a design is refused.

ghost use Rattle.std.specs.Prelude.{◌≡◌};

use vlog_size::vidi_bits::Memory;

/// A limit on a design's hierarchy.
#[derive(Clone, Copy, Debug, PartialEq, Eq)]
pub enum HierarchyLimit {
    /// At most 4,096 instances, the top among them.
    Instances,
    /// At most 65,536 nets.
    Nets,
}

/// Why the hierarchy of a design is refused.
#[derive(Clone, Copy, Debug, PartialEq, Eq)]
pub enum HierarchyError {
    /// E12: there are more of these than the limit.
    TooBig { what: HierarchyLimit },
    /// E13: the line of a clocked block whose clock isn't the one input of the top, or of a read of the clock.
    Clock { line: u32 },
    Memory,
}

impl From<Memory> for HierarchyError {
    ghost use Rattle.vlog_hierarchy.specs.declared.error.HierarchyError.{HierarchyError};

    ghost from_gives = { λ _ e. e ≡ HierarchyError.Memory };

    fn from(_error: Memory) -> HierarchyError {
        HierarchyError::Memory
    }
}
