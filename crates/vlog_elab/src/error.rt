//! Why a design text is refused.

ghost use Rattle.std.specs.Prelude.{◌≡◌};
ghost use Rattle.vlog_elab.specs.Errors.{number_of};

use vlog_hierarchy::vidi_bits::{Memory, Name};
use vlog_hierarchy::vlog_size::SizeError;
use vlog_hierarchy::{HierarchyError, HierarchyLimit};
use vlog_names::{KindError, NameError};

/// A limit on the size of a design.
#[derive(Clone, Copy, Debug, PartialEq, Eq)]
pub enum Big {
    /// At most 4,096 instances, the top among them.
    Instances,
    /// At most 65,536 nets.
    Nets,
    /// At most 1,048,576 words of memories.
    Words,
}

/// Why a design text is refused, each with what it names: a name as it stands in its module, or the line of what is at fault.
#[derive(Drop)]
pub enum ElabError {
    /// E3: this name stands twice.
    Twice { name: Name },
    /// E4: this name isn't declared.
    Unknown { name: Name },
    /// E7: a name or an assignment of a wrong kind.
    Kind { line: u32 },
    /// E11: this module contains itself.
    Nested { name: Name },
    /// E12: there are more of these than the limit.
    TooBig { what: Big },
    /// E5: a constant position, a literal, a part or an operator that isn't lawful.
    Const { line: u32 },
    /// E6: a width, an index or a bound that isn't lawful, and this number.
    Width { line: u32, got: u128 },
    /// E13: a clocked block whose clock isn't the one input of the top, or a read of the clock.
    Clock { line: u32 },
    /// E9: the `always @*` on this line leaves bits of this net open, or reads some before it has surely assigned them.
    Latch { name: Name, line: u32 },
    /// E8: this bit of the net of this full name has so many drivers; of a reg or a memory, whose bit 0 is named, so many always
    /// blocks write it.
    Drive { name: Name, bit: u32, drivers: u32 },
    Memory,
}

impl ElabError {
    /// The number of the reason: 3 for E3, and so on. `None` where memory was wanting, which is no reason.
    pub fn number(&self) -> Option<u32>
        ensures { result ≡ number_of self.now }
    {
        match self {
            ElabError::Twice { name: _ } => Some(3),
            ElabError::Unknown { name: _ } => Some(4),
            ElabError::Const { line: _ } => Some(5),
            ElabError::Width { line: _, got: _ } => Some(6),
            ElabError::Kind { line: _ } => Some(7),
            ElabError::Drive {
                name: _,
                bit: _,
                drivers: _,
            } => Some(8),
            ElabError::Latch { name: _, line: _ } => Some(9),
            ElabError::Nested { name: _ } => Some(11),
            ElabError::TooBig { what: _ } => Some(12),
            ElabError::Clock { line: _ } => Some(13),
            ElabError::Memory => None,
        }
    }
}

impl From<Memory> for ElabError {
    ghost use Rattle.vlog_elab.specs.declared.error.ElabError.{ElabError};

    ghost from_gives = { λ _ e. e ≡ ElabError.Memory };

    fn from(_error: Memory) -> ElabError {
        ElabError::Memory
    }
}

impl From<NameError> for ElabError {
    ghost use Rattle.vlog_elab.specs.Errors.{of_name};

    ghost from_gives = { λ x e. e ≡ of_name x };

    fn from(error: NameError) -> ElabError {
        match error {
            NameError::Twice { name } => ElabError::Twice { name },
            NameError::Unknown { name } => ElabError::Unknown { name },
            NameError::Memory => ElabError::Memory,
        }
    }
}

impl From<KindError> for ElabError {
    ghost use Rattle.vlog_elab.specs.Errors.{of_kind};

    ghost from_gives = { λ x e. e ≡ of_kind x };

    fn from(error: KindError) -> ElabError {
        ElabError::Kind { line: error.line }
    }
}

impl From<HierarchyError> for ElabError {
    ghost use Rattle.vlog_elab.specs.Errors.{of_hierarchy};

    ghost from_gives = { λ x e. e ≡ of_hierarchy x };

    fn from(error: HierarchyError) -> ElabError {
        match error {
            HierarchyError::TooBig {
                what: HierarchyLimit::Instances,
            } => ElabError::TooBig {
                what: Big::Instances,
            },
            HierarchyError::TooBig {
                what: HierarchyLimit::Nets,
            } => ElabError::TooBig { what: Big::Nets },
            HierarchyError::Clock { line } => ElabError::Clock { line },
            HierarchyError::Memory => ElabError::Memory,
        }
    }
}

impl From<SizeError> for ElabError {
    ghost use Rattle.vlog_elab.specs.Errors.{of_size};

    ghost from_gives = { λ x e. e ≡ of_size x };

    fn from(error: SizeError) -> ElabError {
        match error {
            SizeError::Const { line } => ElabError::Const { line },
            SizeError::Width { line, got } => ElabError::Width { line, got },
        }
    }
}
