//! A plan of store stalls.

ghost use Rattle.std.specs.Prelude.{◌≡◌};
ghost use Rattle.std.specs.Option.{option_copied};
ghost use Rattle.env_script.specs.Plan.{allowance_in, allowance_at, AreSome, ends_from};

use run_model::vidi_bits::Items;

/// A line of a plan: how many bytes may drain in each of its cycles, `None` for all, and how many cycles it is for.
#[derive(Clone, Copy, Drop)]
pub struct Drain {
    pub allowance: Option<u32>,
    pub cycles: u32,
}

/// A list of lines, in the order of the text.
pub type Drains = Items<Drain>;

/// A plan of store stalls.
#[derive(Drop)]
pub struct Stalls {
    pub(crate) capacity: u32,
    pub(crate) drains: Drains,
    /// How many cycles of the plan lie before and in each line.
    pub(crate) ends: Vec<u64>,
    ghost counted: { ends.items ≡ ends_from 0 drains },
    ghost some: { AreSome drains },
}

/// How many bytes a line allows, `None` for all, also where there is no line.
fn allowance_in(drain: Option<&Drain>) -> Option<u32>
    ensures { result ≡ allowance_in (option_copied drain.entry) }
{
    match drain {
        Some(drain) => drain.allowance,
        None => None,
    }
}

impl Stalls {
    /// The capacity of the store in bytes, 1 to 16,777,216.
    pub fn capacity(&self) -> u32
        ensures { result ≡ self.now.capacity }
    {
        self.capacity
    }

    /// How many bytes may drain in this cycle, counted from 0: `None` for all. The plan begins anew after its last
    /// line. The time doesn't grow with the cycle.
    pub fn allowance(&self, cycle: u32) -> Option<u32>
        ensures { result ≡ allowance_at self.now.drains cycle }
    {
        let ends = self.ends.as_slice();
        let Some(total) = ends.last() else {
            return None;
        };
        let at = u64::from(cycle) % *total;
        let line = ends.partition_point(|end| *end <= at);
        allowance_in(self.drains.get(line))
    }
}
