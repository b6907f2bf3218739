//! How many events are marked, and where the first marked one stands.

ghost use Rattle.std.specs.Prelude.{◌≡◌, ◌+◌, ◌-◌, ◌^◌, ◌<◌, List, [], ◌∷◌, ◌++◌, Bool};
ghost use Rattle.trace_compare.specs.Tally.{IsTally};

/// Counts events, one after the other, of which some are marked.
#[derive(Drop)]
pub(crate) struct Tally {
    /// The events before the first marked one, all of them where none is.
    pub(crate) before: u32,
    /// The marked events.
    pub(crate) marked: u32,
}

impl Tally {
    /// Before any event.
    pub(crate) fn new() -> Tally
        ensures { IsTally [] result }
    {
        Tally {
            before: 0,
            marked: 0,
        }
    }

    /// Takes one more event.
    pub(crate) fn add(&mut self, mark: bool)
        requires before { self.old.before < 2 ^ 32 - 1 }
        requires marked { self.old.marked < 2 ^ 32 - 1 }
        ensures { (marks : List Bool) → IsTally marks self.old → IsTally (marks ++ mark ∷ []) self.new }
    {
        if mark {
            self.marked += 1;
        } else if self.marked == 0 {
            self.before += 1;
        }
    }
}
