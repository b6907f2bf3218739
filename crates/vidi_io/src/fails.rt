//! The calls of a shelf in memory that fail, as listed.

ghost use Rattle.std.specs.Prelude.{◌≡◌, option_map};
ghost use Rattle.vidi_io.specs.Fails.{next_listed, counted, first_listing};

use vidi_bits::Items;

/// A kind of call of a memory shelf.
#[derive(Clone, Copy, Debug, PartialEq, Eq)]
pub enum FailCall {
    Fetch,
    Start,
    Append,
}

/// One call of a memory shelf that is to fail: the `number`th of its kind, counted from 1. An append
/// keeps the first `kept` bytes of its piece.
#[derive(Clone, Copy, Debug)]
pub struct Fail {
    pub call: FailCall,
    pub number: u32,
    pub kept: usize,
}

/// Calls of a memory shelf that are to fail. The first in the list counts of those that list a call.
pub type Fails = Items<Fail>;

/// The calls that are to fail, and how many calls of each kind there were so far, where
/// 4,294,967,295 stands for more too.
#[derive(Debug, Drop)]
pub struct Plan {
    pub fails: Fails,
    pub fetches: u32,
    pub starts: u32,
    pub appends: u32,
}

impl Plan {
    /// Counts a call of this kind. Where it is listed, it gives how many bytes of a piece are kept.
    pub fn next(&mut self, call: FailCall) -> Option<usize>
        ensures listed { result ≡ option_map (λ fail. fail.kept) (next_listed self.old call) }
        ensures counted { self.new ≡ counted self.old call }
    {
        let before = match call {
            FailCall::Fetch => self.fetches,
            FailCall::Start => self.starts,
            FailCall::Append => self.appends,
        };
        let number = before.checked_add(1)?;
        match call {
            FailCall::Fetch => self.fetches = number,
            FailCall::Start => self.starts = number,
            FailCall::Append => self.appends = number,
        }
        kept_of(self.fails.as_slice(), call, number)
    }
}

/// How many bytes the call of this kind and number keeps, where it is listed.
fn kept_of(fails: &[Fail], call: FailCall, number: u32) -> Option<usize>
    ensures { result ≡ option_map (λ fail. fail.kept) (first_listing fails.now call number) }
{
    let fail = fails
        .iter()
        .find(|fail| fail.call == call && fail.number == number)?;
    Some(fail.kept)
}
