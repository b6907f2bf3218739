//! The calls that are to fail.

use std::alloc::Global;
use vidi_io::vidi_bits::{Memory, Numbers};
use vidi_io::{Fail, FailCall, Fails};

/// A call that is to fail.
#[derive(Clone, Copy)]
pub enum Failing {
    /// One of the shelf.
    Shelf { fail: Fail },
    /// The push of this number, from 1.
    Push { number: u32 },
}

impl Failing {
    /// The call that these words name: its kind and its number, and of an append how many bytes it keeps.
    pub fn of(words: &[&str]) -> Option<Failing> {
        let (kind, number, kept) = match words {
            [kind, number] => (*kind, *number, None),
            [kind, number, keeps, kept] if *keeps == "keeps" => (*kind, *number, Some(*kept)),
            _ => return None,
        };
        let number = counted(number)?;
        match (kind, kept) {
            ("fetch", None) => Some(of_shelf(FailCall::Fetch, number, 0)),
            ("start", None) => Some(of_shelf(FailCall::Start, number, 0)),
            ("append", None) => Some(of_shelf(FailCall::Append, number, 0)),
            ("append", Some(kept)) => Some(of_shelf(FailCall::Append, number, kept.parse().ok()?)),
            ("push", None) => Some(Failing::Push { number }),
            _ => None,
        }
    }
}

/// A call's number, at least 1.
fn counted(word: &str) -> Option<u32> {
    let number: u32 = word.parse().ok()?;
    if number == 0 {
        return None;
    }
    Some(number)
}

fn of_shelf(call: FailCall, number: u32, kept: usize) -> Failing {
    let fail = Fail { call, number, kept };
    Failing::Shelf { fail }
}

/// The calls of the shelf among these.
pub fn shelf_fails(alloc: Global, failing: &[Failing]) -> Result<Fails, Memory> {
    let mut fails = Fails::new(alloc);
    for one in failing {
        if let Failing::Shelf { fail } = one {
            fails.push(*fail)?;
        }
    }
    Ok(fails)
}

/// The numbers of the pushes among these.
pub fn push_fails(alloc: Global, failing: &[Failing]) -> Result<Numbers, Memory> {
    let mut numbers = Numbers::new(alloc);
    for one in failing {
        if let Failing::Push { number } = one {
            numbers.push(u128::from(*number))?;
        }
    }
    Ok(numbers)
}
