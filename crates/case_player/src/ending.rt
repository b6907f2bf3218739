//! How a call ends.

ghost use Rattle.std.specs.Prelude.{◌≡◌, false, IsTrue, IsSomeAnd, IsNone};

use std::collections::BTreeMap;

/// Files by their names.
pub type FileMap = BTreeMap<String, Vec<u8>>;

/// The exit number of a call, its whole text, and the files that are there after it.
#[derive(Drop)]
pub struct Ending {
    pub exit: u8,
    pub text: Vec<u8>,
    pub files: FileMap,
}

/// Whether a case is right: what came is what was wanted, unless the case is wanted to fail. Where nothing can be
/// wanted, since the case is wrong, it didn't come out.
pub fn is_right(wanted: &Option<Ending>, came: &Ending, negative: bool) -> bool
    ensures none { IsNone wanted.now → result ≡ negative }
    ensures some { negative ≡ false → IsTrue result → IsSomeAnd wanted.now (λ w. w.exit ≡ came.now.exit) }
    ensures whole { negative ≡ false → IsTrue result → IsSomeAnd wanted.now (λ w. w.text.items ≡ came.now.text.items) }
{
    let comes_out = match wanted {
        Some(wanted) => is_same(wanted, came),
        None => false,
    };
    comes_out != negative
}

/// Whether two endings are equal in all parts.
fn is_same(wanted: &Ending, came: &Ending) -> bool
    ensures exit { IsTrue result → wanted.now.exit ≡ came.now.exit }
    ensures text { IsTrue result → wanted.now.text.items ≡ came.now.text.items }
{
    wanted.exit == came.exit
        && wanted.text.as_slice() == came.text.as_slice()
        && wanted.files == came.files
}
