//! Names, some with numbers.

ghost use Rattle.std.specs.Prelude.{◌≡◌, IfOk};
ghost use Rattle.shim_trees.specs.Pieces as pieces;
ghost use Rattle.shim_trees.specs.Links as links;
ghost use Rattle.shim_gen.specs.Labels.{text, text_at};

use std::alloc::Global;
use vlog_copy::vidi_bits::{Items, Memory, Name, copied};

/// A name that is to be made.
#[derive(Clone, Copy)]
pub enum Label<'a> {
    /// This name.
    Given(&'a [u8]),
    /// The name of a top's input for the reset or a tie of this name.
    Tied(&'a [u8]),
    /// As `clk`.
    Plain(&'a str),
    /// A name and a number, as `s0`.
    Numbered(&'a str, usize),
    /// A name and two numbers, as `d_0_1`.
    Twice(&'a str, usize, usize),
}

impl<'a> Label<'a> {
    /// The label with one number more, where it is plain or has one.
    pub fn at(self, i: usize) -> Label<'a>
        ensures { text result ≡ text_at self.entry i }
    {
        match self {
            Label::Plain(base) => Label::Numbered(base, i),
            Label::Numbered(base, n) => Label::Twice(base, n, i),
            other => other,
        }
    }
}

/// A name and a number.
fn numbered(alloc: Global, base: &str, n: usize) -> Result<Name, Memory>
    ensures { IfOk result (λ name. name ≡ pieces.numbered base.now n) }
{
    let text = format!(in alloc; "{base}{n}")?;
    Ok(Items::from_vec(text.into_bytes()))
}

/// A name and two numbers.
fn numbered_twice(alloc: Global, base: &str, n: usize, i: usize) -> Result<Name, Memory>
    ensures { IfOk result (λ name. name ≡ pieces.numbered_twice base.now n i) }
{
    let text = format!(in alloc; "{base}{n}_{i}")?;
    Ok(Items::from_vec(text.into_bytes()))
}

/// The name of a top's input for the reset or a tie of this name.
fn tied(alloc: Global, name: &[u8]) -> Result<Name, Memory>
    ensures { IfOk result (λ x. x ≡ links.tied name.now) }
{
    let mut text = Vec::from_slice(alloc, b"t_".as_slice())?;
    text.extend_from_slice(name)?;
    Ok(Items::from_vec(text))
}

/// The name of a label.
pub fn name_of(alloc: Global, label: Label) -> Result<Name, Memory>
    ensures { IfOk result (λ name. name ≡ text label.entry) }
{
    match label {
        Label::Given(name) => copied(alloc, name),
        Label::Tied(name) => tied(alloc, name),
        Label::Plain(base) => copied(alloc, base.as_bytes()),
        Label::Numbered(base, n) => numbered(alloc, base, n),
        Label::Twice(base, n, i) => numbered_twice(alloc, base, n, i),
    }
}
