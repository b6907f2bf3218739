//! The two kinds of faults.

/// What is looked for.
#[derive(Clone, Copy, PartialEq, Eq)]
pub enum FaultKind {
    /// E5: a constant position, a literal, a part or an operator that isn't lawful.
    Constant,
    /// E6: a width, an index or a bound that isn't lawful.
    Width,
    /// E5 or E6: whether anything is found at all.
    Either,
}
