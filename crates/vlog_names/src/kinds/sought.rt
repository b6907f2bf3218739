//! What is looked for in expressions.

/// What is looked for at the names of an expression.
#[derive(Clone, Copy)]
pub enum Sought {
    /// A name that is of a wrong kind, with its brackets.
    WrongKind,
    /// A net or a memory.
    Place,
}
