//! Targets and statements as trees (IEEE 1364-2005, A.6 and A.8.5).

use crate::expr::{Expr, Exprs, Ref};
use vlog_lex::vidi_bits::Items;

/// The statements within one another that the stack has room for. The limits of a design text allow more, of which want of memory is
/// answered.
pub const MOST_NESTED: u32 = 2_048;

/// What an assignment writes.
#[derive(Drop)]
pub enum Target {
    Ref(Ref),
    /// `{part, ..}`; `line` is that of `{`.
    Concat { line: u32, parts: Items<Target> },
}

/// A list of targets.
pub type Targets = Items<Target>;

/// The two signs of procedural assignments (IEEE 1364-2005, 9.2).
#[derive(Clone, Copy, PartialEq, Eq)]
pub enum AssignOp {
    /// `=`
    Blocking,
    /// `<=`
    Nonblocking,
}

/// A statement (IEEE 1364-2005, clause 9).
#[cycle(stmt)]
#[derive(Drop)]
pub enum Stmt {
    /// `begin .. end`
    Begin(Items<Stmt>),
    /// `if (condition) then_body else else_body`
    If {
        condition: Expr,
        then_body: Body,
        else_body: Option<Body>,
    },
    /// `case (expression) arm .. endcase`
    Case {
        expression: Expr,
        arms: Items<Arm>,
    },
    /// `target = value;` or `target <= value;`
    Assign {
        target: Target,
        op: AssignOp,
        value: Expr,
    },
}

/// A list of statements.
pub type Stmts = Items<Stmt>;

/// An arm of a `case` (IEEE 1364-2005, 9.5).
#[cycle(stmt)]
#[derive(Drop)]
pub enum Arm {
    /// `label, ..: body`
    Labels { labels: Exprs, body: Body },
    /// `default: body`, with the colon or without; `line` is that of `default`.
    Default { line: u32, colon: bool, body: Body },
}

/// A list of arms.
pub type Arms = Items<Arm>;

/// A statement, or `;` alone.
#[cycle(stmt)]
#[derive(Drop)]
pub enum Body {
    Stmt(Box<Stmt>),
    Empty,
}
