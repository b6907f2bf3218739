//! Expressions as trees (IEEE 1364-2005, 5 and A.8).

use vlog_lex::vidi_bits::{Items, Name};

/// A name where it is used or declared (the grammar's `id`).
#[derive(Drop)]
pub struct Ident {
    /// The bytes of the name.
    pub name: Name,
    /// The line of its token.
    pub line: u32,
}

/// The two forms of numbers (IEEE 1364-2005, 3.5.1).
#[derive(Clone, Copy, PartialEq, Eq)]
pub enum NumberKind {
    /// A decimal number without size and base.
    Decimal,
    /// A number with a base, and perhaps a size.
    Based,
}

/// A number as it is spelled.
#[derive(Drop)]
pub struct Number {
    pub kind: NumberKind,
    /// The bytes of the token.
    pub text: Name,
    /// The line of its token.
    pub line: u32,
}

/// The operators before one operand (IEEE 1364-2005, 5.1).
#[derive(Clone, Copy, Debug, PartialEq, Eq)]
pub enum UnaryOp {
    /// `+`
    Plus,
    /// `-`
    Minus,
    /// `!`
    LogicalNot,
    /// `~`
    BitNot,
    /// `&`
    And,
    /// `~&`
    Nand,
    /// `|`
    Or,
    /// `~|`
    Nor,
    /// `^`
    Xor,
    /// `~^`
    TildeXor,
    /// `^~`
    XorTilde,
}

/// The operators between two operands (IEEE 1364-2005, 5.1), from the lowest level to the highest.
#[derive(Clone, Copy, Debug, PartialEq, Eq)]
pub enum BinaryOp {
    /// `||`
    LogicalOr,
    /// `&&`
    LogicalAnd,
    /// `|`
    Or,
    /// `^`
    Xor,
    /// `^~`
    XorTilde,
    /// `~^`
    TildeXor,
    /// `&`
    And,
    /// `==`
    Equal,
    /// `!=`
    NotEqual,
    /// `<`
    Less,
    /// `<=`
    LessOrEqual,
    /// `>`
    Greater,
    /// `>=`
    GreaterOrEqual,
    /// `<<`
    ShiftLeft,
    /// `>>`
    ShiftRight,
    /// `<<<`
    ArithmeticShiftLeft,
    /// `>>>`
    ArithmeticShiftRight,
    /// `+`
    Plus,
    /// `-`
    Minus,
    /// `*`
    Times,
}

/// An expression (IEEE 1364-2005, clause 5).
#[cycle(expr)]
#[derive(Drop)]
pub enum Expr {
    /// An operand, perhaps with an operator before it.
    Unary(Unary),
    /// Two operands with an operator between them.
    Binary {
        left: Box<Expr>,
        op: BinaryOp,
        right: Box<Expr>,
    },
    /// `condition ? then_value : else_value`
    Choice {
        condition: Box<Expr>,
        then_value: Box<Expr>,
        else_value: Box<Expr>,
    },
}

/// A list of expressions.
pub type Exprs = Items<Expr>;

/// An operator before an operand.
#[derive(Clone, Copy, PartialEq, Eq)]
pub struct Sign {
    pub op: UnaryOp,
    /// The line of its token.
    pub line: u32,
}

/// An operand, perhaps with an operator before it.
#[cycle(expr)]
#[derive(Drop)]
pub struct Unary {
    pub sign: Option<Sign>,
    pub prim: Operand,
}

/// An operand without operator.
#[cycle(expr)]
#[derive(Drop)]
pub enum Operand {
    Number(Number),
    Ref(Ref),
    /// `(inner)`; `line` is that of `(`.
    Paren {
        line: u32,
        inner: Box<Expr>,
    },
    /// `{part, ..}`; `line` is that of `{`.
    Concat {
        line: u32,
        parts: Items<Expr>,
    },
    /// `{count{part, ..}}`; `line` is that of the first `{`.
    Repeat {
        line: u32,
        count: Box<Expr>,
        parts: Items<Expr>,
    },
}

/// A name with at most two brackets.
#[cycle(expr)]
#[derive(Drop)]
pub struct Ref {
    pub id: Ident,
    /// The first of two brackets. A lone bracket is `sel`.
    pub index: Option<Box<Expr>>,
    /// The last bracket.
    pub sel: Option<Box<Sel>>,
}

/// What stands in the last bracket.
#[cycle(expr)]
#[derive(Drop)]
pub enum Sel {
    /// `[index]`
    Index(Expr),
    /// `[first:second]`
    Part { first: Expr, second: Expr },
    /// `[base +: width]`
    Indexed { base: Expr, width: Expr },
}
