//! Laws of the definitions.

ghost use Rattle.std.specs.Prelude.{ℕ};
ghost use Rattle.vlog_expr.specs.Laws.{ExprsAreRead, RefsAreRead, TargetsAreRead, OneExpr};
ghost use Rattle.vlog_expr.specs.Laws.{ReadExprsAreSpelled, ReadRefsAreSpelled, ReadTargetsAreSpelled};
ghost use Rattle.vlog_expr.specs.Laws.{ExprLinesDontCount, RefLinesDontCount, TargetLinesDontCount};

/// What is spelled is read.
pub fn spelled_is_read()
    ensures exprs { ExprsAreRead }
    ensures refs { RefsAreRead }
    ensures targets { TargetsAreRead }
{}

/// What is read is spelled.
pub fn read_is_spelled()
    ensures exprs { ReadExprsAreSpelled ℕ }
    ensures refs { ReadRefsAreSpelled ℕ }
    ensures targets { ReadTargetsAreSpelled ℕ }
{}

/// Lines change nothing but lines.
pub fn lines_dont_count()
    ensures exprs { ExprLinesDontCount ℕ }
    ensures refs { RefLinesDontCount ℕ }
    ensures targets { TargetLinesDontCount ℕ }
{}

/// No two expressions of good shape have the same tokens.
pub fn one_expr()
    ensures { OneExpr }
{}
