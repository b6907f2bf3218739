//! Good shape of the parts of lists.

ghost use Rattle.std.specs.Prelude.{◌↔◌, ℕ, IsTrue, map};
ghost use Rattle.std.specs.List.{AllByRecursion};
ghost use Rattle.vlog_tree.specs.Tree.{ExprOf};
ghost use Rattle.vlog_tree.specs.Plain.{plain_expr};
ghost use Rattle.vlog_tree.specs.Shape.{AreSomeGood, IsGoodExpr};

use crate::shape::expr::good_expr;
use vlog_tree::Expr;

/// A part of a tree that stands in lists.
pub trait Shaped {
    /// What it is as plain data.
    ghost Plain: { Type 0 };

    ghost plain: { Self → Plain };

    /// That this has good shape.
    ghost is_good: { Plain → Type 0 };

    /// Whether it has good shape.
    fn good(&self) -> bool
        ensures { IsTrue result ↔ is_good (plain self.now) };
}

/// Whether each of these parts has good shape.
pub fn each_good<T: Shaped>(parts: &[T]) -> bool
    ensures { IsTrue result ↔ AllByRecursion T.is_good (map T.plain parts.now) }
{
    for part in parts {
        if !part.good() {
            return false;
        }
    }
    true
}

/// Whether there is a part, and each has good shape.
pub fn some_good<T: Shaped>(parts: &[T]) -> bool
    ensures { IsTrue result ↔ AreSomeGood T.is_good (map T.plain parts.now) }
{
    match parts {
        [] => false,
        _ => each_good(parts),
    }
}

impl Shaped for Expr {
    ghost Plain = { ExprOf ℕ };

    ghost plain = { plain_expr };

    ghost is_good = { IsGoodExpr };

    fn good(&self) -> bool {
        good_expr(self)
    }
}
