//! Expressions, targets and ranges of shims.

ghost use Rattle.std.specs.Fmt.{decimal};
ghost use Rattle.std.specs.Prelude.{◌≡◌, IfOk, None, option_map};
ghost use Rattle.vlog_tree.specs.Plain.{plain_ident, plain_ref, plain_expr, plain_range, plain_target};
ghost use Rattle.vlog_tree.specs.Tree.{UnaryExpr, BinaryExpr, NumberPrim, RefWith, NoIndex, NoLast};
ghost use Rattle.shim_trees.specs.Pieces as pieces;
ghost use Rattle.shim_gen.specs.Labels.{text, signed};

use crate::names::{Label, name_of};
use std::alloc::Global;
use vlog_copy::vidi_bits::{Items, Memory, Name};
use vlog_tree::{
    BinaryOp, Expr, Ident, Number, NumberKind, Operand, Range, Ref, Sign, Target, Unary, UnaryOp,
};

/// `~`
pub const NOT: Option<Sign> = Some(Sign {
    op: UnaryOp::BitNot,
    line: 0,
});

/// A generated name, on line 0.
pub fn ident(name: Name) -> Ident
    ensures { plain_ident result ≡ pieces.ident name }
{
    Ident { name, line: 0 }
}

/// A whole net where it is read or written.
fn whole(name: Name) -> Ref
    ensures { plain_ref result ≡ RefWith (pieces.ident name) NoIndex NoLast }
{
    Ref {
        id: ident(name),
        index: None,
        sel: None,
    }
}

/// A whole net, perhaps with an operator before it.
pub fn net(sign: Option<Sign>, name: Name) -> Expr
    ensures { plain_expr result ≡ signed sign name }
{
    Expr::Unary(Unary {
        sign,
        prim: Operand::Ref(whole(name)),
    })
}

/// `name`, as what an assignment writes.
pub fn target(name: Name) -> Target
    ensures { plain_target result ≡ pieces.target name }
{
    Target::Ref(whole(name))
}

/// A number of this form.
fn number_of(kind: NumberKind, text: Name) -> Expr
    ensures { plain_expr result ≡ UnaryExpr None (NumberPrim (record { kind = kind; text = text; line = 0 })) }
{
    let number = Number {
        kind,
        text,
        line: 0,
    };
    Expr::Unary(Unary {
        sign: None,
        prim: Operand::Number(number),
    })
}

/// The digits of `n`.
fn digits(alloc: Global, n: u32) -> Result<Name, Memory>
    ensures { IfOk result (λ text. text ≡ decimal n) }
{
    let text = format!(in alloc; "{n}")?;
    Ok(Items::from_vec(text.into_bytes()))
}

/// `W'd0`
pub fn boxed_zero(alloc: Global, width: u32) -> Result<Box<Expr>, Memory>
    ensures { IfOk result (λ e. plain_expr e.value ≡ pieces.zero_of width) }
{
    let text = format!(in alloc; "{width}'d0")?;
    let zero = number_of(NumberKind::Based, Items::from_vec(text.into_bytes()));
    Ok(Box::new(alloc, zero)?)
}

/// The net of a label, perhaps with an operator before it.
pub fn boxed_net(alloc: Global, sign: Option<Sign>, label: Label) -> Result<Box<Expr>, Memory>
    ensures { IfOk result (λ e. plain_expr e.value ≡ signed sign (text label.entry)) }
{
    let name = name_of(alloc, label)?;
    Ok(Box::new(alloc, net(sign, name))?)
}

/// `left op right`, two whole nets, the right one perhaps with an operator before it.
pub fn pair(
    alloc: Global,
    left: Label,
    op: BinaryOp,
    sign: Option<Sign>,
    right: Label,
) -> Result<Expr, Memory>
    ensures { IfOk result (λ e. plain_expr e ≡ BinaryExpr (pieces.net (text left.entry)) op (signed sign (text right.entry))) }
{
    let left = boxed_net(alloc, None, left)?;
    let right = boxed_net(alloc, sign, right)?;
    Ok(Expr::Binary { left, op, right })
}

/// No range for one bit, else `[ W-1 : 0 ]`.
pub fn range_of(alloc: Global, width: u32) -> Result<Option<Range>, Memory>
    ensures { IfOk result (λ range. option_map plain_range range ≡ pieces.range_of width) }
{
    if width == 1 {
        return Ok(None);
    }
    let first = digits(alloc, width.saturating_sub(1))?;
    let second = digits(alloc, 0)?;
    Ok(Some(Range {
        first: number_of(NumberKind::Decimal, first),
        second: number_of(NumberKind::Decimal, second),
    }))
}
