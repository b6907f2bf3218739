//! Which of two expressions is the shorter one, found in the time of that one.

ghost use Rattle.std.specs.Prelude.{◌≡◌};
ghost use Rattle.vlog_size.specs.Sides.{other_side};

use vlog_tree::{Expr, Operand, Ref, Sel};

/// One of two operands, or of the branches of `?:`.
#[derive(Clone, Copy)]
pub enum Side {
    Left,
    Right,
}

/// What is left of a number after one has been taken from it for each operand and operator of an
/// expression, and for each byte of the names and literals; none where it isn't enough. One is taken
/// before each operand is looked at, so that a number is soon used up in a long run of operators too.
#[cycle(length)]
fn left_after(e: &Expr, budget: usize) -> Option<usize> {
    let budget = budget.checked_sub(1)?;
    match e {
        Expr::Unary(unary) => after_prim(&unary.prim, budget),
        Expr::Binary { left, right, .. } => {
            let budget = left_after(left, budget)?;
            left_after(right, budget)
        }
        Expr::Choice {
            condition,
            then_value,
            else_value,
        } => {
            let budget = left_after(condition, budget)?;
            let budget = left_after(then_value, budget)?;
            left_after(else_value, budget)
        }
    }
}

#[cycle(length)]
fn after_prim(prim: &Operand, budget: usize) -> Option<usize> {
    let budget = budget.checked_sub(1)?;
    match prim {
        Operand::Number(number) => budget.checked_sub(number.text.len()),
        Operand::Ref(name) => after_ref(name, budget),
        Operand::Paren { inner, .. } => left_after(inner, budget),
        Operand::Concat { parts, .. } => after_all(parts.as_slice(), budget),
        Operand::Repeat { count, parts, .. } => {
            let budget = left_after(count, budget)?;
            after_all(parts.as_slice(), budget)
        }
    }
}

#[cycle(length)]
fn after_all(parts: &[Expr], budget: usize) -> Option<usize> {
    let mut budget = budget;
    for part in parts {
        budget = left_after(part, budget)?;
    }
    Some(budget)
}

#[cycle(length)]
fn after_ref(name: &Ref, budget: usize) -> Option<usize> {
    let mut budget = budget.checked_sub(name.id.name.len())?;
    if let Some(index) = &name.index {
        budget = left_after(index, budget)?;
    }
    match &name.sel {
        Some(sel) => after_sel(sel, budget),
        None => Some(budget),
    }
}

#[cycle(length)]
fn after_sel(sel: &Sel, budget: usize) -> Option<usize> {
    match sel {
        Sel::Index(e) => left_after(e, budget),
        Sel::Part { first, second } => {
            let budget = left_after(first, budget)?;
            left_after(second, budget)
        }
        Sel::Indexed { base, width } => {
            let budget = left_after(base, budget)?;
            left_after(width, budget)
        }
    }
}

/// Whether the expression is one literal or name without brackets, which takes the time of its text
/// alone, however often it is evaluated.
fn is_plain_operand(e: &Expr) -> bool {
    match e {
        Expr::Unary(unary) => match &unary.prim {
            Operand::Number(_) => true,
            Operand::Ref(name) => name.index.is_none() && name.sel.is_none(),
            _ => false,
        },
        _ => false,
    }
}

/// The side of the shorter expression, or of one that is a literal or a name. It takes the time of
/// that one.
pub fn shorter_side(left: &Expr, right: &Expr) -> Side {
    if is_plain_operand(right) {
        return Side::Right;
    }
    if is_plain_operand(left) {
        return Side::Left;
    }
    for power in 4u32..32 {
        let budget = 1usize << power;
        match (left_after(left, budget), left_after(right, budget)) {
            (Some(a), Some(b)) if a < b => return Side::Right,
            (Some(_), _) => return Side::Left,
            (None, Some(_)) => return Side::Right,
            (None, None) => (),
        }
    }
    Side::Left
}

/// The other side.
pub fn other_side(side: Side) -> Side
    ensures { result ≡ other_side side }
{
    match side {
        Side::Left => Side::Right,
        Side::Right => Side::Left,
    }
}
