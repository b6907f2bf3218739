//! Trees by hand. All their lines are 7.

use std::alloc::Global;
use vlog_print::vidi_bits::{Items, Memory, copied};
use vlog_tree::{AssignOp, Body, Expr, Ident, Operand, Ref, Stmt, Target, Unary};

pub fn ident(alloc: Global, text: &str) -> Result<Ident, Memory> {
    let name = copied(alloc, text.as_bytes())?;
    Ok(Ident { name, line: 7 })
}

/// A list of one.
pub fn one<T: Drop>(alloc: Global, x: T) -> Result<Items<T>, Memory> {
    let mut list = Items::new(alloc);
    list.push(x)?;
    Ok(list)
}

pub fn boxed(alloc: Global, e: Expr) -> Result<Box<Expr>, Memory> {
    Ok(Box::new(alloc, e)?)
}

pub fn operand_alone(alloc: Global, prim: Operand) -> Result<Box<Expr>, Memory> {
    boxed(alloc, Expr::Unary(Unary { sign: None, prim }))
}

pub fn net(alloc: Global, text: &str) -> Result<Ref, Memory> {
    let id = ident(alloc, text)?;
    Ok(Ref {
        id,
        index: None,
        sel: None,
    })
}

pub fn net_expr(alloc: Global, text: &str) -> Result<Box<Expr>, Memory> {
    let net = net(alloc, text)?;
    operand_alone(alloc, Operand::Ref(net))
}

/// `net = net;`
pub fn assign_itself(alloc: Global, text: &str) -> Result<Box<Stmt>, Memory> {
    let value = net_expr(alloc, text)?;
    let target = net(alloc, text)?;
    let stmt = Stmt::Assign {
        target: Target::Ref(target),
        op: AssignOp::Blocking,
        value: Box::into_inner(value),
    };
    Ok(Box::new(alloc, stmt)?)
}

/// `if (net) then_body`, with `else else_body` where there is one.
pub fn if_of(
    alloc: Global,
    text: &str,
    then_body: Body,
    else_body: Option<Body>,
) -> Result<Box<Stmt>, Memory> {
    let condition = net_expr(alloc, text)?;
    let stmt = Stmt::If {
        condition: Box::into_inner(condition),
        then_body,
        else_body,
    };
    Ok(Box::new(alloc, stmt)?)
}
