//! The syntax tree of a design text (IEEE 1364-2005, this project's profile).
//!
//! There is one type per rule of the grammar, with its parts in their order; parentheses and optional
//! words are kept. A line stands beside the token whose line it is: names, numbers, unary operators,
//! opening parentheses and braces, `default`, `always`, and a connection's `.`.
//!
//! The definitions stand in `specs/`: `Tree` (the trees as plain data, with a type in the place of
//! lines), `Plain` (a tree of the code as such), `Spelling` (the tokens of a tree), `Shape` (good
//! shape) and `Lines` (the lines of first tokens, and trees without lines).
#![tactic(auto)]

mod expr;
mod level;
mod lines;
mod lists;
mod module;
mod stmt;
mod terminal;

pub use expr::{
    BinaryOp, Expr, Exprs, Ident, Number, NumberKind, Operand, Ref, Sel, Sign, Unary, UnaryOp,
};
pub use level::level_of;
pub use lines::{expr_line, target_line};
pub use lists::{
    begin, case, concat, concat_target, repeat, see_begin, see_case, see_concat, see_concat_target,
    see_repeat,
};
pub use module::{
    Always, Assign, Assigns, Conn, Conns, Direction, Event, File, Idents, Instance, Item, Module,
    Modules, NamedValue, NamedValues, NetKind, Parameter, ParameterHead, Parameters, Port,
    PortHead, Ports, Range, Reg1, Reg1s, RegTail,
};
pub use stmt::{Arm, Arms, AssignOp, Body, MOST_NESTED, Stmt, Stmts, Target, Targets};
pub use terminal::Terminal;
pub use vlog_lex;
pub use vlog_lex::vidi_bits;
