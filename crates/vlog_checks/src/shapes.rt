//! Which trees have good shape, on trees that no text spells too.

use crate::build::{assign_itself, boxed, ident, if_of, net, net_expr, one, operand_alone};
use std::alloc::Global;
use vlog_print::good_shape;
use vlog_print::vidi_bits::{Items, Memory, copied};
use vlog_tree::{
    Always, Arm, Assign, BinaryOp, Body, Event, Expr, File, Item, Module, Number, NumberKind,
    Operand, Parameter, Port, Ref, Sel, Stmt, Target, begin, case, concat, concat_target,
};

fn number(alloc: Global, kind: NumberKind, text: &str) -> Result<Box<Expr>, Memory> {
    let text = copied(alloc, text.as_bytes())?;
    let line = 7;
    operand_alone(alloc, Operand::Number(Number { kind, text, line }))
}

fn decimal(alloc: Global, text: &str) -> Result<Box<Expr>, Memory> {
    number(alloc, NumberKind::Decimal, text)
}

fn binary(
    alloc: Global,
    left: Box<Expr>,
    op: BinaryOp,
    right: Box<Expr>,
) -> Result<Box<Expr>, Memory> {
    boxed(alloc, Expr::Binary { left, op, right })
}

fn choice(
    alloc: Global,
    condition: Box<Expr>,
    then_value: Box<Expr>,
    else_value: Box<Expr>,
) -> Result<Box<Expr>, Memory> {
    let choice = Expr::Choice {
        condition,
        then_value,
        else_value,
    };
    boxed(alloc, choice)
}

fn module(alloc: Global, ports: Items<Port>, items: Items<Item>) -> Result<File, Memory> {
    let name = copied(alloc, b"m")?;
    let declared = Module {
        name,
        parameters: Items::new(alloc),
        ports,
        items,
    };
    let modules = one(alloc, declared)?;
    Ok(File { modules })
}

// Whether `module m(); item endmodule` has good shape.
fn item_is_good(alloc: Global, item: Item) -> Result<bool, Memory> {
    let items = one(alloc, item)?;
    let file = module(alloc, Items::new(alloc), items)?;
    Ok(good_shape(&file))
}

// Whether `module m(); assign a = value; endmodule` has good shape.
fn is_good(alloc: Global, value: Box<Expr>) -> Result<bool, Memory> {
    let target = net(alloc, "a")?;
    let assign = Assign {
        target: Target::Ref(target),
        value: Box::into_inner(value),
    };
    let assigns = one(alloc, assign)?;
    item_is_good(alloc, Item::Assign { assigns })
}

fn name_is_good(alloc: Global, text: &str) -> Result<bool, Memory> {
    let value = net_expr(alloc, text)?;
    is_good(alloc, value)
}

// Names are identifiers and no reserved words.
const NAMES: [(&str, bool); 10] = [
    ("a", true),
    ("_a$9", true),
    ("Reg", true),
    ("reg", false),
    ("endmodule", false),
    ("", false),
    ("9a", false),
    ("a b", false),
    ("a-", false),
    ("12", false),
];

#[test]
fn names_are_lawful(rt: HostRuntime) {
    let mut right = true;
    for (text, good) in &NAMES {
        right &= name_is_good(rt.alloc(), text) == Ok(*good);
    }
    assert!(rt; right);
}

// Numbers are lawful literals of their kind.
const NUMBERS: [(NumberKind, &str, bool); 10] = [
    (NumberKind::Decimal, "12", true),
    (NumberKind::Decimal, "1_000", true),
    (NumberKind::Decimal, "4'd3", false),
    (NumberKind::Decimal, "_1", false),
    (NumberKind::Decimal, "", false),
    (NumberKind::Based, "4'd3", true),
    (NumberKind::Based, "'hF_f", true),
    (NumberKind::Based, "4'b2", false),
    (NumberKind::Based, "12", false),
    (NumberKind::Based, "4'", false),
];

fn number_is_good(alloc: Global, kind: NumberKind, text: &str) -> Result<bool, Memory> {
    let value = number(alloc, kind, text)?;
    is_good(alloc, value)
}

#[test]
fn numbers_are_lawful(rt: HostRuntime) {
    let mut right = true;
    for (kind, text, good) in &NUMBERS {
        right &= number_is_good(rt.alloc(), *kind, text) == Ok(*good);
    }
    assert!(rt; right);
}

// An operand of an operator.
#[derive(Clone, Copy)]
enum Small {
    Net,
    Op(BinaryOp),
    Choice,
}

fn small_expr(alloc: Global, kind: Small) -> Result<Box<Expr>, Memory> {
    let a = net_expr(alloc, "a")?;
    match kind {
        Small::Net => Ok(a),
        Small::Op(op) => {
            let b = net_expr(alloc, "b")?;
            binary(alloc, a, op, b)
        }
        Small::Choice => {
            let b = net_expr(alloc, "b")?;
            let c = net_expr(alloc, "c")?;
            choice(alloc, a, b, c)
        }
    }
}

// The binary operators, each with its level counted from the highest one.
const OPERATORS: [(BinaryOp, u32); 20] = [
    (BinaryOp::Times, 0),
    (BinaryOp::Plus, 1),
    (BinaryOp::Minus, 1),
    (BinaryOp::ShiftLeft, 2),
    (BinaryOp::ShiftRight, 2),
    (BinaryOp::ArithmeticShiftLeft, 2),
    (BinaryOp::ArithmeticShiftRight, 2),
    (BinaryOp::Less, 3),
    (BinaryOp::LessOrEqual, 3),
    (BinaryOp::Greater, 3),
    (BinaryOp::GreaterOrEqual, 3),
    (BinaryOp::Equal, 4),
    (BinaryOp::NotEqual, 4),
    (BinaryOp::And, 5),
    (BinaryOp::Xor, 6),
    (BinaryOp::XorTilde, 6),
    (BinaryOp::TildeXor, 6),
    (BinaryOp::Or, 7),
    (BinaryOp::LogicalAnd, 8),
    (BinaryOp::LogicalOr, 9),
];

fn binary_is_good(alloc: Global, left: Small, op: BinaryOp, right: Small) -> Result<bool, Memory> {
    let left = small_expr(alloc, left)?;
    let right = small_expr(alloc, right)?;
    let whole = binary(alloc, left, op, right)?;
    is_good(alloc, whole)
}

// Whether the operator makes a good shape with these operands just where it should.
fn takes(alloc: Global, left: Small, op: BinaryOp, right: Small, good: bool) -> bool {
    binary_is_good(alloc, left, op, right) == Ok(good)
}

// Whether the operator takes exactly the operands that it should.
fn takes_its_operands(alloc: Global, op: BinaryOp, level: u32) -> bool {
    let mut right = takes(alloc, Small::Choice, op, Small::Net, false);
    right &= takes(alloc, Small::Net, op, Small::Choice, false);
    for (inner, at) in &OPERATORS {
        right &= takes(alloc, Small::Op(*inner), op, Small::Net, *at <= level);
        right &= takes(alloc, Small::Net, op, Small::Op(*inner), *at < level);
    }
    right
}

// A left operand stands at its operator's level or above, a right one above it.
#[test]
fn operands_stand_at_their_levels(rt: HostRuntime) {
    let mut right = true;
    for (op, level) in &OPERATORS {
        right &= takes_its_operands(rt.alloc(), *op, *level);
    }
    assert!(rt; right);
}

fn choice_is_good(alloc: Global, parts: [Small; 3]) -> Result<bool, Memory> {
    let [condition, then_value, else_value] = parts;
    let condition = small_expr(alloc, condition)?;
    let then_value = small_expr(alloc, then_value)?;
    let else_value = small_expr(alloc, else_value)?;
    let whole = choice(alloc, condition, then_value, else_value)?;
    is_good(alloc, whole)
}

// `?:` is right-associative and of the lowest level.
const LOWEST: Small = Small::Op(BinaryOp::LogicalOr);

const CHOICES: [([Small; 3], bool); 4] = [
    ([LOWEST, LOWEST, LOWEST], true),
    ([Small::Net, Small::Net, Small::Choice], true),
    ([Small::Net, Small::Choice, Small::Net], true),
    ([Small::Choice, Small::Net, Small::Net], false),
];

#[test]
fn a_condition_is_no_choice(rt: HostRuntime) {
    let mut right = true;
    for (parts, good) in &CHOICES {
        right &= choice_is_good(rt.alloc(), *parts) == Ok(*good);
    }
    assert!(rt; right);
}

// `[1]`, where it is there
fn index_of(alloc: Global, is_there: bool) -> Result<Option<Box<Expr>>, Memory> {
    if !is_there {
        return Ok(None);
    }
    Ok(Some(decimal(alloc, "1")?))
}

// `[2]`, where it is there
fn sel_of(alloc: Global, is_there: bool) -> Result<Option<Box<Sel>>, Memory> {
    if !is_there {
        return Ok(None);
    }
    let bit = decimal(alloc, "2")?;
    let sel = Box::new(alloc, Sel::Index(Box::into_inner(bit)))?;
    Ok(Some(sel))
}

// Whether a name with these brackets has good shape.
fn brackets_are_good(alloc: Global, has_index: bool, has_sel: bool) -> Result<bool, Memory> {
    let id = ident(alloc, "a")?;
    let index = index_of(alloc, has_index)?;
    let sel = sel_of(alloc, has_sel)?;
    let value = operand_alone(alloc, Operand::Ref(Ref { id, index, sel }))?;
    is_good(alloc, value)
}

// A lone bracket is a ref's last one.
const BRACKETS: [(bool, bool, bool); 4] = [
    (false, false, true),
    (false, true, true),
    (true, true, true),
    (true, false, false),
];

#[test]
fn a_lone_bracket_is_the_last(rt: HostRuntime) {
    let mut right = true;
    for (has_index, has_sel, good) in &BRACKETS {
        right &= brackets_are_good(rt.alloc(), *has_index, *has_sel) == Ok(*good);
    }
    assert!(rt; right);
}

#[derive(Clone, Copy)]
enum Branch {
    Empty,
    Assign,
    If,
    IfElse,
    IfElseIf,
    BlockOfIf,
    CaseOfIf,
}

// `case (a) default body endcase`
fn case_of(alloc: Global, body: Body) -> Result<Box<Stmt>, Memory> {
    let line = 7;
    let colon = false;
    let arms = one(alloc, Arm::Default { line, colon, body })?;
    let subject = net_expr(alloc, "a")?;
    Ok(Box::new(alloc, case(Box::into_inner(subject), arms))?)
}

// `if (a) then_body`, with `else else_body` where there is one
fn if_body(alloc: Global, then_body: Body, else_body: Option<Body>) -> Result<Body, Memory> {
    Ok(Body::Stmt(if_of(alloc, "a", then_body, else_body)?))
}

// `begin if (a) ; end`
fn block_of_if(alloc: Global) -> Result<Body, Memory> {
    let stmt = if_of(alloc, "a", Body::Empty, None)?;
    let stmts = one(alloc, Box::into_inner(stmt))?;
    Ok(Body::Stmt(Box::new(alloc, begin(stmts))?))
}

// `case (a) default if (a) ; endcase`
fn case_of_if(alloc: Global) -> Result<Body, Memory> {
    let body = if_body(alloc, Body::Empty, None)?;
    Ok(Body::Stmt(case_of(alloc, body)?))
}

// `if (a) ; else if (a) ;`
fn if_else_if(alloc: Global) -> Result<Body, Memory> {
    let inner = if_body(alloc, Body::Empty, None)?;
    if_body(alloc, Body::Empty, Some(inner))
}

fn branch_body(alloc: Global, kind: Branch) -> Result<Body, Memory> {
    match kind {
        Branch::Empty => Ok(Body::Empty),
        Branch::Assign => Ok(Body::Stmt(assign_itself(alloc, "a")?)),
        Branch::If => if_body(alloc, Body::Empty, None),
        Branch::IfElse => if_body(alloc, Body::Empty, Some(Body::Empty)),
        Branch::IfElseIf => if_else_if(alloc),
        Branch::BlockOfIf => block_of_if(alloc),
        Branch::CaseOfIf => case_of_if(alloc),
    }
}

// Whether `always @(posedge clk) body` has good shape.
fn body_is_good(alloc: Global, body: Body) -> Result<bool, Memory> {
    let clock = ident(alloc, "clk")?;
    let always = Always {
        line: 7,
        event: Event::Posedge(clock),
        body,
    };
    item_is_good(alloc, Item::Always(always))
}

fn if_is_good(alloc: Global, kind: Branch, with_else: bool) -> Result<bool, Memory> {
    let then_body = branch_body(alloc, kind)?;
    let else_body = if with_else { Some(Body::Empty) } else { None };
    let whole = if_body(alloc, then_body, else_body)?;
    body_is_good(alloc, whole)
}

// No `else` could belong to a nearer `if`.
const BRANCHES: [(Branch, bool); 7] = [
    (Branch::Empty, true),
    (Branch::Assign, true),
    (Branch::If, false),
    (Branch::IfElse, true),
    (Branch::IfElseIf, false),
    (Branch::BlockOfIf, true),
    (Branch::CaseOfIf, true),
];

#[test]
fn an_else_belongs_to_its_if(rt: HostRuntime) {
    let mut right = true;
    for (kind, good) in &BRANCHES {
        right &= if_is_good(rt.alloc(), *kind, true) == Ok(*good);
        right &= if_is_good(rt.alloc(), *kind, false) == Ok(true);
    }
    assert!(rt; right);
}

// An item without a part.
fn empty_item(alloc: Global, number: u32) -> Item {
    match number {
        0 => Item::Wires {
            range: None,
            names: Items::new(alloc),
        },
        1 => Item::DrivenWires {
            range: None,
            wires: Items::new(alloc),
        },
        2 => Item::Regs {
            range: None,
            regs: Items::new(alloc),
        },
        3 => Item::Localparams {
            range: None,
            parameters: Items::new(alloc),
        },
        _ => Item::Assign {
            assigns: Items::new(alloc),
        },
    }
}

fn empty_item_is_good(alloc: Global, number: u32) -> Result<bool, Memory> {
    item_is_good(alloc, empty_item(alloc, number))
}

// `assign a = { };`
fn empty_value_is_good(alloc: Global) -> Result<bool, Memory> {
    let value = operand_alone(alloc, concat(7, Items::new(alloc)))?;
    is_good(alloc, value)
}

// `assign { } = a;`
fn empty_target_is_good(alloc: Global) -> Result<bool, Memory> {
    let value = net_expr(alloc, "a")?;
    let assign = Assign {
        target: concat_target(7, Items::new(alloc)),
        value: Box::into_inner(value),
    };
    let assigns = one(alloc, assign)?;
    item_is_good(alloc, Item::Assign { assigns })
}

// `case (a) endcase`, or with these arms
fn case_is_good(alloc: Global, arms: Items<Arm>) -> Result<bool, Memory> {
    let expression = net_expr(alloc, "a")?;
    let stmt = Box::new(alloc, case(Box::into_inner(expression), arms))?;
    body_is_good(alloc, Body::Stmt(stmt))
}

fn empty_case_is_good(alloc: Global) -> Result<bool, Memory> {
    case_is_good(alloc, Items::new(alloc))
}

// The case has an arm without a label.
fn empty_arm_is_good(alloc: Global) -> Result<bool, Memory> {
    let labels = Items::new(alloc);
    let body = Body::Empty;
    let arms = one(alloc, Arm::Labels { labels, body })?;
    case_is_good(alloc, arms)
}

fn empty_file_is_good(alloc: Global) -> bool {
    let modules = Items::new(alloc);
    good_shape(&File { modules })
}

fn empty_items_are_bad(alloc: Global) -> bool {
    let mut bad = true;
    for number in 0..5 {
        bad &= empty_item_is_good(alloc, number) == Ok(false);
    }
    bad
}

// What the grammar wants at least one of is there.
#[test]
fn lists_have_a_first_part(rt: HostRuntime) {
    let alloc = rt.alloc();
    assert!(rt; !empty_file_is_good(alloc) && empty_items_are_bad(alloc));
    assert!(rt; empty_value_is_good(alloc) == Ok(false));
    assert!(rt; empty_target_is_good(alloc) == Ok(false));
    assert!(rt; empty_case_is_good(alloc) == Ok(false));
    assert!(rt; empty_arm_is_good(alloc) == Ok(false));
}

// `module m(a); endmodule`
fn directionless_is_good(alloc: Global) -> Result<bool, Memory> {
    let id = ident(alloc, "a")?;
    let head = None;
    let init = None;
    let ports = one(alloc, Port { head, id, init })?;
    let file = module(alloc, ports, Items::new(alloc))?;
    Ok(good_shape(&file))
}

// The first port has a direction.
#[test]
fn the_first_port_has_a_direction(rt: HostRuntime) {
    assert!(rt; directionless_is_good(rt.alloc()) == Ok(false));
}

// `A = 1` in a module's header
fn headless(alloc: Global) -> Result<Items<Parameter>, Memory> {
    let value = decimal(alloc, "1")?;
    let id = ident(alloc, "A")?;
    let head = None;
    let value = Box::into_inner(value);
    one(alloc, Parameter { head, id, value })
}

// `module m #(A = 1)(); endmodule`
fn headless_is_good(alloc: Global) -> Result<bool, Memory> {
    let name = copied(alloc, b"m")?;
    let parameters = headless(alloc)?;
    let declared = Module {
        name,
        parameters,
        ports: Items::new(alloc),
        items: Items::new(alloc),
    };
    let modules = one(alloc, declared)?;
    Ok(good_shape(&File { modules }))
}

// The first parameter has the word `parameter`.
#[test]
fn the_first_parameter_has_its_word(rt: HostRuntime) {
    assert!(rt; headless_is_good(rt.alloc()) == Ok(false));
}
