//! Code of an instance, moved to its first places.

use crate::build::{Part, Step, Value, add_places, code_with_bits, word};
use net_design::{Act, Code, Lhs, Place, Rhs, Timing};
use net_drive::net_code::{
    Base, code_is_near, expression_is_near, move_code, move_expression, move_target, target_is_near,
};
use net_sim::vidi_bits::Items;
use std::alloc::Global;

const BASE: Base = Base { net: 3, word: 5 };

// Whether an expression is the word of the memory from word 5 on at the place that net 3 has.
fn value_moved(e: &Rhs) -> bool {
    match e {
        Rhs::Word { room, at } => room.first == 5 && room.length == 2 && names_net(at, 3),
        _ => false,
    }
}

fn names_net(e: &Rhs, net: usize) -> bool {
    match e {
        Rhs::Bits(span) => span.net == net && span.low == 0 && span.width == 1,
        _ => false,
    }
}

// Whether a target is the whole of net 4.
fn target_moved(target: &Lhs) -> bool {
    match target.get(0) {
        Some(Place::Bits { span, takes }) => span.net == 4
            && span.low == 0
            && span.width == 8
            && *takes == 8,
        _ => false,
    }
}

fn act_moved(acts: &Items<Act>) -> bool {
    match acts.get(0) {
        Some(Act::Set { target, value }) => target_moved(target) && value_moved(value),
        _ => false,
    }
}

fn masks_moved(code: &Code) -> bool {
    match (code.writes.get(0), code.reads.get(0)) {
        (Some(written), Some(read)) => written.net == 4
            && written.bits == 255
            && read.net == 3
            && read.bits == 1,
        _ => false,
    }
}

// Whether code can be moved, and has then the places from net 3 and word 5 on.
fn moves(code: &mut Code) -> bool {
    if !code_is_near(code) {
        return false;
    }
    move_code(code, BASE);
    act_moved(&code.acts) && masks_moved(code)
}

// `y = m[a];`, where a and y are nets 0 and 1 of an instance and m is its words 0 and 1
static READ: [Step; 1] = [Step::Set(Part::Whole((1, 0, 8)), Value::Word((0, 2), (0, 0, 1)))];

fn try_code(alloc: Global) -> bool {
    match code_with_bits(alloc, Timing::Blocking, &READ) {
        Some(mut code) => moves(&mut code),
        None => false,
    }
}

fn expression_moves(e: &mut Rhs) -> bool {
    if !expression_is_near(e) {
        return false;
    }
    move_expression(e, BASE);
    value_moved(e)
}

fn try_expression(alloc: Global) -> bool {
    match word(alloc, (0, 2), (0, 0, 1)) {
        Some(mut value) => expression_moves(&mut value),
        None => false,
    }
}

fn target_moves(to: &mut Lhs) -> bool {
    if !target_is_near(to) {
        return false;
    }
    move_target(to, BASE);
    target_moved(to)
}

fn try_target(alloc: Global) -> bool {
    let mut to = Items::new(alloc);
    add_places(&mut to, &[Part::Whole((1, 0, 8))]) && target_moves(&mut to)
}

// A connection's expression and its target stand in two scopes, and move apart.
#[test]
fn code_expressions_and_targets_move(rt: HostRuntime) {
    let code = try_code(rt.alloc());
    let expression = try_expression(rt.alloc());
    let target = try_target(rt.alloc());
    assert!(rt; code && expression && target);
}
