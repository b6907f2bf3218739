//! Lists, and each whole-number call, with ample memory.

use std::alloc::Global;
use vidi_lines::vidi_bits::{
    Bytes, Items, Name, Numbers, add_w, copied, join, mul_w, put, shl_w, shr_w, slice, sub_w, trim,
};

#[derive(Drop)]
enum Tree {
    Leaf(u8),
    Node(Items<Tree>),
}

/// Whether each call on an empty list answers and leaves what it should. It ends with two sixes.
fn are_calls_right(list: &mut Items<u128, &Global>) -> bool {
    let pushed = list.is_empty()
        && list.push(5).is_ok()
        && list.push(6).is_ok()
        && list.push(7).is_ok()
        && list.push(8).is_ok()
        && list.pop() == Some(8);
    if list.len() != 3 {
        return false;
    }
    list.truncate(2);
    if list.len() != 2 {
        return false;
    }
    list.set(1, 9);
    let set = list.get(1) == Some(&9)
        && list.get(2) == None
        && list.as_slice() == [5u128, 9].as_slice();
    for x in list.as_mut_slice().iter_mut() {
        *x = 6;
    }
    pushed && set && list.as_slice() == [6u128, 6].as_slice()
}

/// Whether each call is right at a list that grows by a lent allocator.
fn is_list_right(alloc: &Global) -> bool {
    let mut list = Items::new(alloc);
    let right = are_calls_right(&mut list);
    let all = list.into_vec();
    right && all.as_slice() == [6u128, 6].as_slice()
}

fn is_copied(alloc: Global, bytes: &[u8]) -> bool {
    match copied(alloc, bytes) {
        Ok(copy) => copy.as_slice() == bytes,
        Err(_) => false,
    }
}

// Each call once with ample memory.
#[test]
fn calls_answer_with_ample_memory(rt: HostRuntime) {
    assert!(rt; is_list_right(&rt.alloc()) && is_copied(rt.alloc(), b"pass"));
}

/// Whether a list holds one name.
fn is_name_held(alloc: Global) -> bool {
    let Ok(letters) = vec![in alloc; 97u8, 98] else {
        return false;
    };
    let mut names: Items<Name> = Items::new(alloc);
    names.push(Bytes::from_vec(letters)).is_ok() && names.len() == 1
}

/// Whether a tree holds a list of one tree.
fn is_tree_held(alloc: Global) -> bool {
    let mut trees = Items::new(alloc);
    let pushed = trees.push(Tree::Leaf(3)).is_ok();
    let held = matches!(Tree::Node(trees), Tree::Node(inner) if inner.len() == 1);
    pushed && held
}

fn is_no_number_held(alloc: Global) -> bool {
    Numbers::new(alloc).len() == 0
}

// Lists of lists, a recursive type that holds its own list, and a list of numbers.
#[test]
fn lists_nest(rt: HostRuntime) {
    let alloc = rt.alloc();
    assert!(rt; is_name_held(alloc) && is_tree_held(alloc) && is_no_number_held(alloc));
}

// Each whole-number call at 1, 64, 127 and 128 bits, and past the last bit, by hand.
#[test]
fn numbers_wrap_at_their_width(rt: HostRuntime) {
    const ALL: u128 = u128::MAX;
    const LOW: u128 = 0xffff_ffff_ffff_ffff;
    let cases: [(u128, u128); 39] = [
        (trim(6, 1), 0),
        (trim(ALL, 64), LOW),
        (trim(ALL, 127), ALL >> 1),
        (trim(ALL, 128), ALL),
        (slice(6, 1, 1), 1),
        (slice(ALL, 64, 64), LOW),
        (slice(1 << 127, 1, 127), 1 << 126),
        (slice(ALL, 0, 128), ALL),
        (slice(ALL, 100, 128), 0xfff_ffff),
        (slice(ALL, 128, 1), 0),
        (put(0, 127, 1, 3), 1 << 127),
        (put(ALL, 64, 64, 5), (5 << 64) + LOW),
        (put(0, 1, 127, ALL), ALL - 1),
        (put(7, 0, 128, 9), 9),
        (put(3, 124, 128, ALL), (15 << 124) + 3),
        (put(5, 128, 1, 1), 5),
        (join(1, 3, 1), 3),
        (join(5, ALL, 64), (5 << 64) + LOW),
        (join(1, ALL, 127), ALL),
        (add_w(1, 1, 1), 0),
        (add_w(LOW, 2, 64), 1),
        (add_w(ALL >> 1, 3, 127), 2),
        (add_w(ALL, 5, 128), 4),
        (sub_w(0, 1, 1), 1),
        (sub_w(3, 5, 64), LOW - 1),
        (sub_w(0, 1, 127), ALL >> 1),
        (sub_w(1, 2, 128), ALL),
        (mul_w(1, 1, 1), 1),
        (mul_w(1 << 63, 3, 64), 1 << 63),
        (mul_w(LOW + 2, LOW + 2, 127), (1 << 65) + 1),
        (mul_w(ALL >> 1, ALL >> 1, 128), 1),
        (shl_w(1, 1, 1), 0),
        (shl_w(3, 63, 64), 1 << 63),
        (shl_w(3, 126, 127), 1 << 126),
        (shl_w(3, 127, 128), 1 << 127),
        (shl_w(3, LOW + 1, 128), 0),
        (shr_w(1 << 63, 63, 64), 1),
        (shr_w(1 << 127, 127, 128), 1),
        (shr_w(ALL, LOW + 1, 128), 0),
    ];
    assert!(rt; cases.iter().all(|(got, want)| got == want));
}
