//! Statements and always blocks as code.

ghost use Rattle.std.specs.Prelude.{◌≡◌, ℕ, ◌≤◌, ◌==◌, ◌||◌, not, [], IfOk, OnOk, map};
ghost use Rattle.std.specs.List.{list_any, AllByRecursion};
ghost use Rattle.vlog_size.specs.vidi_bits.Number.{IsWidth};
ghost use Rattle.vlog_tree.specs.Plain.{plain_expr, plain_target, plain_stmt, plain_stmts, plain_body, plain_arm, plain_arms};
ghost use Rattle.vlog_tree.specs.Plain.{plain_event, plain_always};
ghost use Rattle.vlog_tree.specs.Tree.{AssignStmt, CaseStmt};
ghost use Rattle.vlog_tree.specs.declared.stmt.AssignOp.{AssignOp};
ghost use Rattle.net_design.specs.declared.act.Timing.{Timing};
ghost use Rattle.net_design.specs.declared.values.Values.{Values};
ghost use Rattle.net_design.specs.Value as code;
ghost use Rattle.net_design.specs.Bits as bits;
ghost use Rattle.net_design.specs.Updates.{block_updates};
ghost use Rattle.net_design.specs.Bits.{BitSet, named, block_writes, block_adds, block_open_reads, HasBits};
ghost use Rattle.net_design.specs.Sized.{IsSizedRhs, IsSizedBlock, AreSizedGuards};
ghost use Rattle.vlog_block.specs.Sources.{names_of};
ghost use Rattle.vlog_block.specs.Value.{value, width_of};
ghost use Rattle.vlog_block.specs.Bits.{reads};
ghost use Rattle.vlog_block.specs.Updates.{assigned_width, widest, arm_widest, arms_widest, case_width, matches, timing_of};
ghost use Rattle.vlog_block.specs.Updates.{body_updates, always_updates};
ghost use Rattle.vlog_block.specs.Written.{body_writes, body_adds, body_open, always_writes, always_adds, always_reads};
ghost use Rattle.vlog_block.specs.Naming.{code_names, always_names};
ghost use Rattle.vlog_block.specs.Faultless.{IsFaultless, IsFaultlessTarget, IsFaultlessStmt, AreFaultlessStmts, IsFaultlessBody};
ghost use Rattle.vlog_block.specs.Faultless.{IsFaultlessArm, AreFaultlessArms};
ghost use Rattle.vlog_block.specs.Extends.{Extends, Lengthens, doing_branch, doing_if, doing_read, doing_stmt, doing_stmts, doing_body};
ghost use Rattle.vlog_block.specs.Extends.{doing_default, choosing_arm, choosing_arms, has_some, arm_has_label, has_label};
ghost use Rattle.vlog_block.specs.Extends.{IsNarrow, AreNarrow, IsNarrowArm, AreNarrowArms};

use crate::bind::{bind_expr, boxed_expr, own_width};
use crate::makers::{binary_code, number};
use crate::target::{bind_target, target_width};
use net_code::code_of;
use net_design::{Act, Code, Guard, Rhs, Timing};
use std::alloc::Global;
use std::boxed::Box;
use vlog_size::Scope;
use vlog_size::vidi_bits::{Items, Memory};
use vlog_tree::{
    Always, Arm, BinaryOp, Body, Event, Expr, MOST_NESTED, Stmt, Target, see_begin, see_case,
};

/// When the assignments of a block take effect.
fn timing_of(event: &Event) -> Timing
    ensures { result ≡ timing_of (plain_event event.now) }
{
    match event {
        Event::Posedge(_) => Timing::Nonblocking,
        Event::Implicit { .. } => Timing::Blocking,
    }
}

// ---- statements of code

/// Adds a choice.
fn push_branch(
    out: &mut Items<Act>,
    guards: Items<Guard>,
    otherwise: Items<Act>,
) -> Result<(), Memory>
    requires guards { AreSizedGuards guards }
    requires otherwise { IsSizedBlock otherwise }
    ensures { OnOk result (Extends (doing_branch guards otherwise) out.old out.new) }
{
    out.push(Act::Branch { guards, otherwise })
}

/// Adds a choice by one condition.
#[tactic(auto, using(crate::proofs::Fitting::faultless_width))]
fn push_if(
    alloc: Global,
    scope: &Scope,
    out: &mut Items<Act>,
    condition: &Expr,
    then_acts: Items<Act>,
    else_acts: Items<Act>,
) -> Result<(), Memory>
    requires condition { IsFaultless (names_of scope.now) (plain_expr condition.now) }
    requires then_acts { IsSizedBlock then_acts }
    requires else_acts { IsSizedBlock else_acts }
    ensures { OnOk result (Extends (doing_if (names_of scope.now) (plain_expr condition.now) then_acts else_acts) out.old out.new) }
{
    let w = own_width(scope, condition);
    let condition = bind_expr(alloc, condition, scope, w)?;
    let mut guards = Items::new(alloc);
    guards.push(Guard {
        condition,
        body: then_acts,
    })?;
    push_branch(out, guards, else_acts)
}

/// Adds the reading of an expression.
#[tactic(auto, using(crate::proofs::Fitting::faultless_width))]
fn push_read(alloc: Global, scope: &Scope, out: &mut Items<Act>, e: &Expr) -> Result<(), Memory>
    requires { IsFaultless (names_of scope.now) (plain_expr e.now) }
    ensures { OnOk result (Extends (doing_read (names_of scope.now) (plain_expr e.now)) out.old out.new) }
{
    let w = own_width(scope, e);
    let value = bind_expr(alloc, e, scope, w)?;
    out.push(Act::Read(value))
}

/// Adds an assignment.
#[tactic(auto, using(crate::proofs::Fitting::faultless_width, crate::proofs::Fitting::faultless_target_width))]
fn push_set(
    alloc: Global,
    scope: &Scope,
    out: &mut Items<Act>,
    target: &Target,
    value: &Expr,
) -> Result<(), Memory>
    requires target { IsFaultlessTarget (names_of scope.now) (plain_target target.now) }
    requires value { IsFaultless (names_of scope.now) (plain_expr value.now) }
    ensures { OnOk result ((op : AssignOp)
        → Extends (doing_stmt (names_of scope.now) (AssignStmt (plain_target target.now) op (plain_expr value.now))) out.old out.new) }
{
    let w = target_width(scope, target).max(own_width(scope, value));
    let places = bind_target(alloc, target, scope)?;
    let value = bind_expr(alloc, value, scope, w)?;
    out.push(Act::Set {
        target: places,
        value,
    })
}

// ---- the width at which `case` compares

/// The width of the widest of some expressions and `w` bits.
#[tactic(auto, using(crate::proofs::Fitting::faultless_width))]
fn widest(scope: &Scope, exprs: &[Expr], w: u32) -> u32
    requires { AllByRecursion (λ e. IsFaultless (names_of scope.now) e) (map plain_expr exprs.now) }
    ensures { result ≡ widest (names_of scope.now) (map plain_expr exprs.now) w }
{
    let mut most = w;
    for e in exprs {
        most = most.max(own_width(scope, e));
    }
    most
}

fn arm_widest(scope: &Scope, arm: &Arm, w: u32) -> u32
    requires { IsFaultlessArm (names_of scope.now) (plain_arm arm.now) }
    ensures { result ≡ arm_widest (names_of scope.now) (plain_arm arm.now) w }
{
    match arm {
        Arm::Labels { labels, .. } => widest(scope, labels.as_slice(), w),
        Arm::Default { .. } => w,
    }
}

/// The width of the widest label of some arms and `w` bits.
fn arms_widest(scope: &Scope, arms: &[Arm], w: u32) -> u32
    requires { AreFaultlessArms (names_of scope.now) (plain_arms arms.now) }
    ensures { result ≡ arms_widest (names_of scope.now) (plain_arms arms.now) w }
{
    let mut most = w;
    for arm in arms {
        most = arm_widest(scope, arm, most);
    }
    most
}

/// The width of the widest expression of a `case`, be it the subject or a label.
#[tactic(auto, using(crate::proofs::Fitting::faultless_width))]
fn case_width(scope: &Scope, subject: &Expr, arms: &[Arm]) -> u32
    requires subject { IsFaultless (names_of scope.now) (plain_expr subject.now) }
    requires arms { AreFaultlessArms (names_of scope.now) (plain_arms arms.now) }
    ensures value { result ≡ case_width (names_of scope.now) (plain_expr subject.now) (plain_arms arms.now) }
    ensures subject { IsNarrow (names_of scope.now) result (plain_expr subject.now) }
    ensures arms { AreNarrowArms (names_of scope.now) result (plain_arms arms.now) }
    ensures width { IsWidth result }
{
    let own = own_width(scope, subject);
    arms_widest(scope, arms, own)
}

// ---- labels

fn some_label(labels: &[Expr]) -> bool
    ensures { result ≡ has_some (map plain_expr labels.now) }
{
    match labels {
        [] => false,
        [_, ..] => true,
    }
}

fn arm_has_label(arm: &Arm) -> bool
    ensures { result ≡ arm_has_label (plain_arm arm.now) }
{
    match arm {
        Arm::Labels { labels, .. } => some_label(labels.as_slice()),
        Arm::Default { .. } => false,
    }
}

fn has_label(arms: &[Arm]) -> bool
    ensures { result ≡ has_label (plain_arms arms.now) }
{
    for arm in arms {
        if arm_has_label(arm) {
            return true;
        }
    }
    false
}

/// Whether the subject equals a label, at `w` bits.
fn compared(
    alloc: Global,
    scope: &Scope,
    subject: &Expr,
    label: &Expr,
    w: u32,
) -> Result<Box<Rhs>, Memory>
    requires subject { IsNarrow (names_of scope.now) w (plain_expr subject.now) }
    requires label { IsNarrow (names_of scope.now) w (plain_expr label.now) }
    requires width { IsWidth w }
    ensures value { IfOk result (λ c. (v : Values) → not (code.value c.value v == 0)
        ≡ (value (names_of scope.now) v (plain_expr subject.now) w == value (names_of scope.now) v (plain_expr label.now) w)) }
    ensures reads { IfOk result (λ c. (m k : ℕ) → bits.reads c.value m k
        ≡ (reads (names_of scope.now) (plain_expr subject.now) m k || reads (names_of scope.now) (plain_expr label.now) m k)) }
    ensures sized { IfOk result (λ c. IsSizedRhs c.value) }
{
    let a = boxed_expr(alloc, subject, scope, w)?;
    let b = boxed_expr(alloc, label, scope, w)?;
    binary_code(alloc, BinaryOp::Equal, a, b, w)
}

/// Whether one of two conditions is true.
fn either(alloc: Global, a: Box<Rhs>, b: Box<Rhs>) -> Result<Box<Rhs>, Memory>
    requires a { IsSizedRhs a.value }
    requires b { IsSizedRhs b.value }
    ensures value { IfOk result (λ c. (v : Values) → not (code.value c.value v == 0)
        ≡ (not (code.value a.value v == 0) || not (code.value b.value v == 0))) }
    ensures reads { IfOk result (λ c. (m k : ℕ) → bits.reads c.value m k ≡ (bits.reads a.value m k || bits.reads b.value m k)) }
    ensures sized { IfOk result (λ c. IsSizedRhs c.value) }
{
    binary_code(alloc, BinaryOp::LogicalOr, a, b, 1)
}

/// Whether the subject equals one of the labels, at `w` bits. The code is as deep as the number of labels has bits.
#[cycle(matched)]
#[tactic(auto, using(crate::proofs::Labels::all_front, crate::proofs::Labels::all_back, crate::proofs::Labels::any_halves))]
fn matched(
    alloc: Global,
    scope: &Scope,
    subject: &Expr,
    labels: &[Expr],
    w: u32,
) -> Result<Box<Rhs>, Memory>
    requires subject { IsNarrow (names_of scope.now) w (plain_expr subject.now) }
    requires labels { AreNarrow (names_of scope.now) w (map plain_expr labels.now) }
    requires width { IsWidth w }
    ensures value { IfOk result (λ c. (v : Values) → not (code.value c.value v == 0)
        ≡ matches (names_of scope.now) v (map plain_expr labels.now) w (value (names_of scope.now) v (plain_expr subject.now) w)) }
    ensures reads { IfOk result (λ c. (m k : ℕ) → bits.reads c.value m k ≡ list_any (λ e.
        reads (names_of scope.now) (plain_expr subject.now) m k || reads (names_of scope.now) e m k) (map plain_expr labels.now)) }
    ensures sized { IfOk result (λ c. IsSizedRhs c.value) }
{
    match labels {
        [] => number(alloc, 0),
        [label] => compared(alloc, scope, subject, label, w),
        [_, _, ..] => {
            let (front, back) = labels.split_at(labels.len() / 2);
            let a = matched(alloc, scope, subject, front, w)?;
            let b = matched(alloc, scope, subject, back, w)?;
            either(alloc, a, b)
        }
    }
}

/// Adds a `case` of guards and what is done otherwise: a choice, and where there is no label, the reading of the subject.
fn push_choice(
    alloc: Global,
    scope: &Scope,
    out: &mut Items<Act>,
    subject: &Expr,
    arms: &[Arm],
    guards: Items<Guard>,
    otherwise: Items<Act>,
) -> Result<(), Memory>
    requires subject { IsFaultless (names_of scope.now) (plain_expr subject.now) }
    requires guards { Lengthens (choosing_arms (names_of scope.now) (plain_expr subject.now)
        (case_width (names_of scope.now) (plain_expr subject.now) (plain_arms arms.now)) (plain_arms arms.now)) [] guards }
    requires otherwise { Extends (doing_default (names_of scope.now) (plain_arms arms.now)) [] otherwise }
    ensures { OnOk result (Extends (doing_stmt (names_of scope.now)
        (CaseStmt (plain_expr subject.now) (plain_arms arms.now))) out.old out.new) }
{
    if has_label(arms) {
        return push_branch(out, guards, otherwise);
    }
    push_read(alloc, scope, out, subject)?;
    push_branch(out, guards, otherwise)
}

// ---- statements of the trees

/// Adds a statement, with at most so many statements within one another.
#[cycle(statements)]
fn push_stmt(
    alloc: Global,
    scope: &Scope,
    stmt: &Stmt,
    nested: u32,
    out: &mut Items<Act>,
) -> Result<(), Memory>
    requires { IsFaultlessStmt (names_of scope.now) (plain_stmt stmt.now) }
    ensures { OnOk result (Extends (doing_stmt (names_of scope.now) (plain_stmt stmt.now)) out.old out.new) }
{
    if nested == 0 {
        return Err(Memory);
    }
    match stmt {
        Stmt::Begin(stmts) => {
            see_begin(stmts);
            push_stmts(alloc, scope, stmts.as_slice(), nested - 1, out)
        }
        Stmt::If {
            condition,
            then_body,
            else_body,
        } => {
            let mut then_acts = Items::new(alloc);
            push_body(alloc, scope, then_body, nested - 1, &mut then_acts)?;
            let mut else_acts = Items::new(alloc);
            match else_body {
                None => push_if(alloc, scope, out, condition, then_acts, else_acts),
                Some(body) => {
                    push_body(alloc, scope, body, nested - 1, &mut else_acts)?;
                    push_if(alloc, scope, out, condition, then_acts, else_acts)
                }
            }
        }
        Stmt::Case { expression, arms } => {
            see_case(expression, arms);
            let rows = arms.as_slice();
            let w = case_width(scope, expression, rows);
            let mut guards = Items::new(alloc);
            push_guards(alloc, scope, rows, expression, w, nested - 1, &mut guards)?;
            let mut otherwise = Items::new(alloc);
            push_default(alloc, scope, rows, nested - 1, &mut otherwise)?;
            push_choice(alloc, scope, out, expression, rows, guards, otherwise)
        }
        Stmt::Assign {
            target,
            op: _,
            value,
        } => push_set(alloc, scope, out, target, value),
    }
}

/// Adds statements.
#[cycle(statements)]
fn push_stmts(
    alloc: Global,
    scope: &Scope,
    stmts: &[Stmt],
    nested: u32,
    out: &mut Items<Act>,
) -> Result<(), Memory>
    requires { AreFaultlessStmts (names_of scope.now) (plain_stmts stmts.now) }
    ensures { OnOk result (Extends (doing_stmts (names_of scope.now) (plain_stmts stmts.now)) out.old out.new) }
{
    for stmt in stmts {
        push_stmt(alloc, scope, stmt, nested, out)?;
    }
    Ok(())
}

/// Adds a statement, or nothing.
#[cycle(statements)]
fn push_body(
    alloc: Global,
    scope: &Scope,
    body: &Body,
    nested: u32,
    out: &mut Items<Act>,
) -> Result<(), Memory>
    requires { IsFaultlessBody (names_of scope.now) (plain_body body.now) }
    ensures { OnOk result (Extends (doing_body (names_of scope.now) (plain_body body.now)) out.old out.new) }
{
    match body {
        Body::Stmt(stmt) => push_stmt(alloc, scope, stmt, nested, out),
        Body::Empty => Ok(()),
    }
}

/// Adds the guards of the arms with labels.
#[cycle(statements)]
fn push_guards(
    alloc: Global,
    scope: &Scope,
    arms: &[Arm],
    subject: &Expr,
    w: u32,
    nested: u32,
    out: &mut Items<Guard>,
) -> Result<(), Memory>
    requires subject { IsNarrow (names_of scope.now) w (plain_expr subject.now) }
    requires arms { AreNarrowArms (names_of scope.now) w (plain_arms arms.now) }
    requires width { IsWidth w }
    ensures { OnOk result (Lengthens (choosing_arms (names_of scope.now) (plain_expr subject.now) w (plain_arms arms.now))
        out.old out.new) }
{
    for arm in arms {
        push_guard(alloc, scope, arm, subject, w, nested, out)?;
    }
    Ok(())
}

/// Adds the guard of an arm, if it has labels.
#[cycle(statements)]
fn push_guard(
    alloc: Global,
    scope: &Scope,
    arm: &Arm,
    subject: &Expr,
    w: u32,
    nested: u32,
    out: &mut Items<Guard>,
) -> Result<(), Memory>
    requires subject { IsNarrow (names_of scope.now) w (plain_expr subject.now) }
    requires arm { IsNarrowArm (names_of scope.now) w (plain_arm arm.now) }
    requires width { IsWidth w }
    ensures { OnOk result (Lengthens (choosing_arm (names_of scope.now) (plain_expr subject.now) w (plain_arm arm.now))
        out.old out.new) }
{
    match arm {
        Arm::Labels { labels, body } => {
            let mut acts = Items::new(alloc);
            push_body(alloc, scope, body, nested, &mut acts)?;
            let condition = matched(alloc, scope, subject, labels.as_slice(), w)?;
            out.push(Guard {
                condition: Box::into_inner(condition),
                body: acts,
            })
        }
        Arm::Default { .. } => Ok(()),
    }
}

/// Adds the body of the first `default`, if there is one.
#[cycle(statements)]
fn push_default(
    alloc: Global,
    scope: &Scope,
    arms: &[Arm],
    nested: u32,
    out: &mut Items<Act>,
) -> Result<(), Memory>
    requires { AreFaultlessArms (names_of scope.now) (plain_arms arms.now) }
    ensures { OnOk result (Extends (doing_default (names_of scope.now) (plain_arms arms.now)) out.old out.new) }
{
    for arm in arms {
        match arm {
            Arm::Labels { .. } => {}
            Arm::Default { body, .. } => return push_body(alloc, scope, body, nested, out),
        }
    }
    Ok(())
}

/// The code of an always block without the test whether its bits are surely assigned (IEEE 1364-2005, clause 9): for all
/// numbers of the scope's nets and words its updates are those of the text, and so are the bits that it may write, those
/// that it surely assigns, and those that it reads, in a block of either kind. Nets and memories are named by their places
/// in the scope's lists.
///
/// By condition nothing is wrong with the names, constants and widths in the block.
///
/// # Errors
///
/// `Memory`: there isn't enough memory, or the words of the scope's memories can't be counted in 64 bits, or more than 2,048
/// statements stand within one another.
pub fn block_code(alloc: Global, block: &Always, scope: &Scope) -> Result<Code, Memory>
    requires { IsFaultlessBody (names_of scope.now) (plain_always block.now).body }
    ensures updates { IfOk result (λ c. (t : Timing) (v : Values) → block_updates t c.acts v
        ≡ body_updates (names_of scope.now) t (plain_always block.now).body v) }
    ensures adds { IfOk result (λ c. (m k : ℕ) → block_adds c.acts m k ≡ always_adds (names_of scope.now) (plain_always block.now) m k) }
    ensures open { IfOk result (λ c. (t : Timing) (known : BitSet) (m k : ℕ) → block_open_reads t c.acts known m k
        ≡ body_open (names_of scope.now) t (plain_always block.now).body known m k) }
    ensures writes { IfOk result (λ c. (m k : ℕ) → named c.writes m k ≡ always_writes (names_of scope.now) (plain_always block.now) m k) }
    ensures reads { IfOk result (λ c. (m k : ℕ) → named c.reads m k ≡ always_reads (names_of scope.now) (plain_always block.now) m k) }
    ensures names { IfOk result (λ c. code_names c.acts ≡ always_names (names_of scope.now) (plain_always block.now)) }
    ensures bits { IfOk result (λ c. HasBits (timing_of (plain_always block.now).event) c) }
    ensures sized { IfOk result (λ c. IsSizedBlock c.acts) }
{
    let mut acts = Items::new(alloc);
    push_body(alloc, scope, &block.body, MOST_NESTED, &mut acts)?;
    let code = code_of(alloc, timing_of(&block.event), acts)?;
    Ok(code)
}
