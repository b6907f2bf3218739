//! Notes on files. docs/CASES.md has the signs of modules, ports and items.

use crate::expr_notes::note_expr;
use crate::notes::Notes;
use crate::stmt_notes::{note_body, note_target};
use vlog_tree::{
    Always, Assign, Conn, Direction, Event, Expr, File, Ident, Instance, Item, Module, NamedValue,
    NetKind, Parameter, Port, Range, Reg1, RegTail,
};

/// A part of a file that stands in lists.
trait Part {
    /// Notes it.
    fn note(&self, notes: &mut Notes);
}

/// Notes parts one behind the other, with a sign before the first one and another before each further one.
fn note_parts<T: Part>(notes: &mut Notes, first: &[u8], further: &[u8], parts: &[T]) {
    for (place, part) in parts.iter().enumerate() {
        notes.sign(if place > 0 { further } else { first });
        part.note(notes);
    }
}

/// Notes what an item declares: its sign, `[]` for a range, and the number of its parts.
fn note_list<T: Part>(notes: &mut Notes, sign: &[u8], range: Option<&Range>, parts: &[T]) {
    notes.sign(sign);
    note_range(notes, range);
    notes.count(parts.len());
    note_parts(notes, b"", b"", parts);
}

fn note_range(notes: &mut Notes, range: Option<&Range>) {
    if let Some(range) = range {
        notes.sign(b"[]");
        note_bounds(notes, range);
    }
}

fn note_bounds(notes: &mut Notes, range: &Range) {
    note_expr(notes, &range.first);
    note_expr(notes, &range.second);
}

/// Notes a name that is among the signs.
fn note_name(notes: &mut Notes, id: &Ident) {
    notes.sign(id.name.as_slice());
    notes.line(id.line);
}

impl Part for Ident {
    fn note(&self, notes: &mut Notes) {
        notes.line(self.line);
    }
}

impl Part for NamedValue {
    fn note(&self, notes: &mut Notes) {
        notes.line(self.id.line);
        note_expr(notes, &self.value);
    }
}

impl Part for Assign {
    fn note(&self, notes: &mut Notes) {
        note_target(notes, &self.target);
        note_expr(notes, &self.value);
    }
}

impl Part for Reg1 {
    fn note(&self, notes: &mut Notes) {
        notes.line(self.id.line);
        match &self.tail {
            None => {}
            Some(RegTail::Init(value)) => note_init(notes, value),
            Some(RegTail::Memory(range)) => {
                notes.sign(b"m");
                note_bounds(notes, range);
            }
        }
    }
}

fn note_init(notes: &mut Notes, value: &Expr) {
    notes.sign(b"=");
    note_expr(notes, value);
}

impl Part for Parameter {
    fn note(&self, notes: &mut Notes) {
        if let Some(head) = &self.head {
            notes.sign(b"p");
            note_range(notes, head.range.as_ref());
        }
        notes.sign(b" ");
        note_name(notes, &self.id);
        note_expr(notes, &self.value);
    }
}

impl Part for Port {
    fn note(&self, notes: &mut Notes) {
        if let Some(head) = &self.head {
            notes.sign(direction_sign(head.direction));
            note_range(notes, head.range.as_ref());
        }
        notes.sign(b" ");
        note_name(notes, &self.id);
        if let Some(value) = &self.init {
            note_init(notes, value);
        }
    }
}

fn direction_sign(direction: Direction) -> &'static [u8] {
    match direction {
        Direction::Input { wire: false } => b"i",
        Direction::Input { wire: true } => b"iw",
        Direction::Output { kind: None } => b"o",
        Direction::Output {
            kind: Some(NetKind::Wire),
        } => b"ow",
        Direction::Output {
            kind: Some(NetKind::Reg),
        } => b"or",
    }
}

impl Part for Conn {
    fn note(&self, notes: &mut Notes) {
        notes.line_sign(self.line);
        note_name(notes, &self.id);
        match &self.value {
            Some(value) => note_expr(notes, value),
            None => notes.sign(b"-"),
        }
    }
}

fn note_conns(notes: &mut Notes, conns: &[Conn]) {
    notes.sign(b"(");
    note_parts(notes, b"", b",", conns);
    notes.sign(b")");
}

fn note_instance(notes: &mut Notes, instance: &Instance) {
    notes.sign(b"I");
    note_name(notes, &instance.module_id);
    note_conns(notes, instance.parameters.as_slice());
    note_name(notes, &instance.id);
    note_conns(notes, instance.ports.as_slice());
}

fn note_always(notes: &mut Notes, always: &Always) {
    notes.sign(b"@");
    notes.line_sign(always.line);
    match &always.event {
        Event::Posedge(clock) => note_name(notes, clock),
        Event::Implicit { parens: false } => notes.sign(b"*"),
        Event::Implicit { parens: true } => notes.sign(b"(*)"),
    }
    note_body(notes, &always.body);
}

impl Part for Item {
    fn note(&self, notes: &mut Notes) {
        match self {
            Item::Wires { range, names } => {
                note_list(notes, b"W", range.as_ref(), names.as_slice());
            }
            Item::DrivenWires { range, wires } => {
                note_list(notes, b"D", range.as_ref(), wires.as_slice());
            }
            Item::Regs { range, regs } => {
                note_list(notes, b"R", range.as_ref(), regs.as_slice());
            }
            Item::Localparams { range, parameters } => {
                note_list(notes, b"L", range.as_ref(), parameters.as_slice());
            }
            Item::Assign { assigns } => note_list(notes, b"A", None, assigns.as_slice()),
            Item::Always(always) => note_always(notes, always),
            Item::Instance(instance) => note_instance(notes, instance),
        }
    }
}

impl Part for Module {
    fn note(&self, notes: &mut Notes) {
        notes.sign(self.name.as_slice());
        note_parts(notes, b"#", b",", self.parameters.as_slice());
        notes.sign(b"(");
        note_parts(notes, b"", b",", self.ports.as_slice());
        notes.sign(b")");
        note_parts(notes, b"", b"", self.items.as_slice());
    }
}

/// Notes a file: module after module.
pub(crate) fn note_file(notes: &mut Notes, file: &File) {
    note_parts(notes, b"", b"", file.modules.as_slice());
}
