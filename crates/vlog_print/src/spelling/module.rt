//! Files, modules, ports and items spelled as tokens.

ghost use Rattle.std.specs.Prelude.{◌≡◌, ℕ, [], ◌∷◌, ◌++◌, OnOk, IfOk, option_map, map};
ghost use Rattle.vlog_tree.specs.Tree.{IdentOf, ParameterOf, PortOf, NamedValueOf, Reg1Of, AssignOf, ConnOf, ItemOf, ModuleOf};
ghost use Rattle.vlog_tree.specs.Words.{NameWord, Fixed, tokens_of};
ghost use Rattle.vlog_tree.specs.declared.terminal.Terminal.TheVariants as t;
ghost use Rattle.vlog_tree.specs.Plain.{plain_ident, plain_range, plain_head, plain_port, plain_named, plain_reg, plain_assign};
ghost use Rattle.vlog_tree.specs.Plain.{plain_event, plain_always, plain_item, plain_module, plain, plain_expr, plain_parameter_head};
ghost use Rattle.vlog_tree.specs.Plain.{plain_parameter, plain_conn, plain_instance};
ghost use Rattle.vlog_tree.specs.Spelling.{optional, with_commas, in_row, ident_words, range_words, direction_words, head_words};
ghost use Rattle.vlog_tree.specs.Spelling.{init_words, port_words, named_words, reg_words, assign_words, event_words};
ghost use Rattle.vlog_tree.specs.Spelling.{always_words, item_words, module_words, toks, parameter_head_words, parameter_words, hash_words};
ghost use Rattle.vlog_tree.specs.Spelling.{conn_words, instance_words};

use crate::spelling::expr::push_expr;
use crate::spelling::listed::{Spelled, push_hash, push_in_row, push_with_commas};
use crate::spelling::stmt::{push_body, push_target};
use crate::spelling::token::{put_fixed, put_name, put_two};
use std::alloc::Global;
use vlog_parse::vidi_bits::Memory;
use vlog_parse::vlog_lex::Tokens;
use vlog_tree::{
    Always, Assign, Conn, Direction, Event, Expr, File, Ident, Instance, Item, Module, NamedValue,
    NetKind, Parameter, ParameterHead, Port, PortHead, Range, Reg1, RegTail, Terminal,
};

impl Spelled for Ident {
    ghost Plain = { IdentOf ℕ };

    ghost plain = { plain_ident };

    ghost words = { ident_words };

    fn push(&self, alloc: Global, out: &mut Tokens) -> Result<(), Memory> {
        put_name(alloc, out, &self.name)
    }
}

fn push_range(alloc: Global, out: &mut Tokens, range: &Option<Range>) -> Result<(), Memory>
    ensures { OnOk result (out.new ≡ out.old ++ tokens_of (optional range_words (option_map plain_range range.now))) }
{
    match range {
        None => Ok(()),
        Some(range) => push_bounds(alloc, out, range),
    }
}

fn push_bounds(alloc: Global, out: &mut Tokens, range: &Range) -> Result<(), Memory>
    ensures { OnOk result (out.new ≡ out.old ++ tokens_of (range_words (plain_range range.now))) }
{
    put_fixed(alloc, out, Terminal::BracketOpen)?;
    push_expr(alloc, out, &range.first)?;
    put_fixed(alloc, out, Terminal::Colon)?;
    push_expr(alloc, out, &range.second)?;
    put_fixed(alloc, out, Terminal::BracketClose)
}

fn push_init(alloc: Global, out: &mut Tokens, value: &Expr) -> Result<(), Memory>
    ensures { OnOk result (out.new ≡ out.old ++ tokens_of (init_words (plain_expr value.now))) }
{
    put_fixed(alloc, out, Terminal::Equals)?;
    push_expr(alloc, out, value)
}

fn push_direction(alloc: Global, out: &mut Tokens, direction: Direction) -> Result<(), Memory>
    ensures { OnOk result (out.new ≡ out.old ++ tokens_of {A = ℕ} (direction_words direction)) }
{
    match direction {
        Direction::Input { wire: false } => put_fixed(alloc, out, Terminal::Input),
        Direction::Input { wire: true } => { put_two(alloc, out, Terminal::Input, Terminal::Wire) }
        Direction::Output { kind: None } => put_fixed(alloc, out, Terminal::Output),
        Direction::Output {
            kind: Some(NetKind::Wire),
        } => { put_two(alloc, out, Terminal::Output, Terminal::Wire) }
        Direction::Output {
            kind: Some(NetKind::Reg),
        } => { put_two(alloc, out, Terminal::Output, Terminal::Reg) }
    }
}

fn push_head(alloc: Global, out: &mut Tokens, head: &Option<PortHead>) -> Result<(), Memory>
    ensures { OnOk result (out.new ≡ out.old ++ tokens_of (optional head_words (option_map plain_head head.now))) }
{
    let Some(head) = head else {
        return Ok(());
    };
    push_direction(alloc, out, head.direction)?;
    push_range(alloc, out, &head.range)
}

fn push_parameter_head(
    alloc: Global,
    out: &mut Tokens,
    head: &Option<ParameterHead>,
) -> Result<(), Memory>
    ensures { OnOk result (out.new ≡ out.old ++ tokens_of (optional parameter_head_words (option_map plain_parameter_head head.now))) }
{
    let Some(head) = head else {
        return Ok(());
    };
    put_fixed(alloc, out, Terminal::Parameter)?;
    push_range(alloc, out, &head.range)
}

impl Spelled for Parameter {
    ghost Plain = { ParameterOf ℕ };

    ghost plain = { plain_parameter };

    ghost words = { parameter_words };

    fn push(&self, alloc: Global, out: &mut Tokens) -> Result<(), Memory> {
        push_parameter_head(alloc, out, &self.head)?;
        put_name(alloc, out, &self.id.name)?;
        push_init(alloc, out, &self.value)
    }
}

impl Spelled for Port {
    ghost Plain = { PortOf ℕ };

    ghost plain = { plain_port };

    ghost words = { port_words };

    fn push(&self, alloc: Global, out: &mut Tokens) -> Result<(), Memory> {
        push_head(alloc, out, &self.head)?;
        put_name(alloc, out, &self.id.name)?;
        match &self.init {
            None => Ok(()),
            Some(value) => push_init(alloc, out, value),
        }
    }
}

impl Spelled for NamedValue {
    ghost Plain = { NamedValueOf ℕ };

    ghost plain = { plain_named };

    ghost words = { named_words };

    fn push(&self, alloc: Global, out: &mut Tokens) -> Result<(), Memory> {
        put_name(alloc, out, &self.id.name)?;
        push_init(alloc, out, &self.value)
    }
}

impl Spelled for Reg1 {
    ghost Plain = { Reg1Of ℕ };

    ghost plain = { plain_reg };

    ghost words = { reg_words };

    fn push(&self, alloc: Global, out: &mut Tokens) -> Result<(), Memory> {
        put_name(alloc, out, &self.id.name)?;
        match &self.tail {
            None => Ok(()),
            Some(RegTail::Init(value)) => push_init(alloc, out, value),
            Some(RegTail::Memory(range)) => push_bounds(alloc, out, range),
        }
    }
}

impl Spelled for Assign {
    ghost Plain = { AssignOf ℕ };

    ghost plain = { plain_assign };

    ghost words = { assign_words };

    fn push(&self, alloc: Global, out: &mut Tokens) -> Result<(), Memory> {
        push_target(alloc, out, &self.target)?;
        push_init(alloc, out, &self.value)
    }
}

impl Spelled for Conn {
    ghost Plain = { ConnOf ℕ };

    ghost plain = { plain_conn };

    ghost words = { conn_words };

    fn push(&self, alloc: Global, out: &mut Tokens) -> Result<(), Memory> {
        put_fixed(alloc, out, Terminal::Dot)?;
        put_name(alloc, out, &self.id.name)?;
        put_fixed(alloc, out, Terminal::ParenOpen)?;
        if let Some(value) = &self.value {
            push_expr(alloc, out, value)?;
        }
        put_fixed(alloc, out, Terminal::ParenClose)
    }
}

fn push_event(alloc: Global, out: &mut Tokens, event: &Event) -> Result<(), Memory>
    ensures { OnOk result (out.new ≡ out.old ++ tokens_of (event_words (plain_event event.now))) }
{
    put_fixed(alloc, out, Terminal::At)?;
    match event {
        Event::Posedge(clock) => {
            put_two(alloc, out, Terminal::ParenOpen, Terminal::Posedge)?;
            put_name(alloc, out, &clock.name)?;
            put_fixed(alloc, out, Terminal::ParenClose)
        }
        Event::Implicit { parens: false } => put_fixed(alloc, out, Terminal::Star),
        Event::Implicit { parens: true } => {
            put_fixed(alloc, out, Terminal::ParenOpen)?;
            put_two(alloc, out, Terminal::Star, Terminal::ParenClose)
        }
    }
}

fn push_always(alloc: Global, out: &mut Tokens, always: &Always) -> Result<(), Memory>
    ensures { OnOk result (out.new ≡ out.old ++ tokens_of (always_words (plain_always always.now))) }
{
    put_fixed(alloc, out, Terminal::Always)?;
    push_event(alloc, out, &always.event)?;
    push_body(alloc, out, &always.body)
}

fn push_instance(alloc: Global, out: &mut Tokens, instance: &Instance) -> Result<(), Memory>
    ensures { OnOk result (out.new ≡ out.old ++ tokens_of (instance_words (plain_instance instance.now))) }
{
    put_name(alloc, out, &instance.module_id.name)?;
    push_hash(alloc, out, instance.parameters.as_slice())?;
    put_name(alloc, out, &instance.id.name)?;
    put_fixed(alloc, out, Terminal::ParenOpen)?;
    push_with_commas(alloc, out, instance.ports.as_slice())?;
    put_two(alloc, out, Terminal::ParenClose, Terminal::Semicolon)
}

/// Adds the tokens of a declaration: its word, its range, its parts with commas between them, and `;`.
fn push_declaration<T: Spelled>(
    alloc: Global,
    out: &mut Tokens,
    word: Terminal,
    range: &Option<Range>,
    parts: &[T],
) -> Result<(), Memory>
    ensures { OnOk result (out.new ≡ out.old ++ tokens_of (Fixed word ∷ (optional range_words (option_map plain_range range.now)
        ++ (with_commas T.words (map T.plain parts.now) ++ Fixed t.Semicolon ∷ [])))) }
{
    put_fixed(alloc, out, word)?;
    push_range(alloc, out, range)?;
    push_with_commas(alloc, out, parts)?;
    put_fixed(alloc, out, Terminal::Semicolon)
}

impl Spelled for Item {
    ghost Plain = { ItemOf ℕ };

    ghost plain = { plain_item };

    ghost words = { item_words };

    fn push(&self, alloc: Global, out: &mut Tokens) -> Result<(), Memory> {
        match self {
            Item::Wires { range, names } => {
                push_declaration(alloc, out, Terminal::Wire, range, names.as_slice())
            }
            Item::DrivenWires { range, wires } => {
                push_declaration(alloc, out, Terminal::Wire, range, wires.as_slice())
            }
            Item::Regs { range, regs } => {
                push_declaration(alloc, out, Terminal::Reg, range, regs.as_slice())
            }
            Item::Localparams { range, parameters } => {
                push_declaration(
                    alloc,
                    out,
                    Terminal::Localparam,
                    range,
                    parameters.as_slice(),
                )
            }
            Item::Assign { assigns } => {
                put_fixed(alloc, out, Terminal::Assign)?;
                push_with_commas(alloc, out, assigns.as_slice())?;
                put_fixed(alloc, out, Terminal::Semicolon)
            }
            Item::Always(always) => push_always(alloc, out, always),
            Item::Instance(instance) => push_instance(alloc, out, instance),
        }
    }
}

/// Adds the tokens of a module before its ports.
fn push_title(alloc: Global, out: &mut Tokens, declared: &Module) -> Result<(), Memory>
    ensures { OnOk result (out.new ≡ out.old ++ tokens_of (Fixed t.Module ∷ NameWord declared.now.name
        ∷ hash_words parameter_words (map plain_parameter declared.now.parameters))) }
{
    put_fixed(alloc, out, Terminal::Module)?;
    put_name(alloc, out, &declared.name)?;
    push_hash(alloc, out, declared.parameters.as_slice())
}

/// Adds the tokens of a module from its ports on.
fn push_contents(alloc: Global, out: &mut Tokens, declared: &Module) -> Result<(), Memory>
    ensures { OnOk result (out.new ≡ out.old ++ tokens_of (Fixed t.ParenOpen
        ∷ (with_commas port_words (map plain_port declared.now.ports) ++ Fixed t.ParenClose ∷ Fixed t.Semicolon
        ∷ (in_row item_words (map plain_item declared.now.items) ++ Fixed t.Endmodule ∷ [])))) }
{
    put_fixed(alloc, out, Terminal::ParenOpen)?;
    push_with_commas(alloc, out, declared.ports.as_slice())?;
    put_two(alloc, out, Terminal::ParenClose, Terminal::Semicolon)?;
    push_in_row(alloc, out, declared.items.as_slice())?;
    put_fixed(alloc, out, Terminal::Endmodule)
}

impl Spelled for Module {
    ghost Plain = { ModuleOf ℕ };

    ghost plain = { plain_module };

    ghost words = { module_words };

    fn push(&self, alloc: Global, out: &mut Tokens) -> Result<(), Memory> {
        push_title(alloc, out, self)?;
        push_contents(alloc, out, self)
    }
}

/// The tokens of which a tree is spelled, each with line 0.
pub fn tokens_of(alloc: Global, file: &File) -> Result<Tokens, Memory>
    ensures { IfOk result (λ tokens. tokens ≡ toks (plain file.now)) }
{
    let mut out = Tokens::new(alloc);
    push_in_row(alloc, &mut out, file.modules.as_slice())?;
    Ok(out)
}
