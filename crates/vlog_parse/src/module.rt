//! The reader of modules and files.

ghost use Rattle.std.specs.Prelude.{◌≡◌, ℕ, Some, [], map, option_map};
ghost use Rattle.vlog_tree.specs.Tree.{PortOf};
ghost use Rattle.vlog_tree.specs.Plain.{plain_parameter, plain_head, plain_port, plain_item, plain_module, plain};
ghost use Rattle.vlog_item.specs.vlog_expr.Marks.{all_marked};
ghost use Rattle.vlog_parse.specs.FileReader.{input_at, output_at, direction_front, head_front, port_at, first_port_at, ports_at, items_at};
ghost use Rattle.vlog_parse.specs.FileReader.{header_at, module_at, modules_at, file_at};
ghost use Rattle.vlog_item.specs.vlog_expr.Given.{Gives};

use crate::parameter::parameters_front;
use std::alloc::Global;
use vlog_item::vidi_bits::{Items, Name};
use vlog_item::vlog_expr::{Parsed, Unread, after, expect, name_of};
use vlog_item::vlog_lex::Token;
use vlog_item::vlog_stmt::{ListReader, more_of};
use vlog_item::{init_front, item_of, range_front, unboxed};
use vlog_tree::{
    Direction, File, Item, Module, Modules, NetKind, Parameters, Port, PortHead, Ports, Terminal,
};

/// The word that may stand behind `input`.
fn input_of(tokens: &[Token]) -> (Direction, &[Token])
    ensures { Some (result.0, all_marked result.1.now) ≡ input_at (all_marked tokens.now) }
{
    match after(Terminal::Wire, tokens) {
        Some((_, rest)) => (Direction::Input { wire: true }, rest),
        None => (Direction::Input { wire: false }, tokens),
    }
}

/// The word that may stand behind `output`.
fn output_of(tokens: &[Token]) -> (Direction, &[Token])
    ensures { Some (result.0, all_marked result.1.now) ≡ output_at (all_marked tokens.now) }
{
    if let Some((_, rest)) = after(Terminal::Wire, tokens) {
        let kind = Some(NetKind::Wire);
        return (Direction::Output { kind }, rest);
    }
    match after(Terminal::Reg, tokens) {
        Some((_, rest)) => {
            let kind = Some(NetKind::Reg);
            (Direction::Output { kind }, rest)
        }
        None => (Direction::Output { kind: None }, tokens),
    }
}

/// The direction, where one stands at the front.
fn direction_front(tokens: &[Token]) -> Option<(Direction, &[Token])>
    ensures { option_map (λ x. (x.0, all_marked x.1.now)) result ≡ direction_front (all_marked tokens.now) }
{
    if let Some((_, rest)) = after(Terminal::Input, tokens) {
        return Some(input_of(rest));
    }
    let (_, rest) = after(Terminal::Output, tokens)?;
    Some(output_of(rest))
}

/// The direction and its range, where a direction stands at the front.
fn head_front(alloc: Global, tokens: &[Token], fuel: usize) -> Parsed<'_, Option<Box<PortHead>>>
    ensures { Gives (λ x. (option_map (λ b. plain_head b.value) x.0, all_marked x.1.now)) result (head_front fuel (all_marked tokens.now)) }
{
    let Some((direction, rest)) = direction_front(tokens) else {
        return Ok((None, tokens));
    };
    let (range, rest) = range_front(alloc, rest, fuel)?;
    let range = unboxed(range);
    Ok((Some(Box::new(alloc, PortHead { direction, range })?), rest))
}

/// The direction and its range, no longer on the heap.
fn unboxed_head(head: Option<Box<PortHead>>) -> Option<PortHead>
    ensures { option_map plain_head result ≡ option_map (λ b. plain_head b.value) head }
{
    Some(Box::into_inner(head?))
}

/// The reader of a port.
struct PortReader;

impl ListReader<Port> for PortReader {
    ghost Plain = { PortOf ℕ };

    ghost plain = { plain_port };

    ghost one_at = { port_at };

    fn read(alloc: Global, tokens: &[Token], fuel: usize) -> Parsed<'_, Port> {
        let (head, rest) = head_front(alloc, tokens, fuel)?;
        let (id, rest) = name_of(alloc, rest)?;
        let (init, rest) = init_front(alloc, rest, fuel)?;
        let head = unboxed_head(head);
        Ok((Port { head, id, init }, rest))
    }
}

/// A port with a direction.
fn first_port_of(alloc: Global, tokens: &[Token], fuel: usize) -> Parsed<'_, Port>
    ensures { Gives (λ x. (plain_port x.0, all_marked x.1.now)) result (first_port_at fuel (all_marked tokens.now)) }
{
    let (port, rest) = PortReader::read(alloc, tokens, fuel)?;
    if port.head.is_none() {
        return Err(Unread::Fault);
    }
    Ok((port, rest))
}

/// The ports behind `(`, and `)`.
fn ports_of(alloc: Global, tokens: &[Token], fuel: usize) -> Parsed<'_, Ports>
    ensures { Gives (λ x. (map plain_port x.0, all_marked x.1.now)) result (ports_at fuel (all_marked tokens.now)) }
{
    let mut front = Ports::new(alloc);
    if let Some((_, rest)) = after(Terminal::ParenClose, tokens) {
        return Ok((front, rest));
    }
    let (port, rest) = first_port_of(alloc, tokens, fuel)?;
    front.push(port)?;
    let (ports, rest) = more_of::<PortReader, _>(alloc, front, rest, fuel)?;
    let (_, rest) = expect(Terminal::ParenClose, rest)?;
    Ok((ports, rest))
}

/// The items up to `endmodule`, and what stands behind it.
#[tactic(auto, using(crate::proofs::Maps::items_snoc))]
fn items_of(alloc: Global, tokens: &[Token], fuel: usize) -> Parsed<'_, Items<Item>>
    ensures { Gives (λ x. (map plain_item x.0, all_marked x.1.now)) result (items_at fuel fuel [] (all_marked tokens.now)) }
{
    let mut items = Items::new(alloc);
    let mut rest = tokens;
    let mut left = fuel;
    while left > 0 {
        left -= 1;
        match after(Terminal::Endmodule, rest) {
            Some((_, behind)) => return Ok((items, behind)),
            None => {
                let (item, behind) = item_of(alloc, rest, fuel)?;
                items.push(item)?;
                rest = behind;
            }
        }
    }
    Err(Unread::Fault)
}

/// The header of a module: its name, its parameters and its ports.
pub fn header_of(
    alloc: Global,
    tokens: &[Token],
    fuel: usize,
) -> Parsed<'_, (Name, Parameters, Ports)>
    ensures { Gives (λ x. ((x.0.0, map plain_parameter x.0.1, map plain_port x.0.2), all_marked x.1.now)) result
        (header_at fuel (all_marked tokens.now)) }
{
    let (_, rest) = expect(Terminal::Module, tokens)?;
    let (id, rest) = name_of(alloc, rest)?;
    let (parameters, rest) = parameters_front(alloc, rest, fuel)?;
    let (_, rest) = expect(Terminal::ParenOpen, rest)?;
    let (ports, rest) = ports_of(alloc, rest, fuel)?;
    let (_, rest) = expect(Terminal::Semicolon, rest)?;
    Ok(((id.name, parameters, ports), rest))
}

/// A module.
fn module_of(alloc: Global, tokens: &[Token], fuel: usize) -> Parsed<'_, Module>
    ensures { Gives (λ x. (plain_module x.0, all_marked x.1.now)) result (module_at fuel (all_marked tokens.now)) }
{
    let ((name, parameters, ports), rest) = header_of(alloc, tokens, fuel)?;
    let (items, rest) = items_of(alloc, rest, fuel)?;
    let module = Module {
        name,
        parameters,
        ports,
        items,
    };
    Ok((module, rest))
}

/// The modules that follow the first ones, up to the end of the tokens.
#[tactic(auto, using(crate::proofs::Maps::modules_snoc))]
fn modules_of(
    alloc: Global,
    front: Modules,
    tokens: &[Token],
    fuel: usize,
) -> Result<Modules, Unread>
    ensures { Gives (λ x. map plain_module x) result (modules_at fuel fuel (map plain_module front) (all_marked tokens.now)) }
{
    let mut front = front;
    let mut rest = tokens;
    let mut left = fuel;
    while left > 0 {
        left -= 1;
        if rest.is_empty() {
            return Ok(front);
        }
        let (module, behind) = module_of(alloc, rest, fuel)?;
        front.push(module)?;
        rest = behind;
    }
    Err(Unread::Fault)
}

/// A file: its modules, at least one.
pub fn file_of(alloc: Global, tokens: &[Token], fuel: usize) -> Result<File, Unread>
    ensures { Gives plain result (file_at fuel (all_marked tokens.now)) }
{
    let (module, rest) = module_of(alloc, tokens, fuel)?;
    let mut front = Modules::new(alloc);
    front.push(module)?;
    let modules = modules_of(alloc, front, rest, fuel)?;
    Ok(File { modules })
}
