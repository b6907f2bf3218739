//! The reader of the parameters of a module's header.

ghost use Rattle.std.specs.Prelude.{◌≡◌, ℕ, map, option_map};
ghost use Rattle.vlog_tree.specs.Tree.{ParameterOf};
ghost use Rattle.vlog_tree.specs.Plain.{plain_parameter_head, plain_parameter};
ghost use Rattle.vlog_item.specs.vlog_expr.Marks.{all_marked};
ghost use Rattle.vlog_item.specs.vlog_expr.Given.{Gives};
ghost use Rattle.vlog_parse.specs.FileReader.{parameter_head_front, parameter_at, first_parameter_at, parameters_front};

use std::alloc::Global;
use vlog_item::vlog_expr::{Parsed, Unread, after, expect, expr_of, name_of};
use vlog_item::vlog_lex::Token;
use vlog_item::vlog_stmt::{ListReader, more_of};
use vlog_item::{range_front, unboxed};
use vlog_tree::{Parameter, ParameterHead, Parameters, Terminal};

/// The word `parameter` and its range, where that word stands at the front.
fn parameter_head_front(
    alloc: Global,
    tokens: &[Token],
    fuel: usize,
) -> Parsed<'_, Option<Box<ParameterHead>>>
    ensures { Gives (λ x. (option_map (λ b. plain_parameter_head b.value) x.0, all_marked x.1.now)) result
        (parameter_head_front fuel (all_marked tokens.now)) }
{
    let Some((_, rest)) = after(Terminal::Parameter, tokens) else {
        return Ok((None, tokens));
    };
    let (range, rest) = range_front(alloc, rest, fuel)?;
    let range = unboxed(range);
    Ok((Some(Box::new(alloc, ParameterHead { range })?), rest))
}

/// The word `parameter` and its range, no longer on the heap.
fn unboxed_head(head: Option<Box<ParameterHead>>) -> Option<ParameterHead>
    ensures { option_map plain_parameter_head result ≡ option_map (λ b. plain_parameter_head b.value) head }
{
    Some(Box::into_inner(head?))
}

/// The reader of a parameter.
struct ParameterReader;

impl ListReader<Parameter> for ParameterReader {
    ghost Plain = { ParameterOf ℕ };

    ghost plain = { plain_parameter };

    ghost one_at = { parameter_at };

    fn read(alloc: Global, tokens: &[Token], fuel: usize) -> Parsed<'_, Parameter> {
        let (head, rest) = parameter_head_front(alloc, tokens, fuel)?;
        let (id, rest) = name_of(alloc, rest)?;
        let (_, rest) = expect(Terminal::Equals, rest)?;
        let (value, rest) = expr_of(alloc, rest, fuel)?;
        let head = unboxed_head(head);
        Ok((Parameter { head, id, value }, rest))
    }
}

/// A parameter with the word `parameter`.
fn first_parameter_of(alloc: Global, tokens: &[Token], fuel: usize) -> Parsed<'_, Parameter>
    ensures { Gives (λ x. (plain_parameter x.0, all_marked x.1.now)) result (first_parameter_at fuel (all_marked tokens.now)) }
{
    let (parameter, rest) = ParameterReader::read(alloc, tokens, fuel)?;
    if parameter.head.is_none() {
        return Err(Unread::Fault);
    }
    Ok((parameter, rest))
}

/// The parameters of a module, where `#` stands at the front.
pub fn parameters_front(alloc: Global, tokens: &[Token], fuel: usize) -> Parsed<'_, Parameters>
    ensures { Gives (λ x. (map plain_parameter x.0, all_marked x.1.now)) result (parameters_front fuel (all_marked tokens.now)) }
{
    let mut front = Parameters::new(alloc);
    let Some((_, rest)) = after(Terminal::Hash, tokens) else {
        return Ok((front, tokens));
    };
    let (_, rest) = expect(Terminal::ParenOpen, rest)?;
    let (parameter, rest) = first_parameter_of(alloc, rest, fuel)?;
    front.push(parameter)?;
    let (parameters, rest) = more_of::<ParameterReader, _>(alloc, front, rest, fuel)?;
    let (_, rest) = expect(Terminal::ParenClose, rest)?;
    Ok((parameters, rest))
}
