//! Single tokens written behind others.

ghost use Rattle.std.specs.Prelude.{◌≡◌, ℕ, [], ◌∷◌, ◌++◌, OnOk};
ghost use Rattle.vlog_tree.specs.Words.{NameWord, Fixed, NumberAt, number_kind, tokens_of};

use std::alloc::Global;
use vlog_parse::vidi_bits::{Memory, Name, copied};
use vlog_parse::vlog_lex::{Token, TokenKind, Tokens};
use vlog_tree::{Number, NumberKind, Terminal};

/// Adds a token with a copy of this text and with line 0.
fn put(alloc: Global, out: &mut Tokens, kind: TokenKind, text: &[u8]) -> Result<(), Memory>
    ensures { OnOk result (out.new ≡ out.old ++ record { kind = kind; text = text.now; line = 0 } ∷ []) }
{
    let text = copied(alloc, text)?;
    out.push(Token {
        kind,
        text,
        line: 0,
    })
}

pub fn put_fixed(alloc: Global, out: &mut Tokens, terminal: Terminal) -> Result<(), Memory>
    ensures { OnOk result (out.new ≡ out.old ++ tokens_of {A = ℕ} (Fixed terminal ∷ [])) }
{
    put(alloc, out, terminal.kind(), terminal.text())
}

/// Adds the tokens of two words or symbols.
pub fn put_two(
    alloc: Global,
    out: &mut Tokens,
    first: Terminal,
    second: Terminal,
) -> Result<(), Memory>
    ensures { OnOk result (out.new ≡ out.old ++ tokens_of {A = ℕ} (Fixed first ∷ Fixed second ∷ [])) }
{
    put_fixed(alloc, out, first)?;
    put_fixed(alloc, out, second)
}

pub fn put_name(alloc: Global, out: &mut Tokens, name: &Name) -> Result<(), Memory>
    ensures { OnOk result (out.new ≡ out.old ++ tokens_of {A = ℕ} (NameWord name.now ∷ [])) }
{
    put(alloc, out, TokenKind::Identifier, name.as_slice())
}

fn kind_of(kind: NumberKind) -> TokenKind
    ensures { result ≡ number_kind kind }
{
    match kind {
        NumberKind::Decimal => TokenKind::Decimal,
        NumberKind::Based => TokenKind::Based,
    }
}

pub fn put_number(alloc: Global, out: &mut Tokens, number: &Number) -> Result<(), Memory>
    ensures { OnOk result (out.new ≡ out.old ++ tokens_of (NumberAt number.now.kind number.now.text number.now.line ∷ [])) }
{
    put(alloc, out, kind_of(number.kind), number.text.as_slice())
}
