//! Trees printed as text.

ghost use Rattle.std.specs.Prelude.{◌≡◌, ◌^◌, ◌-◌, [], ◌∷◌, ◌++◌, IfOk, OnOk, length, min};
ghost use Rattle.vlog_tree.specs.Plain.{plain};
ghost use Rattle.vlog_tree.specs.Shape.{IsGood};
ghost use Rattle.vlog_tree.specs.Spelling.{toks};
ghost use Rattle.vlog_parse.specs.vlog_lex.Words.{is_among};
ghost use Rattle.vlog_print.specs.Printed.{line_ends, gap_behind, printed, IsTextOf};

use crate::laws::printed_is_spelled;
use crate::spelling::tokens_of;
use std::alloc::Global;
use vlog_parse::vidi_bits::{Bytes, Items, Memory};
use vlog_parse::vlog_lex::Token;
use vlog_tree::File;

/// Whether a line ends behind a token.
fn ends_line(text: &[u8]) -> bool
    ensures { result ≡ is_among line_ends text.now }
{
    text == b";".as_slice()
        || text == b"begin".as_slice()
        || text == b"end".as_slice()
        || text == b"endcase".as_slice()
        || text == b"endmodule".as_slice()
}

/// The byte behind a token: a newline where a line ends, else a blank.
fn gap_behind(text: &[u8]) -> u8
    ensures { result ≡ gap_behind text.now }
{
    if ends_line(text) { b'\n' } else { b' ' }
}

/// Adds a token's text, and the byte behind it.
fn put_token(out: &mut Vec<u8>, text: &[u8]) -> Result<(), Memory>
    ensures { OnOk result (out.new.items ≡ out.old.items ++ (text.now ++ gap_behind text.now ∷ [])) }
{
    out.extend_from_slice(text)?;
    out.push(gap_behind(text))?;
    Ok(())
}

/// How many bytes the text of these tokens has, or the largest number where they are more.
fn room_for(tokens: &[Token]) -> usize
    ensures { result ≡ min (length (printed tokens.now)) (2 ^ 64 - 1) }
{
    let mut room: usize = 0;
    for token in tokens {
        room = room.saturating_add(token.text.len()).saturating_add(1);
    }
    room
}

/// The text of these tokens.
fn text_of(alloc: Global, tokens: &[Token]) -> Result<Bytes, Memory>
    ensures { IfOk result (λ text. text ≡ printed tokens.now) }
{
    let mut out = Vec::with_capacity(alloc, room_for(tokens))?;
    for token in tokens {
        put_token(&mut out, token.text.as_slice())?;
    }
    Ok(Items::from_vec(out))
}

/// The text of a tree of good shape: its tokens in order, with one space between two on a line and a newline behind each
/// `;`, `begin`, `end`, `endcase` and `endmodule`. The text's tokens are the tree's.
pub fn print(alloc: Global, file: &File) -> Result<Bytes, Memory>
    requires { IsGood (plain file.now) }
    ensures printed { IfOk result (λ text. text ≡ printed (toks (plain file.now))) }
    ensures read { IfOk result (λ text. IsTextOf (plain file.now) text) }
{
    printed_is_spelled();
    let tokens = tokens_of(alloc, file)?;
    text_of(alloc, tokens.as_slice())
}
