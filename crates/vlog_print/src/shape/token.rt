//! Good shape of names and numbers.

ghost use Rattle.std.specs.Prelude.{◌↔◌, IsTrue};
ghost use Rattle.vlog_parse.specs.vlog_lex.Lexeme.{IsToken};
ghost use Rattle.vlog_tree.specs.Shape.{IsGoodName};
ghost use Rattle.vlog_tree.specs.Words.{number_kind};

use vlog_parse::vidi_bits::Name;
use vlog_parse::vlog_lex::{TokenKind, is_token};
use vlog_tree::{Number, NumberKind};

/// Whether the name is an identifier and no reserved word.
pub fn good_name(name: &Name) -> bool
    ensures { IsTrue result ↔ IsGoodName name.now }
{
    is_token(TokenKind::Identifier, name.as_slice())
}

/// Whether the number is a lawful literal of its kind.
pub fn good_number(number: &Number) -> bool
    ensures { IsTrue result ↔ IsToken (number_kind number.now.kind) number.now.text }
{
    let kind = match number.kind {
        NumberKind::Decimal => TokenKind::Decimal,
        NumberKind::Based => TokenKind::Based,
    };
    is_token(kind, number.text.as_slice())
}
