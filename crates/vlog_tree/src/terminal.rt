//! The words and symbols that the grammar spells.

ghost use Rattle.std.specs.Prelude.{◌≡◌};
ghost use Rattle.vlog_tree.specs.Words.{terminal_kind, terminal_text};

use vlog_lex::TokenKind;

/// The reserved words and symbols that stand in the grammar.
#[derive(Clone, Copy, PartialEq, Eq)]
pub enum Terminal {
    /// `always`
    Always,
    /// `assign`
    Assign,
    /// `begin`
    Begin,
    /// `case`
    Case,
    /// `default`
    Default,
    /// `else`
    Else,
    /// `end`
    End,
    /// `endcase`
    Endcase,
    /// `endmodule`
    Endmodule,
    /// `if`
    If,
    /// `input`
    Input,
    /// `localparam`
    Localparam,
    /// `module`
    Module,
    /// `output`
    Output,
    /// `parameter`
    Parameter,
    /// `posedge`
    Posedge,
    /// `reg`
    Reg,
    /// `wire`
    Wire,
    /// `(`
    ParenOpen,
    /// `)`
    ParenClose,
    /// `[`
    BracketOpen,
    /// `]`
    BracketClose,
    /// `{`
    BraceOpen,
    /// `}`
    BraceClose,
    /// `;`
    Semicolon,
    /// `,`
    Comma,
    /// `.`
    Dot,
    /// `:`
    Colon,
    /// `?`
    Question,
    /// `#`
    Hash,
    /// `@`
    At,
    /// `=`
    Equals,
    /// `+`
    Plus,
    /// `-`
    Minus,
    /// `*`
    Star,
    /// `!`
    Bang,
    /// `~`
    Tilde,
    /// `&`
    Ampersand,
    /// `|`
    Bar,
    /// `^`
    Caret,
    /// `<`
    Less,
    /// `>`
    Greater,
    /// `<=`
    LessEquals,
    /// `>=`
    GreaterEquals,
    /// `==`
    EqualsEquals,
    /// `!=`
    BangEquals,
    /// `&&`
    AmpersandAmpersand,
    /// `||`
    BarBar,
    /// `<<`
    LessLess,
    /// `>>`
    GreaterGreater,
    /// `<<<`
    LessLessLess,
    /// `>>>`
    GreaterGreaterGreater,
    /// `~&`
    TildeAmpersand,
    /// `~|`
    TildeBar,
    /// `~^`
    TildeCaret,
    /// `^~`
    CaretTilde,
    /// `+:`
    PlusColon,
}

impl Terminal {
    /// `Reserved` for a word, `Other` for a symbol.
    pub fn kind(self) -> TokenKind
        ensures { result ≡ terminal_kind self }
    {
        match self {
            Terminal::Always
            | Terminal::Assign
            | Terminal::Begin
            | Terminal::Case
            | Terminal::Default
            | Terminal::Else
            | Terminal::End
            | Terminal::Endcase
            | Terminal::Endmodule
            | Terminal::If
            | Terminal::Input
            | Terminal::Localparam
            | Terminal::Module
            | Terminal::Output
            | Terminal::Parameter
            | Terminal::Posedge
            | Terminal::Reg
            | Terminal::Wire => TokenKind::Reserved,
            _ => TokenKind::Other,
        }
    }

    /// The bytes of the token.
    pub fn text(self) -> &'static [u8]
        ensures { result.now ≡ terminal_text self }
    {
        match self {
            Terminal::Always => b"always",
            Terminal::Assign => b"assign",
            Terminal::Begin => b"begin",
            Terminal::Case => b"case",
            Terminal::Default => b"default",
            Terminal::Else => b"else",
            Terminal::End => b"end",
            Terminal::Endcase => b"endcase",
            Terminal::Endmodule => b"endmodule",
            Terminal::If => b"if",
            Terminal::Input => b"input",
            Terminal::Localparam => b"localparam",
            Terminal::Module => b"module",
            Terminal::Output => b"output",
            Terminal::Parameter => b"parameter",
            Terminal::Posedge => b"posedge",
            Terminal::Reg => b"reg",
            Terminal::Wire => b"wire",
            Terminal::ParenOpen => b"(",
            Terminal::ParenClose => b")",
            Terminal::BracketOpen => b"[",
            Terminal::BracketClose => b"]",
            Terminal::BraceOpen => b"{",
            Terminal::BraceClose => b"}",
            Terminal::Semicolon => b";",
            Terminal::Comma => b",",
            Terminal::Dot => b".",
            Terminal::Colon => b":",
            Terminal::Question => b"?",
            Terminal::Hash => b"#",
            Terminal::At => b"@",
            Terminal::Equals => b"=",
            Terminal::Plus => b"+",
            Terminal::Minus => b"-",
            Terminal::Star => b"*",
            Terminal::Bang => b"!",
            Terminal::Tilde => b"~",
            Terminal::Ampersand => b"&",
            Terminal::Bar => b"|",
            Terminal::Caret => b"^",
            Terminal::Less => b"<",
            Terminal::Greater => b">",
            Terminal::LessEquals => b"<=",
            Terminal::GreaterEquals => b">=",
            Terminal::EqualsEquals => b"==",
            Terminal::BangEquals => b"!=",
            Terminal::AmpersandAmpersand => b"&&",
            Terminal::BarBar => b"||",
            Terminal::LessLess => b"<<",
            Terminal::GreaterGreater => b">>",
            Terminal::LessLessLess => b"<<<",
            Terminal::GreaterGreaterGreater => b">>>",
            Terminal::TildeAmpersand => b"~&",
            Terminal::TildeBar => b"~|",
            Terminal::TildeCaret => b"~^",
            Terminal::CaretTilde => b"^~",
            Terminal::PlusColon => b"+:",
        }
    }
}
