//! The limits of nesting and length.

ghost use Rattle.std.specs.Prelude.{◌≡◌, if◌then◌else◌, suc, ℕ, ◌≤◌, ◌<◌, ◌-◌, ◌^◌, ◌↔◌, true, IsTrue, Some, None, codes};
ghost use Rattle.vlog_item.specs.vlog_expr.Marks.{marked, all_marked};
ghost use Rattle.vlog_parse.specs.Depth.{is_word, is_symbol, opens, closes, open_at, is_cut, is_else, IsDeep, IsShallow};
ghost use Rattle.vlog_parse.specs.Depth.{outside_at, overruns};

use vlog_item::vlog_lex::{Token, TokenKind};

const MOST_OPEN: usize = 32;

const LONGEST_RUN: u32 = 1_024;

const MOST_ELSES: u32 = 1_024;

/// The most tokens of one expression outside of brackets: each operator among them is a level of its tree.
const MOST_OUTSIDE: u32 = 2_048;

/// What counts behind the tokens that were read.
#[derive(Clone, Copy)]
struct Limits {
    /// Brackets, `begin` and `case` that are open.
    depth: usize,
    /// Tokens since the last cut.
    run: u32,
    /// `else` since the last `always`.
    elses: u32,
}

fn is_word(word: &[u8], token: &Token) -> bool
    ensures { result ≡ is_word word.now (marked token.now) }
{
    token.kind == TokenKind::Reserved && token.text.as_slice() == word
}

fn is_symbol(symbol: &[u8], token: &Token) -> bool
    ensures { result ≡ is_symbol symbol.now (marked token.now) }
{
    token.kind == TokenKind::Other && token.text.as_slice() == symbol
}

fn opens(token: &Token) -> bool
    ensures { result ≡ opens (marked token.now) }
{
    is_symbol(b"(", token)
        || is_symbol(b"[", token)
        || is_symbol(b"{", token)
        || is_word(b"begin", token)
        || is_word(b"case", token)
}

fn closes(token: &Token) -> bool
    ensures { result ≡ closes (marked token.now) }
{
    is_symbol(b")", token)
        || is_symbol(b"]", token)
        || is_symbol(b"}", token)
        || is_word(b"end", token)
        || is_word(b"endcase", token)
}

/// How many are open at the token, where `before` are open before it.
fn open_at(before: usize, token: &Token) -> usize
    requires { before < 2 ^ 64 - 1 }
    ensures { result ≡ open_at before (marked token.now) }
{
    if opens(token) {
        before + 1
    } else if closes(token) {
        before.saturating_sub(1)
    } else {
        before
    }
}

/// Whether a run of tokens ends with this one, at which `depth` are open.
fn is_cut(depth: usize, token: &Token) -> bool
    ensures { result ≡ is_cut depth (marked token.now) }
{
    is_symbol(b";", token) || is_word(b"endmodule", token) || (is_symbol(b",", token) && depth <= 1)
}

impl Limits {
    /// Counts the token, and tells whether no limit is passed at it.
    fn count(&mut self, token: &Token) -> bool
        requires depth { self.old.depth ≤ 32 }
        requires run { self.old.run ≤ 1024 }
        requires elses { self.old.elses ≤ 1024 }
        ensures depth { self.new.depth ≡ open_at self.old.depth (marked token.now) }
        ensures run { self.new.run ≡ (if is_cut self.new.depth (marked token.now) then 0 else suc self.old.run) }
        ensures elses { self.new.elses ≡ (if is_word (codes "always") (marked token.now) then 0 else if is_else (marked token.now)
            then suc self.old.elses else self.old.elses) }
        ensures within { IsTrue result ↔ ((self.new.depth ≤ 32) × (self.old.run < 1024)
            × (is_else (marked token.now) ≡ true → self.old.elses < 1024)) }
    {
        let is_else = is_word(b"else", token);
        self.depth = open_at(self.depth, token);
        let passes = self.depth > MOST_OPEN
            || self.run >= LONGEST_RUN
            || (is_else && self.elses >= MOST_ELSES);
        if is_cut(self.depth, token) {
            self.run = 0;
        } else {
            self.run += 1;
        }
        if is_word(b"always", token) {
            self.elses = 0;
        } else if is_else {
            self.elses += 1;
        }
        !passes
    }
}

/// The line of the first token, if any, at which a limit of a design text is passed.
///
/// The limits: 32 of `(`, `[`, `{`, `begin` and `case` open; 1,024 tokens since a cut, which is the start,
/// a `;`, an `endmodule`, or a `,` at which at most one is open; 1,024 `else` since an `always`. A closer
/// with nothing open counts nothing. The tokens need not be those of a file.
pub fn deep_line(tokens: &[Token]) -> Option<u32>
    ensures found { (line : ℕ) → (result ≡ Some line) ↔ IsDeep (all_marked tokens.now) line }
    ensures none { (result ≡ None) ↔ IsShallow (all_marked tokens.now) }
{
    let mut limits = Limits {
        depth: 0,
        run: 0,
        elses: 0,
    };
    for token in tokens {
        if !limits.count(token) {
            return Some(token.line);
        }
    }
    None
}

/// How many tokens stand outside of brackets since the last cut there, where so many stood before this one, at which `depth` are open.
fn outside_at(before: u32, depth: usize, token: &Token) -> u32
    requires { before ≤ 2048 }
    ensures { result ≡ outside_at before depth (marked token.now) }
{
    if depth > 0 {
        before
    } else if is_cut(depth, token) {
        0
    } else {
        before + 1
    }
}

/// Whether more than 2,048 tokens stand outside of brackets with no cut there between them. A comma within one bracket is a cut too,
/// so the run of `{a, a} + {a, a} + ..` has no end, while its tree is as deep as it has operators.
pub fn overruns(tokens: &[Token]) -> bool
    ensures { result ≡ overruns 0 0 (all_marked tokens.now) }
{
    let mut depth = 0;
    let mut outside = 0;
    for token in tokens {
        depth = open_at(depth, token);
        outside = outside_at(outside, depth, token);
        if outside > MOST_OUTSIDE {
            return true;
        }
    }
    false
}
