//! Tokens of worked designs and of short texts.

use TokenKind::{Based, Decimal, Identifier, Other, Reserved};
use std::alloc::Global;
use vlog_print::vlog_lex::{LexError, Token, TokenKind, Tokens, is_token, lex};

const PASS: &str = "\
module pass(input clk, input a_v, output a_r, input [7:0] a_d,
            output b_v, input b_r, output [7:0] b_d);
  reg full;
  reg [7:0] d;
  assign a_r = !full;
  assign b_v = full;
  assign b_d = d;
  always @(posedge clk)
    if (a_v & a_r) begin full <= 1'b1; d <= a_d; end
    else if (b_r) full <= 1'b0;
endmodule
";

const FLICK: &str =
    "module flick(input clk, output b_v, input b_r); reg t; assign b_v = t; always @(posedge clk) t <= ~t; endmodule";

const FLICK_TOKENS: &str =
    "module flick ( input clk , output b_v , input b_r ) ; reg t ; assign b_v = t ; always @ ( posedge clk ) t <= ~ t ; endmodule";

const SYMBOLS: &str =
    "( ) [ ] { } ; , . : ? # @ = + - * ! ~ & | ^ < > <= >= == != && || << >> <<< >>> ~& ~| ~^ ^~ +:";

const CASES: [(&str, &[(TokenKind, &str, u32)]); 15] = [
    (
        "a$b _ Begin",
        &[
            (Identifier, "a$b", 1),
            (Identifier, "_", 1),
            (Identifier, "Begin", 1),
        ],
    ),
    (
        "begin or endmodule2",
        &[
            (Reserved, "begin", 1),
            (Reserved, "or", 1),
            (Identifier, "endmodule2", 1),
        ],
    ),
    (
        "1_000_ 9a",
        &[
            (Decimal, "1_000_", 1),
            (Decimal, "9", 1),
            (Identifier, "a", 1),
        ],
    ),
    (
        "'hF 16'Hde_ad 1_2'o7",
        &[
            (Based, "'hF", 1),
            (Based, "16'Hde_ad", 1),
            (Based, "1_2'o7", 1),
        ],
    ),
    ("4'b012", &[(Based, "4'b01", 1), (Decimal, "2", 1)]),
    ("<<<<<", &[(Other, "<<<", 1), (Other, "<<", 1)]),
    (
        "a<==b",
        &[
            (Identifier, "a", 1),
            (Other, "<=", 1),
            (Other, "=", 1),
            (Identifier, "b", 1),
        ],
    ),
    (
        "^~^&&&",
        &[
            (Other, "^~", 1),
            (Other, "^", 1),
            (Other, "&&", 1),
            (Other, "&", 1),
        ],
    ),
    ("", &[]),
    (" \t\r\n\x0c", &[]),
    (
        "a // b\r c\nd",
        &[(Identifier, "a", 1), (Identifier, "d", 2)],
    ),
    (
        "a /* b\n\n // */ c",
        &[(Identifier, "a", 1), (Identifier, "c", 3)],
    ),
    ("/*/ a /* */ b", &[(Identifier, "b", 1)]),
    ("`timescale 1ns /*\na", &[(Identifier, "a", 2)]),
    ("`default_nettype none", &[]),
];

// A text that is refused, and the line of the place at which nothing begins.
const REFUSED: [(&str, u32); 16] = [
    ("4'hx", 1),
    ("8'd", 1),
    ("8'd_9", 1),
    ("a $b", 1),
    ("/*/", 1),
    ("a\n /* b *\n", 2),
    ("a / b", 1),
    ("`timescalex", 1),
    ("`timescale1", 1),
    ("` timescale", 1),
    ("`define", 1),
    ("\"a\"", 1),
    ("% 1", 1),
    ("é", 1),
    ("a /* \n\n */ //\n%\n", 4),
    ("`timescale 1\n\n\n8'hz", 4),
];

/// The tokens of a short text.
fn tokens_of(alloc: Global, text: &str) -> Option<Tokens> {
    if text.len() >= 10000 {
        return None;
    }
    lex(alloc, text.as_bytes()).ok()
}

/// Whether a token has this kind, these bytes and this line, and `is_token` says so of the kind and the bytes.
fn is_as_said(token: &Token, said: &(TokenKind, &str, u32)) -> bool {
    let bytes = said.1.as_bytes();
    token.kind == said.0
        && token.text.as_slice() == bytes
        && token.line == said.2
        && is_token(said.0, bytes)
}

fn are_as_said(tokens: &[Token], said: &[(TokenKind, &str, u32)]) -> bool {
    let mut right = tokens.len() == said.len();
    for (token, one) in tokens.iter().zip(said) {
        right &= is_as_said(token, one);
    }
    right
}

/// Whether a text has these tokens.
fn has_tokens(alloc: Global, text: &str, said: &[(TokenKind, &str, u32)]) -> bool {
    match tokens_of(alloc, text) {
        Some(tokens) => are_as_said(tokens.as_slice(), said),
        None => false,
    }
}

/// How many tokens stand on a line.
fn count_on(tokens: &[Token], line: u32) -> usize {
    tokens.iter().filter(|token| token.line == line).count()
}

/// The numbers of tokens are those that a reader counts in each line.
fn has_lines(tokens: &[Token]) -> bool {
    let mut right = tokens.len() == 94;
    for (line, count) in [
        (1, 20usize),
        (2, 15),
        (3, 3),
        (4, 8),
        (8, 6),
        (9, 16),
        (10, 9),
        (11, 1),
    ] {
        right &= count_on(tokens, line) == count;
    }
    right
}

#[test]
fn each_line_of_a_design_has_its_tokens(rt: HostRuntime) {
    let tokens = tokens_of(rt.alloc(), PASS);
    assert!(rt; tokens.is_some_and(|tokens| has_lines(tokens.as_slice())));
}

/// Whether tokens have these bytes, parted by spaces.
fn are_words(tokens: &[Token], words: &str, count: usize) -> bool {
    let mut right = tokens.len() == count;
    for (token, word) in tokens.iter().zip(words.split(' ')) {
        right &= token.text.as_slice() == word.as_bytes();
    }
    right
}

/// Whether a text has so many tokens, with these bytes.
fn has_words(alloc: Global, text: &str, words: &str, count: usize) -> bool {
    match tokens_of(alloc, text) {
        Some(tokens) => are_words(tokens.as_slice(), words, count),
        None => false,
    }
}

#[test]
fn tokens_come_in_the_order_of_the_text(rt: HostRuntime) {
    assert!(rt; has_words(rt.alloc(), FLICK, FLICK_TOKENS, 33));
    assert!(rt; has_words(rt.alloc(), SYMBOLS, SYMBOLS, 39));
}

#[test]
fn texts_have_the_longest_tokens(rt: HostRuntime) {
    let mut right = true;
    for (text, said) in &CASES {
        right &= has_tokens(rt.alloc(), text, said);
    }
    assert!(rt; right);
}

/// Whether a text is refused at this line.
fn is_refused(alloc: Global, text: &str, line: u32) -> bool {
    text.len() < 10000 && lex(alloc, text.as_bytes()).err() == Some(LexError::Word { line })
}

#[test]
fn a_text_is_refused_where_no_token_begins(rt: HostRuntime) {
    let mut right = true;
    for (text, line) in &REFUSED {
        right &= is_refused(rt.alloc(), text, *line);
    }
    assert!(rt; right);
}
