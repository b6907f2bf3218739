//! What stands between tokens: white space, comments, directives (IEEE 1364-2005, 3.2, 3.3 and 19).

ghost use Rattle.std.specs.Prelude.{◌≡◌, ◌≢◌, ◌≤◌, ℕ, List, ◌++◌, IfSome, IfNone, length};
ghost use Rattle.std.specs.List.{prefix_len};
ghost use Rattle.vlog_lex.specs.Gap.{is_no_newline, IsWhite, IsLineComment, EndsComment, IsBlockComment, IsDirective, IsGap};
ghost use Rattle.vlog_lex.specs.Front.{IsFrontBefore};

use crate::scan::name_part_len;
use crate::words::is_directive;

/// The bytes after this mark, where they begin with it.
fn after_mark<'a>(bytes: &'a [u8], mark: &[u8]) -> Option<&'a [u8]>
    ensures found { IfSome result (λ rest. bytes.now ≡ mark.now ++ rest.now) }
    ensures none { IfNone result ((rest : List ℕ) → bytes.now ≢ mark.now ++ rest) }
{
    bytes.strip_prefix(mark)
}

/// The number of bytes up to the next newline, or to the end.
fn line_len(bytes: &[u8]) -> usize
    ensures value { result ≡ prefix_len is_no_newline bytes.now }
    ensures fits { result ≤ length bytes.now }
{
    bytes.iter().take_while(|b| **b != b'\n').count()
}

/// 1 where white space stands at the front, else 0.
fn white_len(bytes: &[u8]) -> usize
    ensures { IsFrontBefore (λ text rest. IsWhite text) result bytes.now }
{
    match bytes {
        [b, ..] if b.is_ascii_whitespace() => 1,
        _ => 0,
    }
}

/// The length of the line comment at the front, 0 where none begins.
fn line_comment_len(bytes: &[u8]) -> usize
    ensures { IsFrontBefore IsLineComment result bytes.now }
{
    match after_mark(bytes, b"//") {
        Some(body) => 2 + line_len(body),
        None => 0,
    }
}

/// The number of bytes up to and with the first `*/`, 0 where there is none.
fn comment_end_len(bytes: &[u8]) -> usize
    ensures { IsFrontBefore (λ text rest. EndsComment text) result bytes.now }
{
    for i in 1..bytes.len() {
        if bytes[i - 1] == b'*' && bytes[i] == b'/' {
            return i + 1;
        }
    }
    0
}

/// The length of the block comment at the front, 0 where none begins or it has no end.
fn block_comment_len(bytes: &[u8]) -> usize
    ensures { IsFrontBefore (λ text rest. IsBlockComment text) result bytes.now }
{
    let Some(body) = after_mark(bytes, b"/*") else {
        return 0;
    };
    let end = comment_end_len(body);
    if end > 0 { 2 + end } else { 0 }
}

/// The length of the directive's line at the front, 0 where none begins.
fn directive_len(bytes: &[u8]) -> usize
    ensures { IsFrontBefore IsDirective result bytes.now }
{
    let Some(rest) = after_mark(bytes, b"`") else {
        return 0;
    };
    let word = name_part_len(rest);
    if is_directive(&rest[..word]) {
        1 + word + line_len(&rest[word..])
    } else {
        0
    }
}

/// The length of the white space, comment or directive's line at the front, 0 where none begins.
pub fn gap_len(bytes: &[u8]) -> usize
    ensures { IsFrontBefore IsGap result bytes.now }
{
    let white = white_len(bytes);
    if white > 0 {
        return white;
    }
    let line = line_comment_len(bytes);
    if line > 0 {
        return line;
    }
    let block = block_comment_len(bytes);
    if block > 0 {
        return block;
    }
    directive_len(bytes)
}
