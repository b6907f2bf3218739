//! Reserved words, symbols and directives.

ghost use Rattle.std.specs.Prelude.{◌≡◌};
ghost use Rattle.std.specs.List.{list_any};
ghost use Rattle.std.specs.Str.{bytes_eq};
ghost use Rattle.vlog_lex.specs.Words.{is_reserved, is_symbol, is_directive};

// The reserved words (IEEE 1364-2005, Annex B) by their lengths.
const RESERVED_2: [&str; 2] = ["if", "or"];

const RESERVED_3: [&str; 11] = [
    "and", "buf", "end", "for", "nor", "not", "reg", "tri", "use", "wor", "xor",
];

const RESERVED_4: [&str; 20] = [
    "case", "cell", "cmos", "edge", "else", "fork", "join", "nand", "nmos", "pmos", "real", "task",
    "time", "tran", "tri0", "tri1", "wait", "wand", "wire", "xnor",
];

const RESERVED_5: [&str; 21] = [
    "begin", "casex", "casez", "event", "force", "inout", "input", "large", "pull0", "pull1",
    "rcmos", "rnmos", "rpmos", "rtran", "small", "table", "trior", "uwire", "weak0", "weak1",
    "while",
];

const RESERVED_6: [&str; 21] = [
    "always", "assign", "bufif0", "bufif1", "config", "design", "genvar", "highz0", "highz1",
    "ifnone", "incdir", "medium", "module", "notif0", "notif1", "output", "pullup", "repeat",
    "signed", "triand", "trireg",
];

const RESERVED_7: [&str; 20] = [
    "default", "disable", "endcase", "endtask", "forever", "include", "initial", "integer",
    "liblist", "library", "negedge", "posedge", "release", "specify", "strong0", "strong1",
    "supply0", "supply1", "tranif0", "tranif1",
];

const RESERVED_8: [&str; 13] = [
    "deassign", "defparam", "endtable", "function", "generate", "instance", "pulldown", "realtime",
    "rtranif0", "rtranif1", "scalared", "unsigned", "vectored",
];

const RESERVED_9: [&str; 6] = [
    "automatic",
    "endconfig",
    "endmodule",
    "parameter",
    "primitive",
    "specparam",
];

const RESERVED_10: [&str; 2] = ["endspecify", "localparam"];

const RESERVED_LONGER: [&str; 8] = [
    "endfunction",
    "endgenerate",
    "endprimitive",
    "macromodule",
    "noshowcancelled",
    "pulsestyle_ondetect",
    "pulsestyle_onevent",
    "showcancelled",
];

/// Whether the text is one of the words.
fn is_one_of(text: &[u8], words: &[&str]) -> bool
    ensures { result ≡ list_any (λ w. bytes_eq text.now w.now) words.now }
{
    words.iter().any(|word| text == word.as_bytes())
}

/// Whether the text is a reserved word.
pub fn is_reserved(text: &[u8]) -> bool
    ensures { result ≡ is_reserved text.now }
{
    match text.len() {
        0..=1 => false,
        2 => is_one_of(text, &RESERVED_2),
        3 => is_one_of(text, &RESERVED_3),
        4 => is_one_of(text, &RESERVED_4),
        5 => is_one_of(text, &RESERVED_5),
        6 => is_one_of(text, &RESERVED_6),
        7 => is_one_of(text, &RESERVED_7),
        8 => is_one_of(text, &RESERVED_8),
        9 => is_one_of(text, &RESERVED_9),
        10 => is_one_of(text, &RESERVED_10),
        _ => is_one_of(text, &RESERVED_LONGER),
    }
}

/// Whether the text is an operator or punctuation.
#[tactic(auto, unfolding(crate::specs::Words::is_symbol))]
pub fn is_symbol(text: &[u8]) -> bool
    ensures { result ≡ is_symbol text.now }
{
    matches!(
        text,
        b"(" | b")"
            | b"["
            | b"]"
            | b"{"
            | b"}"
            | b";"
            | b","
            | b"."
            | b":"
            | b"?"
            | b"#"
            | b"@"
            | b"="
            | b"+"
            | b"-"
            | b"*"
            | b"!"
            | b"~"
            | b"&"
            | b"|"
            | b"^"
            | b"<"
            | b">"
            | b"<="
            | b">="
            | b"=="
            | b"!="
            | b"&&"
            | b"||"
            | b"<<"
            | b">>"
            | b"<<<"
            | b">>>"
            | b"~&"
            | b"~|"
            | b"~^"
            | b"^~"
            | b"+:"
    )
}

const DIRECTIVES: [&str; 2] = ["timescale", "default_nettype"];

/// Whether the text is the word of a directive whose line is skipped.
#[tactic(auto, unfolding(crate::specs::Words::is_directive))]
pub fn is_directive(text: &[u8]) -> bool
    ensures { result ≡ is_directive text.now }
{
    is_one_of(text, &DIRECTIVES)
}
