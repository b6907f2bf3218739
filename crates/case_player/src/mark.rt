//! The marks of a case file.

/// How a file's bytes are written.
#[derive(Clone, Copy)]
pub enum Form {
    /// Line by line.
    Text,
    /// As hexadecimal digits, two a byte.
    Hex,
    /// By pieces, each with how often it stands there.
    Pieces,
}

/// What a marked line begins.
#[derive(Clone, Copy)]
pub enum Mark {
    /// A group of cases.
    Title,
    /// A case.
    Case,
    /// A case that is wanted to fail.
    Negative,
    /// A case over the files that the one before left.
    Sequel,
    /// A file before the call.
    File { form: Form },
    /// A call that fails.
    Failing,
    /// The exit number and the printed text.
    Exit,
    /// A file after the call.
    Left { form: Form },
}

impl Mark {
    /// The mark that is spelled so.
    pub fn of(spelling: &str) -> Option<Mark> {
        match spelling {
            "**" => Some(Mark::Title),
            "==" => Some(Mark::Case),
            "=!" => Some(Mark::Negative),
            "++" => Some(Mark::Sequel),
            "--" => Some(Mark::File { form: Form::Text }),
            "-*" => Some(Mark::File { form: Form::Pieces }),
            "-x" => Some(Mark::File { form: Form::Hex }),
            "!!" => Some(Mark::Failing),
            ">>" => Some(Mark::Exit),
            ">-" => Some(Mark::Left { form: Form::Text }),
            ">*" => Some(Mark::Left { form: Form::Pieces }),
            ">x" => Some(Mark::Left { form: Form::Hex }),
            _ => None,
        }
    }
}
