//! Notes on a tree, in the order of its text: its signs, or the lines that it keeps.

use crate::ended::Ended;
use report_text::{Draft, Page, print_number};
use std::alloc::Global;

/// What is noted of a tree.
#[derive(Clone, Copy)]
pub(crate) enum Noted {
    /// The signs of a file, in which expressions have none.
    File,
    /// The signs of an expression.
    Expression,
    /// The lines, with a space between them.
    Lines,
}

/// Notes on a tree, in the order of its text.
#[derive(Drop)]
pub(crate) struct Notes {
    page: Draft,
    noted: Noted,
    has_line: bool,
}

impl Notes {
    /// No notes yet.
    pub(crate) fn new(alloc: Global, noted: Noted) -> Notes {
        Notes {
            page: Draft::new(alloc),
            noted,
            has_line: false,
        }
    }

    /// Prints the notes, and the end of the line.
    pub(crate) fn print(self, page: &mut Draft) -> Result<(), Ended> {
        let Notes { page: own, .. } = self;
        let text = own.finish()?;
        page.print(text.as_slice());
        page.print(b"\n");
        Ok(())
    }

    /// Notes a sign of a file.
    pub(crate) fn sign(&mut self, sign: &[u8]) {
        if let Noted::File = self.noted {
            self.page.print(sign);
        }
    }

    /// Notes how many parts there are, which is a sign of a file.
    pub(crate) fn count(&mut self, parts: usize) {
        if let Noted::File = self.noted {
            print_number(&mut self.page, parts);
        }
    }

    /// Notes a sign of an expression.
    pub(crate) fn mark(&mut self, sign: &[u8]) {
        if let Noted::Expression = self.noted {
            self.page.print(sign);
        }
    }

    /// Notes a line.
    pub(crate) fn line(&mut self, line: u32) {
        if let Noted::Lines = self.noted {
            self.page.print(if self.has_line { b" " } else { b"" });
            print_number(&mut self.page, line);
            self.has_line = true;
        }
    }

    /// Notes a line that is a sign of a file too.
    pub(crate) fn line_sign(&mut self, line: u32) {
        if let Noted::File = self.noted {
            print_number(&mut self.page, line);
        }
        self.line(line);
    }
}
