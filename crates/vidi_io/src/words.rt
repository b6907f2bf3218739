//! The words of a command line as texts.

ghost use Rattle.std.specs.Prelude.{◌≡◌, IfOk};
ghost use Rattle.std.specs.String.{string_bytes};

use std::alloc::Global;
use std::marker::Model;
use vidi_bits::{Items, Memory};

/// A text, which contracts see as its bytes.
#[derive(Debug, Drop)]
pub struct Text {
    text: String,
}

impl Model for Text {
    ghost use Rattle.std.specs.Prelude.{List, ℕ};
    ghost use Rattle.std.specs.String.{string_bytes};

    ghost Value = { List ℕ };

    ghost view = { λ t. string_bytes t.text };
}

/// The words of a command.
pub type Words = Items<Text>;

impl Text {
    /// A copy of `s`.
    pub fn from_str(alloc: Global, s: &str) -> Result<Text, Memory>
        ensures { IfOk result (λ text. text ≡ s.now) }
    {
        let text = String::from_str(alloc, s)?;
        Ok(Text { text })
    }

    /// The text in `text`'s own memory.
    pub fn from_string(text: String) -> Text
        ensures { result ≡ string_bytes text }
    {
        Text { text }
    }

    /// The text itself.
    pub fn as_str(&self) -> &str
        ensures { result.now ≡ self.now }
    {
        self.text.as_str()
    }
}
