//! A page in memory.

ghost use Rattle.std.specs.Prelude.{◌≡◌, false, ◌++◌, IfOk};

use crate::page::Page;
use std::alloc::Global;
use vidi_io::vidi_bits::{Bytes, Memory};

/// A page in memory, which grows. It is lost where no memory is found.
#[derive(Drop)]
pub struct Draft {
    text: Vec<u8>,
    lacks: bool,
}

impl Draft {
    ghost use Rattle.text_page.specs.Draft.{IsBlank};

    /// An empty page.
    pub fn new(alloc: Global) -> Draft
        ensures { IsBlank result }
    {
        Draft {
            text: Vec::new(alloc),
            lacks: false,
        }
    }

    /// The text that was printed on the page, unless it is lost.
    pub fn finish(self) -> Result<Bytes, Memory>
        ensures { IfOk result (λ text. (self.lacks ≡ false) × (text ≡ self.text.items)) }
    {
        let Draft { text, lacks } = self;
        if lacks {
            return Err(Memory);
        }
        Ok(Bytes::from_vec(text))
    }
}

impl Page for Draft {
    ghost use Rattle.std.specs.Prelude.{List, ℕ};
    ghost use Rattle.std.proofs.Common.{sym, ap, append_assoc, ◌∙◌};
    ghost use Rattle.std.proofs.lemmas.List.{append-nil};
    ghost use Rattle.text_page.specs.Draft.{Wrote};

    ghost went = { Wrote };

    ghost still = { λ p found. (found, sym (append-nil p.text.items)) };

    ghost onward = { λ p q r a b first second found.
        let then : (q.lacks ≡ false) × (r.text.items ≡ q.text.items ++ b) = second found in
        let before : (p.lacks ≡ false) × (q.text.items ≡ p.text.items ++ a) = first then.0 in
        (before.0, then.1 ∙ ap (λ (x : List ℕ). x ++ b) before.1 ∙ append_assoc p.text.items a b) };

    fn print(&mut self, piece: &[u8]) {
        if !self.lacks && self.text.extend_from_slice(piece).is_err() {
            self.lacks = true;
        }
    }

    fn is_lost(&self) -> bool {
        self.lacks
    }
}
