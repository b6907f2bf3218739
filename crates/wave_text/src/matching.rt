//! A page that compares.

ghost use Rattle.std.specs.Prelude.{◌≡◌, ◌++◌, ◌↔◌, ℕ, List, IsTrue, MatchOption, All};
ghost use Rattle.wave_text.specs.Text.{wave_text};
ghost use Rattle.wave_text.specs.Wave.{FitsRow};

use crate::printing::print_wave;
use crate::wave::Wave;
use text_page::Page;

/// A page on which nothing stays: it compares what is printed with a text.
#[derive(Drop)]
pub struct Matcher<'a> {
    rest: &'a [u8],
    differs: bool,
}

/// What stands behind a piece, where a text begins with it.
#[tactic(auto, using(crate::proofs::Fronts::front_there, crate::proofs::Fronts::front_not))]
fn behind<'a>(text: &'a [u8], piece: &[u8]) -> Option<&'a [u8]>
    ensures { MatchOption result ((tail : List ℕ) → text.now ≡ piece.now ++ tail → ⊥) (λ rest. text.now ≡ piece.now ++ rest.now) }
{
    text.strip_prefix(piece)
}

impl<'a> Matcher<'a> {
    ghost use Rattle.std.specs.Prelude.{false};

    /// A page that compares with this text.
    pub fn new(text: &'a [u8]) -> Matcher<'a>
        ensures text { result.rest.now ≡ text.now }
        ensures same { result.differs ≡ false }
    {
        Matcher {
            rest: text,
            differs: false,
        }
    }
}

impl<'a> Page for Matcher<'a> {
    ghost use Rattle.wave_text.specs.Matching.{Matched};
    ghost use Rattle.wave_text.specs.MatchingLaws.{matched_nothing, matched_on};

    ghost went = { λ p q text. Matched p.rest.now p.differs q.rest.now q.differs text };

    ghost still = { λ p. matched_nothing p.rest.now p.differs };

    ghost onward = { λ p q r a b first second.
        matched_on p.rest.now q.rest.now r.rest.now p.differs q.differs r.differs a b first second };

    fn print(&mut self, piece: &[u8]) {
        if self.differs {
            return;
        }
        match behind(self.rest, piece) {
            Some(rest) => self.rest = rest,
            None => self.differs = true,
        }
    }

    fn is_lost(&self) -> bool {
        self.differs
    }
}

/// Whether this is the text of a wave.
pub(crate) fn is_text(text: &[u8], wave: &Wave) -> bool
    requires { All (FitsRow wave.now.nets) wave.now.rows }
    ensures { IsTrue result ↔ (text.now ≡ wave_text wave.now) }
{
    let mut page = Matcher::new(text);
    print_wave(&mut page, wave);
    !page.differs && page.rest.is_empty()
}
