//! Where text is printed, piece by piece.

ghost use Rattle.std.specs.Prelude.{ℕ, List, ◌∷◌, IsTrue};
ghost use Rattle.std.specs.List.{flat_map};

use itoa::{Buffer, Integer};

/// Where text is printed, piece by piece. A page that can take no more is lost: what is printed on it then goes
/// nowhere, and whoever made the page is told so at its end.
pub trait Page {
    ghost use Rattle.std.specs.Prelude.{[], ◌++◌};

    /// Printing this text on the one page made it the other.
    ghost went: { Self → Self → List ℕ → Type 0 };

    /// Prints a piece.
    fn print(&mut self, piece: &[u8])
        ensures { went self.old self.new piece.now };

    /// Whether the page is lost, so that printing changes nothing.
    fn is_lost(&self) -> bool
        ensures { IsTrue result → (text : List ℕ) → went self.now self.now text };

    /// Where nothing is printed the page stays.
    ghost still: { (p : Self) → went p p [] };

    /// One text after another is both.
    ghost onward: { (p q r : Self) (a b : List ℕ) → went p q a → went q r b → went p r (a ++ b) };
}

/// Prints a number in decimal.
pub fn print_number<P: Page, I: Integer>(page: &mut P, number: I)
    ensures { P.went page.old page.new (I.text number) }
{
    let mut buffer = Buffer::new();
    page.print(buffer.format(number).as_bytes());
}

/// Prints each number after a space.
pub fn print_numbers<P: Page, I: Integer>(page: &mut P, numbers: &[I])
    ensures { P.went page.old page.new (flat_map (λ x. 32 ∷ I.text x) numbers.now) }
{
    for number in numbers {
        print_after_space(page, *number);
    }
}

fn print_after_space<P: Page, I: Integer>(page: &mut P, number: I)
    ensures { P.went page.old page.new (32 ∷ I.text number) }
{
    page.print(b" ");
    print_number(page, number);
}
