//! Printed text, built piece by piece.

ghost use Rattle.std.specs.Prelude.{◌≡◌, ◌∷◌, ◌++◌, OnOk};
ghost use Rattle.std.specs.List.{flat_map};
ghost use Rattle.report_text.specs.Text.{spaced};

use itoa::{Buffer, Integer};
use text_page::vidi_io::vidi_bits::Memory;

/// Adds bytes.
pub fn put(text: &mut Vec<u8>, piece: &[u8]) -> Result<(), Memory>
    ensures { OnOk result (text.new.items ≡ text.old.items ++ piece.now) }
{
    text.extend_from_slice(piece)?;
    Ok(())
}

/// Adds a number in decimal.
pub fn put_number<I: Integer>(text: &mut Vec<u8>, number: I) -> Result<(), Memory>
    ensures { OnOk result (text.new.items ≡ text.old.items ++ I.text number) }
{
    let mut buffer = Buffer::new();
    put(text, buffer.format(number).as_bytes())
}

/// Adds each number after a space.
fn put_numbers<I: Integer>(text: &mut Vec<u8>, numbers: &[I]) -> Result<(), Memory>
    ensures { OnOk result (text.new.items ≡ text.old.items ++ flat_map (λ x. 32 ∷ I.text x) numbers.now) }
{
    for number in numbers {
        put(text, b" ")?;
        put_number(text, *number)?;
    }
    Ok(())
}

/// Adds a label, and a number in decimal.
pub(crate) fn put_with<I: Integer>(
    text: &mut Vec<u8>,
    label: &[u8],
    number: I,
) -> Result<(), Memory>
    ensures { OnOk result (text.new.items ≡ text.old.items ++ (label.now ++ I.text number)) }
{
    put(text, label)?;
    put_number(text, number)
}

/// Adds a label, and a name.
pub(crate) fn put_named(text: &mut Vec<u8>, label: &[u8], name: &[u8]) -> Result<(), Memory>
    ensures { OnOk result (text.new.items ≡ text.old.items ++ (label.now ++ name.now)) }
{
    put(text, label)?;
    put(text, name)
}

/// Adds a label, and each number after a space.
pub(crate) fn put_listed(text: &mut Vec<u8>, label: &[u8], numbers: &[u32]) -> Result<(), Memory>
    ensures { OnOk result (text.new.items ≡ text.old.items ++ (label.now ++ spaced numbers.now)) }
{
    put(text, label)?;
    put_numbers(text, numbers)
}
