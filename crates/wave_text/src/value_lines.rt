//! The lines of rows, printed.

ghost use Rattle.std.specs.Prelude.{◌≡◌, ◌<◌, ◌≤◌, ◌+◌, ◌-◌, ◌^◌, drop, ◌++◌, ◌∷◌, [], ◌==◌, if◌then◌else◌, length, IfSome};
ghost use Rattle.std.specs.Option.{option_copied};
ghost use Rattle.wave_text.specs.Digits.{id_of, binary};
ghost use Rattle.wave_text.specs.Places.{number_room, lowest_digits, IsBegun};
ghost use Rattle.wave_text.specs.Text as said;
ghost use Rattle.wave_text.specs.Wave.{FitsRow};

use crate::wave::WaveNet;
use text_page::{Page, print_number};

/// How many bytes a number of many bits takes before its ID: a letter, 128 digits and a space.
const NUMBER_ROOM: usize = 130;

/// How many bytes its line takes where the ID is one byte.
const LINE_ROOM: usize = NUMBER_ROOM + 2;

/// Prints one byte.
fn print_byte<P: Page>(page: &mut P, byte: u8)
    ensures { P.went page.old page.new (byte ∷ []) }
{
    page.print(&[byte]);
}

/// Prints the ID of a net, and one byte more.
pub(crate) fn print_id<P: Page>(page: &mut P, n: usize, after: u8)
    ensures { P.went page.old page.new (id_of n ++ after ∷ []) }
{
    if n < 94 {
        page.print(&[33 + n as u8, after]);
        return;
    }
    print_byte(page, 33 + (n % 94) as u8);
    print_id(page, n / 94, after);
}

/// One in each of 8 bytes.
const ONES: u64 = 0x0101_0101_0101_0101;

/// One bit in each of 8 bytes, the highest in the lowest byte.
const BITS: u64 = 0x0102_0408_1020_4080;

/// The 8 digits of a number of 8 bits. Each byte has the number, of which it keeps its own bit.
fn eight_of(byte: u64) -> [u8; 8]
    requires { byte < 256 }
    ensures { result ≡ lowest_digits 8 byte }
{
    let bits = (byte * ONES) & BITS;
    let ones = ((bits + 127 * ONES) >> 7) & ONES;
    (ones + 48 * ONES).to_le_bytes()
}

/// Writes the 8 digits of a number of 8 bits from a place on.
fn put_eight(places: &mut [u8], at: usize, byte: u64)
    requires fits { at + 8 ≤ length places.old }
    requires byte { byte < 256 }
    ensures { drop at places.new ≡ lowest_digits 8 byte ++ drop (at + 8) places.old }
{
    places[at..at + 8].copy_from_slice(&eight_of(byte));
}

/// How many digits a number of 8 bits has without leading zeros.
fn digits_of(byte: u64) -> usize
    requires { byte < 256 }
    ensures fits { result ≤ 8 }
    ensures value { drop (8 - result) (lowest_digits 8 byte) ≡ binary byte }
{
    if byte == 0 {
        return 1;
    }
    byte.ilog2() as usize + 1
}

/// Writes the lower digits of a number before those of its highest 8 or fewer, and answers where they begin, and the number
/// of those that are left.
fn put_eights(places: &mut [u8], x: u128) -> (usize, u64)
    requires { number_room ≤ length places.old }
    ensures begun { IsBegun x places.old places.new result.0 result.1 }
    ensures few { result.1 < 256 }
{
    let mut at = NUMBER_ROOM - 1;
    let mut rest = x;
    'eights: while 256 <= rest {
        at -= 8;
        put_eight(places, at, (rest % 256) as u64);
        rest /= 256;
    }
    (at, rest as u64)
}

/// Writes a number of many bits as it stands before its ID, before the space at the place `number_room - 1`. It begins at
/// the place that is answered.
fn put_number(places: &mut [u8], x: u128) -> usize
    requires { number_room ≤ length places.old }
    ensures at { result ≤ length places.new }
    ensures text { drop result places.new ≡ 98 ∷ (binary x ++ drop (number_room - 1) places.old) }
{
    let (end, rest) = put_eights(places, x);
    put_eight(places, end - 8, rest);
    let at = end - digits_of(rest) - 1;
    places[at] = b'b';
    at
}

/// Prints a number as it stands before its ID.
fn print_number_of<P: Page>(page: &mut P, width: u32, x: u128)
    requires { x < 2 ^ width }
    ensures { P.went page.old page.new (if width == 1 then (48 + x) ∷ [] else 98 ∷ (binary x ++ 32 ∷ [])) }
{
    if width == 1 {
        print_byte(page, 48 + x as u8);
        return;
    }
    let mut places = [b' '; NUMBER_ROOM];
    let at = put_number(&mut places, x);
    page.print(&places[at..]);
}

/// Prints the line of a number of one bit, of a net whose ID is one byte.
fn print_short_bit<P: Page>(page: &mut P, n: usize, x: u128)
    requires net { n < 94 }
    requires bit { x < 2 }
    ensures { P.went page.old page.new ((48 + x) ∷ id_of n ++ 10 ∷ []) }
{
    page.print(&[48 + x as u8, 33 + n as u8, b'\n']);
}

/// Prints the line of a number of many bits, of a net whose ID is one byte.
fn print_short<P: Page>(page: &mut P, n: usize, x: u128)
    requires { n < 94 }
    ensures { P.went page.old page.new (98 ∷ (binary x ++ 32 ∷ id_of n) ++ 10 ∷ []) }
{
    let mut places = [b' '; LINE_ROOM];
    places[NUMBER_ROOM] = 33 + n as u8;
    places[NUMBER_ROOM + 1] = b'\n';
    let at = put_number(&mut places, x);
    page.print(&places[at..]);
}

/// Prints the line of a net's number.
fn print_value<P: Page>(page: &mut P, n: usize, width: u32, x: u128)
    requires { x < 2 ^ width }
    ensures { P.went page.old page.new (said.value_line n width x ++ 10 ∷ []) }
{
    if n >= 94 {
        print_number_of(page, width, x);
        print_id(page, n, b'\n');
    } else if width == 1 {
        print_short_bit(page, n, x);
    } else {
        print_short(page, n, x);
    }
}

/// Prints the line of a net's number, where it isn't the one before.
fn print_change<P: Page>(page: &mut P, n: usize, width: u32, before: u128, x: u128)
    requires { x < 2 ^ width }
    ensures { P.went page.old page.new (if before == x then [] else said.value_line n width x ++ 10 ∷ []) }
{
    if before == x {
        return;
    }
    print_value(page, n, width, x);
}

/// Prints all numbers of a row.
fn print_all<P: Page>(page: &mut P, nets: &[WaveNet], row: &[u128])
    requires { FitsRow nets.now row.now }
    ensures { P.went page.old page.new (said.text_of (said.all_lines 0 nets.now row.now)) }
{
    for (n, net) in nets.iter().enumerate() {
        print_value(page, n, net.width, row[n]);
    }
}

/// Prints the numbers of a row that aren't those of the row before.
fn print_changed<P: Page>(page: &mut P, nets: &[WaveNet], before: &[u128], row: &[u128])
    requires long { length before.now ≡ length nets.now }
    requires row { FitsRow nets.now row.now }
    ensures { P.went page.old page.new (said.text_of (said.changed_lines 0 nets.now before.now row.now)) }
{
    for (n, net) in nets.iter().enumerate() {
        print_change(page, n, net.width, before[n], row[n]);
    }
}

/// Prints the mark of row `t`: before the row, or behind the last one, of which it tells the number.
pub fn print_mark<P: Page>(page: &mut P, t: usize)
    ensures { P.went page.old page.new (said.mark t ++ 10 ∷ []) }
{
    print_byte(page, b'#');
    print_number(page, t);
    print_byte(page, b'\n');
}

/// Prints row `t` with its mark: the numbers of the nets that aren't those of the row before, or all where there is none.
pub fn print_row<P: Page>(
    page: &mut P,
    t: usize,
    nets: &[WaveNet],
    before: Option<&[u128]>,
    row: &[u128],
)
    requires long { IfSome before (λ numbers. length numbers.now ≡ length nets.now) }
    requires row { FitsRow nets.now row.now }
    ensures { P.went page.old page.new (said.text_of (said.mark t ∷ said.row_changes nets.now (option_copied before.entry) row.now)) }
{
    print_mark(page, t);
    match before {
        Some(numbers) => print_changed(page, nets, numbers, row),
        None => print_all(page, nets, row),
    }
}
