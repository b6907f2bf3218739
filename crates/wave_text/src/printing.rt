//! A whole wave, printed.

ghost use Rattle.std.specs.Prelude.{[], None, All};
ghost use Rattle.wave_text.specs.Text as said;
ghost use Rattle.wave_text.specs.Wave.{FitsRow};

use crate::declarations::print_declarations;
use crate::value_lines::{print_mark, print_row};
use crate::wave::{Wave, WaveNet};
use text_page::Page;
use vlog_lex::vidi_bits::Numbers;

/// Prints rows from number 0 on, and the end.
fn print_rows<P: Page>(page: &mut P, nets: &[WaveNet], rows: &[Numbers])
    requires { All (FitsRow nets.now) rows.now }
    ensures { P.went page.old page.new (said.text_of (said.row_lines nets.now 0 None rows.now)) }
{
    let mut before = None;
    for (t, row) in rows.iter().enumerate() {
        print_row(page, t, nets, before, row.as_slice());
        before = Some(row.as_slice());
    }
    print_mark(page, rows.len());
}

/// Prints a wave.
pub fn print_wave<P: Page>(page: &mut P, wave: &Wave)
    requires { All (FitsRow wave.now.nets) wave.now.rows }
    ensures { P.went page.old page.new (said.wave_text wave.now) }
{
    let nets = wave.nets.as_slice();
    print_declarations(page, wave.top.as_slice(), nets);
    print_rows(page, nets, wave.rows.as_slice());
}
