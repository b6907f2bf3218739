//! Waves whose texts are written by hand.

ghost use Rattle.std.specs.Prelude.{All};
ghost use Rattle.wave_text.specs.Wave.{FitsRow};

use std::alloc::Global;
use wave_text::text_page::{Draft, Page};
use wave_text::{Wave, WaveError, print_wave, read_wave};

/// Four nets in two cycles.
pub(crate) const FLICK: &str =
    "$timescale 1 ns $end\n$scope module flick $end\n$var wire 1 ! clk $end\n\
    $var wire 1 \" b_v $end\n$var wire 1 # b_r $end\n$var wire 1 $ t $end\n$upscope $end\n$enddefinitions $end\n\
    #0\n0!\n0\"\n1#\n0$\n#1\n1\"\n1$\n#2\n";

/// Nets of 1, 64, 65 and 128 bits, with the largest numbers and with 0; in the second row the last two change.
const WIDE: &str =
    "$timescale 1 ns $end\n$scope module wide $end\n$var wire 1 ! a $end\n$var wire 64 \" b $end\n\
    $var wire 65 # c $end\n$var wire 128 $ d $end\n$upscope $end\n$enddefinitions $end\n#0\n1!\n\
    b1111111111111111111111111111111111111111111111111111111111111111 \"\n\
    b11111111111111111111111111111111111111111111111111111111111111111 #\n\
    b11111111111111111111111111111111111111111111111111111111111111111111111111111111111111111111111111111111111111111111111111111111 $\n\
    #1\nb10 #\nb0 $\n#2\n";

/// Scopes that close several levels at once, and names that are fronts of one another.
const DEEP: &str =
    "$timescale 1 ns $end\n$scope module top $end\n$var wire 1 ! u $end\n$scope module u $end\n\
    $scope module v $end\n$scope module w $end\n$var wire 2 \" x $end\n$upscope $end\n$upscope $end\n\
    $var wire 2 # x $end\n$upscope $end\n$scope module uu $end\n$scope module v $end\n$var wire 2 $ xy $end\n\
    $upscope $end\n$upscope $end\n$scope module u $end\n$var wire 2 % xy $end\n$upscope $end\n$upscope $end\n\
    $enddefinitions $end\n#0\n0!\nb1 \"\nb10 #\nb11 $\nb0 %\n#1\n";

const NO_ROWS: &str =
    "$timescale 1 ns $end\n$scope module m $end\n$var wire 8 ! a $end\n$upscope $end\n\
    $enddefinitions $end\n#0\n";

/// The same rows as `FLICK` has, as Icarus Verilog writes them.
const ICARUS: &str =
    "$date\n\tMon Nov 30 15:38:10 2026\n$end\n$version\n\tIcarus Verilog\n$end\n$timescale\n\t1ns\n$end\n\
    $scope module bench $end\n$scope module f $end\n$var wire 1 ! b_r $end\n$var wire 1 \" b_v $end\n\
    $var wire 1 # clk $end\n$var reg 1 $ t $end\n$upscope $end\n$upscope $end\n$enddefinitions $end\n\
    #0\n$dumpvars\n0$\n0#\n0\"\n1!\n$end\n#1\n1$\n1#\n1\"\n#2\n0#\n#3\n";

/// Whether a wave's text is read, and its wave printed as this text.
pub(crate) fn is_kept(alloc: Global, text: &[u8]) -> bool {
    match read_wave(alloc, text) {
        Ok(wave) => is_printed(alloc, &wave, text),
        Err(_) => false,
    }
}

fn is_printed(alloc: Global, wave: &Wave, text: &[u8]) -> bool
    requires { All (FitsRow wave.now.nets) wave.now.rows }
{
    let mut page = Draft::new(alloc);
    print_wave(&mut page, wave);
    match page.finish() {
        Ok(printed) => printed.as_slice() == text,
        Err(_) => false,
    }
}

/// Whether a text is that of no wave.
pub(crate) fn is_refused(alloc: Global, text: &[u8]) -> bool {
    match read_wave(alloc, text) {
        Err(WaveError::BadWave) => true,
        _ => false,
    }
}

/// Whether the nets of a text have these numbers in a row.
fn has_row(alloc: Global, text: &[u8], t: usize, row: &[u128]) -> bool {
    match read_wave(alloc, text) {
        Ok(wave) => match wave.rows.get(t) {
            Some(numbers) => numbers.as_slice() == row,
            None => false,
        },
        Err(_) => false,
    }
}

/// Whether a text's net has this full name and width.
fn has_net(alloc: Global, text: &[u8], n: usize, name: &[u8], width: u32) -> bool {
    match read_wave(alloc, text) {
        Ok(wave) => match wave.nets.get(n) {
            Some(net) => net.name.as_slice() == name && net.width == width,
            None => false,
        },
        Err(_) => false,
    }
}

#[test]
fn flick_is_read(rt: HostRuntime) {
    let text = FLICK.as_bytes();
    assert!(rt; is_kept(rt.alloc(), text));
    assert!(rt;
        has_row(rt.alloc(), text, 0, &[0, 0, 1, 0]) && has_row(rt.alloc(), text, 1, &[0, 1, 1, 1])
    );
    assert!(rt;
        has_net(rt.alloc(), text, 1, b"b_v", 1) && !has_row(rt.alloc(), text, 2, &[0, 1, 1, 1])
    );
}

#[test]
fn wide_numbers_are_read(rt: HostRuntime) {
    let text = WIDE.as_bytes();
    let first = [
        1,
        18_446_744_073_709_551_615,
        36_893_488_147_419_103_231,
        u128::MAX,
    ];
    assert!(rt; is_kept(rt.alloc(), text));
    assert!(rt; has_row(rt.alloc(), text, 0, &first));
    assert!(rt; has_row(rt.alloc(), text, 1, &[1, 18_446_744_073_709_551_615, 2, 0]));
    assert!(rt; has_net(rt.alloc(), text, 2, b"c", 65) && has_net(rt.alloc(), text, 3, b"d", 128));
}

#[test]
fn scopes_are_read(rt: HostRuntime) {
    let text = DEEP.as_bytes();
    assert!(rt; is_kept(rt.alloc(), text));
    assert!(rt;
        has_net(rt.alloc(), text, 0, b"u", 1) && has_net(rt.alloc(), text, 1, b"u.v.w.x", 2)
    );
    assert!(rt;
        has_net(rt.alloc(), text, 2, b"u.x", 2) && has_net(rt.alloc(), text, 3, b"uu.v.xy", 2)
    );
    assert!(rt;
        has_net(rt.alloc(), text, 4, b"u.xy", 2) && has_row(rt.alloc(), text, 0, &[0, 1, 2, 3, 0])
    );
}

#[test]
fn no_rows_are_read(rt: HostRuntime) {
    assert!(rt; is_kept(rt.alloc(), NO_ROWS.as_bytes()));
    assert!(rt; !has_row(rt.alloc(), NO_ROWS.as_bytes(), 0, &[0]));
}

#[test]
fn another_profile_is_refused(rt: HostRuntime) {
    assert!(rt; is_refused(rt.alloc(), ICARUS.as_bytes()));
    assert!(rt; is_refused(rt.alloc(), b""));
}
