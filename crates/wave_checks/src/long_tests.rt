//! Waves of many nets and of many numbers.

use crate::wave_tests::{is_kept, is_refused};
use std::alloc::Global;
use wave_text::text_page::{Draft, Page, print_number};

/// Prints the ID of a net below 8,836.
fn print_id(page: &mut Draft, n: u32) {
    page.print(&[33 + (n % 94) as u8]);
    if n >= 94 {
        page.print(&[33 + (n / 94 % 94) as u8]);
    }
}

/// The text of a wave of so many nets of 1 bit and so many rows, all of them 0.
fn zeros(alloc: Global, nets: u32, rows: u32) -> Draft {
    let mut page = Draft::new(alloc);
    page.print(b"$timescale 1 ns $end\n$scope module m $end\n");
    for n in 0..nets {
        page.print(b"$var wire 1 ");
        print_id(&mut page, n);
        page.print(b" n");
        print_number(&mut page, n);
        page.print(b" $end\n");
    }
    page.print(b"$upscope $end\n$enddefinitions $end\n#0\n");
    for n in 0..if rows > 0 { nets } else { 0 } {
        page.print(b"0");
        print_id(&mut page, n);
        page.print(b"\n");
    }
    for t in 0..rows {
        page.print(b"#");
        print_number(&mut page, u64::from(t) + 1);
        page.print(b"\n");
    }
    page
}

/// Whether the text of so many nets and rows is read, or refused.
fn is_read(alloc: Global, nets: u32, rows: u32) -> Option<bool> {
    let text = zeros(alloc, nets, rows).finish().ok()?;
    if is_kept(alloc, text.as_slice()) {
        return Some(true);
    }
    if is_refused(alloc, text.as_slice()) {
        return Some(false);
    }
    None
}

#[test]
fn many_nets_are_read(rt: HostRuntime) {
    assert!(rt;
        is_read(rt.alloc(), 94, 1) == Some(true) && is_read(rt.alloc(), 95, 1) == Some(true)
    );
    assert!(rt;
        is_read(rt.alloc(), 200, 0) == Some(true) && is_read(rt.alloc(), 0, 3) == Some(false)
    );
}

#[test]
fn the_most_numbers_are_read(rt: HostRuntime) {
    assert!(rt; is_read(rt.alloc(), 2_048, 2_048) == Some(true));
    assert!(rt; is_read(rt.alloc(), 2_048, 2_049) == Some(false));
    assert!(rt; is_read(rt.alloc(), 4_097, 1_024) == Some(false));
}
