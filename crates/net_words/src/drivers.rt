//! The words on code: the drivers and the clocked blocks of a design.

use crate::designs::print_net;
use net_design::{Code, Design, Mask};
use net_sim::vidi_bits::{Items, Name};
use vlog_words::report_text::{Draft, Page, print_number};

/// `drivers FILE TOP`: for each driver its line, `*` where it is an `always @*`, the bits that it writes, and those that it reads.
pub(crate) fn print_drivers(design: &Design, paths: &Items<Name>, page: &mut Draft) {
    for driver in design.drivers.as_slice() {
        print_number(page, driver.line);
        page.print(if driver.always { b"*" } else { b"" });
        print_code(design, paths, &driver.code, page);
    }
}

/// `blocks FILE TOP`: for each clocked block the bits that it writes, and those that it reads.
pub(crate) fn print_blocks(design: &Design, paths: &Items<Name>, page: &mut Draft) {
    for code in design.blocks.as_slice() {
        page.print(b"@");
        print_code(design, paths, code, page);
    }
}

/// ` NAME=BITS .. < NAME=BITS ..`
fn print_code(design: &Design, paths: &Items<Name>, code: &Code, page: &mut Draft) {
    print_masks(design, paths, code.writes.as_slice(), page);
    page.print(b" <");
    print_masks(design, paths, code.reads.as_slice(), page);
    page.print(b"\n");
}

/// ` NAME=BITS` for each mask
fn print_masks(design: &Design, paths: &Items<Name>, masks: &[Mask], page: &mut Draft) {
    for mask in masks {
        page.print(b" ");
        print_net(design, paths, mask.net, page);
        page.print(b"=");
        print_number(page, mask.bits);
    }
}
