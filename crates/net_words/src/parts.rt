//! The words on the nets of a design, and on its ports, clock, registers and memories.

use crate::designs::{print_name, print_net};
use net_design::{Design, Direction};
use net_sim::vidi_bits::{Items, Name};
use vlog_words::report_text::{Draft, Page, print_number};

/// `nets FILE TOP`: the full name and the width of each net, a line each.
pub(crate) fn print_nets(design: &Design, paths: &Items<Name>, page: &mut Draft) {
    for net in design.nets.as_slice() {
        print_name(paths, net.instance, &net.name, page);
        page.print(b" ");
        print_number(page, net.width);
        page.print(b"\n");
    }
}

/// `parts FILE TOP`: the ports, the clock, the registers and the memories, on four lines.
pub(crate) fn print_parts(design: &Design, paths: &Items<Name>, page: &mut Draft) {
    page.print(b"ports");
    print_ports(design, page);
    page.print(b"\nclock");
    print_clock(design, page);
    page.print(b"\nregisters");
    print_registers(design, paths, page);
    page.print(b"\nmemories");
    print_memories(design, paths, page);
    page.print(b"\n");
}

/// ` NAME<WIDTH` for each input, ` NAME>WIDTH` for each output.
fn print_ports(design: &Design, page: &mut Draft) {
    for port in design.ports.as_slice() {
        page.print(b" ");
        page.print(port.name.as_slice());
        page.print(match port.direction {
            Direction::Input => b"<",
            Direction::Output => b">",
        });
        print_number(page, port.width);
    }
}

/// ` PORT` for the clock, nothing where there is none.
fn print_clock(design: &Design, page: &mut Draft) {
    if let Some(clock) = design.clock {
        page.print(b" ");
        match design.ports.get(clock) {
            Some(port) => page.print(port.name.as_slice()),
            None => page.print(b"?"),
        }
    }
}

/// ` NAME=INITIAL/HELD` for each register.
fn print_registers(design: &Design, paths: &Items<Name>, page: &mut Draft) {
    for register in design.registers.as_slice() {
        page.print(b" ");
        print_net(design, paths, register.net, page);
        page.print(b"=");
        print_number(page, register.initial);
        page.print(b"/");
        print_number(page, register.held);
    }
}

/// ` NAME:WIDTH[LENGTH]FIRST` for each memory, with the place of its first word.
fn print_memories(design: &Design, paths: &Items<Name>, page: &mut Draft) {
    for memory in design.memories.as_slice() {
        page.print(b" ");
        print_name(paths, memory.instance, &memory.name, page);
        page.print(b":");
        print_number(page, memory.width);
        page.print(b"[");
        print_number(page, memory.room.length);
        page.print(b"]");
        print_number(page, memory.room.first);
    }
}
