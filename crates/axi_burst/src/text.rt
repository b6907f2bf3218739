//! The text of bursts.

ghost use Rattle.std.specs.Prelude.{◌≡◌, if◌then◌else◌, IfOk};
ghost use Rattle.axi_burst.specs.Text as said;

use crate::axi::{Burst, Bursts};
use std::alloc::Global;
use text_page::{Draft, Page, print_number};
use trace_model::vidi_bits::{Bytes, Memory};

/// The text of bursts: a line for each, with its number among those of its kind, and a line with how many there are of each kind.
pub fn burst_text(alloc: Global, bursts: &Bursts) -> Result<Bytes, Memory>
    ensures { IfOk result (λ text. text ≡ said.burst_text bursts.now) }
{
    let mut draft = Draft::new(alloc);
    print_bursts(&mut draft, bursts.as_slice());
    draft.finish()
}

fn kind_text(write: bool) -> &'static [u8]
    ensures { result.now ≡ said.kind_text write }
{
    if write { b"write " } else { b"read " }
}

fn done_text(done: bool) -> &'static [u8]
    ensures { result.now ≡ said.done_text done }
{
    if done { b" done\n" } else { b" open\n" }
}

/// The number of a burst behind so many writes and reads.
fn number_of(burst: &Burst, writes: usize, reads: usize) -> usize
    ensures { result ≡ (if burst.now.write then writes else reads) }
{
    if burst.write { writes } else { reads }
}

/// Prints all lines.
fn print_bursts<P: Page>(page: &mut P, bursts: &[Burst])
    ensures { P.went page.old page.new (said.burst_text bursts.now) }
{
    let mut writes: usize = 0;
    let mut reads: usize = 0;
    for burst in bursts {
        print_burst(page, number_of(burst, writes, reads), burst);
        writes += usize::from(burst.write);
        reads += usize::from(!burst.write);
    }
    print_counts(page, writes, reads);
}

fn print_burst<P: Page>(page: &mut P, number: usize, burst: &Burst)
    ensures { P.went page.old page.new (said.burst_line number burst.now) }
{
    page.print(kind_text(burst.write));
    print_number(page, number);
    page.print(b" id ");
    print_number(page, burst.id);
    page.print(b" addr ");
    print_number(page, burst.addr);
    page.print(b" beats ");
    print_number(page, burst.beats);
    page.print(done_text(burst.done));
}

fn print_counts<P: Page>(page: &mut P, writes: usize, reads: usize)
    ensures { P.went page.old page.new (said.counts_line writes reads) }
{
    page.print(b"writes ");
    print_number(page, writes);
    page.print(b" reads ");
    print_number(page, reads);
    page.print(b"\n");
}
