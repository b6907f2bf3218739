//! Designs that make requests of a memory, cycle by cycle.

ghost use Rattle.std.specs.Prelude.{◌≤◌, length};
ghost use Rattle.net_design.specs.Lawful.{IsLawful};
ghost use Rattle.net_sim.specs.net_order.Order.{IsOrder};
ghost use Rattle.bench_run.specs.run_model.MapOf.{IsMapOf};

use axi_memory::axi_burst::{bind_axi, read_axi};
use axi_memory::{MemoryEnv, lack};
use bench_run::chan_map::Map;
use bench_run::trace_model::Row;
use bench_run::vidi_bits::Numbers;
use bench_run::{PlainRun, run_plain};
use net_design::Design;
use net_sim::Sim;
use net_sim::net_order::Order;
use std::alloc::Global;
use vidi_bench::{Device, device_of};

/// A design, its map and its AXI file.
type Texts<'a> = [&'a str; 3];

/// What is wanted of a row: the channels that start, those that complete, and the contents of all channels where they count.
type Wanted<'a> = (u128, u128, &'a [u128]);

/// The write address, the write data, the response, the read address and the read data.
const AW: u128 = 1;

const W: u128 = 2;

const B: u128 = 4;

const AR: u128 = 8;

const R: u128 = 16;

/// Writes 1000 to byte 8, and reads it.
const ONE_WORD: Texts = [
    "module mgr(input clk, output aw_v, input aw_r, output [31:0] aw_a, output w_v, input w_r, output [31:0] w_d, output [3:0] w_s,
  input b_v, output b_r, output ar_v, input ar_r, output [31:0] ar_a, input r_v, output r_r, input [31:0] r_d);
  reg p, q;
  reg [1:0] s;
  assign aw_v = !p, aw_a = 32'd8, w_v = !q, w_d = 32'd1000, w_s = 4'hf;
  assign b_r = s == 0, ar_v = s == 1, ar_a = 32'd8, r_r = s == 2;
  always @(posedge clk) begin
    if (aw_r) p <= 1'b1;
    if (w_r) q <= 1'b1;
    if ((b_v & b_r) | (ar_v & ar_r) | (r_v & r_r)) s <= s + 2'd1;
  end
endmodule
",
    "top mgr\nclock clk\nout aw aw_v aw_r aw_a\nout w w_v w_r w_d w_s\nin b b_v b_r\nout ar ar_v ar_r ar_a\nin r r_v r_r r_d\n",
    "beat 4\naw aw none 0 none none none\nw w none\nb b none\nar ar none 0 none none none\nr r none none\nmemory 16\ndata 0 1 0\n",
];

const ONE_WORD_ROWS: [Wanted; 8] = [
    (AW | W, AW, &[8, 1000, 15, 8, 0]),
    (0, W, &[]),
    (B, B, &[]),
    (AR, AR, &[]),
    (R, R, &[8, 1000, 15, 8, 1000]),
    (0, 0, &[]),
    (0, 0, &[]),
    (0, 0, &[]),
];

/// Writes two beats from byte 4 on, the second under strobes, and reads three from there.
const BURSTS: Texts = [
    "module bursts(input clk, output aw_v, input aw_r, output [7:0] aw_a, output [7:0] aw_l, output w_v, input w_r, output [31:0] w_d,
  output [3:0] w_s, input b_v, output b_r, output ar_v, input ar_r, output [7:0] ar_a, output [7:0] ar_l, input r_v, output r_r,
  input [31:0] r_d, input r_l);
  reg p;
  reg [1:0] n, s;
  assign aw_v = !p, aw_a = 8'd4, aw_l = 8'd1, w_v = n < 2'd2, w_d = n == 0 ? 32'h11111111 : 32'haabbccdd, w_s = n == 0 ? 4'hf : 4'h6;
  assign b_r = s == 0, ar_v = s == 1, ar_a = 8'd4, ar_l = 8'd2, r_r = s == 2;
  always @(posedge clk) begin
    if (aw_r) p <= 1'b1;
    if (w_v & w_r) n <= n + 2'd1;
    if ((b_v & b_r) | (ar_v & ar_r) | (r_v & r_r & r_l)) s <= s + 2'd1;
  end
endmodule
",
    "top bursts\nclock clk\nout aw aw_v aw_r aw_a aw_l\nout w w_v w_r w_d w_s\nin b b_v b_r\nout ar ar_v ar_r ar_a ar_l\nin r r_v r_r r_d r_l\n",
    "beat 4\naw aw none 0 1 none none\nw w none\nb b none\nar ar none 0 1 none none\nr r none 1\nmemory 4\ndata 0 1 0\n",
];

const BURSTS_ROWS: [Wanted; 9] = [
    (AW | W, AW, &[]),
    (0, W, &[]),
    (W, W, &[]),
    (B, B, &[]),
    (AR, AR, &[]),
    (R, R, &[4, 1, 0xaabbccdd, 6, 4, 2, 0x11111111, 0]),
    (R, R, &[4, 1, 0xaabbccdd, 6, 4, 2, 0x00bbcc00, 0]),
    (R, R, &[4, 1, 0xaabbccdd, 6, 4, 2, 0, 1]),
    (0, 0, &[]),
];

/// The design's run in the environment of the memory.
#[tactic(auto, using(crate::proofs::PortNets::port_nets))]
fn run_served(
    alloc: Global,
    design: Design,
    order: Order,
    map: &Map,
    axi: &[u8],
    cycles: u32,
) -> Option<PlainRun>
    requires lawful { IsLawful design }
    requires order { IsOrder design order.drivers }
    requires mapped { IsMapOf design map.now }
    requires text { length axi.now ≤ 4096 }
    requires some { 1 ≤ cycles }
    requires few { cycles ≤ 4096 }
{
    let Ok(text) = read_axi(alloc, axi) else {
        return None;
    };
    let Ok(bound) = bind_axi(&text, &map.channels) else {
        return None;
    };
    if lack(&bound, &map.channels).is_some() {
        return None;
    }
    let Ok(mut env) = MemoryEnv::new(alloc, &bound, &map.channels) else {
        return None;
    };
    let Ok(mut sim) = Sim::new(alloc, design, order) else {
        return None;
    };
    run_plain(alloc, &mut sim, map, &mut env, &Numbers::new(alloc), cycles).ok()
}

/// The run of three texts.
fn run_texts(alloc: Global, texts: Texts, cycles: u32) -> Option<PlainRun>
    requires some { 1 ≤ cycles }
    requires few { cycles ≤ 4096 }
{
    let [design, map, axi] = texts;
    if design.len() > 4096 || map.len() > 4096 || axi.len() > 4096 {
        return None;
    }
    let Ok(device) = device_of(alloc, design.as_bytes(), map.as_bytes()) else {
        return None;
    };
    let Device { design, order, map } = device;
    run_served(alloc, design, order, &map, axi.as_bytes(), cycles)
}

fn is_wanted(row: &Row, wanted: Wanted) -> bool {
    let (starts, ends, contents) = wanted;
    row.starts == starts
        && row.ends == ends
        && (contents.is_empty() || row.contents.as_slice() == contents)
}

/// Whether the run has these rows.
fn has_rows(alloc: Global, texts: Texts, wanted: &[Wanted]) -> bool {
    if wanted.is_empty() || wanted.len() > 4096 {
        return false;
    }
    match run_texts(alloc, texts, wanted.len() as u32) {
        Some(run) => {
            run.rows.len() == wanted.len()
                && run
                    .rows
                    .as_slice()
                    .iter()
                    .zip(wanted)
                    .all(|(row, one)| is_wanted(row, *one))
        }
        None => false,
    }
}

#[test]
fn word_is_read_back(rt: HostRuntime) {
    assert!(rt; has_rows(rt.alloc(), ONE_WORD, &ONE_WORD_ROWS));
}

#[test]
fn bursts_are_read_back(rt: HostRuntime) {
    assert!(rt; has_rows(rt.alloc(), BURSTS, &BURSTS_ROWS));
}
