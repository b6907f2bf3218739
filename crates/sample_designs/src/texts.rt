//! The texts of the designs and of their maps.

/// A small design.
#[derive(Clone, Copy, Drop)]
pub enum Sample {
    /// A register stage, which holds one content.
    Pass,
    /// Two of them, one behind the other.
    Duo,
    /// A register file behind five channels.
    Regs,
    /// A stage that takes everything and gives nothing.
    Dead,
    /// A stage that takes nothing, and shows a valid for one cycle.
    Back,
    /// A valid that rises and falls whatever the ready is.
    Flick,
}

const PASS_TEXT: &[u8] = b"module pass(input clk, input a_v, output a_r, input [7:0] a_d,
            output b_v, input b_r, output [7:0] b_d);
  reg full;
  reg [7:0] d;
  assign a_r = !full;
  assign b_v = full;
  assign b_d = d;
  always @(posedge clk)
    if (a_v & a_r) begin full <= 1'b1; d <= a_d; end
    else if (b_r) full <= 1'b0;
endmodule
";

const DUO_TEXT: &[u8] = b"module pass(input clk, input a_v, output a_r, input [7:0] a_d,
            output b_v, input b_r, output [7:0] b_d);
  reg full;
  reg [7:0] d;
  assign a_r = !full;
  assign b_v = full;
  assign b_d = d;
  always @(posedge clk)
    if (a_v & a_r) begin full <= 1'b1; d <= a_d; end
    else if (b_r) full <= 1'b0;
endmodule
module duo(input clk, input a_v, output a_r, input [7:0] a_d,
            output b_v, input b_r, output [7:0] b_d);
  wire v, r;
  wire [7:0] d;
  pass u(.clk(clk), .a_v(a_v), .a_r(a_r), .a_d(a_d), .b_v(v), .b_r(r), .b_d(d));
  pass w(.clk(clk), .a_v(v), .a_r(r), .a_d(d), .b_v(b_v), .b_r(b_r), .b_d(b_d));
endmodule
";

const REGS_TEXT: &[u8] = b"`timescale 1ns/1ps
module regs #(parameter AW = 32, parameter DW = 32, parameter DEPTH = 16) (
  input clk, input rst,
  input aw_v, output aw_r, input [AW-1:0] aw_a,
  input w_v, output w_r, input [DW-1:0] w_d, input [3:0] w_s,
  output b_v, input b_r, output [1:0] b_x,
  input ar_v, output ar_r, input [AW-1:0] ar_a,
  output r_v, input r_r, output [DW-1:0] r_d, output [1:0] r_x);
  localparam OKAY = 2'b00, SLVERR = 2'b10;
  reg [DW-1:0] m [0:DEPTH-1];
  reg bf, rf;
  reg [DW-1:0] rd;
  reg [1:0] rx, nx;
  wire take = aw_v & w_v & ~bf;   // ready depends on valid
  wire look = ar_v & ~rf;
  wire [3:0] wi = aw_a[5:2];
  assign aw_r = take, w_r = take, ar_r = ~rf;
  assign b_v = bf, b_x = OKAY;
  assign r_v = rf, r_d = rd, r_x = rx;
  always @* begin
    nx = SLVERR;
    case (ar_a[31:6]) 0: nx = OKAY; default: nx = SLVERR; endcase
  end
  always @(posedge clk)
    if (rst) begin bf <= 1'b0; rf <= 1'b0; end
    else begin
      if (take) begin
        bf <= 1'b1;
        if (w_s[0]) m[wi][7:0] <= w_d[7:0];
        if (w_s[1]) m[wi][15:8] <= w_d[15:8];
        if (w_s[2]) m[wi][23:16] <= w_d[23:16];
        if (w_s[3]) m[wi][31:24] <= w_d[31:24];
      end else if (b_r) bf <= 1'b0;
      if (look) begin rf <= 1'b1; rd <= m[ar_a[5:2]]; rx <= nx; end
      else if (r_r) rf <= 1'b0;
    end
endmodule
";

const DEAD_TEXT: &[u8] = b"module dead(input clk, input a_v, output a_r, input [7:0] a_d,
            output b_v, input b_r, output [7:0] b_d);
  assign a_r = 1'b1;
  assign b_v = 1'b0;
  assign b_d = 8'd0;
endmodule
";

const BACK_TEXT: &[u8] = b"module back(input clk, input a_v, output a_r, input [7:0] a_d,
            output b_v, input b_r, output [7:0] b_d);
  reg t;
  reg u = 1'b1;
  assign a_r = 1'b0;
  assign b_v = t;
  assign b_d = 8'd7;
  always @(posedge clk) begin t <= u; u <= 1'b0; end
endmodule
";

const FLICK_TEXT: &[u8] = b"module f(input c, output v, input r);
  reg t;
  reg u = 1'b1;
  assign v = t;
  always @(posedge c) begin t <= u; u <= t; end
endmodule
";

const REGS_MAP: &[u8] = b"top regs
clock clk
reset rst 1 2
in aw aw_v aw_r aw_a
in w w_v w_r w_d w_s
out b b_v b_r b_x
in ar ar_v ar_r ar_a
out r r_v r_r r_d r_x
";

/// A design's text, and the lines of its map.
#[derive(Clone, Copy, Drop)]
pub(crate) struct Texts {
    pub(crate) design: &'static [u8],
    pub(crate) map: &'static [u8],
}

/// The texts of a design.
pub(crate) fn texts_of(sample: Sample) -> Texts {
    match sample {
        Sample::Pass => Texts {
            design: PASS_TEXT,
            map: b"top pass\nclock clk\nin a a_v a_r a_d\nout b b_v b_r b_d\n",
        },
        Sample::Duo => Texts {
            design: DUO_TEXT,
            map: b"top duo\nclock clk\nin a a_v a_r a_d\nout b b_v b_r b_d\n",
        },
        Sample::Regs => Texts {
            design: REGS_TEXT,
            map: REGS_MAP,
        },
        Sample::Dead => Texts {
            design: DEAD_TEXT,
            map: b"top dead\nclock clk\nin a a_v a_r a_d\nout b b_v b_r b_d\n",
        },
        Sample::Back => Texts {
            design: BACK_TEXT,
            map: b"top back\nclock clk\nin a a_v a_r a_d\nout b b_v b_r b_d\n",
        },
        Sample::Flick => Texts {
            design: FLICK_TEXT,
            map: b"top f\nclock c\nout b v r\n",
        },
    }
}
