//! The design and its map.

ghost use Rattle.std.specs.Prelude.{◌≡◌, ◌≤◌, ◌++◌, ◌-◌, OnOk, IfOk, string_bytes};
ghost use Rattle.std.specs.List.{flat_map, range_with_len};
ghost use Rattle.sample_gen.specs.Design as said;
ghost use Rattle.sample_gen.specs.Joint.{joint_text};
ghost use Rattle.sample_gen.specs.Sample.{map_text};

use crate::joint::Joint;
use room_ledger::vidi_bits::{Bytes, Memory};
use std::alloc::Global;

/// A register with a valid and a ready on both sides.
const PASS: &str = "module pass(input clk, input a_v, output a_r, input [7:0] a_d,
            output b_v, input b_r, output [7:0] b_d);
  reg full;
  reg [7:0] d;
  assign a_r = !full;
  assign b_v = full;
  assign b_d = d;
  always @(posedge clk)
    if (a_v & a_r) begin full <= 1'b1; d <= a_d; end
    else if (b_r) full <= 1'b0;
endmodule
";

/// The header of the chain.
const PIPE_HEADER: &str = "module pipe(input clk, input a_v, output a_r, input [7:0] a_d,
            output b_v, input b_r, output [7:0] b_d);
";

/// The map of every sample's design.
const MAP: &str = "top pipe
clock clk
in a a_v a_r a_d
out b b_v b_r b_d
";

/// A chain of so many stages.
pub(crate) fn design(alloc: Global, stages: u32) -> Result<Bytes, Memory>
    requires { 1 ≤ stages }
    ensures { IfOk result (λ text. text ≡ said.design stages) }
{
    let mut text = String::new(alloc);
    text.push_str(PASS)?;
    text.push_str(PIPE_HEADER)?;
    put_all_wires(&mut text, stages)?;
    put_stages(&mut text, stages)?;
    text.push_str("endmodule\n")?;
    Ok(Bytes::from_vec(text.into_bytes()))
}

/// The map of every sample's design.
pub(crate) fn map(alloc: Global) -> Result<Bytes, Memory>
    ensures { IfOk result (λ text. text ≡ map_text) }
{
    let mut text = String::new(alloc);
    text.push_str(MAP)?;
    Ok(Bytes::from_vec(text.into_bytes()))
}

/// Adds the wires between the stages.
fn put_all_wires(text: &mut String, stages: u32) -> Result<(), Memory>
    requires { 1 ≤ stages }
    ensures { OnOk result (string_bytes text.new ≡ string_bytes text.old ++ flat_map said.wires (range_with_len 1 (stages - 1))) }
{
    for i in 1..stages {
        put_wires(text, i)?;
    }
    Ok(())
}

/// Adds the wires between instances `i - 1` and `i`.
fn put_wires(text: &mut String, i: u32) -> Result<(), Memory>
    ensures { OnOk result (string_bytes text.new ≡ string_bytes text.old ++ said.wires i) }
{
    write!(text, "  wire w{i}_v, w{i}_r;\n  wire [7:0] w{i}_d;\n")?;
    Ok(())
}

/// Adds the instances, from the first to the last.
fn put_stages(text: &mut String, stages: u32) -> Result<(), Memory>
    ensures { OnOk result (string_bytes text.new ≡ string_bytes text.old ++ flat_map (said.stage stages) (range_with_len 0 stages)) }
{
    for i in 0..stages {
        let from = Joint::new(stages, i);
        let to = Joint::new(stages, i + 1);
        put_stage(text, i, from, to)?;
    }
    Ok(())
}

/// Adds instance `i`, from one joint to the next.
fn put_stage(text: &mut String, i: u32, from: Joint, to: Joint) -> Result<(), Memory>
    ensures { OnOk result (string_bytes text.new ≡ string_bytes text.old ++ said.instance i (joint_text from) (joint_text to)) }
{
    write!(
        text,
        "  pass u{i}(.clk(clk), .a_v({from}_v), .a_r({from}_r), .a_d({from}_d), .b_v({to}_v), .b_r({to}_r), .b_d({to}_d));\n"
    )?;
    Ok(())
}
