//! The script and the plan of stalls.

ghost use Rattle.std.specs.Prelude.{◌≡◌, ◌<◌, ◌++◌, ◌^◌, codes, decimal, OnOk, IfOk, string_bytes};
ghost use Rattle.std.specs.List.{flat_map, range_with_len};
ghost use Rattle.sample_gen.specs.Sample as said;
ghost use Rattle.sample_gen.specs.Sequence.{state, drawn};

use crate::sequence::Sequence;
use room_ledger::vidi_bits::{Bytes, Memory};
use std::alloc::Global;

/// The script of so many cycles that sends so many of the sequence's numbers, and takes all.
pub(crate) fn script(
    alloc: Global,
    cycles: u32,
    sends: u32,
    sequence: &mut Sequence,
) -> Result<Bytes, Memory>
    requires { sequence.old.state < 2 ^ 32 }
    ensures text { IfOk result (λ text. text ≡ codes "cycles " ++ decimal cycles ++ codes "\n"
        ++ flat_map (λ i. said.send_line (drawn sequence.old.state i)) (range_with_len 1 sends) ++ codes "b take all\n") }
    ensures state { OnOk result (sequence.new.state ≡ state sequence.old.state sends) }
    ensures small { OnOk result (sequence.new.state < 2 ^ 32) }
{
    let mut text = String::new(alloc);
    write!(text, "cycles {cycles}\n")?;
    put_sends(&mut text, sends, sequence)?;
    text.push_str("b take all\n")?;
    Ok(Bytes::from_vec(text.into_bytes()))
}

/// Adds lines that send the next numbers of the sequence.
fn put_sends(text: &mut String, sends: u32, sequence: &mut Sequence) -> Result<(), Memory>
    requires { sequence.old.state < 2 ^ 32 }
    ensures text { OnOk result (string_bytes text.new ≡ string_bytes text.old
        ++ flat_map (λ i. said.send_line (drawn sequence.old.state i)) (range_with_len 1 sends)) }
    ensures state { OnOk result (sequence.new.state ≡ state sequence.old.state sends) }
    ensures small { OnOk result (sequence.new.state < 2 ^ 32) }
{
    for _i in 0..sends {
        put_send(text, sequence.draw())?;
    }
    Ok(())
}

/// Adds the line that sends a number of the sequence.
fn put_send(text: &mut String, number: u64) -> Result<(), Memory>
    ensures { OnOk result (string_bytes text.new ≡ string_bytes text.old ++ said.send_line number) }
{
    let content = number % 256;
    write!(text, "a send {content}\n")?;
    Ok(())
}

/// The plan of a store of so many bytes, which drains as so many next numbers of the sequence tell, again and again.
pub(crate) fn stalls(
    alloc: Global,
    capacity: u32,
    drains: u32,
    sequence: &mut Sequence,
) -> Result<Bytes, Memory>
    requires { sequence.old.state < 2 ^ 32 }
    ensures { IfOk result (λ text. text ≡ codes "capacity " ++ decimal capacity ++ codes "\n"
        ++ flat_map (λ i. said.drain_line (drawn sequence.old.state i)) (range_with_len 1 drains)) }
{
    let mut text = String::new(alloc);
    write!(text, "capacity {capacity}\n")?;
    put_drains(&mut text, drains, sequence)?;
    Ok(Bytes::from_vec(text.into_bytes()))
}

/// Adds lines that drain what the next numbers of the sequence tell.
fn put_drains(text: &mut String, drains: u32, sequence: &mut Sequence) -> Result<(), Memory>
    requires { sequence.old.state < 2 ^ 32 }
    ensures { OnOk result (string_bytes text.new ≡ string_bytes text.old
        ++ flat_map (λ i. said.drain_line (drawn sequence.old.state i)) (range_with_len 1 drains)) }
{
    for _i in 0..drains {
        put_drain(text, sequence.draw())?;
    }
    Ok(())
}

/// Adds the line that drains, for one cycle, what a number of the sequence tells.
fn put_drain(text: &mut String, number: u64) -> Result<(), Memory>
    ensures { OnOk result (string_bytes text.new ≡ string_bytes text.old ++ said.drain_line number) }
{
    let bytes = 1 + number % 8;
    write!(text, "drain {bytes} 1\n")?;
    Ok(())
}
