//! The command `wrap`.

ghost use Rattle.std.specs.Prelude.{◌≡◌, ◌≤◌, true, Ok, IfOk, IfErr, length};
ghost use Rattle.vidi_bench.specs.vidi_io.Cause.{Rose};
ghost use Rattle.vidi_bench.specs.vidi_io.Shelf.{HasStarted, Later, holding};
ghost use Rattle.vidi_bench.specs.vidi_io.Writing.{IsCutOff, IsKept};
ghost use Rattle.vlog_tree.specs.Plain.{plain};
ghost use Rattle.shim_gen.specs.shim_trees.Laws.{IsMapIn};
ghost use Rattle.vidi_bench.specs.AnswerText.{text_of};
ghost use Rattle.vidi_bench.specs.Design.{text_limit, Building};
ghost use Rattle.vidi_bench.specs.Devices.{Binding};
ghost use Rattle.vidi_bench.specs.Ended.{EndsWith, IsStopped, Owes};
ghost use Rattle.wrap_command.specs.Said as said;
ghost use Rattle.vidi_bench.specs.Steps.{IsSaid, Never};
ghost use Rattle.wrap_command.specs.Wraps.{IsFitted, IsPlanned, IsPlannedTexts, IsUnwritten, RefusedWrap, StopsWrapping, Wraps};

use crate::shims::wrapped_text;
use shim_gen::chan_map::{Map, MapText, lawful_ports_have_widths};
use std::alloc::Global;
use vidi_bench::report_text::{put, put_number};
use vidi_bench::vidi_io::{Failed, Shelf, write_whole};
use vidi_bench::{
    Answer, Device, Ended, Status, TEXT_LIMIT, Word, built, file_of, map_text_of, read_file,
    with_bytes,
};
use vlog_print::vidi_bits::{Bytes, Memory};
use vlog_tree::File;

/// What is written: the text of a wrapped design, and how many channels its map has.
#[derive(Drop)]
struct Wrapping {
    text: Bytes,
    channels: usize,
}

/// What `wrap` is answered. All memory is taken before the file `out` is started.
pub fn wrap<S: Shelf>(
    alloc: Global,
    design: &str,
    map: &str,
    out: &str,
    shelf: &mut S,
) -> Result<Answer, Ended>
    ensures owed { Owes (Wraps design.now map.now out.now (S.files shelf.old)
        (λ name. Rose (S.read_faults shelf.old name) (S.read_faults shelf.new name)) (HasStarted (S.starts shelf.old) (S.starts shelf.new)))
        (StopsWrapping design.now map.now out.now (S.files shelf.old) (HasStarted (S.starts shelf.old) (S.starts shelf.new)))
        (Rose (S.write_faults shelf.old) (S.write_faults shelf.new))
        (IsKept (S.files shelf.old) (HasStarted (S.starts shelf.old) (S.starts shelf.new))) (S.files shelf.new) result }
    ensures counts { Later (S.read_faults shelf.old) (S.read_faults shelf.new) (S.write_faults shelf.old) (S.write_faults shelf.new) }
{
    let plan = plan_wrap(alloc, design, map, shelf)?;
    written(alloc, plan, out, shelf)
}

/// Reads the two files, and wraps what they say.
fn plan_wrap<S: Shelf>(
    alloc: Global,
    design: &str,
    map: &str,
    shelf: &mut S,
) -> Result<Wrapping, Ended>
    ensures planned { IfOk result (λ p. IsPlanned design.now map.now (S.files shelf.old) p.text p.channels) }
    ensures refused { IfErr result (EndsWith (IsUnwritten design.now map.now (S.files shelf.old)
        (λ name. Rose (S.read_faults shelf.old name) (S.read_faults shelf.new name)))) }
    ensures files { S.files shelf.new ≡ S.files shelf.old }
    ensures starts { S.starts shelf.new ≡ S.starts shelf.old }
    ensures counts { Later (S.read_faults shelf.old) (S.read_faults shelf.new) (S.write_faults shelf.old) (S.write_faults shelf.new) }
{
    let design = read_file(alloc, Word::Design, design, TEXT_LIMIT, shelf)?;
    let map = read_file(alloc, Word::Map, map, TEXT_LIMIT, shelf)?;
    plan_texts(alloc, design.as_slice(), map.as_slice())
}

/// What two texts say, wrapped, or the first reason for which they are refused: those of the design and the map, and then those of the
/// wrapped design.
fn plan_texts(alloc: Global, design: &[u8], map: &[u8]) -> Result<Wrapping, Ended>
    requires design { length design.now ≤ text_limit }
    requires map { length map.now ≤ text_limit }
    ensures planned { IfOk result (λ p. IsPlannedTexts design.now map.now p.text p.channels) }
    ensures refused { IfErr result (EndsWith (RefusedWrap design.now map.now)) }
{
    let file = file_of(alloc, design)?;
    let text = map_text_of(alloc, map)?;
    let map = fitted(alloc, &file, &text)?;
    let text = wrapped_text(alloc, &file, &map)?;
    Ok(Wrapping {
        text,
        channels: map.channels.len(),
    })
}

/// The map that is bound to the design of a tree. The design itself is dropped.
fn fitted(alloc: Global, file: &File, text: &MapText) -> Result<Map, Ended>
    ensures fitted { IfOk result (IsFitted text.now (plain file.now)) }
    ensures mapped { IfOk result (IsMapIn (plain file.now)) }
    ensures refused { IfErr result (EndsWith (Building text.now.top (plain file.now) (λ d. Binding text.now d (λ _. Never)))) }
{
    lawful_ports_have_widths();
    let device = built(alloc, file, text)?;
    let Device {
        design: _,
        order: _,
        map,
    } = device;
    Ok(map)
}

/// Writes the text of the wrapped design, and tells how many channels its map has.
fn written<S: Shelf>(
    alloc: Global,
    plan: Wrapping,
    out: &str,
    shelf: &mut S,
) -> Result<Answer, Ended>
    ensures done { IfOk result (λ a. IsSaid Status.Done (said.wrapped_line plan.channels) a.status (text_of a.text)) }
    ensures files { IfOk result (λ a. S.files shelf.new ≡ holding (S.files shelf.old) out.now plan.text) }
    ensures started { IfOk result (λ a. HasStarted (S.starts shelf.old) (S.starts shelf.new) true) }
    ensures stopped { IfErr result (IsStopped (IsCutOff (S.files shelf.old) out.now plan.text
        (HasStarted (S.starts shelf.old) (S.starts shelf.new))) (Rose (S.write_faults shelf.old) (S.write_faults shelf.new))
        (IsKept (S.files shelf.old) (HasStarted (S.starts shelf.old) (S.starts shelf.new))) (S.files shelf.new)) }
    ensures counts { Later (S.read_faults shelf.old) (S.read_faults shelf.new) (S.write_faults shelf.old) (S.write_faults shelf.new) }
{
    let answer = wrapped(alloc, plan.channels)?;
    match write_whole(shelf, out, plan.text.as_slice()) {
        Ok(()) => Ok(answer),
        Err(Failed) => Err(Ended::WriteFault),
    }
}

fn wrapped(alloc: Global, channels: usize) -> Result<Answer, Memory>
    ensures { IfOk result (λ a. IsSaid Status.Done (said.wrapped_line channels) a.status (text_of a.text)) }
{
    let mut text = Vec::new(alloc);
    put(&mut text, b"wrapped ")?;
    put_number(&mut text, channels)?;
    put(&mut text, b" channels\n")?;
    Ok(with_bytes(Status::Done, Bytes::from_vec(text)))
}
