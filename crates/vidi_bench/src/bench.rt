//! What the files of a design, a map and a script say together.

ghost use Rattle.std.specs.Prelude.{◌≡◌, ◌≤◌, IfOk, IfErr, Ok, length};
ghost use Rattle.env_script.specs.Reasons.{read_lines};
ghost use Rattle.env_script.specs.Reads.{ReadsScript};
ghost use Rattle.vidi_answer.specs.vidi_io.Cause.{Rose};
ghost use Rattle.vidi_answer.specs.vidi_io.Shelf.{Later};
ghost use Rattle.vidi_bench.specs.Benches.{AreWithin, IsBench, IsNoScript, IsPlayable, ReadTexts, RefusedTexts};
ghost use Rattle.vidi_bench.specs.Design.{text_limit};
ghost use Rattle.vidi_answer.specs.Ended.{EndsWith};
ghost use Rattle.vidi_answer.specs.Reading.{IsRead};
ghost use Rattle.vidi_answer.specs.Steps.{Never};

use crate::device::{Device, device_of};
use crate::refusal::refused_for;
use env_script::chan_map::Map;
use env_script::{Script, read_script};
use std::alloc::Global;
use vidi_answer::vidi_io::Shelf;
use vidi_answer::{Ended, TEXT_LIMIT, Word, read_file};
use vlog_parse::vidi_bits::Bytes;

/// The texts of a design, a map and a script.
#[derive(Drop)]
pub struct Texts {
    pub design: Bytes,
    pub map: Bytes,
    pub script: Bytes,
}

/// A design with its map, and a script over the map's channels.
#[derive(Drop)]
pub struct Bench {
    pub device: Device,
    pub script: Script,
}

/// The texts of the three files, which are read in this order.
pub fn read_texts<S: Shelf>(
    alloc: Global,
    design: &str,
    map: &str,
    script: &str,
    shelf: &mut S,
) -> Result<Texts, Ended>
    ensures design { IfOk result (λ texts. IsRead text_limit design.now (S.files shelf.old) texts.design) }
    ensures map { IfOk result (λ texts. IsRead text_limit map.now (S.files shelf.old) texts.map) }
    ensures script { IfOk result (λ texts. IsRead text_limit script.now (S.files shelf.old) texts.script) }
    ensures within { IfOk result AreWithin }
    ensures refused { IfErr result (EndsWith (ReadTexts design.now map.now script.now (S.files shelf.old)
        (λ name. Rose (S.read_faults shelf.old name) (S.read_faults shelf.new name)) (λ _ _ _. Never))) }
    ensures files { S.files shelf.new ≡ S.files shelf.old }
    ensures starts { S.starts shelf.new ≡ S.starts shelf.old }
    ensures counts { Later (S.read_faults shelf.old) (S.read_faults shelf.new) (S.write_faults shelf.old) (S.write_faults shelf.new) }
{
    let design = read_file(alloc, Word::Design, design, TEXT_LIMIT, shelf)?;
    let map = read_file(alloc, Word::Map, map, TEXT_LIMIT, shelf)?;
    let script = read_file(alloc, Word::Script, script, TEXT_LIMIT, shelf)?;
    Ok(Texts {
        design,
        map,
        script,
    })
}

/// What three texts say, or the first reason for which they are refused: those of the design and the map, and then of the script.
pub fn bench_of(alloc: Global, texts: &Texts) -> Result<Bench, Ended>
    requires { AreWithin texts.now }
    ensures ready { IfOk result (IsBench texts.now.design texts.now.map texts.now.script) }
    ensures playable { IfOk result IsPlayable }
    ensures refused { IfErr result (EndsWith (RefusedTexts texts.now.design texts.now.map texts.now.script)) }
{
    let device = device_of(alloc, texts.design.as_slice(), texts.map.as_slice())?;
    let script = script_of(alloc, texts.script.as_slice(), &device.map)?;
    Ok(Bench { device, script })
}

/// The script over a map's channels.
fn script_of(alloc: Global, script: &[u8], map: &Map) -> Result<Script, Ended>
    requires { length script.now ≤ text_limit }
    ensures plays { IfOk result (λ steps. ReadsScript map.now.channels (read_lines script.now) (Ok steps)) }
    ensures refused { IfErr result (EndsWith (IsNoScript script.now map.now)) }
{
    match read_script(alloc, script, map) {
        Ok(steps) => Ok(steps),
        Err(error) => Err(Ended::Refused(refused_for(alloc, Word::Script, error)?)),
    }
}
