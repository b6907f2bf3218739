//! The command `check`.

ghost use Rattle.std.specs.Prelude.{◌≡◌, ◌≤◌, ◌++◌, IfOk, OnOk, length};
ghost use Rattle.vidi_recorder.specs.vidi_io.Cause.{Rose};
ghost use Rattle.vidi_recorder.specs.vidi_io.Shelf.{Later};
ghost use Rattle.vlog_tree.specs.Plain.{plain};
ghost use Rattle.vidi_bench.specs.AnswerText.{text_of};
ghost use Rattle.run_commands.specs.Checks.{Checked, Checks};
ghost use Rattle.vidi_bench.specs.Design.{text_limit};
ghost use Rattle.vidi_bench.specs.Ended.{IsAnswered};
ghost use Rattle.run_commands.specs.Said as said;
ghost use Rattle.vidi_bench.specs.Steps.{IsSaid};

use net_design::Counts;
use net_sim::vidi_bits::{Bytes, Memory};
use std::alloc::Global;
use vidi_bench::report_text::{put, put_number};
use vidi_bench::{
    Answer, Ended, Status, TEXT_LIMIT, Word, design_of, file_of, order_of, read_file, with_bytes,
};
use vidi_recorder::vidi_io::Shelf;
use vlog_tree::File;

/// What `check` is answered.
pub fn check<S: Shelf>(
    alloc: Global,
    design: &str,
    top: &str,
    shelf: &mut S,
) -> Result<Answer, Ended>
    ensures answered { IsAnswered (Checks design.now top.now (S.files shelf.old)
        (λ name. Rose (S.read_faults shelf.old name) (S.read_faults shelf.new name))) result }
    ensures files { S.files shelf.new ≡ S.files shelf.old }
    ensures starts { S.starts shelf.new ≡ S.starts shelf.old }
    ensures counts { Later (S.read_faults shelf.old) (S.read_faults shelf.new) (S.write_faults shelf.old) (S.write_faults shelf.new) }
{
    let text = read_file(alloc, Word::Design, design, TEXT_LIMIT, shelf)?;
    checked(alloc, text.as_slice(), top)
}

/// What is answered of the text of a design.
fn checked(alloc: Global, text: &[u8], top: &str) -> Result<Answer, Ended>
    requires { length text.now ≤ text_limit }
    ensures { IsAnswered (Checked top.now text.now) result }
{
    let file = file_of(alloc, text)?;
    let design = design_of(alloc, &file, top.as_bytes())?;
    order_of(alloc, &design)?;
    Ok(counted(alloc, &file, design.counts())?)
}

/// What is said of a file and its design.
fn counted(alloc: Global, file: &File, counts: Counts) -> Result<Answer, Memory>
    ensures { IfOk result (λ a. IsSaid Status.Done (said.check_text (plain file.now) counts) a.status (text_of a.text)) }
{
    let mut text = Vec::new(alloc);
    put_file_line(&mut text, file)?;
    put_counts(&mut text, counts)?;
    Ok(with_bytes(Status::Done, Bytes::from_vec(text)))
}

fn put_file_line(text: &mut Vec<u8>, file: &File) -> Result<(), Memory>
    ensures { OnOk result (text.new.items ≡ text.old.items ++ said.file_line (plain file.now)) }
{
    put(text, b"modules ")?;
    put_number(text, file.modules.len())?;
    put(text, b" items ")?;
    put_number(text, items(file))?;
    put(text, b"\n")
}

fn put_counts(text: &mut Vec<u8>, counts: Counts) -> Result<(), Memory>
    ensures { OnOk result (text.new.items ≡ text.old.items ++ said.counts_line counts) }
{
    put_counted(text, b"instances ", counts.instances)?;
    put_counted(text, b" nets ", counts.nets)?;
    put_counted(text, b" drivers ", counts.drivers)?;
    put_counted(text, b" blocks ", counts.blocks)?;
    put_counted(text, b" words ", counts.words)?;
    put(text, b"\n")
}

fn put_counted(text: &mut Vec<u8>, label: &[u8], number: u32) -> Result<(), Memory>
    ensures { OnOk result (text.new.items ≡ text.old.items ++ said.counted label.now number) }
{
    put(text, label)?;
    put_number(text, number)
}

/// The number of items of all modules.
fn items(file: &File) -> u128
    ensures { result ≡ said.items (plain file.now) }
{
    let mut items: u128 = 0;
    for module in file.modules.as_slice() {
        items += module.items.len() as u128;
    }
    items
}
