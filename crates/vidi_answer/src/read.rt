//! Reading the files of a command.

ghost use Rattle.std.specs.Prelude.{◌≡◌, ◌≤◌, IfOk, IfErr, length};
ghost use Rattle.report_text.specs.vidi_io.Cause.{Rose};
ghost use Rattle.report_text.specs.vidi_io.Shelf.{Later};
ghost use Rattle.vidi_answer.specs.AnswerText.{text_of};
ghost use Rattle.vidi_answer.specs.Ended.{EndsWith};
ghost use Rattle.vidi_answer.specs.Reading.{IsRead, IsUnread};
ghost use Rattle.report_text.specs.Reason.{read_fault_line};
ghost use Rattle.vidi_answer.specs.Unfetched.{IsUnfetched};

use crate::answer::{Answer, Ended, refused, with_bytes};
use crate::status::{Reason, Status, Word};
use report_text::read_fault_line;
use report_text::vidi_io::vidi_bits::{Bytes, Memory};
use report_text::vidi_io::{ReadError, Shelf, read_whole};
use std::alloc::Global;

/// The longest text of a design, a map, a script or a plan of stalls, in bytes.
pub const TEXT_LIMIT: u64 = 4_194_304;

/// The bytes of the file of this word, of which there are at most `limit`.
pub fn read_file<S: Shelf>(
    alloc: Global,
    word: Word,
    name: &str,
    limit: u64,
    shelf: &mut S,
) -> Result<Bytes, Ended>
    ensures read { IfOk result (IsRead limit name.now (S.files shelf.old)) }
    ensures within { IfOk result (λ bytes. length bytes ≤ limit) }
    ensures refused { IfErr result (EndsWith (IsUnread limit word name.now (S.files shelf.old)
        (λ name. Rose (S.read_faults shelf.old name) (S.read_faults shelf.new name)))) }
    ensures files { S.files shelf.new ≡ S.files shelf.old }
    ensures starts { S.starts shelf.new ≡ S.starts shelf.old }
    ensures counts { Later (S.read_faults shelf.old) (S.read_faults shelf.new) (S.write_faults shelf.old) (S.write_faults shelf.new) }
{
    match read_whole(alloc, shelf, name, limit) {
        Ok(bytes) => Ok(bytes),
        Err(error) => Err(Ended::Refused(unread(alloc, word, error)?)),
    }
}

/// The answer for a file that `read_whole` didn't give.
fn unread(alloc: Global, word: Word, error: ReadError) -> Result<Answer, Memory>
    ensures { IfOk result (λ a. IsUnfetched word error a.status (text_of a.text)) }
{
    match error {
        ReadError::Missing | ReadError::Failed => read_fault(alloc, word),
        ReadError::TooLong { limit } => refused(alloc, word, Reason::TooLong { limit }),
        ReadError::Memory => Err(Memory),
    }
}

fn read_fault(alloc: Global, word: Word) -> Result<Answer, Memory>
    ensures { IfOk result (λ a. (a.status ≡ Status.ReadFault word) × (text_of a.text ≡ read_fault_line word)) }
{
    let line = read_fault_line(alloc, word)?;
    Ok(with_bytes(Status::ReadFault { word }, line))
}
