//! What the crates below find wrong with a file, and the answer that refuses it.

ghost use Rattle.std.specs.Prelude.{◌≡◌, Option, IfOk};
ghost use Rattle.vidi_answer.specs.report_text.declared.reason.Reason.{Reason as OneReason};
ghost use Rattle.vidi_answer.specs.AnswerText.{text_of};
ghost use Rattle.vidi_bench.specs.Reasons.{elab_reason, map_reason, script_reason};
ghost use Rattle.vidi_answer.specs.Steps.{IsRefusalFor};

use env_script::ScriptError;
use env_script::chan_map::MapError;
use std::alloc::Global;
use vidi_answer::{Answer, Reason, Word, refused};
use vlog_design::vlog_elab::ElabError;
use vlog_parse::vidi_bits::Memory;

/// What a crate finds wrong with a file.
pub trait Refusal {
    ghost found: { Self → Option OneReason };

    /// The reason for which the file is refused, unless memory was wanting.
    fn reason(self) -> Option<Reason>
        ensures { result ≡ found self };
}

impl Refusal for ElabError {
    ghost found = { elab_reason };

    fn reason(self) -> Option<Reason> {
        match self {
            ElabError::Twice { name } => Some(Reason::Twice { name }),
            ElabError::Unknown { name } => Some(Reason::Unknown { name }),
            ElabError::Kind { line } => Some(Reason::Kind { line }),
            ElabError::Nested { name } => Some(Reason::Nested { name }),
            ElabError::TooBig { what } => Some(Reason::TooBig { what }),
            ElabError::Const { line } => Some(Reason::Const { line }),
            ElabError::Width { line, got } => Some(Reason::Width { line, got }),
            ElabError::Clock { line } => Some(Reason::Clock { line }),
            ElabError::Latch { name, line } => Some(Reason::Latch { name, line }),
            ElabError::Drive { name, bit, drivers } => Some(Reason::Drive { name, bit, drivers }),
            ElabError::Memory => None,
        }
    }
}

impl Refusal for MapError {
    ghost found = { map_reason };

    fn reason(self) -> Option<Reason> {
        match self {
            MapError::Line { line } => Some(Reason::MapLine { line }),
            MapError::Port { line } => Some(Reason::MapPort { line }),
            MapError::Cover { port, times } => Some(Reason::Cover { port, times }),
            MapError::Limit { what, got } => Some(Reason::Limit { what, got }),
            MapError::Memory => None,
        }
    }
}

impl Refusal for ScriptError {
    ghost found = { script_reason };

    fn reason(self) -> Option<Reason> {
        match self {
            ScriptError::Line { line } => Some(Reason::ScriptLine { line }),
            ScriptError::Channel { line } => Some(Reason::ScriptChannel { line }),
            ScriptError::Number { line } => Some(Reason::ScriptNumber { line }),
            ScriptError::Memory => None,
        }
    }
}

/// The answer that refuses the file of this word for what was found.
pub fn refused_for<R: Refusal>(alloc: Global, word: Word, refusal: R) -> Result<Answer, Memory>
    ensures { IfOk result (λ a. IsRefusalFor word (R.found refusal) a.status (text_of a.text)) }
{
    match refusal.reason() {
        Some(reason) => refused(alloc, word, reason),
        None => Err(Memory),
    }
}
