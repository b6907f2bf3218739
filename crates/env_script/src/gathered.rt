//! What is gathered of a script's lines.

ghost use Rattle.std.specs.Prelude.{◌≡◌, ◌<◌, ◌++◌, ◌∷◌, [], ℕ, true, not, List, length, slice_set, slice_index_or, IfOk, OnOk};
ghost use Rattle.run_model.specs.vidi_bits.Findings.{first, or_first, told_if};
ghost use Rattle.env_script.specs.declared.said.ScriptLine.{ScriptLine};
ghost use Rattle.env_script.specs.declared.said.ScriptLine.TheVariants as L;
ghost use Rattle.run_model.specs.trace_model.declared.channel.Channel.{Channel};
ghost use Rattle.env_script.specs.Reasons.{is_small};
ghost use Rattle.env_script.specs.Steps.{step_for};
ghost use Rattle.env_script.specs.Reads.{IsGathered, TakesLine};

use crate::error::ScriptError;
use crate::forms::script_line;
use crate::lawful::{fits_numbers, is_time, made, names_channels};
use crate::said::{ScriptLine, StepLine};
use crate::script::{Step, StepLists, Steps};
use run_model::trace_model::Channel;
use run_model::vidi_bits::{Memory, Numbers};
use run_model::vidi_lines::Line;
use std::alloc::Global;

/// What is gathered of the lines of a script.
#[derive(Drop)]
pub struct Gathered {
    pub steps: StepLists,
    /// The times of the reset lines.
    pub resets: Numbers,
    /// The time of the last reset line, 0 where there is none.
    pub last: u128,
    /// The first line at fault by S2.
    pub channel: Option<u32>,
    /// The first line at fault by S3.
    pub number: Option<u32>,
}

/// The first fault, where this line has one unless it `holds`.
fn first_fault(found: Option<u32>, holds: bool, line: u32) -> Option<u32>
    ensures { result ≡ or_first found (first (told_if (not holds) line)) }
{
    match found {
        Some(before) => Some(before),
        None if holds => None,
        None => Some(line),
    }
}

/// Adds a step to the list at this place.
fn add_step(lists: &mut [Steps], c: usize, step: Step) -> Result<(), Memory>
    requires { c < length lists.old }
    ensures { OnOk result (lists.new ≡ slice_set lists.old c (slice_index_or lists.old c [] ++ step ∷ [])) }
{
    lists[c].push(step)
}

/// A list without steps for each channel.
fn no_steps(alloc: Global, channels: usize) -> Result<StepLists, Memory>
    ensures count { IfOk result (λ lists. length lists ≡ channels) }
    ensures none { IfOk result (λ lists. (c : ℕ) → slice_index_or lists c [] ≡ []) }
{
    let mut lists = StepLists::new(alloc);
    for _ in 0..channels {
        lists.push(Steps::new(alloc))?;
    }
    Ok(lists)
}

impl Gathered {
    /// Nothing was said.
    pub fn new(alloc: Global, channels: &[Channel]) -> Result<Gathered, Memory>
        ensures { IfOk result (λ g. IsGathered channels.now [] g) }
    {
        let steps = no_steps(alloc, channels.len())?;
        Ok(Gathered {
            steps,
            resets: Numbers::new(alloc),
            last: 0,
            channel: None,
            number: None,
        })
    }

    /// Adds the step of a line that is lawful.
    fn add(&mut self, line: StepLine) -> Result<(), Memory>
        requires { is_small line.said ≡ true }
        ensures channel { self.new.channel ≡ self.old.channel }
        ensures number { self.new.number ≡ self.old.number }
        ensures resets { self.new.resets ≡ self.old.resets }
        ensures last { self.new.last ≡ self.old.last }
        ensures lists { length self.new.steps ≡ length self.old.steps }
        ensures steps { OnOk result ((c : ℕ) → c < length self.old.steps
            → slice_index_or self.new.steps c [] ≡ slice_index_or self.old.steps c [] ++ step_for c line) }
    {
        let StepLine { channel, said, .. } = line;
        match (channel, made(said)) {
            (Some(c), Some(step)) if c < self.steps.len() => {
                add_step(self.steps.as_mut_slice(), c, step)
            }
            _ => Ok(()),
        }
    }

    /// Gathers what the line of a step says.
    fn note_step(&mut self, channels: &[Channel], line: StepLine) -> Result<(), Memory>
        ensures { OnOk result ((before : List ScriptLine) → IsGathered channels.now before self.old
            → IsGathered channels.now (before ++ L.Step line ∷ []) self.new) }
    {
        let named = names_channels(channels, &line);
        let fits = fits_numbers(channels, &line);
        self.channel = first_fault(self.channel, named, line.line);
        self.number = first_fault(self.number, fits, line.line);
        if named && fits {
            self.add(line)
        } else {
            Ok(())
        }
    }

    /// Gathers what a reset line says.
    fn note_reset(&mut self, line: u32, time: u128) -> Result<(), Memory>
        ensures { OnOk result ((channels : List Channel) (before : List ScriptLine) → IsGathered channels before self.old
            → IsGathered channels (before ++ L.Reset line time ∷ []) self.new) }
    {
        self.number = first_fault(self.number, is_time(self.last, time), line);
        self.last = time;
        self.resets.push(time)
    }

    /// Reads the line with this number, counted from 1, which is bad where it is `None`.
    pub fn read(
        &mut self,
        alloc: Global,
        channels: &[Channel],
        number: u32,
        line: &Option<Line>,
    ) -> Result<(), ScriptError>
        ensures { TakesLine channels.now number line.now self.old self.new result }
    {
        let Some(line) = line else {
            return Err(ScriptError::Line { line: number });
        };
        if line.words.is_empty() {
            return Ok(());
        }
        let Some(said) = script_line(alloc, channels, number, line.words.as_slice())? else {
            return Err(ScriptError::Line { line: number });
        };
        match said {
            ScriptLine::Step(line) => self.note_step(channels, line)?,
            ScriptLine::Reset { line, time } => self.note_reset(line, time)?,
        }
        Ok(())
    }
}
