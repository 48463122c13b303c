//! Reading a text with the lines that are passed over, and whether or not it is refused.
ghost use Rattle.std.specs.Prelude.{◌≡◌, ◌≤◌, ◌<◌, ◌+◌, ◌++◌, [], IfOk, is_some, length, sum_by};
ghost use Rattle.std.specs.Option.{option_or};
ghost use Rattle.net_text.specs.Limits.{text_limit};
ghost use Rattle.net_text.specs.Lines.{lines_of};
ghost use Rattle.ios_config.specs.Rules.{opened_by, opens, passed, passed_by};
ghost use Rattle.ios_config.specs.Reads.{effects, refusal_in};
ghost use Rattle.ios_config.specs.Draft.{parts};
ghost use Rattle.ios_config.specs.Passed.{first_byte, mode_in, one_line, passed_at, add_passed, under_after, passed_lines, line_count, Says, IsNew, Adds, IsSurvey, Judges};

use crate::commands::effect;
use crate::draft::Draft;
use crate::reader::{ConfigFail, Reading, finish};
use ios_lines::{Action, Change, Effect, Refusal, Section};
use net_text::{Line, Span, lines};
use net_types::{Duplicate, List, NoMemory, Text};
use std::alloc::Global;
use std::mem;

/// Where a line that is passed over stands.
#[derive(Clone, Copy, Debug, PartialEq, Eq)]
pub enum Mode {
    /// In a banner.
    Banner,
    /// Among the global commands.
    Global,
    /// In the section of an interface.
    Interface,
    /// In another section, or before all sections.
    Other,
}

/// A line that is passed over, or all lines of a banner.
#[derive(Clone, Copy, Debug, PartialEq, Eq)]
pub struct PassedLine {
    /// The line's place in the text, from 1; of a banner, its first line's.
    pub first: u32,
    /// That of the last line: of a banner, else the same.
    pub last: u32,
    /// The byte of the text at which the line's first word begins.
    pub start: usize,
    pub mode: Mode,
    /// The byte at which the last global command before the line begins, whose section an indented line stands in.
    pub under: Option<usize>,
}

/// What a text is read as, and what of it is passed over.
#[derive(Drop)]
pub struct Examination {
    /// In the order of the text; also where it is refused.
    pub passed: Vec<PassedLine>,
    pub reading: Result<Reading, Refusal>,
}

/// What the lines so far have made.
#[derive(Drop)]
pub struct Survey {
    pub draft: Draft,
    pub passed: Vec<PassedLine>,
    /// The byte at which the last global command begins.
    pub under: Option<usize>,
    /// The first refusal of a line.
    pub refusal: Option<Refusal>,
}

/// The configuration that a text of at most 16,777,216 bytes is read as, or its first refusal; and exactly the lines that are
/// passed over, by the same effects.
///
/// They are as many as the count that is told of a configuration.
pub fn examine(alloc: Global, bytes: &[u8]) -> Result<Examination, NoMemory>
    requires { length bytes.now ≤ text_limit }
    ensures passed { IfOk result (λ e. e.passed.items ≡ passed_lines bytes.now) }
    ensures count { IfOk result (λ e. sum_by line_count e.passed.items ≡ passed (effects bytes.now)) }
    ensures reading { IfOk result (λ e. Says bytes.now e.reading) }
    ensures interfaces { IfOk result (λ e. IfOk e.reading (λ r. length r.config.interfaces < length bytes.now)) }
{
    let lines = lines(alloc, bytes)?;
    let mut survey = Survey::new(alloc);
    examine_lines(alloc, bytes, &lines, &mut survey)
}

/// What the lines are examined as, by a survey of no line.
fn examine_lines(
    alloc: Global,
    bytes: &[u8],
    lines: &[Line],
    survey: &mut Survey,
) -> Result<Examination, NoMemory>
    requires size { length bytes.now ≤ text_limit }
    requires lines { lines.now ≡ lines_of bytes.now }
    requires new { IsNew survey.old }
    ensures passed { IfOk result (λ e. e.passed.items ≡ passed_lines bytes.now) }
    ensures reading { IfOk result (λ e. Says bytes.now e.reading) }
{
    survey_lines(alloc, bytes, lines, survey)?;
    judged(alloc, survey)
}

/// Adds what the lines make, all of them, to a survey of no line.
fn survey_lines(
    alloc: Global,
    bytes: &[u8],
    lines: &[Line],
    survey: &mut Survey,
) -> Result<(), NoMemory>
    requires size { length bytes.now ≤ text_limit }
    requires lines { lines.now ≡ lines_of bytes.now }
    requires new { IsNew survey.old }
    ensures { IfOk result (λ _. IsSurvey bytes.now survey.new) }
{
    for line in lines {
        let effect = effect(alloc, bytes, &survey.draft, line)?;
        survey.add(alloc, line, effect)?;
    }
    Ok(())
}

/// What is judged after the last line, with the passed lines. They leave the survey.
fn judged(alloc: Global, survey: &mut Survey) -> Result<Examination, NoMemory>
    ensures passed { IfOk result (λ e. e.passed ≡ survey.old.passed) }
    ensures reading { IfOk result (λ e. Judges survey.old.refusal (parts survey.old.draft) e.reading) }
{
    let refusal = survey.refusal.take();
    let reading = judge(alloc, refusal, &mut survey.draft)?;
    let passed = mem::replace(&mut survey.passed, Vec::new(alloc));
    Ok(Examination { passed, reading })
}

/// The refusal of a line, or what is judged after the last line.
fn judge(
    alloc: Global,
    refusal: Option<Refusal>,
    draft: &mut Draft,
) -> Result<Result<Reading, Refusal>, NoMemory>
    ensures { IfOk result (Judges refusal (parts draft.old)) }
{
    if let Some(refusal) = refusal {
        return Ok(Err(refusal));
    }
    match finish(alloc, draft) {
        Ok(reading) => Ok(Ok(reading)),
        Err(ConfigFail::Refused { refusal }) => Ok(Err(refusal)),
        Err(ConfigFail::NoMemory) => Err(NoMemory),
    }
}

impl Survey {
    /// No line yet.
    fn new(alloc: Global) -> Survey
        ensures { IsNew result }
    {
        Survey {
            draft: Draft::new(alloc),
            passed: Vec::new(alloc),
            under: None,
            refusal: None,
        }
    }

    /// One more line of this effect.
    fn add(&mut self, alloc: Global, line: &Line, effect: Effect) -> Result<(), NoMemory>
        requires passed { self.old.draft.passed + passed_by effect ≤ 4294967295 }
        requires lengths { length self.old.draft.interfaces.items ≡ length self.old.draft.names }
        requires list_lengths { length self.old.draft.lists.items ≡ length self.old.draft.list_names }
        ensures { IfOk result (λ _. Adds self.old self.new line.now effect) }
    {
        self.note_line(alloc, line, &effect)?;
        self.draft.apply(alloc, effect)
    }

    /// Keeps what is passed over at a line of this effect, and the first refusal.
    fn note_line(&mut self, alloc: Global, line: &Line, effect: &Effect) -> Result<(), NoMemory>
        ensures passed { IfOk result (λ _. self.new.passed.items ≡ self.old.passed.items ++ add_passed (passed_at self.old.draft.section self.old.under line.now effect.now) []) }
        ensures under { IfOk result (λ _. self.new.under ≡ under_after self.old.under line.now effect.now) }
        ensures refusal { IfOk result (λ _. self.new.refusal ≡ option_or self.old.refusal (refusal_in effect.now)) }
        ensures draft { self.new.draft ≡ self.old.draft }
    {
        if let Some(passed) = passed_at(&self.draft.section, self.under, line, effect) {
            self.passed.push(passed)?;
        }
        self.under = under_after(self.under, line, effect);
        self.note(alloc, effect)
    }

    /// Keeps the first refusal.
    fn note(&mut self, alloc: Global, effect: &Effect) -> Result<(), NoMemory>
        ensures refusal { IfOk result (λ _. self.new.refusal ≡ option_or self.old.refusal (refusal_in effect.now)) }
        ensures draft { self.new.draft ≡ self.old.draft }
        ensures passed { self.new.passed ≡ self.old.passed }
        ensures under { self.new.under ≡ self.old.under }
    {
        if self.refusal.is_some() {
            return Ok(());
        }
        self.refusal = refusal_in(alloc, effect)?;
        Ok(())
    }
}

/// The refusal of a line.
fn refusal_in(alloc: Global, effect: &Effect) -> Result<Option<Refusal>, NoMemory>
    ensures { IfOk result (λ r. r ≡ refusal_in effect.now) }
{
    match effect {
        Effect::Refused { refusal } => Ok(Some(Refusal {
            kind: refusal.kind,
            line: refusal.line,
            word: refusal.word.copy(alloc)?,
        })),
        _ => Ok(None),
    }
}

/// What is passed over at a line of this effect.
fn passed_at(
    section: &Section,
    under: Option<usize>,
    line: &Line,
    effect: &Effect,
) -> Option<PassedLine>
    ensures { result ≡ passed_at section.now under line.now effect.now }
{
    match effect {
        Effect::Act {
            action: Action::Pass { global: true },
        } => Some(one_line(Mode::Global, under, line)),
        Effect::Act {
            action: Action::Pass { global: false },
        } => Some(one_line(mode_in(section), under, line)),
        Effect::Banner { first, last } => Some(PassedLine {
            first: *first,
            last: *last,
            start: first_byte(line.words.as_slice()),
            mode: Mode::Banner,
            under,
        }),
        _ => None,
    }
}

fn one_line(mode: Mode, under: Option<usize>, line: &Line) -> PassedLine
    ensures { result ≡ one_line mode under line.now }
{
    PassedLine {
        first: line.number,
        last: line.number,
        start: first_byte(line.words.as_slice()),
        mode,
        under,
    }
}

/// Where an indented line stands.
fn mode_in(section: &Section) -> Mode
    ensures { result ≡ mode_in section.now }
{
    match section {
        Section::Interface { .. } => Mode::Interface,
        _ => Mode::Other,
    }
}

/// The byte at which the first of the words begins.
pub(crate) fn first_byte(words: &[Span]) -> usize
    ensures { result ≡ first_byte words.now }
{
    match words {
        [] => 0,
        [word, ..] => word.start,
    }
}

/// The byte at which the section's line begins, behind this one.
fn under_after(under: Option<usize>, line: &Line, effect: &Effect) -> Option<usize>
    ensures { result ≡ under_after under line.now effect.now }
{
    if opens(effect) {
        return Some(first_byte(line.words.as_slice()));
    }
    under
}

/// Whether the line opens a section, or ends one.
fn opens(effect: &Effect) -> bool
    ensures { result ≡ is_some (opens effect.now) }
{
    match effect {
        Effect::Banner { .. } => true,
        Effect::Act { action } => is_opening(action),
        _ => false,
    }
}

fn is_opening(action: &Action) -> bool
    ensures { result ≡ is_some (opened_by action.now) }
{
    match action {
        Action::Pass { global } => *global,
        Action::Interface { change, .. } => matches!(change, Change::Open),
        Action::Entry { .. } => false,
        _ => true,
    }
}
