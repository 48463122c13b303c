//! Reading the text of a change window.

ghost use Rattle.std.specs.Prelude.{◌≡◌, ◌≤◌, IfOk, MatchOption, codes, false, length, map, true};
ghost use Rattle.std.specs.Str.{bytes_eq, is_utf8};
ghost use Rattle.net_text.specs.Limits.{text_limit};
ghost use Rattle.net_text.specs.Lines.{piece};
ghost use Rattle.rollout_steps.specs.Refusals.{Gives};
ghost use Rattle.rollout_steps.specs.Reading.{Adds, alone, begins_mark, effect_of, effects_in, path_at, steps_in, steps_limit, steps_of};

use crate::refusal::{StepRefusal, StepsFail, at_word, missing};
use net_text::{Line, Span, lines, part};
use net_types::{NoMemory, Text, Word};
use std::alloc::Global;
use std::str;

// The most steps that a window may have.
const STEPS_LIMIT: usize = 1024;

/// A step of a change window: the configuration of a file replaces that of the device of its hostname.
#[derive(Drop)]
pub struct StepLine {
    /// The line's place in the text, from 1.
    pub line: u32,
    /// Where the file is.
    pub path: Word,
}

/// The steps of a text of at most 16,777,216 bytes, at most 1,024; or why there are none: a line is refused, or there are more.
///
/// A line is refused where its first word isn't `change`, its path isn't UTF-8 or a word stands behind it, with `BadWord`, and
/// where it ends too early, with `MissingWord`. The first line decides that is refused or that is a step too many.
pub fn read_steps(alloc: Global, bytes: &[u8]) -> Result<Vec<StepLine>, StepsFail>
    requires { length bytes.now ≤ text_limit }
    ensures exact { Gives (λ steps. steps.items) result (steps_of bytes.now) }
{
    let lines = lines(alloc, bytes)?;
    let steps = read_lines(alloc, bytes, &lines)?;
    Ok(steps)
}

// The steps of the lines.
fn read_lines(alloc: Global, bytes: &[u8], lines: &[Line]) -> Result<Vec<StepLine>, StepsFail>
    ensures { Gives (λ steps. steps.items) result (steps_in (effects_in bytes.now lines.now)) }
{
    let mut steps = Vec::new(alloc);
    for line in lines {
        let words = texts(alloc, bytes, line.words.as_slice())?;
        let step = read_line(alloc, line.number, &words)?;
        add(&mut steps, step)?;
    }
    Ok(steps)
}

// Adds the step, if there is one, where there is room for it.
fn add(steps: &mut Vec<StepLine>, step: Option<StepLine>) -> Result<(), StepsFail>
    requires { length steps.old.items ≤ steps_limit }
    ensures { Adds steps.old.items step steps.new.items result }
{
    let Some(step) = step else {
        return Ok(());
    };
    if steps.len() >= STEPS_LIMIT {
        return Err(StepsFail::TooMany);
    }
    steps.push(step)?;
    Ok(())
}

/// The words of a line.
pub fn texts(alloc: Global, bytes: &[u8], spans: &[Span]) -> Result<Vec<Text>, NoMemory>
    ensures { IfOk result (λ words. words.items ≡ map (piece bytes.now) spans.now) }
{
    let mut words = Vec::with_capacity(alloc, spans.len())?;
    for span in spans {
        words.push(Text::copy_of(alloc, part(bytes, *span))?)?;
    }
    Ok(words)
}

/// The step of a line, if it isn't a comment.
#[tactic(auto, unfolding(crate::specs::Reading::effect_of))]
pub fn read_line(alloc: Global, line: u32, words: &[Text]) -> Result<Option<StepLine>, StepsFail>
    ensures { Gives (λ step. step) result (effect_of line words.now) }
{
    let [word, rest @ ..] = words else {
        return Ok(None);
    };
    if is_comment(word) {
        return Ok(None);
    }
    if !is_change(word) {
        return Err(at_word(alloc, StepRefusal::BadWord, line, word));
    }
    read_path(alloc, line, rest)
}

// The step of a line, by the words behind its first one.
#[tactic(auto, unfolding(crate::specs::Reading::path_at))]
fn read_path(alloc: Global, line: u32, words: &[Text]) -> Result<Option<StepLine>, StepsFail>
    ensures { Gives (λ step. step) result (path_at line words.now) }
{
    let [word, rest @ ..] = words else {
        return Err(missing(alloc, line));
    };
    let Some(path) = as_utf8(word) else {
        return Err(at_word(alloc, StepRefusal::BadWord, line, word));
    };
    end(alloc, line, path, rest)
}

// The step with this path, if no word stands behind it.
fn end(alloc: Global, line: u32, path: &str, words: &[Text]) -> Result<Option<StepLine>, StepsFail>
    ensures { Gives (λ step. step) result (alone line path.now words.now) }
{
    if let [word, ..] = words {
        return Err(at_word(alloc, StepRefusal::BadWord, line, word));
    }
    Ok(Some(StepLine {
        line,
        path: Word::new(path.to_string(alloc)?),
    }))
}

// The word as text, where it is UTF-8.
fn as_utf8(word: &Text) -> Option<&str>
    ensures { MatchOption result (is_utf8 word.now ≡ false) (λ text. (text.now ≡ word.now) × (is_utf8 word.now ≡ true)) }
{
    match str::from_utf8(word.as_bytes()) {
        Ok(text) => Some(text),
        Err(_) => None,
    }
}

// Whether the line is a comment.
fn is_comment(word: &Text) -> bool
    ensures { result ≡ begins_mark word.now }
{
    match word.as_bytes() {
        [] => false,
        [first, ..] => *first == b'!',
    }
}

fn is_change(word: &Text) -> bool
    ensures { result ≡ bytes_eq word.now (codes "change") }
{
    word.as_bytes() == b"change".as_slice()
}
