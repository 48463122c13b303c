//! The lines of a text that are passed over, each by itself.
ghost use Rattle.std.specs.Prelude.{◌≡◌, ◌≤◌, ◌++◌, IfOk, OnOk, length};
ghost use Rattle.std.specs.List.{flat_map};
ghost use Rattle.net_text.specs.Limits.{text_limit};
ghost use Rattle.doctor_warnings.specs.Told.{heading, heading_at, key, told_at, told_text};

use crate::lines::{end_of, line_at, trimmed};
use ios_config::{Mode, PassedLine};
use net_types::{NoMemory, Text};
use std::alloc::Global;

/// A line that is passed over, by its place in the text.
#[derive(Clone, Copy, Debug, PartialEq, Eq)]
pub struct ToldLine {
    /// From 1.
    pub number: u64,
    pub mode: Mode,
    /// The byte at which the last global command before it begins.
    pub under: Option<usize>,
    /// The byte at which it begins, or its first word does.
    pub start: usize,
}

impl ToldLine {
    /// The line up to its last word.
    pub(crate) fn text(self, bytes: &[u8]) -> &[u8]
        ensures { result.now ≡ told_text bytes.now self }
    {
        trimmed(line_at(bytes, self.start))
    }

    /// The line that opened the section in which it stands, or nothing.
    pub(crate) fn heading(self, bytes: &[u8]) -> &[u8]
        ensures { result.now ≡ heading bytes.now self.mode self.under }
    {
        heading(bytes, self.mode, self.under)
    }

    /// What it has in common with lines that read alike and stand in sections that are opened alike.
    pub(crate) fn key(self, alloc: Global, bytes: &[u8]) -> Result<Text, NoMemory>
        ensures { IfOk result (λ k. k ≡ key bytes.now self) }
    {
        let mut key = self.heading(bytes).to_vec(alloc)?;
        key.push(b'\n')?;
        key.extend_from_slice(self.text(bytes))?;
        Ok(Text::new(key))
    }
}

/// The line that opened the section in which a line stands.
fn heading(bytes: &[u8], mode: Mode, under: Option<usize>) -> &[u8]
    ensures { result.now ≡ heading bytes.now mode under }
{
    match mode {
        Mode::Banner => &[],
        Mode::Global => &[],
        Mode::Interface => heading_at(bytes, under),
        Mode::Other => heading_at(bytes, under),
    }
}

fn heading_at(bytes: &[u8], under: Option<usize>) -> &[u8]
    ensures { result.now ≡ heading_at bytes.now under }
{
    match under {
        None => &[],
        Some(start) => trimmed(line_at(bytes, start)),
    }
}

/// The lines of a text that are passed over, each by itself; `passed` are those of the reader.
pub(crate) fn told_lines(
    alloc: Global,
    bytes: &[u8],
    passed: &[PassedLine],
) -> Result<Vec<ToldLine>, NoMemory>
    requires { length bytes.now ≤ text_limit }
    ensures { IfOk result (λ told. told.items ≡ flat_map (told_at bytes.now) passed.now) }
{
    let mut told = Vec::with_capacity(alloc, passed.len())?;
    for lines in passed {
        add_told(&mut told, bytes, *lines)?;
    }
    Ok(told)
}

/// Adds lines that are passed over together.
fn add_told(told: &mut Vec<ToldLine>, bytes: &[u8], passed: PassedLine) -> Result<(), NoMemory>
    requires { length bytes.now ≤ text_limit }
    ensures { OnOk result (told.new.items ≡ told.old.items ++ told_at bytes.now passed) }
{
    let mut start = passed.start.min(bytes.len());
    let mut number = u64::from(passed.first);
    let mut left = (u64::from(passed.last) + 1).saturating_sub(number);
    while left > 0 {
        told.push(ToldLine {
            number,
            mode: passed.mode,
            under: passed.under,
            start,
        })?;
        start = end_of(bytes, start) + 1;
        number += 1;
        left -= 1;
    }
    Ok(())
}
