//! What is counted: limits of the model that a network meets, and lines on which the way of no packet depends.
ghost use Rattle.std.specs.Prelude.{◌≡◌, ◌++◌, IfOk, OnOk, filter_map, option_to_list};
ghost use Rattle.doctor_warnings.specs.Limits.{counted_limits, idle_at, limit_at, limit_of, refused_kind};

use crate::warning::{Reason, Warning};
use look_alikes::{is_prepared, refused_by};
use net_types::{Duplicate, NoMemory, Text};
use std::alloc::Global;

/// What becomes of a network that meets a limit.
#[derive(Clone, Copy, Debug, PartialEq, Eq)]
pub enum LimitKind {
    /// A packet goes to and fro on a link where a network would drop it.
    Ethernet,
    /// Nothing: the way of no packet depends on it.
    Idle,
    /// It is refused, and `prepare` brings it into what is read.
    Prepared,
    /// It is refused.
    Refused,
}

/// A place where a network meets a limit of the model.
pub struct Limit {
    pub path: Text,
    /// From 1.
    pub line: u64,
    /// What isn't modelled as it is, in a few words.
    pub words: Text,
    pub kind: LimitKind,
}

impl Drop for Limit {
    fn drop(self) {
        let Limit {
            path: _,
            line: _,
            words: _,
            kind: _,
        } = self;
    }
}

/// Those of what is refused, and of lines on which the way of no packet depends.
pub(crate) fn counted_limits(alloc: Global, warnings: &[Warning]) -> Result<Vec<Limit>, NoMemory>
    ensures { IfOk result (λ limits. limits.items ≡ counted_limits warnings.now) }
{
    let mut limits = Vec::new(alloc);
    for warning in warnings {
        add_limit(alloc, warning, &mut limits)?;
    }
    Ok(limits)
}

fn add_limit(alloc: Global, warning: &Warning, limits: &mut Vec<Limit>) -> Result<(), NoMemory>
    ensures { OnOk result (limits.new.items ≡ limits.old.items ++ option_to_list (limit_of warning.now)) }
{
    match limit_of(alloc, warning)? {
        None => Ok(()),
        Some(limit) => {
            limits.push(limit)?;
            Ok(())
        }
    }
}

fn limit_of(alloc: Global, warning: &Warning) -> Result<Option<Limit>, NoMemory>
    ensures { IfOk result (λ limit. limit ≡ limit_of warning.now) }
{
    match warning {
        Warning::Refused {
            path,
            line,
            kind,
            word,
            text,
        } => limit_at(alloc, path, *line, kind, word, text),
        Warning::Passed {
            path,
            line,
            reason,
            text: _,
        } => idle_at(alloc, path, *line, *reason),
        _ => Ok(None),
    }
}

/// Where a line is refused because its command isn't covered.
fn limit_at(
    alloc: Global,
    path: &Text,
    line: u32,
    kind: &Text,
    word: &Text,
    text: &Text,
) -> Result<Option<Limit>, NoMemory>
    ensures { IfOk result (λ limit. limit ≡ limit_at path.now line kind.now word.now text.now) }
{
    if kind.as_bytes() != b"NotCovered".as_slice() {
        return Ok(None);
    }
    Ok(Some(Limit {
        path: path.copy(alloc)?,
        line: u64::from(line),
        words: Text::new(refused_by(alloc, text.as_bytes(), word.as_bytes())?),
        kind: refused_kind(word),
    }))
}

/// Where a line stands in one folder alone and the way of no packet depends on it.
fn idle_at(alloc: Global, path: &Text, line: u64, reason: Reason) -> Result<Option<Limit>, NoMemory>
    ensures { IfOk result (λ limit. limit ≡ idle_at path.now line reason) }
{
    match reason {
        Reason::Looks { look: _ } => Ok(None),
        Reason::OnlyHere => Ok(None),
        Reason::Idle => Ok(Some(Limit {
            path: path.copy(alloc)?,
            line,
            words: Text::copy_of(
                alloc,
                b"lines of one folder alone that no packet depends on, as descriptions and logins",
            )?,
            kind: LimitKind::Idle,
        })),
    }
}

fn refused_kind(word: &Text) -> LimitKind
    ensures { result ≡ refused_kind word.now }
{
    if is_prepared(word.as_bytes()) {
        LimitKind::Prepared
    } else {
        LimitKind::Refused
    }
}
