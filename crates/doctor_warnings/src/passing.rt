//! Which of the lines that are passed over are told, and why.
ghost use Rattle.std.specs.Prelude.{◌≡◌, ◌++◌, ◌∷◌, ◌<◌, ◌^◌, [], ℕ, List, Option, IfOk, OnOk, length, map};
ghost use Rattle.text_tallies.specs.Tallies.{AreSeen};
ghost use Rattle.doctor_warnings.specs.Beside.{IsBeside, IsJudged, IsMarked, IsTold};
ghost use Rattle.doctor_warnings.specs.Told.{key, keys};
ghost use Rattle.doctor_warnings.specs.Warnings.{is_idle_line, is_only_here, look_of, passed_behind, passed_by, passed_warnings, reason_by, reason_in, reason_of};

use crate::examined::Examined;
use crate::lines::line_at;
use crate::told::{ToldLine, told_lines};
use crate::warning::{Reason, Warning, tell};
use look_alikes::{LookAlike, is_idle, look_alike};
use net_types::{Duplicate, NoMemory, Text};
use std::alloc::Global;
use text_tallies::Tallies;

/// How often lines stand in two files, by their keys.
pub struct Beside {
    /// All lines of the other folder's file of the same name.
    pub there: Tallies,
    /// The lines of this file so far.
    pub here: Tallies,
}

impl Drop for Beside {
    fn drop(self) {
        let Beside { there: _, here: _ } = self;
    }
}

impl Beside {
    ghost use Rattle.std.specs.Prelude.{count_by, nat_le};
    ghost use Rattle.std.specs.Str.{bytes_eq};

    /// The lines of the other file, and none of this one.
    pub(crate) fn of(alloc: Global, other: &Examined) -> Result<Beside, NoMemory>
        ensures there { IfOk result (λ b. AreSeen (keys other.now.file.bytes) b.there) }
        ensures here { IfOk result (λ b. AreSeen [] b.here) }
    {
        Ok(Beside {
            there: keys_of(alloc, other)?,
            here: Tallies::new(alloc),
        })
    }

    /// Whether a line stands here more often than there, as far as the lines of this file have come; and counts it.
    fn mark(&mut self, alloc: Global, key: &Text) -> Result<bool, NoMemory>
        ensures { (ks before : List (List ℕ)) → length before < 2 ^ 63 → AreSeen ks self.old.there → AreSeen before self.old.here
            → IfOk result (λ more. IsMarked ks before key.now more self.new) }
    {
        let bytes = key.as_bytes();
        let there = self.there.count(bytes);
        let here = self.here.count(bytes);
        self.here.add(alloc, bytes)?;
        Ok(there <= here)
    }
}

/// The keys of a file's lines that are passed over.
fn keys_of(alloc: Global, file: &Examined) -> Result<Tallies, NoMemory>
    ensures { IfOk result (AreSeen (keys file.now.file.bytes)) }
{
    let bytes = file.file.bytes.as_slice();
    let told = told_lines(alloc, bytes, &file.passed)?;
    tallies_of(alloc, bytes, &told)
}

fn tallies_of(alloc: Global, bytes: &[u8], told: &[ToldLine]) -> Result<Tallies, NoMemory>
    ensures { IfOk result (AreSeen (map (key bytes.now) told.now)) }
{
    let mut tallies = Tallies::new(alloc);
    for line in told {
        let key = line.key(alloc, bytes)?;
        tallies.add(alloc, key.as_bytes())?;
    }
    Ok(tallies)
}

/// Adds what is told of a file's lines that are passed over, beside those of the other file, if there is one.
pub(crate) fn add_passed(
    alloc: Global,
    beside: &mut Option<Beside>,
    path: &Text,
    file: &Examined,
    warnings: &mut Vec<Warning>,
) -> Result<(), NoMemory>
    ensures { (ks : Option (List (List ℕ))) → IsBeside ks [] beside.old → OnOk result (warnings.new.items ≡ warnings.old.items ++ passed_warnings ks path.now file.now.file.bytes) }
{
    let bytes = file.file.bytes.as_slice();
    let told = told_lines(alloc, bytes, &file.passed)?;
    add_told(alloc, beside, path, bytes, &told, warnings)
}

fn add_told(
    alloc: Global,
    beside: &mut Option<Beside>,
    path: &Text,
    bytes: &[u8],
    told: &[ToldLine],
    warnings: &mut Vec<Warning>,
) -> Result<(), NoMemory>
    ensures { (ks : Option (List (List ℕ))) → IsBeside ks [] beside.old → OnOk result (warnings.new.items ≡ warnings.old.items ++ passed_behind ks path.now bytes.now [] told.now) }
{
    for line in told {
        add_line(alloc, beside, path, bytes, *line, warnings)?;
    }
    Ok(())
}

/// Adds what is told of a line, if anything is.
fn add_line(
    alloc: Global,
    beside: &mut Option<Beside>,
    path: &Text,
    bytes: &[u8],
    line: ToldLine,
    warnings: &mut Vec<Warning>,
) -> Result<(), NoMemory>
    ensures { (ks : Option (List (List ℕ))) (before : List (List ℕ)) → length before < 2 ^ 63 → IsBeside ks before beside.old
        → OnOk result (IsTold ks before (key bytes.now line) (passed_by path.now bytes.now line (reason_of ks before bytes.now line)) warnings.old.items warnings.new.items beside.new) }
{
    let only = is_only_here(alloc, beside, bytes, line)?;
    add_reason(
        alloc,
        path,
        bytes,
        line,
        reason_by(look_of(bytes, line), only),
        warnings,
    )
}

/// Adds a line that is told for a reason.
fn add_reason(
    alloc: Global,
    path: &Text,
    bytes: &[u8],
    line: ToldLine,
    reason: Option<Reason>,
    warnings: &mut Vec<Warning>,
) -> Result<(), NoMemory>
    ensures { OnOk result (warnings.new.items ≡ warnings.old.items ++ passed_by path.now bytes.now line reason) }
{
    let Some(reason) = reason else {
        return Ok(());
    };
    tell(
        warnings,
        Warning::Passed {
            path: path.copy(alloc)?,
            line: line.number,
            reason: reason_in(bytes, line, reason),
            text: Text::copy_of(alloc, line.text(bytes))?,
        },
    )
}

/// Whether the way of no packet depends on the line.
fn is_idle_line(bytes: &[u8], line: ToldLine) -> bool
    ensures { result ≡ is_idle_line bytes.now line }
{
    is_idle(line.mode, line.heading(bytes), line.text(bytes))
}

/// The reason, and of a line of one folder alone whether the way of a packet may depend on it.
fn reason_in(bytes: &[u8], line: ToldLine, reason: Reason) -> Reason
    ensures { result ≡ reason_in bytes.now line reason }
{
    match reason {
        Reason::Looks { look } => Reason::Looks { look },
        Reason::OnlyHere => {
            if is_idle_line(bytes, line) {
                Reason::Idle
            } else {
                Reason::OnlyHere
            }
        }
        Reason::Idle => Reason::Idle,
    }
}

fn reason_by(look: Option<LookAlike>, only: bool) -> Option<Reason>
    ensures { result ≡ reason_by look only }
{
    match look {
        Some(look) => Some(Reason::Looks { look }),
        None => { if only { Some(Reason::OnlyHere) } else { None } }
    }
}

/// What the line looks like.
fn look_of(bytes: &[u8], line: ToldLine) -> Option<LookAlike>
    ensures { result ≡ look_of bytes.now line }
{
    look_alike(line.mode, line_at(bytes, line.start))
}

/// Whether there is another file, and the line stands in this one more often so far.
fn is_only_here(
    alloc: Global,
    beside: &mut Option<Beside>,
    bytes: &[u8],
    line: ToldLine,
) -> Result<bool, NoMemory>
    ensures { (ks : Option (List (List ℕ))) (before : List (List ℕ)) → length before < 2 ^ 63 → IsBeside ks before beside.old
        → IfOk result (λ only. IsJudged ks before (key bytes.now line) only beside.new) }
{
    match beside {
        None => Ok(false),
        Some(files) => {
            let key = line.key(alloc, bytes)?;
            files.mark(alloc, &key)
        }
    }
}
