//! `rollout NET LINKS QUESTIONS STEPS`: the answer for each network of a change window.

ghost use Rattle.std.specs.Prelude.{◌≡◌, ◌≤◌, IfErr, IfOk, IfSome, length};
ghost use Rattle.net_io.specs.Limits.{file_limit};
ghost use Rattle.net_load.specs.Limits.{folder_limit};
ghost use Rattle.net_load.specs.Numbering.{folder_names};
ghost use Rattle.job_core.specs.Causes.{HasCause, NamesLast, WasRead};
ghost use Rattle.job_core.specs.Steps.{OrNoMemory};
ghost use Rattle.window_core.specs.Job.{Asks, IsRollout, Rolls, RollsFrom, RollsWith, window_network};
ghost use Rattle.window_core.specs.RolloutText.{fails};
ghost use Rattle.window_core.specs.Window.{HasFewNames};
ghost use Rattle.window_core.specs.Words.{paths};

use crate::base::{Base, read_base};
use crate::changes::read_window;
use crate::reading::{questions_in, read_text};
use crate::text::rollout_bytes;
use crate::words::Asked;
use job_core::{Report, Stop};
use net_io::Files;
use net_load::{Numbered, number_all};
use net_types::{List, Loaded, NoMemory, Question};
use rollout::{Rollout, RolloutAnswer, check_rollout};
use std::alloc::Global;
use std::sync::Wait;
use std::thread::Threads;
use steal_pool::{Gate, Workers};

// The TTL with which packets enter.
const FIRST_TTL: u8 = 255;

/// The answer for the change window that the words name.
pub(crate) fn roll<F: Files, R: Threads + Wait + Sync, G: Gate + Sync>(
    by: &Workers<R, G>,
    alloc: Global,
    files: &mut F,
    asked: &Asked,
) -> Result<Report, Stop>
    ensures job { IfSome (F.told files.old) (λ t. Rolls t (paths asked.now) result) }
    ensures cause { HasCause (F.faults files.old) (F.faults files.new) result }
    ensures last { IfErr result (NamesLast (F.last files.new)) }
{
    match read_base(by, alloc, files, asked) {
        Ok(base) => roll_from(by, alloc, files, base, asked),
        Err(stop) => Err(stop),
    }
}

// The answer for this network before all changes.
fn roll_from<F: Files, R: Threads + Wait + Sync, G: Gate + Sync>(
    by: &Workers<R, G>,
    alloc: Global,
    files: &mut F,
    base: Base,
    asked: &Asked,
) -> Result<Report, Stop>
    requires { HasFewNames base }
    ensures job { IfSome (F.told files.old) (λ t. RollsFrom t (paths asked.now) base result) }
    ensures cause { HasCause (F.faults files.old) (F.faults files.new) result }
    ensures last { IfErr result (NamesLast (F.last files.new)) }
{
    match read_text(alloc, files, asked.questions, &base) {
        Ok(text) => roll_with(by, alloc, files, base, text, asked),
        Err(stop) => Err(stop),
    }
}

// The answer for these bytes of questions.
fn roll_with<F: Files, R: Threads + Wait + Sync, G: Gate + Sync>(
    by: &Workers<R, G>,
    alloc: Global,
    files: &mut F,
    base: Base,
    text: List<u8>,
    asked: &Asked,
) -> Result<Report, Stop>
    requires names { HasFewNames base }
    requires text { length text ≤ file_limit }
    ensures job { IfSome (F.told files.old) (λ t. RollsWith t (paths asked.now) base text result) }
    ensures cause { HasCause (F.faults files.old) (F.faults files.new) result }
    ensures last { IfErr result (NamesLast (F.last files.new)) }
{
    match read_window(alloc, files, asked.steps, &base) {
        Ok(changes) => ask(by, alloc, base, changes, asked.questions, text.as_slice()),
        Err(stop) => Err(stop),
    }
}

// The answer for these changes. All names of the changed files are numbered too.
fn ask<R: Threads + Wait + Sync, G: Gate + Sync>(
    by: &Workers<R, G>,
    alloc: Global,
    base: Base,
    changes: List<Loaded>,
    path: &str,
    text: &[u8],
) -> Result<Report, Stop>
    requires names { HasFewNames base }
    requires changes { length (folder_names changes) ≤ folder_limit }
    requires few { length changes ≤ folder_limit }
    requires text { length text.now ≤ file_limit }
    ensures job { Asks path.now (window_network base changes) text.now result }
    ensures read { IfErr result WasRead }
{
    let Base { devices, table } = base;
    let numbered = number_all(alloc, devices.into_vec(), changes.into_vec(), &table, &[])?;
    ask_on(by, alloc, &numbered, path, text)
}

// The same, where names are numbers. Places of questions are found among those of the network.
fn ask_on<R: Threads + Wait + Sync, G: Gate + Sync>(
    by: &Workers<R, G>,
    alloc: Global,
    numbered: &Numbered,
    path: &str,
    text: &[u8],
) -> Result<Report, Stop>
    requires few { length numbered.now.new.devices ≤ folder_limit }
    requires text { length text.now ≤ file_limit }
    ensures job { Asks path.now numbered.now text.now result }
    ensures read { IfErr result WasRead }
{
    match questions_in(alloc, path, &numbered.old, text) {
        Ok(questions) => answered(by, alloc, numbered, questions.as_slice()),
        Err(stop) => Err(stop),
    }
}

fn answered<R: Threads + Wait + Sync, G: Gate + Sync>(
    by: &Workers<R, G>,
    alloc: Global,
    numbered: &Numbered,
    questions: &[Question],
) -> Result<Report, Stop>
    requires few { length numbered.now.new.devices ≤ folder_limit }
    requires questions { length questions.now ≤ file_limit }
    ensures job { OrNoMemory (IsRollout numbered.now questions.now) result }
    ensures read { IfErr result WasRead }
{
    let report = report_of(by, alloc, numbered, questions)?;
    Ok(report)
}

// The text of the answer, and whether a question fails.
fn report_of<R: Threads + Wait + Sync, G: Gate + Sync>(
    by: &Workers<R, G>,
    alloc: Global,
    numbered: &Numbered,
    questions: &[Question],
) -> Result<Report, NoMemory>
    requires few { length numbered.now.new.devices ≤ folder_limit }
    requires questions { length questions.now ≤ file_limit }
    ensures { IfOk result (IsRollout numbered.now questions.now) }
{
    let changes = numbered.new.devices.as_slice();
    let rollout = Rollout {
        base: &numbered.old,
        changes,
        links: &numbered.links,
    };
    let answer = check_rollout(by, alloc, &rollout, questions, FIRST_TTL)?;
    let text = rollout_bytes(alloc, changes.len() as u64 + 1, &answer)?;
    Ok(Report {
        text,
        affected: fails(&answer),
    })
}

fn fails(answer: &RolloutAnswer) -> bool
    ensures { result ≡ fails answer.now }
{
    match answer {
        RolloutAnswer::Holds => false,
        RolloutAnswer::Fails { .. } => true,
    }
}
