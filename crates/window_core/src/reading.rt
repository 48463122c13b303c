//! The questions and the steps of a window, as they are read.

ghost use Rattle.std.specs.Prelude.{◌≡◌, ◌≤◌, IfErr, IfOk, IfSome, length};
ghost use Rattle.net_io.specs.Limits.{file_limit};
ghost use Rattle.job_core.specs.Causes.{HasCause, NamesLast, WasRead};
ghost use Rattle.window_core.specs.Job.{AsksText, GivesSteps, GivesText, SaysQuestions, SaysSteps, asked_network};
ghost use Rattle.window_core.specs.Window.{HasFewNames};

use crate::base::Base;
use ask_query::{QuestionFail, read_questions};
use job_core::{Stop, read_bytes};
use net_io::Files;
use net_load::number_all;
use net_types::{List, Network, NoMemory, Question, Text};
use rollout_steps::{StepLine, StepsFail, read_steps};
use std::alloc::Global;

/// The bytes of a file that asks questions on the network before all changes.
pub(crate) fn read_text<F: Files>(
    alloc: Global,
    files: &mut F,
    path: &str,
    base: &Base,
) -> Result<List<u8>, Stop>
    requires { HasFewNames base.now }
    ensures text { IfSome (F.told files.old) (λ t. GivesText t path.now base.now result) }
    ensures limit { IfOk result (λ bytes. length bytes ≤ file_limit) }
    ensures cause { HasCause (F.faults files.old) (F.faults files.new) result }
    ensures last { IfErr result (NamesLast (F.last files.new)) }
    ensures same { F.told files.new ≡ F.told files.old }
{
    match read_bytes(alloc, files, path) {
        Ok(bytes) => asked_text(alloc, path, base, List::new(bytes)),
        Err(stop) => Err(stop),
    }
}

// The same bytes, where they ask questions.
fn asked_text(alloc: Global, path: &str, base: &Base, bytes: List<u8>) -> Result<List<u8>, Stop>
    requires names { HasFewNames base.now }
    requires bytes { length bytes ≤ file_limit }
    ensures text { AsksText path.now base.now bytes result }
    ensures limit { IfOk result (λ bytes. length bytes ≤ file_limit) }
    ensures read { IfErr result WasRead }
{
    match first_questions(alloc, path, base, bytes.as_slice()) {
        Ok(_) => Ok(bytes),
        Err(stop) => Err(stop),
    }
}

// The questions on the network before all changes.
fn first_questions(
    alloc: Global,
    path: &str,
    base: &Base,
    bytes: &[u8],
) -> Result<List<Question>, Stop>
    requires names { HasFewNames base.now }
    requires bytes { length bytes.now ≤ file_limit }
    ensures questions { SaysQuestions path.now (asked_network base.now).old bytes.now result }
    ensures read { IfErr result WasRead }
{
    let devices = base.devices.copy_items(alloc)?.into_vec();
    let numbered = number_all(alloc, devices, Vec::new(alloc), &base.table, &[])?;
    questions_in(alloc, path, &numbered.old, bytes)
}

/// The questions that the bytes of a file ask on a network.
pub(crate) fn questions_in(
    alloc: Global,
    path: &str,
    network: &Network,
    bytes: &[u8],
) -> Result<List<Question>, Stop>
    requires { length bytes.now ≤ file_limit }
    ensures questions { SaysQuestions path.now network.now bytes.now result }
    ensures few { IfOk result (λ questions. length questions ≤ file_limit) }
    ensures read { IfErr result WasRead }
{
    match read_questions(alloc, network, bytes) {
        Ok(questions) => Ok(List::new(questions)),
        Err(QuestionFail::NoMemory) => Err(Stop::NoMemory),
        Err(QuestionFail::Refused { kind, line, word }) => Err(Stop::refused(
            alloc,
            path,
            u64::from(line),
            kind.name(),
            word,
        )?),
    }
}

/// The steps of a file.
pub(crate) fn read_lines<F: Files>(
    alloc: Global,
    files: &mut F,
    path: &str,
) -> Result<List<StepLine>, Stop>
    ensures steps { IfSome (F.told files.old) (λ t. GivesSteps t path.now result) }
    ensures cause { HasCause (F.faults files.old) (F.faults files.new) result }
    ensures last { IfErr result (NamesLast (F.last files.new)) }
    ensures same { F.told files.new ≡ F.told files.old }
{
    match read_bytes(alloc, files, path) {
        Ok(bytes) => lines_in(alloc, path, &bytes),
        Err(stop) => Err(stop),
    }
}

// The steps that the bytes of a file say.
fn lines_in(alloc: Global, path: &str, bytes: &[u8]) -> Result<List<StepLine>, Stop>
    requires { length bytes.now ≤ file_limit }
    ensures steps { SaysSteps path.now bytes.now result }
    ensures read { IfErr result WasRead }
{
    match read_steps(alloc, bytes) {
        Ok(steps) => Ok(List::new(steps)),
        Err(StepsFail::NoMemory) => Err(Stop::NoMemory),
        Err(StepsFail::TooMany) => Err(Stop::TooManyFiles {
            path: Text::copy_of(alloc, path.as_bytes())?,
        }),
        Err(StepsFail::Refused { kind, line, word }) => Err(Stop::refused(
            alloc,
            path,
            u64::from(line),
            kind.name(),
            word,
        )?),
    }
}
