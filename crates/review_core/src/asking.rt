//! `ask NET LINKS QUESTIONS`: the answers to the questions of a file.

ghost use Rattle.std.specs.Prelude.{◌≡◌, ◌≤◌, IfErr, IfOk, IfSome, length};
ghost use Rattle.net_io.specs.Limits.{file_limit};
ghost use Rattle.net_load.specs.Limits.{folder_limit};
ghost use Rattle.net_load.specs.Numbering.{folder_names};
ghost use Rattle.topo_links.specs.Table.{table_names};
ghost use Rattle.review_args.specs.Requests.{IsTtl};
ghost use Rattle.job_core.specs.Causes.{HasCause, NamesLast, WasRead};
ghost use Rattle.job_core.specs.Steps.{OrNoMemory};
ghost use Rattle.review_core.specs.Job.{Asks, AsksOn, AsksOver, AsksWith, IsAnswering, asked_network};

use ask_query::{QuestionFail, answer, read_questions};
use job_core::{Report, Stop, Wires, read_bytes, read_table};
use job_inputs::read_folder_by_workers;
use net_io::Files;
use net_load::{Numbered, number_all};
use net_types::{Loaded, NoMemory, Question};
use result_text::{answers_bytes, failed_count};
use review_args::Asking;
use std::alloc::Global;
use std::sync::Wait;
use std::thread::Threads;
use steal_pool::{Gate, Workers};
use topo_links::LinkTable;

/// The answers to the questions of a file on the network of a folder.
pub(crate) fn ask_in_folder<F: Files, R: Threads + Wait + Sync, G: Gate + Sync>(
    by: &Workers<R, G>,
    alloc: Global,
    files: &mut F,
    asked: &Asking,
) -> Result<Report, Stop>
    requires { IsTtl asked.now.ttl }
    ensures job { IfSome (F.told files.old) (λ t. Asks t asked.now result) }
    ensures cause { HasCause (F.faults files.old) (F.faults files.new) result }
    ensures last { IfErr result (NamesLast (F.last files.new)) }
{
    match read_folder_by_workers(by.rt, by.count as usize, alloc, files, asked.net.as_str()) {
        Ok(devices) => ask_over(by, alloc, files, devices, asked),
        Err(stop) => Err(stop),
    }
}

// The answers in a network and a link table, which is judged with the network as both.
fn ask_over<F: Files, R: Threads + Wait + Sync, G: Gate + Sync>(
    by: &Workers<R, G>,
    alloc: Global,
    files: &mut F,
    devices: Vec<Loaded>,
    asked: &Asking,
) -> Result<Report, Stop>
    requires names { length (folder_names devices.items) ≤ folder_limit }
    requires ttl { IsTtl asked.now.ttl }
    ensures job { IfSome (F.told files.old) (λ t. AsksOver t devices.items asked.now result) }
    ensures cause { HasCause (F.faults files.old) (F.faults files.new) result }
    ensures last { IfErr result (NamesLast (F.last files.new)) }
{
    let links = asked.links.as_str();
    match read_table(alloc, files, links, Wires::Both, &devices, &devices) {
        Ok(table) => ask_with(by, alloc, files, devices, &table, asked),
        Err(stop) => Err(stop),
    }
}

// The answers in a network with these links, and the file of questions.
fn ask_with<F: Files, R: Threads + Wait + Sync, G: Gate + Sync>(
    by: &Workers<R, G>,
    alloc: Global,
    files: &mut F,
    devices: Vec<Loaded>,
    table: &LinkTable,
    asked: &Asking,
) -> Result<Report, Stop>
    requires names { length (folder_names devices.items) ≤ folder_limit }
    requires table { length (table_names table.now) ≤ file_limit }
    requires ttl { IsTtl asked.now.ttl }
    ensures job { IfSome (F.told files.old) (λ t. AsksWith t devices.items table.now asked.now result) }
    ensures cause { HasCause (F.faults files.old) (F.faults files.new) result }
    ensures last { IfErr result (NamesLast (F.last files.new)) }
{
    match read_bytes(alloc, files, asked.questions.as_str()) {
        Ok(bytes) => ask_numbered(by, alloc, devices, table, &bytes, asked),
        Err(stop) => Err(stop),
    }
}

// The answers to the questions that the bytes of a file ask.
fn ask_numbered<R: Threads + Wait + Sync, G: Gate + Sync>(
    by: &Workers<R, G>,
    alloc: Global,
    devices: Vec<Loaded>,
    table: &LinkTable,
    bytes: &[u8],
    asked: &Asking,
) -> Result<Report, Stop>
    requires names { length (folder_names devices.items) ≤ folder_limit }
    requires table { length (table_names table.now) ≤ file_limit }
    requires bytes { length bytes.now ≤ file_limit }
    requires ttl { IsTtl asked.now.ttl }
    ensures job { AsksOn asked.now.questions (asked_network devices.items table.now) asked.now.ttl bytes.now result }
    ensures read { IfErr result WasRead }
{
    let numbered = number_all(alloc, devices, Vec::new(alloc), table, &[])?;
    ask_on(by, alloc, &numbered, bytes, asked)
}

// The same, where names are numbers. Places of questions are found among those of the network.
fn ask_on<R: Threads + Wait + Sync, G: Gate + Sync>(
    by: &Workers<R, G>,
    alloc: Global,
    numbered: &Numbered,
    bytes: &[u8],
    asked: &Asking,
) -> Result<Report, Stop>
    requires bytes { length bytes.now ≤ file_limit }
    requires ttl { IsTtl asked.now.ttl }
    ensures job { AsksOn asked.now.questions numbered.now asked.now.ttl bytes.now result }
    ensures read { IfErr result WasRead }
{
    match read_questions(alloc, &numbered.old, bytes) {
        Ok(questions) => answered(by, alloc, numbered, &questions, asked.ttl),
        Err(QuestionFail::NoMemory) => Err(Stop::NoMemory),
        Err(QuestionFail::Refused { kind, line, word }) => Err(Stop::refused(
            alloc,
            asked.questions.as_str(),
            u64::from(line),
            kind.name(),
            word,
        )?),
    }
}

fn answered<R: Threads + Wait + Sync, G: Gate + Sync>(
    by: &Workers<R, G>,
    alloc: Global,
    numbered: &Numbered,
    questions: &[Question],
    ttl: u8,
) -> Result<Report, Stop>
    requires { IsTtl ttl }
    ensures job { OrNoMemory (IsAnswering numbered.now questions.now ttl) result }
    ensures read { IfErr result WasRead }
{
    let report = answering(by, alloc, numbered, questions, ttl)?;
    Ok(report)
}

fn answering<R: Threads + Wait + Sync, G: Gate + Sync>(
    by: &Workers<R, G>,
    alloc: Global,
    numbered: &Numbered,
    questions: &[Question],
    ttl: u8,
) -> Result<Report, NoMemory>
    requires { IsTtl ttl }
    ensures { IfOk result (IsAnswering numbered.now questions.now ttl) }
{
    let answers = answer(by, alloc, &numbered.old, &numbered.links, questions, ttl)?;
    let text = answers_bytes(alloc, &answers)?;
    let affected = failed_count(&answers) > 0;
    Ok(Report { text, affected })
}
