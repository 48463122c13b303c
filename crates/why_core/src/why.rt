//! `view --why OLD NEW LINKS REPORT`: why the rows of a report differ.

ghost use Rattle.std.specs.Prelude.{◌≡◌, ◌≢◌, ◌≤◌, false, true, IfErr, IfOk, IfSome, length, map, string_bytes};
ghost use Rattle.job_core.specs.Causes.{HasCause, WasRead};
ghost use Rattle.job_core.specs.Endings.{Ends};
ghost use Rattle.view_core.specs.Reports.{own_names, report_limit};
ghost use Rattle.view_words.specs.Usage.{usage_text};
ghost use Rattle.why_core.specs.Cases.{ground_of};
ghost use Rattle.why_core.specs.Networks.{AreFew};
ghost use Rattle.why_core.specs.Told.{IsTold};
ghost use Rattle.why_core.specs.Why.{Does, Explains, ExplainsBytes, ExplainsOver, IsAccepted, Judges, ground_with, is_asked, numbered_of};
ghost use Rattle.why_core.specs.Words.{why_in};

use crate::basis::Basis;
use crate::explain::{Told, explanation};
use crate::lines::line_of;
use crate::networks::{Networks, read_networks};
use crate::words::{Manner, WhyWords, why_of};
use job_core::{Report, Stop, finish, refuse};
use net_io::{Files, Sink};
use net_load::NumberedBoth;
use net_types::{Names, NoMemory, Place, Text};
use net_view::WorldRef;
use std::alloc::Global;
use view_core::{Reported, read_report_file, report_in};
use view_words::USAGE;
use walk_trace::Site;

/// Explains the groups of a report of two networks, the first hundred or all: what becomes of the least header of each in both
/// networks. It answers the status: 0 where that was written, and else as every program of the house; a report that isn't of these
/// networks is refused.
pub fn why_run<F: Files, O: Sink, E: Sink>(
    alloc: Global,
    words: &[String],
    files: &mut F,
    out: &mut O,
    err: &mut E,
) -> u8
    // The words alone decide whether they are within the usage.
    ensures usage { result ≡ 2 → is_asked (map string_bytes words.now) ≡ false }
    ensures refused { is_asked (map string_bytes words.now) ≡ false → result ≡ 2 }

    // The run ends as one of the explanation that the words ask for, and that has nothing which status 1 tells.
    ensures ends { Ends (Does (map string_bytes words.now)) (IsAccepted (map string_bytes words.now)) usage_text result
        (record { told = F.told files.old; faults_before = F.faults files.old; faults_now = F.faults files.new })
        (record { before = O.taken out.old; now = O.taken out.new; faults_before = O.faults out.old; faults_now = O.faults out.new })
        (record { before = E.taken err.old; now = E.taken err.new; faults_before = E.faults err.old; faults_now = E.faults err.new }) }
    ensures plain { result ≢ 1 }
{
    let Some(asked) = why_of(words) else {
        return refuse(USAGE, err);
    };
    let done = explain(alloc, files, asked);
    finish(alloc, done, out, err)
}

// Reads the networks, and then the report.
fn explain<F: Files>(alloc: Global, files: &mut F, asked: WhyWords) -> Result<Report, Stop>
    ensures explains { IfSome (F.told files.old) (λ t. Explains t (why_in asked.entry) result) }
    ensures plain { IfOk result (λ r. r.affected ≡ false) }
    ensures cause { HasCause (F.faults files.old) (F.faults files.new) result }
{
    match read_networks(alloc, files, asked.old, asked.new, asked.links) {
        Ok(networks) => explain_over(alloc, files, networks, asked),
        Err(stop) => Err(stop),
    }
}

fn explain_over<F: Files>(
    alloc: Global,
    files: &mut F,
    networks: Networks,
    asked: WhyWords,
) -> Result<Report, Stop>
    requires { AreFew networks }
    ensures explains { IfSome (F.told files.old) (λ t. ExplainsOver t (numbered_of networks) (why_in asked.entry) result) }
    ensures plain { IfOk result (λ r. r.affected ≡ false) }
    ensures cause { HasCause (F.faults files.old) (F.faults files.new) result }
{
    match read_report_file(alloc, files, asked.report) {
        Ok(bytes) => explain_bytes(alloc, networks, asked, &bytes),
        Err(stop) => Err(stop),
    }
}

fn explain_bytes(
    alloc: Global,
    networks: Networks,
    asked: WhyWords,
    bytes: &[u8],
) -> Result<Report, Stop>
    requires few { AreFew networks }
    requires limit { length bytes.now ≤ report_limit }
    ensures explains { ExplainsBytes (numbered_of networks) (why_in asked.entry) bytes.now result }
    ensures plain { IfOk result (λ r. r.affected ≡ false) }
    ensures read { IfErr result WasRead }
{
    match report_in(alloc, asked.report, bytes) {
        Ok(reported) => judge(alloc, networks, asked, bytes, &reported),
        Err(stop) => Err(stop),
    }
}

fn judge(
    alloc: Global,
    networks: Networks,
    asked: WhyWords,
    bytes: &[u8],
    reported: &Reported,
) -> Result<Report, Stop>
    requires few { AreFew networks }
    requires limit { length bytes.now ≤ report_limit }
    requires names { reported.now.names ≡ own_names bytes.now }
    ensures judges { Judges (numbered_of networks) (why_in asked.entry) bytes.now reported.now.sections.items result }
    ensures plain { IfOk result (λ r. r.affected ≡ false) }
    ensures read { IfErr result WasRead }
{
    let both = networks.number(alloc, &[])?;
    let told = tell(alloc, &both, reported, asked.manner)?;
    match told {
        Told::Explained { text } => Ok(Report {
            text,
            affected: false,
        }),
        Told::Other { line } => {
            let line = line_of(bytes, &line);
            let none = Text::new(Vec::new(alloc));
            Err(Stop::refused(alloc, asked.report, line, "OtherNetworks", none)?)
        }
    }
}

// What there is to say, over the networks.
fn tell(
    alloc: Global,
    both: &NumberedBoth,
    reported: &Reported,
    manner: Manner,
) -> Result<Told, NoMemory>
    ensures { IfOk result (IsTold (ground_with reported.now.names both.now) both.now.ingress manner reported.now.sections.items) }
{
    let mut basis = basis_of(alloc, both, &reported.names)?;
    tell_on(alloc, &mut basis, reported, both.ingress.as_slice(), manner)
}

// The same, over these networks.
fn tell_on(
    alloc: Global,
    basis: &mut Basis,
    reported: &Reported,
    ingress: &[Place],
    manner: Manner,
) -> Result<Told, NoMemory>
    ensures { IfOk result (IsTold (ground_of basis.old) ingress.now manner reported.now.sections.items) }
{
    explanation(alloc, basis, &reported.sections, ingress, manner)
}

// Both networks, each of which is indexed once.
fn basis_of<'a>(
    alloc: Global,
    both: &'a NumberedBoth,
    report: &'a Names,
) -> Result<Basis<'a>, NoMemory>
    ensures { IfOk result (λ basis. ground_of basis ≡ ground_with report.now both.now) }
{
    let before = WorldRef {
        network: &both.old,
        links: &both.old_links,
    };
    let after = WorldRef {
        network: &both.new,
        links: &both.new_links,
    };
    let before = Site::of(alloc, before)?;
    let after = Site::of(alloc, after)?;
    Ok(Basis {
        report,
        names: &both.names,
        before,
        after,
    })
}
