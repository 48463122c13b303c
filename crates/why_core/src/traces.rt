//! `view --traces [--json] OLD NEW LINKS DEVICE INTERFACE HEADER`: what becomes of a packet in two networks.

ghost use Rattle.std.specs.Prelude.{◌≡◌, ◌≢◌, ◌⊎◌, ◌<◌, ◌≤◌, ◌^◌, ◌∷◌, [], false, IfErr, IfOk, IfSome, length, map, position, string_bytes};
ghost use Rattle.std.specs.Str.{bytes_eq};
ghost use Rattle.job_core.specs.Causes.{HasCause};
ghost use Rattle.job_core.specs.Endings.{Ends};
ghost use Rattle.job_core.specs.Steps.{OrNoMemory};
ghost use Rattle.net_load.specs.Numbering.{number_of, place_of};
ghost use Rattle.view_words.specs.Usage.{usage_text};
ghost use Rattle.why_core.specs.Networks.{AreFew};
ghost use Rattle.why_core.specs.Shown.{IsSides};
ghost use Rattle.why_core.specs.Traces.{AreTraces, Does, Follows, IsAccepted, IsFollowed, is_asked, numbered_for};
ghost use Rattle.why_core.specs.Words.{traces_in};

use crate::json::traces_json;
use crate::networks::{Networks, read_networks};
use crate::words::{FIRST_TTL, TracesWords, traces_of};
use job_core::{Report, Stop, finish, no_memory, refuse};
use net_io::{Files, Sink};
use net_load::NumberedBoth;
use net_types::{Names, NoMemory, Place, Text};
use std::alloc::Global;
use trace_sides::sides_bytes;
use view_core::Format;
use view_words::USAGE;
use walk_trace::{Trace, trace};

/// Follows a packet in two networks, and writes both traces side by side. It answers the status: 0 where that was written, and else
/// as every program of the house.
pub fn traces_run<F: Files, O: Sink, E: Sink>(
    alloc: Global,
    words: &[String],
    files: &mut F,
    out: &mut O,
    err: &mut E,
) -> u8
    // The words alone decide whether they are within the usage, but for want of memory to read them.
    ensures usage { result ≡ 2 → is_asked (map string_bytes words.now) ≡ false }
    ensures refused { is_asked (map string_bytes words.now) ≡ false → (result ≡ 2) ⊎ (result ≡ 7) }

    // The run ends as one of the traces that the words ask for, and these have nothing which status 1 tells.
    ensures ends { Ends (Does (map string_bytes words.now)) (IsAccepted (map string_bytes words.now)) usage_text result
        (record { told = F.told files.old; faults_before = F.faults files.old; faults_now = F.faults files.new })
        (record { before = O.taken out.old; now = O.taken out.new; faults_before = O.faults out.old; faults_now = O.faults out.new })
        (record { before = E.taken err.old; now = E.taken err.new; faults_before = E.faults err.old; faults_now = E.faults err.new }) }
    ensures plain { result ≢ 1 }
{
    let asked = match traces_of(alloc, words) {
        Ok(Some(asked)) => asked,
        Ok(None) => return refuse(USAGE, err),
        Err(_) => return no_memory(err),
    };
    let done = follow(alloc, files, asked);
    finish(alloc, done, out, err)
}

// Reads the networks, and follows the packet.
fn follow<F: Files>(alloc: Global, files: &mut F, asked: TracesWords) -> Result<Report, Stop>
    ensures follows { IfSome (F.told files.old) (λ t. Follows t (traces_in asked.entry) result) }
    ensures plain { IfOk result (λ r. r.affected ≡ false) }
    ensures cause { HasCause (F.faults files.old) (F.faults files.new) result }
{
    match read_networks(alloc, files, asked.old, asked.new, asked.links) {
        Ok(networks) => follow_over(alloc, networks, asked),
        Err(stop) => Err(stop),
    }
}

fn follow_over(alloc: Global, networks: Networks, asked: TracesWords) -> Result<Report, Stop>
    requires { AreFew networks }
    ensures { OrNoMemory (AreTraces (numbered_for networks (traces_in asked.entry)) (traces_in asked.entry)) result }
{
    let report = followed(alloc, networks, asked)?;
    Ok(report)
}

fn followed(alloc: Global, networks: Networks, asked: TracesWords) -> Result<Report, NoMemory>
    requires { AreFew networks }
    ensures { IfOk result (AreTraces (numbered_for networks (traces_in asked.entry)) (traces_in asked.entry)) }
{
    let names = names_of(alloc, asked)?;
    let both = networks.number(alloc, &names)?;
    let text = traces_bytes(alloc, &both, asked)?;
    Ok(Report {
        text,
        affected: false,
    })
}

// The names of the packet's place.
fn names_of(alloc: Global, asked: TracesWords) -> Result<Vec<Text>, NoMemory>
    ensures { IfOk result (λ names. names.items ≡ asked.entry.device.now ∷ asked.entry.interface.now ∷ []) }
{
    let mut names = Vec::new(alloc);
    names.push(Text::copy_of(alloc, asked.device.as_bytes())?)?;
    names.push(Text::copy_of(alloc, asked.interface.as_bytes())?)?;
    Ok(names)
}

// The packet's traces in both networks, as the words ask.
fn traces_bytes(
    alloc: Global,
    numbered: &NumberedBoth,
    asked: TracesWords,
) -> Result<Vec<u8>, NoMemory>
    requires { length numbered.now.names.texts < 2 ^ 32 }
    ensures { IfOk result (λ text. IsFollowed numbered.now (traces_in asked.entry) text.items) }
{
    let place = place_of(&numbered.names, asked.device, asked.interface);
    let header = asked.header;
    let old = trace(
        alloc,
        &numbered.old,
        &numbered.old_links,
        place,
        &header,
        FIRST_TTL,
    )?;
    let new = trace(
        alloc,
        &numbered.new,
        &numbered.new_links,
        place,
        &header,
        FIRST_TTL,
    )?;
    shown(alloc, &numbered.names, asked, &old, &new)
}

fn shown(
    alloc: Global,
    names: &Names,
    asked: TracesWords,
    old: &Trace,
    new: &Trace,
) -> Result<Vec<u8>, NoMemory>
    ensures { IfOk result (λ text. IsSides asked.entry.format names.now (traces_in asked.entry) old.now new.now text.items) }
{
    match asked.format {
        Format::Text => sides_bytes(alloc, names, old, new),
        Format::Json => traces_json(alloc, names, asked, old, new),
    }
}

// The place of these names.
fn place_of(names: &Names, device: &str, interface: &str) -> Place
    requires { length names.now.texts < 2 ^ 32 }
    ensures { result ≡ place_of names.now.texts (device.now, interface.now) }
{
    Place {
        device: number_of(names, device),
        interface: number_of(names, interface),
    }
}

// The number of a name: its place among all.
fn number_of(names: &Names, name: &str) -> u32
    requires { length names.now.texts < 2 ^ 32 }
    ensures { result ≡ number_of names.now.texts name.now }
{
    let Some(position) = position_of(names.texts.as_slice(), name.as_bytes()) else {
        return 0;
    };
    position as u32
}

fn position_of(names: &[Text], name: &[u8]) -> Option<usize>
    ensures place { result ≡ position (bytes_eq name.now) names.now }
    ensures inside { IfSome result (λ position. position < length names.now) }
{
    names.iter().position(|text| name == text.as_bytes())
}
