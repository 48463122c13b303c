//! A trace as text: the lines of each state, and the outcome.

ghost use Rattle.std.specs.Prelude.{◌≡◌, ◌++◌, codes, decimal, flat_map, IfOk, OnOk};
ghost use Rattle.report_text.specs.FieldText.{address_text, header_text};
ghost use Rattle.report_text.specs.ReportText.{change_text, outcome_text, label_text};
ghost use Rattle.walk_trace.specs.TraceText.{verdict_text, list_text, written_text, go_text, fate_text, choice_text, arrival_text};
ghost use Rattle.walk_trace.specs.TraceText.{end_text, state_text, states_text, trace_text};

use crate::types::{Trace, TraceChoice, TraceEnd, TraceFate, TraceState};
use hdr_bits::Header;
use net_types::{Label, Names, NoMemory, Outcome, Text, Verdict};
use report_text::TextPart::{Bytes, Number};
use report_text::{
    append, append_address, append_all, append_number, append_place, header_bytes, label_bytes,
    name_of, outcome_bytes,
};
use std::alloc::Global;

/// A trace as text, each line of it ended by LF.
///
/// A state has the line `state K at DEVICE INTERFACE HEADER`, and then as far as the packet gets: `closed`; `input` with the
/// list and the entry that decides; `nat dst` and `nat src` where a rule matched; `broadcast`; `local DEVICE INTERFACE`; for each
/// choice `discard`, or `out INTERFACE next ADDRESS` with the rules that matched, the output list and what becomes of the packet:
/// an outcome, `lost`, `go K`, or `go -` for a state without a number. The last line is `outcome LABEL`.
///
/// A number that is no position in the names is an empty word.
///
/// # Errors
///
/// There was no memory.
#[tactic(auto, unfolding(crate::specs::TraceText::trace_text))]
pub fn trace_bytes(alloc: Global, names: &Names, trace: &Trace) -> Result<Vec<u8>, NoMemory>
    ensures text { IfOk result (λ text. text.items ≡ trace_text names.now trace.now) }
{
    let mut text = Vec::new(alloc);
    append_states(alloc, &mut text, names, trace.states.as_slice())?;
    append(&mut text, b"outcome ")?;
    append_label(alloc, &mut text, names, &trace.outcome)?;
    append(&mut text, b"\n")?;
    Ok(text)
}

/// What is told of a state under this number: its lines, as they stand in the text of a trace.
///
/// # Errors
///
/// There was no memory.
pub fn state_bytes(
    alloc: Global,
    names: &Names,
    number: usize,
    state: &TraceState,
) -> Result<Vec<u8>, NoMemory>
    ensures text { IfOk result (λ text. text.items ≡ state_text names.now number state.now) }
{
    let mut text = Vec::new(alloc);
    append_state(alloc, &mut text, names, number, state)?;
    Ok(text)
}

// Each function below adds a text at the end. Where memory runs out, a part of the text may stand there.

fn append_header(alloc: Global, out: &mut Vec<u8>, h: &Header) -> Result<(), NoMemory>
    ensures { OnOk result (out.new.items ≡ out.old.items ++ header_text h.now) }
{
    let text = header_bytes(alloc, h)?;
    append(out, &text)
}

fn append_outcome(
    alloc: Global,
    out: &mut Vec<u8>,
    names: &Names,
    outcome: &Outcome,
) -> Result<(), NoMemory>
    ensures { OnOk result (out.new.items ≡ out.old.items ++ outcome_text names.now outcome.now) }
{
    let text = outcome_bytes(alloc, names, outcome)?;
    append(out, &text)
}

fn append_label(
    alloc: Global,
    out: &mut Vec<u8>,
    names: &Names,
    label: &Label,
) -> Result<(), NoMemory>
    ensures { OnOk result (out.new.items ≡ out.old.items ++ label_text names.now label.now) }
{
    let text = label_bytes(alloc, names, label)?;
    append(out, &text)
}

fn append_states(
    alloc: Global,
    out: &mut Vec<u8>,
    names: &Names,
    states: &[TraceState],
) -> Result<(), NoMemory>
    ensures { OnOk result (out.new.items ≡ out.old.items ++ states_text names.now 1 states.now) }
{
    for (i, state) in states.iter().enumerate() {
        append_state(alloc, out, names, i + 1, state)?;
    }
    Ok(())
}

#[tactic(auto, unfolding(crate::specs::TraceText::state_text))]
fn append_state(
    alloc: Global,
    out: &mut Vec<u8>,
    names: &Names,
    number: usize,
    state: &TraceState,
) -> Result<(), NoMemory>
    ensures { OnOk result (out.new.items ≡ out.old.items ++ state_text names.now number state.now) }
{
    append_all(
        out,
        &[Bytes(b"state "), Number(number as u128), Bytes(b" at ")],
    )?;
    append_place(out, names, state.place)?;
    append(out, b" ")?;
    append_header(alloc, out, &state.header)?;
    append(out, b"\n")?;
    append_end(alloc, out, names, state)
}

#[tactic(auto, unfolding(crate::specs::TraceText::end_text))]
fn append_end(
    alloc: Global,
    out: &mut Vec<u8>,
    names: &Names,
    state: &TraceState,
) -> Result<(), NoMemory>
    ensures { OnOk result (out.new.items ≡ out.old.items ++ end_text names.now state.now state.now.end) }
{
    match &state.end {
        TraceEnd::Closed => append(out, b"closed\n"),
        TraceEnd::Denied => append_list(out, b"input", &state.input, state.verdict),
        TraceEnd::Broadcast => {
            append_arrival(out, state)?;
            append(out, b"broadcast\n")
        }
        TraceEnd::Local { place } => {
            append_arrival(out, state)?;
            append(out, b"local ")?;
            append_place(out, names, *place)?;
            append(out, b"\n")
        }
        TraceEnd::Choices { choices } => {
            append_arrival(out, state)?;
            append_choices(alloc, out, names, choices.as_slice())
        }
    }
}

#[tactic(auto, unfolding(crate::specs::TraceText::arrival_text))]
fn append_arrival(out: &mut Vec<u8>, state: &TraceState) -> Result<(), NoMemory>
    ensures { OnOk result (out.new.items ≡ out.old.items ++ arrival_text state.now) }
{
    append_list(out, b"input", &state.input, state.verdict)?;
    append_written(out, b"nat dst ", b" dport ", state.dst, state.dport)?;
    append_written(out, b"nat src ", b"", state.src, None)
}

fn append_choices(
    alloc: Global,
    out: &mut Vec<u8>,
    names: &Names,
    choices: &[TraceChoice],
) -> Result<(), NoMemory>
    ensures { OnOk result (out.new.items ≡ out.old.items ++ flat_map (choice_text names.now) choices.now) }
{
    for choice in choices {
        append_choice(alloc, out, names, choice)?;
    }
    Ok(())
}

#[tactic(auto, unfolding(crate::specs::TraceText::choice_text))]
fn append_choice(
    alloc: Global,
    out: &mut Vec<u8>,
    names: &Names,
    choice: &TraceChoice,
) -> Result<(), NoMemory>
    ensures { OnOk result (out.new.items ≡ out.old.items ++ choice_text names.now choice.now) }
{
    match choice {
        TraceChoice::Discard => append(out, b"discard\n"),
        TraceChoice::Out {
            place,
            next,
            src,
            sport,
            dst,
            output,
            verdict,
            fate,
        } => {
            append_all(
                out,
                &[
                    Bytes(b"out "),
                    Bytes(name_of(names, place.interface)),
                    Bytes(b" next "),
                ],
            )?;
            append_address(out, *next)?;
            append(out, b"\n")?;
            append_written(out, b"nat src ", b" sport ", *src, *sport)?;
            append_written(out, b"nat dst ", b"", *dst, None)?;
            append_list(out, b"output", output, *verdict)?;
            append_fate(alloc, out, names, fate)
        }
    }
}

#[tactic(auto, unfolding(crate::specs::TraceText::fate_text))]
fn append_fate(
    alloc: Global,
    out: &mut Vec<u8>,
    names: &Names,
    fate: &TraceFate,
) -> Result<(), NoMemory>
    ensures { OnOk result (out.new.items ≡ out.old.items ++ fate_text names.now fate.now) }
{
    match fate {
        TraceFate::Denied => Ok(()),
        TraceFate::Exit { outcome } => {
            append_outcome(alloc, out, names, outcome)?;
            append(out, b"\n")
        }
        TraceFate::Lost => append(out, b"lost\n"),
        TraceFate::Go { state } => append_go(out, *state),
    }
}

fn append_go(out: &mut Vec<u8>, state: Option<u64>) -> Result<(), NoMemory>
    ensures { OnOk result (out.new.items ≡ out.old.items ++ go_text state) }
{
    match state {
        None => append(out, b"go -\n"),
        Some(number) => { append_all(out, &[Bytes(b"go "), Number(number.into()), Bytes(b"\n")]) }
    }
}

// The line of a list, behind its word.
#[tactic(auto, unfolding(crate::specs::TraceText::list_text))]
fn append_list(
    out: &mut Vec<u8>,
    word: &[u8],
    list: &Option<Text>,
    verdict: Verdict,
) -> Result<(), NoMemory>
    ensures { OnOk result (out.new.items ≡ out.old.items ++ list_text word.now list.now verdict) }
{
    append(out, word)?;
    match list {
        None => append_verdict(out, b"", verdict),
        Some(name) => append_verdict(out, name.as_bytes(), verdict),
    }
}

fn append_verdict(out: &mut Vec<u8>, name: &[u8], verdict: Verdict) -> Result<(), NoMemory>
    ensures { OnOk result (out.new.items ≡ out.old.items ++ verdict_text name.now verdict) }
{
    match verdict {
        Verdict::Passed => append(out, b" none\n"),
        Verdict::Permit { sequence } => append_decided(out, name, b" permit ", sequence),
        Verdict::Deny { sequence } => append_decided(out, name, b" deny ", sequence),
        Verdict::DenyEnd => { append_all(out, &[Bytes(b" "), Bytes(name), Bytes(b" deny end\n")]) }
    }
}

fn append_decided<'a>(
    out: &mut Vec<u8>,
    name: &'a [u8],
    word: &'a [u8],
    sequence: u32,
) -> Result<(), NoMemory>
    ensures { OnOk result (out.new.items ≡ out.old.items ++ (codes " " ++ name.now ++ word.now ++ decimal sequence ++ codes "\n")) }
{
    append_all(
        out,
        &[
            Bytes(b" "),
            Bytes(name),
            Bytes(word),
            Number(sequence.into()),
            Bytes(b"\n"),
        ],
    )
}

// The line of what a rule wrote, if one matched.
#[tactic(auto, unfolding(crate::specs::TraceText::written_text))]
fn append_written(
    out: &mut Vec<u8>,
    address_word: &[u8],
    port_word: &[u8],
    address: Option<u32>,
    port: Option<u16>,
) -> Result<(), NoMemory>
    ensures { OnOk result (out.new.items ≡ out.old.items ++ written_text address_word.now port_word.now address port) }
{
    match address {
        None => Ok(()),
        Some(address) => {
            append(out, address_word)?;
            append_address(out, address)?;
            append_port(out, port_word, port)?;
            append(out, b"\n")
        }
    }
}

fn append_port(out: &mut Vec<u8>, word: &[u8], port: Option<u16>) -> Result<(), NoMemory>
    ensures { OnOk result (out.new.items ≡ out.old.items ++ change_text word.now decimal port) }
{
    match port {
        Some(port) => {
            append(out, word)?;
            append_number(out, port)
        }
        None => Ok(()),
    }
}
