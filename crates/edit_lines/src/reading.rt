//! Reading the text of edits.

ghost use Rattle.std.specs.Prelude.{◌≡◌, ◌≤◌, ◌+◌, ◌++◌, IfOk, OnOk, length, map, option_to_list};
ghost use Rattle.net_text.specs.Lines.{lines_of, piece};
ghost use Rattle.edit_lines.specs.Built.{edits_limit, spaced};
ghost use Rattle.edit_lines.specs.Reading.{begins_mark, edit_by, edits_in, edits_of, effect_of, effects_in, entry_at, no_entry_at, route_at};
ghost use Rattle.edit_lines.specs.Refusals.{Gives};

use crate::built::{entry_in, entry_text, route_in, route_text};
use crate::refusal::{EditsFail, at_word, missing};
use crate::words::{Command, command_of, config_at, device_at, list_at, no_remark, sequence_at};
use incr_review::{Edit, EditKind};
use net_text::{Line, Span, lines, part};
use net_types::{Duplicate, Network, NoMemory, Route, Text};
use std::alloc::Global;

/// An edit of a network, as a line says it.
#[derive(Drop)]
pub struct EditLine {
    /// The line's place in the text, from 1.
    pub line: u32,
    pub edit: Edit,
}

/// The edits of a text of at most 4,194,304 bytes, or the refusal of its first line that is refused. Devices and lists are found
/// in the network by their names, as it is before the first edit.
///
/// A line is refused with the first of these causes that is there: its first word is unknown, or a word stands behind a
/// `no-entry`, with `BadWord`; it ends too early, with `MissingWord`; there is no such device, with `UnknownDevice`; the device has
/// no such list, with `UnknownList`; the sequence isn't a number from 1 to 2147483647, or an entry begins with `remark`, with
/// `BadWord`; the text that is built of an entry's or a route's words is refused as a configuration, with its kind.
pub fn read_edits(
    alloc: Global,
    network: &Network,
    bytes: &[u8],
) -> Result<Vec<EditLine>, EditsFail>
    requires { length bytes.now ≤ edits_limit }
    ensures exact { Gives (λ edits. edits.items) result (edits_of network.now bytes.now) }
{
    let lines = lines(alloc, bytes)?;
    let edits = read_lines(alloc, network, bytes, &lines)?;
    Ok(edits)
}

// The edits of the lines.
fn read_lines(
    alloc: Global,
    network: &Network,
    bytes: &[u8],
    lines: &[Line],
) -> Result<Vec<EditLine>, EditsFail>
    requires size { length bytes.now ≤ edits_limit }
    requires lines { lines.now ≡ lines_of bytes.now }
    ensures { Gives (λ edits. edits.items) result (edits_in (effects_in network.now bytes.now lines.now)) }
{
    let mut edits = Vec::new(alloc);
    for line in lines {
        let words = texts(alloc, bytes, line.words.as_slice())?;
        let edit = read_line(alloc, network, line.number, &words)?;
        add(&mut edits, edit)?;
    }
    Ok(edits)
}

// Adds the edit, if there is one.
fn add(edits: &mut Vec<EditLine>, edit: Option<EditLine>) -> Result<(), NoMemory>
    ensures { OnOk result (edits.new.items ≡ edits.old.items ++ option_to_list edit) }
{
    let Some(edit) = edit else {
        return Ok(());
    };
    edits.push(edit)?;
    Ok(())
}

// The words of a line.
fn texts(alloc: Global, bytes: &[u8], spans: &[Span]) -> Result<Vec<Text>, NoMemory>
    ensures { IfOk result (λ words. words.items ≡ map (piece bytes.now) spans.now) }
{
    let mut words = Vec::with_capacity(alloc, spans.len())?;
    for span in spans {
        words.push(Text::copy_of(alloc, part(bytes, *span))?)?;
    }
    Ok(words)
}

// The edit of a line, if it isn't a comment.
#[tactic(auto, unfolding(crate::specs::Reading::effect_of))]
fn read_line(
    alloc: Global,
    network: &Network,
    line: u32,
    words: &[Text],
) -> Result<Option<EditLine>, EditsFail>
    requires { length (spaced words.now) ≤ edits_limit + 1 }
    ensures { Gives (λ edit. edit) result (effect_of network.now line words.now) }
{
    let [word, rest @ ..] = words else {
        return Ok(None);
    };
    if is_comment(word) {
        return Ok(None);
    }
    let Some(command) = command_of(word) else {
        return Err(at_word(alloc, EditKind::BadWord, line, word));
    };
    let edit = read_edit(alloc, network, command, line, rest)?;
    Ok(Some(EditLine { line, edit }))
}

// Whether the line is a comment.
fn is_comment(word: &Text) -> bool
    ensures { result ≡ begins_mark word.now }
{
    match word.as_bytes() {
        [] => false,
        [first, ..] => *first == b'!',
    }
}

// The edit of a command, by the words behind it.
#[tactic(auto, unfolding(crate::specs::Reading::edit_by))]
fn read_edit(
    alloc: Global,
    network: &Network,
    command: Command,
    line: u32,
    words: &[Text],
) -> Result<Edit, EditsFail>
    requires { length (spaced words.now) ≤ edits_limit + 1 }
    ensures { Gives (λ edit. edit) result (edit_by network.now command line words.now) }
{
    match command {
        Command::Entry => read_entry(alloc, network, line, words),
        Command::NoEntry => read_no_entry(alloc, network, line, words),
        Command::Route => {
            let (device, route) = read_route(alloc, network, line, words)?;
            Ok(Edit::AddRoute { device, route })
        }
        Command::NoRoute => {
            let (device, route) = read_route(alloc, network, line, words)?;
            Ok(Edit::DropRoute { device, route })
        }
    }
}

// An entry that is added.
#[tactic(auto, unfolding(crate::specs::Reading::entry_at))]
fn read_entry(
    alloc: Global,
    network: &Network,
    line: u32,
    words: &[Text],
) -> Result<Edit, EditsFail>
    requires { length (spaced words.now) ≤ edits_limit + 1 }
    ensures { Gives (λ edit. edit) result (entry_at network.now line words.now) }
{
    let [device, name, numbered @ ..] = words else {
        return Err(missing(alloc, line));
    };
    let [sequence, word, ..] = numbered else {
        return Err(missing(alloc, line));
    };
    let device = device_at(alloc, network, line, device)?;
    let list = list_at(alloc, line, device, name)?;
    sequence_at(alloc, line, sequence)?;
    no_remark(alloc, line, word)?;
    let text = entry_text(alloc, list.extended, name, numbered)?;
    let config = config_at(alloc, line, &text)?;
    let Some(entry) = entry_in(&config) else {
        return Err(at_word(alloc, EditKind::BadWord, line, word));
    };
    Ok(Edit::AddEntry {
        device: device.name,
        list: name.copy(alloc)?,
        entry: entry.copy(alloc)?,
    })
}

// An entry that is dropped.
#[tactic(auto, unfolding(crate::specs::Reading::no_entry_at))]
fn read_no_entry(
    alloc: Global,
    network: &Network,
    line: u32,
    words: &[Text],
) -> Result<Edit, EditsFail>
    ensures { Gives (λ edit. edit) result (no_entry_at network.now line words.now) }
{
    let [device, name, sequence, rest @ ..] = words else {
        return Err(missing(alloc, line));
    };
    if let [word, ..] = rest {
        return Err(at_word(alloc, EditKind::BadWord, line, word));
    }
    let device = device_at(alloc, network, line, device)?;
    list_at(alloc, line, device, name)?;
    let sequence = sequence_at(alloc, line, sequence)?;
    Ok(Edit::DropEntry {
        device: device.name,
        list: name.copy(alloc)?,
        sequence,
    })
}

// The device and the route of a line.
#[tactic(auto, unfolding(crate::specs::Reading::route_at))]
fn read_route(
    alloc: Global,
    network: &Network,
    line: u32,
    words: &[Text],
) -> Result<(u32, Route), EditsFail>
    requires { length (spaced words.now) ≤ edits_limit + 1 }
    ensures { Gives (λ route. route) result (route_at network.now line words.now) }
{
    let [device, described @ ..] = words else {
        return Err(missing(alloc, line));
    };
    let [word, ..] = described else {
        return Err(missing(alloc, line));
    };
    let device = device_at(alloc, network, line, device)?;
    let text = route_text(alloc, device.config.interfaces.as_slice(), described)?;
    let config = config_at(alloc, line, &text)?;
    let Some(route) = route_in(&config) else {
        return Err(at_word(alloc, EditKind::BadWord, line, word));
    };
    Ok((device.name, route.copy(alloc)?))
}
