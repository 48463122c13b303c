//! The words of a line: the command, devices and lists by their names, sequence numbers, and the configuration that a built text says.

ghost use Rattle.std.specs.Prelude.{◌≡◌, ◌≤◌, find, length};
ghost use Rattle.std.specs.Option.{option_copied};
ghost use Rattle.std.specs.Str.{bytes_eq};
ghost use Rattle.net_text.specs.Limits.{text_limit};
ghost use Rattle.incr_review.specs.Edited.{is_list};
ghost use Rattle.edit_lines.specs.Reading.{command_of, config_at, device_at, is_called, list_at, no_remark, sequence_at};
ghost use Rattle.edit_lines.specs.Refusals.{Gives};

use crate::refusal::{EditsFail, at_word};
use incr_review::EditKind;
use ios_config::{ConfigFail, read_config};
use ios_words::number;
use net_types::{AccessList, Config, NetDevice, Network, Text};
use std::alloc::Global;

// The greatest sequence number of an entry.
const SEQUENCE_MAX: u32 = 2_147_483_647;

/// What a line is to do, by its first word.
#[derive(Clone, Copy, Debug, PartialEq, Eq)]
pub enum Command {
    Entry,
    NoEntry,
    Route,
    NoRoute,
}

/// The command that the word names.
pub(crate) fn command_of(word: &Text) -> Option<Command>
    ensures { result ≡ command_of word.now }
{
    if is(word, b"entry") {
        return Some(Command::Entry);
    }
    if is(word, b"no-entry") {
        return Some(Command::NoEntry);
    }
    if is(word, b"route") {
        return Some(Command::Route);
    }
    if is(word, b"no-route") {
        return Some(Command::NoRoute);
    }
    None
}

fn is(word: &Text, text: &[u8]) -> bool
    ensures { result ≡ bytes_eq word.now text.now }
{
    word.as_bytes() == text
}

/// The device of this hostname.
pub(crate) fn device_at<'a>(
    alloc: Global,
    network: &'a Network,
    line: u32,
    word: &Text,
) -> Result<&'a NetDevice, EditsFail>
    ensures { Gives (λ d. d.now) result (device_at network.now line word.now) }
{
    match device_called(network.devices.as_slice(), word) {
        Some(device) => Ok(device),
        None => Err(at_word(alloc, EditKind::UnknownDevice, line, word)),
    }
}

fn device_called<'a>(devices: &'a [NetDevice], word: &Text) -> Option<&'a NetDevice>
    ensures { option_copied result ≡ find (is_called word.now) devices.now }
{
    devices.iter().find(|device| is_called(word, device))
}

fn is_called(word: &Text, device: &NetDevice) -> bool
    ensures { result ≡ is_called word.now device.now }
{
    device.config.hostname.as_bytes() == word.as_bytes()
}

/// The device's access list of this name.
pub(crate) fn list_at<'a>(
    alloc: Global,
    line: u32,
    device: &'a NetDevice,
    word: &Text,
) -> Result<&'a AccessList, EditsFail>
    ensures { Gives (λ l. l.now) result (list_at line device.now word.now) }
{
    match list_called(device.config.lists.as_slice(), word) {
        Some(list) => Ok(list),
        None => Err(at_word(alloc, EditKind::UnknownList, line, word)),
    }
}

fn list_called<'a>(lists: &'a [AccessList], word: &Text) -> Option<&'a AccessList>
    ensures { option_copied result ≡ find (is_list word.now) lists.now }
{
    lists.iter().find(|list| is_list(word, list))
}

fn is_list(word: &Text, list: &AccessList) -> bool
    ensures { result ≡ is_list word.now list.now }
{
    list.name.as_bytes() == word.as_bytes()
}

/// A sequence number.
pub(crate) fn sequence_at(alloc: Global, line: u32, word: &Text) -> Result<u32, EditsFail>
    ensures { Gives (λ n. n) result (sequence_at line word.now) }
{
    match number(word.as_bytes(), 1, SEQUENCE_MAX) {
        Some(sequence) => Ok(sequence),
        None => Err(at_word(alloc, EditKind::BadWord, line, word)),
    }
}

/// Whether the word may begin an entry: it isn't `remark`.
pub(crate) fn no_remark<'a>(alloc: Global, line: u32, word: &'a Text) -> Result<&'a Text, EditsFail>
    ensures { Gives (λ w. w.now) result (no_remark line word.now) }
{
    if is(word, b"remark") {
        return Err(at_word(alloc, EditKind::BadWord, line, word));
    }
    Ok(word)
}

/// The configuration that a built text says.
#[tactic(auto, unfolding(crate::specs::Reading::config_at))]
pub(crate) fn config_at(alloc: Global, line: u32, text: &[u8]) -> Result<Config, EditsFail>
    requires { length text.now ≤ text_limit }
    ensures { Gives (λ c. c) result (config_at line text.now) }
{
    match read_config(alloc, text) {
        Ok(reading) => Ok(reading.config),
        Err(ConfigFail::NoMemory) => Err(EditsFail::NoMemory),
        Err(ConfigFail::Refused { refusal }) => Err(EditsFail::Refused {
            kind: EditKind::Config { kind: refusal.kind },
            line,
            word: refusal.word,
        }),
    }
}
