//! The words of the command line.
ghost use Rattle.std.specs.Prelude.{◌≡◌, map, string_bytes, option_map, IfOk, if◌then◌else◌, Some, None};
ghost use Rattle.view_words.specs.Usage.{is_operand};
ghost use Rattle.view_core.specs.Words.{format_named, format_of, behind_format, has_title, is_title, title_in, behind_title, paths_of, title_of, path_in, path_of, manner_of, said, said_of, is_asked};

use net_types::{NoMemory, Text};
use std::alloc::Global;
use view_words::{USAGE, VERSION, is_operand};

/// A form in which a report is shown.
#[derive(Clone, Copy, Debug, PartialEq, Eq)]
pub enum Format {
    Text,
    /// One document of JSON.
    Json,
}

/// In which form a report is shown, and with which title: an empty one is none.
#[derive(Drop)]
pub struct Manner {
    pub format: Format,
    pub title: Text,
}

/// What is said without a report, where the words ask for that.
pub(crate) fn said(words: &[String]) -> Option<&'static [u8]>
    ensures { option_map (λ text. text.now) result ≡ said (map string_bytes words.now) }
{
    match words {
        [word] => said_of(word.as_bytes()),
        _ => None,
    }
}

fn said_of(word: &[u8]) -> Option<&'static [u8]>
    ensures { option_map (λ text. text.now) result ≡ said_of word.now }
{
    if word == b"--help".as_slice() {
        Some(USAGE)
    } else if word == b"--version".as_slice() {
        Some(VERSION)
    } else {
        None
    }
}

/// Whether the words are within the usage.
pub(crate) fn is_asked(words: &[String]) -> bool
    ensures { result ≡ is_asked (map string_bytes words.now) }
{
    said(words).is_some() || path_of(words).is_some()
}

/// The path of the report.
pub(crate) fn path_of(words: &[String]) -> Option<&str>
    ensures { option_map (λ path. path.now) result ≡ path_of (map string_bytes words.now) }
{
    path_in(paths_of(words))
}

/// In which form the report is shown, and with which title.
pub(crate) fn manner_of(alloc: Global, words: &[String]) -> Result<Manner, NoMemory>
    ensures { IfOk result (λ manner. manner ≡ manner_of (map string_bytes words.now)) }
{
    let format = format_of(words);
    let title = title_of(alloc, words)?;
    Ok(Manner { format, title })
}

fn format_named(word: &[u8]) -> Option<Format>
    ensures { result ≡ format_named word.now }
{
    if word == b"--json".as_slice() {
        Some(Format::Json)
    } else {
        None
    }
}

/// The format that the first word asks for, and else text.
pub fn format_of(words: &[String]) -> Format
    ensures { result ≡ format_of (map string_bytes words.now) }
{
    match words {
        [] => Format::Text,
        [first, ..] => format_named(first.as_bytes()).unwrap_or(Format::Text),
    }
}

/// The words behind that one, or all where it asks for none.
pub fn behind_format(words: &[String]) -> &[String]
    ensures { map string_bytes result.now ≡ behind_format (map string_bytes words.now) }
{
    match words {
        [] => words,
        [first, rest @ ..] => {
            if format_named(first.as_bytes()).is_some() {
                rest
            } else {
                words
            }
        }
    }
}

fn has_title(format: Format) -> bool
    ensures { result ≡ has_title format }
{
    match format {
        Format::Text => true,
        Format::Json => false,
    }
}

fn is_title(word: &[u8]) -> bool
    ensures { result ≡ is_title word.now }
{
    word == b"--title".as_slice()
}

fn title_of(alloc: Global, words: &[String]) -> Result<Text, NoMemory>
    ensures { IfOk result (λ title. title ≡ title_of (map string_bytes words.now)) }
{
    if has_title(format_of(words)) {
        Text::copy_of(alloc, title_in(behind_format(words)))
    } else {
        Text::copy_of(alloc, b"")
    }
}

fn title_in(words: &[String]) -> &[u8]
    ensures { result.now ≡ title_in (map string_bytes words.now) }
{
    match words {
        [option, title, ..] => {
            if is_title(option.as_bytes()) {
                title.as_bytes()
            } else {
                b""
            }
        }
        _ => b"",
    }
}

fn behind_title(words: &[String]) -> &[String]
    ensures { map string_bytes result.now ≡ behind_title (map string_bytes words.now) }
{
    match words {
        [option, _, rest @ ..] => {
            if is_title(option.as_bytes()) {
                rest
            } else {
                words
            }
        }
        _ => words,
    }
}

fn paths_of(words: &[String]) -> &[String]
    ensures { map string_bytes result.now ≡ paths_of (map string_bytes words.now) }
{
    if has_title(format_of(words)) {
        behind_title(behind_format(words))
    } else {
        behind_format(words)
    }
}

fn path_in(words: &[String]) -> Option<&str>
    ensures { option_map (λ path. path.now) result ≡ path_in (map string_bytes words.now) }
{
    match words {
        [path] => if_path(path.as_str()),
        _ => None,
    }
}

fn if_path(path: &str) -> Option<&str>
    ensures { option_map (λ path. path.now) result ≡ (if is_operand path.now then Some path.now else None) }
{
    if is_operand(path.as_bytes()) {
        Some(path)
    } else {
        None
    }
}
