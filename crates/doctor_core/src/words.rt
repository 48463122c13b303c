//! The words of the command line.

ghost use Rattle.std.specs.Prelude.{◌≡◌, map, option_map, string_bytes};
ghost use Rattle.std.specs.Str.{bytes_eq};
ghost use Rattle.doctor_core.specs.Usage.{help_text, is_operand};
ghost use Rattle.doctor_core.specs.Words.{if_named, is_only, paths, paths_behind, paths_by, paths_of, text_of};

use crate::usage::{HELP, VERSION, is_operand};

/// What is looked at: where a network and its link table are, or the two networks and theirs.
#[derive(Clone, Copy)]
pub struct Asked<'a> {
    /// Whether all lines that are passed over are told.
    pub all: bool,
    /// Whether the notes are asked for as a document.
    pub json: bool,
    pub old: &'a str,
    pub new: Option<&'a str>,
    pub links: &'a str,
    pub new_links: Option<&'a str>,
}

/// The text that the words ask for by itself.
pub(crate) fn text_of(words: &[String]) -> Option<&'static [u8]>
    ensures { option_map (λ text. text.now) result ≡ text_of (map string_bytes words.now) }
{
    if is_only(words, b"--help") {
        return Some(help());
    }
    if is_only(words, b"--version") {
        return Some(VERSION);
    }
    None
}

fn help() -> &'static [u8]
    ensures { result.now ≡ help_text }
{
    HELP
}

// Whether there is one word, and this is it.
fn is_only(words: &[String], name: &[u8]) -> bool
    ensures { result ≡ is_only name.now (map string_bytes words.now) }
{
    match words {
        [word] => word.as_bytes() == name,
        _ => false,
    }
}

/// What the words ask to look at; nothing where they are outside the usage.
pub(crate) fn asked_in(words: &[String]) -> Option<Asked<'_>>
    ensures { option_map paths result ≡ paths_of (map string_bytes words.now) }
{
    match words {
        [] => None,
        [word, rest @ ..] => {
            if word.as_bytes() == b"--all".as_slice() {
                asked_behind(true, rest)
            } else {
                asked_behind(false, words)
            }
        }
    }
}

// The same behind `--all`, or where it isn't there.
fn asked_behind(all: bool, words: &[String]) -> Option<Asked<'_>>
    ensures { option_map paths result ≡ paths_behind all (map string_bytes words.now) }
{
    match words {
        [] => None,
        [word, rest @ ..] => {
            if word.as_bytes() == b"--json".as_slice() {
                asked_by(all, true, rest)
            } else {
                asked_by(all, false, words)
            }
        }
    }
}

fn asked_by(all: bool, json: bool, words: &[String]) -> Option<Asked<'_>>
    ensures { option_map paths result ≡ paths_by all json (map string_bytes words.now) }
{
    match words {
        [net, links] => if_named(
            is_path(net) && is_path(links),
            Asked {
                all,
                json,
                old: net.as_str(),
                new: None,
                links: links.as_str(),
                new_links: None,
            },
        ),
        [old, new, links] => if_named(
            is_path(old) && is_path(new) && is_path(links),
            Asked {
                all,
                json,
                old: old.as_str(),
                new: Some(new.as_str()),
                links: links.as_str(),
                new_links: None,
            },
        ),
        [old, new, links, new_links] => if_named(
            is_path(old) && is_path(new) && is_path(links) && is_path(new_links),
            Asked {
                all,
                json,
                old: old.as_str(),
                new: Some(new.as_str()),
                links: links.as_str(),
                new_links: Some(new_links.as_str()),
            },
        ),
        _ => None,
    }
}

fn if_named(named: bool, asked: Asked<'_>) -> Option<Asked<'_>>
    ensures { option_map paths result ≡ if_named named (paths asked.entry) }
{
    if named { Some(asked) } else { None }
}

fn is_path(word: &String) -> bool
    ensures { result ≡ is_operand (string_bytes word.now) }
{
    is_operand(word.as_bytes())
}
