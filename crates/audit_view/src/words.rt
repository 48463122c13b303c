//! The words of the command line.
ghost use Rattle.std.specs.Prelude.{◌≡◌, map, string_bytes, option_map};
ghost use Rattle.audit_view.specs.Words.{format_words, format_of, rows_words, has_rows, both_paths, paths_of, manner_of, is_asked, is_flag, behind_flag};

use view_core::{Format, behind_format, format_of as first_format};
use view_words::is_operand;

/// In which form an audit is shown, and whether with its rows.
#[derive(Clone, Copy, Debug, PartialEq, Eq)]
pub struct Manner {
    pub format: Format,
    pub rows: bool,
}

/// How the words ask for it.
pub(crate) fn manner_of(words: &[String]) -> Manner
    ensures { result ≡ manner_of (map string_bytes words.now) }
{
    Manner {
        format: format_of(words),
        rows: has_rows(words),
    }
}

/// Whether the words are within the usage.
pub(crate) fn is_asked(words: &[String]) -> bool
    ensures { result ≡ is_asked (map string_bytes words.now) }
{
    paths_of(words).is_some()
}

// In which form the audit is shown.
fn format_of(words: &[String]) -> Format
    ensures { result ≡ format_of (map string_bytes words.now) }
{
    first_format(format_words(words))
}

// Whether the rows are asked for.
fn has_rows(words: &[String]) -> bool
    ensures { result ≡ has_rows (map string_bytes words.now) }
{
    is_flag(rows_words(words))
}

/// The path of what the audit wrote, and that of the network's folder.
pub(crate) fn paths_of(words: &[String]) -> Option<(&str, &str)>
    ensures { option_map (λ paths. (paths.0.now, paths.1.now)) result ≡ paths_of (map string_bytes words.now) }
{
    both_paths(behind_flag(rows_words(words)))
}

fn both_paths(words: &[String]) -> Option<(&str, &str)>
    ensures { option_map (λ paths. (paths.0.now, paths.1.now)) result ≡ both_paths (map string_bytes words.now) }
{
    match words {
        [findings, net] => {
            if is_operand(findings.as_bytes()) && is_operand(net.as_bytes()) {
                Some((findings.as_str(), net.as_str()))
            } else {
                None
            }
        }
        _ => None,
    }
}

// The words behind the command: none where it is another.
fn format_words(words: &[String]) -> &[String]
    ensures { map string_bytes result.now ≡ format_words (map string_bytes words.now) }
{
    match words {
        [command, rest @ ..] => {
            if command.as_bytes() == b"--audit".as_slice() {
                rest
            } else {
                &[]
            }
        }
        _ => &[],
    }
}

fn rows_words(words: &[String]) -> &[String]
    ensures { map string_bytes result.now ≡ rows_words (map string_bytes words.now) }
{
    behind_format(format_words(words))
}

// Whether the first word asks for the rows.
fn is_flag(words: &[String]) -> bool
    ensures { result ≡ is_flag (map string_bytes words.now) }
{
    match words {
        [first, ..] => first.as_bytes() == b"--rows".as_slice(),
        _ => false,
    }
}

fn behind_flag(words: &[String]) -> &[String]
    ensures { map string_bytes result.now ≡ behind_flag (map string_bytes words.now) }
{
    match words {
        [first, rest @ ..] => {
            if first.as_bytes() == b"--rows".as_slice() {
                rest
            } else {
                words
            }
        }
        _ => words,
    }
}
