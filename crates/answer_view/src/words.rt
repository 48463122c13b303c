//! The words of the command line.
ghost use Rattle.std.specs.Prelude.{◌≡◌, map, string_bytes, option_map};
ghost use Rattle.answer_view.specs.Words.{format_words, format_of, operands, paths_in, paths_of, before_in, before_of, is_asked};

use view_core::{Format, behind_format, format_of as first_format};
use view_words::is_operand;

/// Whether the words are within the usage.
pub(crate) fn is_asked(words: &[String]) -> bool
    ensures { result ≡ is_asked (map string_bytes words.now) }
{
    paths_of(words).is_some()
}

/// In which format the answers are shown.
pub(crate) fn format_of(words: &[String]) -> Format
    ensures { result ≡ format_of (map string_bytes words.now) }
{
    first_format(format_words(words))
}

/// The paths of the questions and of the answers now.
pub(crate) fn paths_of(words: &[String]) -> Option<(&str, &str)>
    ensures { option_map (λ paths. (paths.0.now, paths.1.now)) result ≡ paths_of (map string_bytes words.now) }
{
    paths_in(operands(words))
}

/// The path of the answers before, where there is one.
pub(crate) fn before_of(words: &[String]) -> Option<&str>
    ensures { option_map (λ path. path.now) result ≡ before_of (map string_bytes words.now) }
{
    before_in(operands(words))
}

fn operands(words: &[String]) -> &[String]
    ensures { map string_bytes result.now ≡ operands (map string_bytes words.now) }
{
    behind_format(format_words(words))
}

// The words behind the command: none where it is another.
fn format_words(words: &[String]) -> &[String]
    ensures { map string_bytes result.now ≡ format_words (map string_bytes words.now) }
{
    match words {
        [command, rest @ ..] => {
            if command.as_bytes() == b"--answers".as_slice() {
                rest
            } else {
                &[]
            }
        }
        _ => &[],
    }
}

fn paths_in(words: &[String]) -> Option<(&str, &str)>
    ensures { option_map (λ paths. (paths.0.now, paths.1.now)) result ≡ paths_in (map string_bytes words.now) }
{
    match words {
        [questions, after] => {
            if is_operand(questions.as_bytes()) && is_operand(after.as_bytes()) {
                Some((questions.as_str(), after.as_str()))
            } else {
                None
            }
        }
        [questions, before, after] => {
            if is_operand(questions.as_bytes())
                && is_operand(before.as_bytes())
                && is_operand(after.as_bytes())
            {
                Some((questions.as_str(), after.as_str()))
            } else {
                None
            }
        }
        _ => None,
    }
}

fn before_in(words: &[String]) -> Option<&str>
    ensures { option_map (λ path. path.now) result ≡ before_in (map string_bytes words.now) }
{
    match words {
        [_, before, _] => Some(before.as_str()),
        _ => None,
    }
}
