//! The questions of a file, as they stand there.
ghost use Rattle.std.specs.Prelude.{◌≡◌, ◌++◌, ◌≤◌, codes, length, IfOk, OnOk};
ghost use Rattle.std.specs.List.{flat_map, join_by};
ghost use Rattle.net_text.specs.Limits.{text_limit};
ghost use Rattle.net_text.specs.Lines.{piece, lines_of};
ghost use Rattle.answer_view.specs.Asked.{words_in, is_comment, asked_with, asked_at, asked_in};

use net_text::{Line, Span, lines, part};
use net_types::{NoMemory, Text};
use report_text::append;
use std::alloc::Global;

/// A question of a file. Whether a network has its places is not judged.
#[derive(Drop)]
pub struct Asked {
    /// Its line's place in the file, from 1.
    pub line: u32,
    /// Its words, with a blank between each two.
    pub words: Text,
}

/// The questions of a text: its lines that have a word and are no comments.
pub(crate) fn asked_in(alloc: Global, bytes: &[u8]) -> Result<Vec<Asked>, NoMemory>
    requires { length bytes.now ≤ text_limit }
    ensures { IfOk result (λ asked. asked.items ≡ asked_in bytes.now) }
{
    let found = lines(alloc, bytes)?;
    asked_of(alloc, bytes, &found)
}

fn asked_of(alloc: Global, bytes: &[u8], lines: &[Line]) -> Result<Vec<Asked>, NoMemory>
    ensures { IfOk result (λ asked. asked.items ≡ flat_map (asked_at bytes.now) lines.now) }
{
    let mut asked = Vec::new(alloc);
    for line in lines {
        add_line(alloc, &mut asked, bytes, line)?;
    }
    Ok(asked)
}

fn add_line(
    alloc: Global,
    asked: &mut Vec<Asked>,
    bytes: &[u8],
    line: &Line,
) -> Result<(), NoMemory>
    ensures { OnOk result (asked.new.items ≡ asked.old.items ++ asked_at bytes.now line.now) }
{
    let mut words = Vec::new(alloc);
    append_words(&mut words, bytes, line.words.as_slice())?;
    add_question(asked, line.number, words)
}

// The question of a line with these words; a comment is none.
fn add_question(asked: &mut Vec<Asked>, line: u32, words: Vec<u8>) -> Result<(), NoMemory>
    ensures { OnOk result (asked.new.items ≡ asked.old.items ++ asked_with line words.items) }
{
    if is_comment(&words) {
        return Ok(());
    }
    let words = Text::new(words);
    asked.push(Asked { line, words })?;
    Ok(())
}

fn is_comment(words: &[u8]) -> bool
    ensures { result ≡ is_comment words.now }
{
    match words {
        [] => false,
        [first, ..] => *first == b'!',
    }
}

fn append_words(out: &mut Vec<u8>, bytes: &[u8], spans: &[Span]) -> Result<(), NoMemory>
    ensures { OnOk result (out.new.items ≡ out.old.items ++ join_by (piece bytes.now) (codes " ") spans.now) }
{
    let [first, rest @ ..] = spans else {
        return Ok(());
    };
    append(out, part(bytes, *first))?;
    for span in rest {
        append(out, b" ")?;
        append(out, part(bytes, *span))?;
    }
    Ok(())
}
