//! The lines of a text and their words, by their places in the text.
//!
//! Configurations, link tables and lists of questions are read this way: lines end at LF, and the words
//! of a line are separated by blanks, tabs and CRs.
#![tactic(auto)]

ghost use Rattle.std.specs.Prelude.{◌≡◌, ◌+◌, ◌-◌, ◌^◌, ◌≤◌, [], ◌++◌, IfOk, OnOk, length, take, drop, position};
ghost use Rattle.std.specs.List.{position_or_len};
ghost use Rattle.net_text.specs.Limits.{text_limit, word_limit};
ghost use Rattle.net_text.specs.Lines.{is_separator, is_line_end, is_indented, word_spans, lines_of, add_line, piece};

use net_types::{List, NoMemory, Text};
use std::alloc::Global;

// The most bytes of a word that are told.
const WORD_LIMIT: usize = 64;

/// A part of a text, from byte `start` up to, and without, byte `end`.
#[derive(Clone, Copy, Debug, PartialEq, Eq)]
pub struct Span {
    pub start: usize,
    pub end: usize,
}

/// A line that has a word.
#[derive(Drop)]
pub struct Line {
    /// The line's place in the text, from 1.
    pub number: u32,
    /// Whether the line begins with a blank or a tab.
    pub indent: bool,
    /// The words, in order.
    pub words: List<Span>,
}

/// The lines of a text of at most 16,777,216 bytes.
///
/// Each line that has a word is there once, in order. A line without a word is left out, but counts
/// in the numbers of the lines after it.
pub fn lines(alloc: Global, bytes: &[u8]) -> Result<Vec<Line>, NoMemory>
    requires { length bytes.now ≤ text_limit }
    ensures exact { IfOk result (λ lines. lines.items ≡ lines_of bytes.now) }
    ensures count { IfOk result (λ lines. length lines.items ≤ length bytes.now + 1) }
{
    let found = split_lines(alloc, bytes)?;
    Ok(found)
}

/// The bytes of a part of a text; a part that ends after the text ends with it.
pub fn part(bytes: &[u8], span: Span) -> &[u8]
    ensures { result.now ≡ piece bytes.now span }
{
    let end = span.end.min(bytes.len());
    let start = span.start.min(end);
    &bytes[start..end]
}

/// The word, at most its first 64 bytes.
pub fn cut(alloc: Global, word: &Text) -> Result<Text, NoMemory>
    ensures { IfOk result (λ text. text ≡ take word_limit word.now) }
{
    Text::copy_of(alloc, front(word.as_bytes()))
}

/// The first 64 bytes.
fn front(bytes: &[u8]) -> &[u8]
    ensures { result.now ≡ take word_limit bytes.now }
{
    if bytes.len() <= WORD_LIMIT {
        return bytes;
    }
    before(bytes, WORD_LIMIT)
}

/// The lines, one after the other.
fn split_lines(alloc: Global, bytes: &[u8]) -> Result<Vec<Line>, NoMemory>
    requires { length bytes.now ≤ text_limit }
    ensures { IfOk result (λ lines. lines.items ≡ lines_of bytes.now) }
{
    let mut found = Vec::new(alloc);
    // Those of one line; the room is used again for the next one.
    let mut line_words = Vec::new(alloc);
    let mut at = 0;
    let mut number = 1;
    while at < bytes.len() {
        let rest = after(bytes, at);
        let size = line_length(rest);
        let line = before(rest, size);
        read_words(line, at, &mut line_words)?;
        let indent = is_indented(line);
        let words = list_of(alloc, &line_words)?;
        add(
            &mut found,
            Line {
                number,
                indent,
                words,
            },
        )?;
        at = at + size + 1;
        number += 1;
    }
    Ok(found)
}

/// Reads the words of a line that begins at byte `start` of the text, in place of those that stand there.
fn read_words(line: &[u8], start: usize, words: &mut Vec<Span>) -> Result<(), NoMemory>
    requires { start + length line.now ≤ text_limit }
    ensures { OnOk result (words.new.items ≡ word_spans start line.now) }
{
    words.clear();
    let mut at = 0;
    while at < line.len() {
        let size = word_length(after(line, at));
        if size > 0 {
            words.push(Span {
                start: start + at,
                end: start + at + size,
            })?;
        }
        at = at + size + 1;
    }
    Ok(())
}

/// The words, in room for them alone.
fn list_of(alloc: Global, words: &[Span]) -> Result<List<Span>, NoMemory>
    ensures { IfOk result (λ list. list ≡ words.now) }
{
    let mut list = Vec::with_capacity(alloc, words.len())?;
    list.extend_from_slice(words)?;
    Ok(List::new(list))
}

/// Adds a line that has a word, and leaves out one that has none.
fn add(found: &mut Vec<Line>, line: Line) -> Result<(), NoMemory>
    ensures { IfOk result (λ _. found.new.items ≡ found.old.items ++ add_line line []) }
{
    if line.words.as_slice().is_empty() {
        return Ok(());
    }
    found.push(line)?;
    Ok(())
}

/// The bytes from this place on.
fn after(bytes: &[u8], at: usize) -> &[u8]
    requires { at ≤ length bytes.now }
    ensures value { result.now ≡ drop at bytes.now }
    ensures size { length result.now + at ≡ length bytes.now }
{
    let (_, rest) = bytes.split_at(at);
    rest
}

/// The bytes before this place.
fn before(bytes: &[u8], at: usize) -> &[u8]
    requires { at ≤ length bytes.now }
    ensures { result.now ≡ take at bytes.now }
{
    let (front, _) = bytes.split_at(at);
    front
}

/// How many bytes stand before the first line end, or all where there is none.
fn line_length(rest: &[u8]) -> usize
    ensures place { result ≡ position_or_len is_line_end rest.now }
    ensures bound { result ≤ length rest.now }
{
    match first_line_end(rest) {
        Some(i) => i,
        None => rest.len(),
    }
}

/// Where the first line ends.
fn first_line_end(rest: &[u8]) -> Option<usize>
    ensures { result ≡ position is_line_end rest.now }
{
    rest.iter().position(|b| *b == b'\n')
}

/// How many bytes stand before the first separator, or all where there is none.
fn word_length(rest: &[u8]) -> usize
    ensures place { result ≡ position_or_len is_separator rest.now }
    ensures bound { result ≤ length rest.now }
{
    match first_separator(rest) {
        Some(i) => i,
        None => rest.len(),
    }
}

/// Where the first separator stands.
fn first_separator(rest: &[u8]) -> Option<usize>
    ensures { result ≡ position is_separator rest.now }
{
    rest.iter().position(|b| separates(*b))
}

/// Whether words end at this byte.
fn separates(b: u8) -> bool
    ensures { result ≡ is_separator b }
{
    b == b' ' || b == b'\t' || b == b'\r'
}

/// Whether the line begins with a blank or a tab; a CR there indents nothing.
fn is_indented(line: &[u8]) -> bool
    ensures { result ≡ is_indented line.now }
{
    match line {
        [] => false,
        [b, ..] => *b == b' ' || *b == b'\t',
    }
}
