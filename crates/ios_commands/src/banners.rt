//! Banners: `banner W TEXT`.
ghost use Rattle.std.specs.Prelude.{◌≡◌, ◌≤◌, ◌+◌, IfSome, length, drop, slice_get, option_map};
ghost use Rattle.net_text.specs.Limits.{text_limit};
ghost use Rattle.net_text.specs.Lines.{is_line_end};
ghost use Rattle.ios_commands.specs.Banners.{is_banner, delimiter, past, lines_before, lines_within, banner_refused, banner_over, banner_effect, banner_at};

use ios_lines::{Effect, Kind, Refusal, begins};
use net_text::{Line, Span};
use net_types::Text;
use std::alloc::Global;

/// Whether the line is a banner's, which is a global command.
pub fn is_banner(indent: bool, words: &[Text]) -> bool
    ensures { result ≡ is_banner indent words.now }
{
    if indent {
        return false;
    }
    begins(words, &[b"banner"])
}

/// The lines that the banner is written on, which are passed over.
pub fn banner(alloc: Global, bytes: &[u8], line: &Line) -> Effect
    requires size { length bytes.now ≤ text_limit }
    requires number { line.now.number ≤ 16777217 }
    ensures { result ≡ banner_effect bytes.now line.now }
{
    let Some(word) = line.words.as_slice().get(2) else {
        return refused(alloc, Kind::MissingWord, line.number);
    };
    let Some(lines) = lines_within(after(bytes, word.start)) else {
        return refused(alloc, Kind::BannerOpen, line.number);
    };
    Effect::Banner {
        first: line.number,
        last: line.number + lines,
    }
}

fn refused(alloc: Global, kind: Kind, line: u32) -> Effect
    ensures { result ≡ banner_refused kind line }
{
    Effect::Refused {
        refusal: Refusal {
            kind,
            line,
            word: Text::new(Vec::new(alloc)),
        },
    }
}

/// The bytes from this place on.
fn after(bytes: &[u8], at: usize) -> &[u8]
    ensures value { result.now ≡ drop at bytes.now }
    ensures size { length result.now ≤ length bytes.now }
{
    if at <= bytes.len() {
        let (_, rest) = bytes.split_at(at);
        return rest;
    }
    &[]
}

/// How many lines end within the text, from after its delimiter to the next place of it.
fn lines_within(text: &[u8]) -> Option<u32>
    requires { length text.now ≤ text_limit }
    ensures value { result ≡ lines_within text.now }
    ensures bound { IfSome result (λ n. n ≤ length text.now) }
{
    let mark = delimiter(text);
    lines_before(mark, after(text, mark.len()))
}

/// The two characters `^C` where the text begins so, else its first byte.
fn delimiter(text: &[u8]) -> &[u8]
    ensures { result.now ≡ delimiter text.now }
{
    if text.starts_with(b"^C") {
        return b"^C";
    }
    match text {
        [] => text,
        [_, ..] => {
            let (first, _) = text.split_at(1);
            first
        }
    }
}

/// How many lines end at this byte.
fn line_end(b: u8) -> u32
    ensures value { result ≡ past (is_line_end b) 0 }
    ensures most { result ≤ 1 }
{
    if b == b'\n' {
        return 1;
    }
    0
}

/// How many lines end before the next place of the delimiter.
fn lines_before(mark: &[u8], text: &[u8]) -> Option<u32>
    requires { length text.now ≤ text_limit }
    ensures value { result ≡ lines_before mark.now text.now }
    ensures bound { IfSome result (λ n. n ≤ length text.now) }
{
    let mut lines = 0;
    let mut at = 0;
    while at < text.len() {
        if after(text, at).starts_with(mark) {
            return Some(lines);
        }
        lines += line_end(text[at]);
        at += 1;
    }
    None
}
