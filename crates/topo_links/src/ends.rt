//! The words of a line of a link table.
ghost use Rattle.std.specs.Prelude.{◌≡◌, ◌≢◌, ◌≤◌, ◌<◌, ◌+◌, ◌++◌, ◌∷◌, IfOk, MatchOption, length, map, take, []};
ghost use Rattle.std.specs.Str.{bytes_eq};
ghost use Rattle.topo_links.specs.Ends.{is_full, is_enough, ends_of, refused, Gives};
ghost use Rattle.topo_links.specs.Table.{kind_of, begins_mark};

use crate::taken::Taken;
use crate::{LinkFail, LinkKind, LinkRefusal};
use net_text::cut;
use net_types::{Duplicate, NoMemory, Text};
use std::alloc::Global;

/// Whether a line of this kind that has so many ends takes no further one.
fn is_full(kind: LinkKind, count: usize) -> bool
    ensures { result ≡ is_full kind count }
{
    match kind {
        LinkKind::P2p => count == 2,
        LinkKind::Lan => false,
        LinkKind::Ingress => count == 1,
    }
}

/// Whether a line of this kind that has so many ends may end.
fn is_enough(kind: LinkKind, count: usize) -> bool
    ensures { result ≡ is_enough kind count }
{
    match kind {
        LinkKind::P2p => count == 2,
        LinkKind::Lan => count >= 2,
        LinkKind::Ingress => count == 1,
    }
}

/// The refusal of a line that ends too early.
fn missing(alloc: Global, line: u32) -> LinkFail
    ensures { result ≡ refused LinkRefusal.MissingWord line [] }
{
    LinkFail::Refused {
        kind: LinkRefusal::MissingWord,
        line,
        word: Text::new(Vec::new(alloc)),
    }
}

/// The refusal of a line at a word, or want of memory for it.
pub fn at_word(alloc: Global, kind: LinkRefusal, line: u32, word: &Text) -> LinkFail
    ensures { result ≢ LinkFail.NoMemory → result ≡ refused kind line word.now }
{
    match cut(alloc, word) {
        Ok(word) => LinkFail::Refused { kind, line, word },
        Err(NoMemory) => LinkFail::NoMemory,
    }
}

/// The first word, and the words after it.
fn first(words: &[Text]) -> Option<(&Text, &[Text])>
    ensures { MatchOption result (words.now ≡ []) (λ x. words.now ≡ x.0.now ∷ x.1.now) }
{
    match words {
        [] => None,
        [word, rest @ ..] => Some((word, rest)),
    }
}

/// The ends that the words of a line name, each of which was free.
#[tactic(auto, unfolding(crate::specs::Ends::ends_of))]
pub fn read_ends(
    alloc: Global,
    kind: LinkKind,
    line: u32,
    taken: &mut Taken,
    words: &[Text],
) -> Result<Vec<(Text, Text)>, LinkFail>
    ensures ends { Gives (λ ends. ends.items) result (ends_of kind line taken.old [] words.now) }
    ensures taken { IfOk result (λ ends. taken.new ≡ taken.old ++ ends.items) }
{
    let mut ends = Vec::new(alloc);
    let mut rest = words;
    while let Some((device, others)) = first(rest) {
        if is_full(kind, ends.len()) {
            return Err(at_word(alloc, LinkRefusal::BadWord, line, device));
        }
        let Some((interface, others)) = first(others) else {
            return Err(missing(alloc, line));
        };
        if !taken.claim(alloc, device, interface)? {
            return Err(at_word(alloc, LinkRefusal::EndTaken, line, interface));
        }
        ends.push((device.copy(alloc)?, interface.copy(alloc)?))?;
        rest = others;
    }
    if !is_enough(kind, ends.len()) {
        return Err(missing(alloc, line));
    }
    Ok(ends)
}

/// Whether the line is a comment.
pub fn is_comment(word: &Text) -> bool
    ensures { result ≡ begins_mark word.now }
{
    match word.as_bytes() {
        [] => false,
        [first, ..] => *first == b'!',
    }
}

/// Whether it is this word.
fn is(word: &Text, text: &[u8]) -> bool
    ensures { result ≡ bytes_eq word.now text.now }
{
    word.as_bytes() == text
}

/// The kind of line that its first word names.
pub fn kind_of(word: &Text) -> Option<LinkKind>
    ensures { result ≡ kind_of word.now }
{
    if is(word, b"p2p") {
        return Some(LinkKind::P2p);
    }
    if is(word, b"lan") {
        return Some(LinkKind::Lan);
    }
    if is(word, b"ingress") {
        return Some(LinkKind::Ingress);
    }
    None
}
