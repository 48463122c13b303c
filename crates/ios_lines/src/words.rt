//! Readers of a command's words, from left to right.
ghost use Rattle.std.specs.Prelude.{◌≡◌, ◌≤◌, Bool, IfOk, drop, map};
ghost use Rattle.std.specs.Str.{bytes_eq};
ghost use Rattle.ios_lines.specs.declared.fault.ReadError.TheVariants as errors;
ghost use Rattle.ios_lines.specs.Words.{Gives, head_word, none_refused, Word, next_word, allowed_word, address_at, mask_at, number_at, ended, begins, hop_of};

use crate::fault::{Fault, Kind, ReadError};
use ios_words::{address, mask_length, number};
use net_text::cut;
use net_types::{Duplicate, NoMemory, Text};
use std::alloc::Global;

/// A part of a command, with the words that aren't covered where they are read in it as the next word.
pub trait Refuses {
    /// The words that aren't covered.
    ghost refused: { Self → Word → Bool };

    /// Whether the word isn't covered.
    fn refuses(&self, word: &Text) -> bool
        ensures { result ≡ refused self.now word.now };
}

/// A part of a command where every word is covered.
#[derive(Clone, Copy, Debug, PartialEq, Eq)]
pub struct Plain;

impl Refuses for Plain {
    ghost refused = { λ _ w. none_refused w };

    fn refuses(&self, _word: &Text) -> bool {
        false
    }
}

/// Whether it is this word.
pub fn is(word: &Text, text: &[u8]) -> bool
    ensures { result ≡ bytes_eq word.now text.now }
{
    word.as_bytes() == text
}

/// The first word, or nothing where there is none.
pub fn first(alloc: Global, words: &[Text]) -> Result<Text, NoMemory>
    ensures { IfOk result (λ text. text ≡ head_word words.now) }
{
    match words {
        [] => Ok(Text::new(Vec::new(alloc))),
        [word, ..] => Ok(word.copy(alloc)?),
    }
}

/// The words from this place on.
pub fn after(words: &[Text], n: usize) -> &[Text]
    ensures { result.now ≡ drop n words.now }
{
    if n <= words.len() {
        let (_, rest) = words.split_at(n);
        return rest;
    }
    &[]
}

/// The error for a word.
pub fn refuse(kind: Kind, word: Text) -> ReadError
    ensures { result ≡ errors.Fault (record { kind = kind; word = word }) }
{
    ReadError::Fault(Fault { kind, word })
}

/// The next word, and those after it.
pub fn next(alloc: Global, words: &[Text]) -> Result<(&Text, &[Text]), ReadError>
    ensures { Gives (λ x. (x.0.now, x.1.now)) result (next_word words.now) }
{
    match words {
        [] => Err(refuse(Kind::MissingWord, Text::new(Vec::new(alloc)))),
        [word, rest @ ..] => Ok((word, rest)),
    }
}

/// The next word, which the command has to cover.
#[tactic(auto, unfolding(crate::specs::Words::allowed_word))]
pub fn allowed<C: Refuses + Copy>(
    alloc: Global,
    command: C,
    words: &[Text],
) -> Result<(&Text, &[Text]), ReadError>
    ensures { Gives (λ x. (x.0.now, x.1.now)) result (allowed_word (C.refused command) words.now) }
{
    let (word, rest) = next(alloc, words)?;
    if command.refuses(word) {
        return Err(refuse(Kind::NotCovered, cut(alloc, word)?));
    }
    Ok((word, rest))
}

/// The next word as an address.
#[tactic(auto, unfolding(crate::specs::Words::address_at))]
pub fn read_address<C: Refuses + Copy>(
    alloc: Global,
    command: C,
    words: &[Text],
) -> Result<(u32, &[Text]), ReadError>
    ensures { Gives (λ x. (x.0, x.1.now)) result (address_at (C.refused command) words.now) }
{
    let (word, rest) = allowed(alloc, command, words)?;
    let Some(value) = address(word.as_bytes()) else {
        return Err(refuse(Kind::BadWord, cut(alloc, word)?));
    };
    Ok((value, rest))
}

/// The length of the next word as a contiguous mask, which has to be at least `least`.
#[tactic(auto, unfolding(crate::specs::Words::mask_at))]
pub fn read_mask<C: Refuses + Copy>(
    alloc: Global,
    command: C,
    least: u8,
    words: &[Text],
) -> Result<(u8, &[Text]), ReadError>
    ensures value { Gives (λ x. (x.0, x.1.now)) result (mask_at (C.refused command) least words.now) }
    ensures small { IfOk result (λ x. x.0 ≤ 32) }
{
    let (word, rest) = allowed(alloc, command, words)?;
    let Some(mask) = address(word.as_bytes()) else {
        return Err(refuse(Kind::BadWord, cut(alloc, word)?));
    };
    let Some(length) = mask_length(mask) else {
        return Err(refuse(Kind::BadMask, cut(alloc, word)?));
    };
    if length < least {
        return Err(refuse(Kind::BadMask, cut(alloc, word)?));
    }
    Ok((length, rest))
}

/// The next word as a number from `low` to `high`.
#[tactic(auto, unfolding(crate::specs::Words::number_at))]
pub fn read_number<C: Refuses + Copy>(
    alloc: Global,
    command: C,
    low: u32,
    high: u32,
    words: &[Text],
) -> Result<(u32, &[Text]), ReadError>
    requires { low ≤ high }
    ensures value { Gives (λ x. (x.0, x.1.now)) result (number_at (C.refused command) low high words.now) }
    ensures within { IfOk result (λ x. low ≤ x.0 × x.0 ≤ high) }
{
    let (word, rest) = allowed(alloc, command, words)?;
    let Some(value) = number(word.as_bytes(), low, high) else {
        return Err(refuse(Kind::BadWord, cut(alloc, word)?));
    };
    Ok((value, rest))
}

/// That no word is left.
#[tactic(auto, unfolding(crate::specs::Words::ended))]
pub fn end<C: Refuses + Copy>(alloc: Global, command: C, words: &[Text]) -> Result<(), ReadError>
    ensures { Gives (λ x. x) result (ended (C.refused command) words.now) }
{
    if words.is_empty() {
        return Ok(());
    }
    let (word, _) = allowed(alloc, command, words)?;
    Err(refuse(Kind::ExtraWord, cut(alloc, word)?))
}

/// Whether the words begin with those of the row.
pub fn begins(words: &[Text], row: &[&[u8]]) -> bool
    ensures { result ≡ begins (map (λ r. r.now) row.now) words.now }
{
    match row {
        [] => true,
        [first, others @ ..] => match words {
            [] => false,
            [word, rest @ ..] => is(word, first) && begins(rest, others),
        },
    }
}

/// The next word, where it is an address.
pub fn hop(words: &[Text]) -> Option<u32>
    ensures { result ≡ hop_of words.now }
{
    match words {
        [] => None,
        [word, ..] => address(word.as_bytes()),
    }
}
