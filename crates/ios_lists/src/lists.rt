//! The commands of access lists.
ghost use Rattle.std.specs.Prelude.{◌≡◌, IfOk};
ghost use Rattle.ios_lines.specs.Words.{Gives};
ghost use Rattle.ios_lists.specs.ListCommands.{range_of, kind_by_number, verb_at, numbered_by, numbered_line, next_entry, taken_entry, unnumbered_by, unnumbered_line, section_by, section_line, list_at, book_by, section_action, numbered_action, kind_at, in_range, has_range, other_kind, opened, open_action, some_entry};
ghost use Rattle.ios_lines.specs.Books.{next_sequence, has_sequence};
ghost use Rattle.ios_lists.specs.Entries.{entry_at};

use crate::entries::read_entry;
use crate::refused::ListPart;
use ios_lines::{
    Action, Kind, ListLine, NameList, Plain, ReadError, WrittenList, allowed, cut, end, first, is,
    next, refuse,
};
use ios_words::{is_numeral, number};
use net_types::{Duplicate, Entry, Text};
use std::alloc::Global;

/// What a line of a list is.
#[derive(Clone, Copy, Debug, PartialEq, Eq)]
pub enum Verb {
    Permit,
    Deny,
    Remark,
}

/// The sequence number of an entry of this list that is written without one.
fn next_in(names: &NameList, lists: &[WrittenList], name: &Text) -> Option<u32>
    ensures { result ≡ next_sequence (book_by (list_at names.now lists.now name.now)) }
{
    let Some(i) = names.find(name) else {
        return Some(10);
    };
    let Some(list) = lists.get(i) else {
        return Some(10);
    };
    list.book.next()
}

/// Whether an entry of this list has this sequence number.
fn has_in(names: &NameList, lists: &[WrittenList], name: &Text, sequence: u32) -> bool
    ensures { result ≡ has_sequence sequence (book_by (list_at names.now lists.now name.now)) }
{
    let Some(i) = names.find(name) else {
        return false;
    };
    let Some(list) = lists.get(i) else {
        return false;
    };
    list.book.has(sequence)
}

/// Whether this list was written as one of the other kind.
fn is_other_kind(names: &NameList, lists: &[WrittenList], name: &Text, extended: bool) -> bool
    ensures { result ≡ other_kind extended (list_at names.now lists.now name.now) }
{
    let Some(i) = names.find(name) else {
        return false;
    };
    let Some(list) = lists.get(i) else {
        return false;
    };
    list.extended != extended
}

/// The range of a list's number: standard (false) or extended (true).
fn range_of(number: u32) -> Option<bool>
    ensures { result ≡ range_of number }
{
    if number >= 1 && number <= 99 || number >= 1300 && number <= 1999 {
        return Some(false);
    }
    if number >= 100 && number <= 199 || number >= 2000 && number <= 2699 {
        return Some(true);
    }
    None
}

fn kind_by_number(word: &Text) -> Option<bool>
    ensures { result ≡ kind_by_number word.now }
{
    let Some(value) = number(word.as_bytes(), 0, 4294967295) else {
        return None;
    };
    range_of(value)
}

/// `permit`, `deny` or `remark`
#[tactic(auto, unfolding(crate::specs::ListCommands::verb_at))]
fn read_verb(alloc: Global, words: &[Text]) -> Result<(Verb, &[Text]), ReadError>
    ensures { Gives (λ x. (x.0, x.1.now)) result (verb_at words.now) }
{
    let (word, rest) = allowed(alloc, ListPart::Entry, words)?;
    if is(word, b"permit") {
        return Ok((Verb::Permit, rest));
    }
    if is(word, b"deny") {
        return Ok((Verb::Deny, rest));
    }
    if is(word, b"remark") {
        return Ok((Verb::Remark, rest));
    }
    Err(refuse(Kind::BadWord, cut(alloc, word)?))
}

/// The entry after `permit` or `deny`.
fn some_entry(
    alloc: Global,
    extended: bool,
    sequence: u32,
    permit: bool,
    words: &[Text],
) -> Result<Option<Entry>, ReadError>
    ensures { Gives (λ e. e) result (some_entry (entry_at extended sequence permit words.now)) }
{
    let entry = read_entry(alloc, extended, sequence, permit, words)?;
    Ok(Some(entry))
}

/// An entry with its sequence number, which may not be taken.
#[tactic(auto, unfolding(crate::specs::ListCommands::taken_entry))]
fn taken_entry(
    alloc: Global,
    extended: bool,
    taken: bool,
    word: &Text,
    sequence: u32,
    permit: bool,
    words: &[Text],
) -> Result<Option<Entry>, ReadError>
    ensures { Gives (λ e. e) result (taken_entry extended taken word.now sequence permit words.now) }
{
    if taken {
        return Err(refuse(Kind::SequenceTaken, cut(alloc, word)?));
    }
    some_entry(alloc, extended, sequence, permit, words)
}

/// A line with a sequence number, which is ignored before `remark`.
#[tactic(auto, unfolding(crate::specs::ListCommands::numbered_line))]
fn numbered_line(
    alloc: Global,
    extended: bool,
    taken: bool,
    word: &Text,
    sequence: u32,
    words: &[Text],
) -> Result<Option<Entry>, ReadError>
    ensures { Gives (λ e. e) result (numbered_line extended taken word.now sequence words.now) }
{
    let (verb, rest) = read_verb(alloc, words)?;
    match verb {
        Verb::Permit => taken_entry(alloc, extended, taken, word, sequence, true, rest),
        Verb::Deny => taken_entry(alloc, extended, taken, word, sequence, false, rest),
        Verb::Remark => Ok(None),
    }
}

/// An entry without a sequence number gets the next; where there is none, its first word is wrong.
fn next_entry(
    alloc: Global,
    extended: bool,
    next: Option<u32>,
    word: &Text,
    permit: bool,
    words: &[Text],
) -> Result<Option<Entry>, ReadError>
    ensures { Gives (λ e. e) result (next_entry extended next word.now permit words.now) }
{
    let Some(sequence) = next else {
        return Err(refuse(Kind::BadWord, cut(alloc, word)?));
    };
    some_entry(alloc, extended, sequence, permit, words)
}

/// A line without a sequence number.
#[tactic(auto, unfolding(crate::specs::ListCommands::unnumbered_line))]
fn unnumbered_line(
    alloc: Global,
    extended: bool,
    next: Option<u32>,
    words: &[Text],
) -> Result<Option<Entry>, ReadError>
    ensures { Gives (λ e. e) result (unnumbered_line extended next words.now) }
{
    let (verb, rest) = read_verb(alloc, words)?;
    let word = first(alloc, words)?;
    match verb {
        Verb::Permit => next_entry(alloc, extended, next, &word, true, rest),
        Verb::Deny => next_entry(alloc, extended, next, &word, false, rest),
        Verb::Remark => Ok(None),
    }
}

/// A line of a list's section: optionally a sequence number, then `permit`, `deny` or `remark`
#[tactic(auto, unfolding(crate::specs::ListCommands::section_line))]
fn section_line(
    alloc: Global,
    names: &NameList,
    lists: &[WrittenList],
    name: &Text,
    extended: bool,
    words: &[Text],
) -> Result<Option<Entry>, ReadError>
    ensures { Gives (λ e. e) result (section_line extended (book_by (list_at names.now lists.now name.now)) words.now) }
{
    let (word, rest) = next(alloc, words)?;
    match number(word.as_bytes(), 1, 2147483647) {
        Some(sequence) => {
            let taken = has_in(names, lists, name, sequence);
            numbered_line(alloc, extended, taken, word, sequence, rest)
        }
        None => unnumbered_line(alloc, extended, next_in(names, lists, name), words),
    }
}

/// A line of the section of a list.
#[tactic(auto, unfolding(crate::specs::ListCommands::section_action))]
pub fn list_line(
    alloc: Global,
    names: &NameList,
    lists: &[WrittenList],
    name: &Text,
    extended: bool,
    words: &[Text],
) -> Result<Action, ReadError>
    ensures { Gives (λ a. a) result (section_action names.now lists.now name.now extended words.now) }
{
    let entry = section_line(alloc, names, lists, name, extended, words)?;
    let name = name.copy(alloc)?;
    Ok(Action::Entry {
        name,
        line: ListLine { extended, entry },
    })
}

/// `access-list N`, then `permit`, `deny` or `remark`
#[tactic(auto, unfolding(crate::specs::ListCommands::numbered_action))]
pub fn numbered_list(
    alloc: Global,
    names: &NameList,
    lists: &[WrittenList],
    words: &[Text],
) -> Result<Action, ReadError>
    ensures { Gives (λ a. a) result (numbered_action names.now lists.now words.now) }
{
    let (word, rest) = next(alloc, words)?;
    let Some(extended) = kind_by_number(word) else {
        return Err(refuse(Kind::BadListNumber, cut(alloc, word)?));
    };
    let entry = unnumbered_line(alloc, extended, next_in(names, lists, word), rest)?;
    let name = word.copy(alloc)?;
    Ok(Action::Numbered {
        name,
        line: ListLine { extended, entry },
    })
}

/// `standard` or `extended`
#[tactic(auto, unfolding(crate::specs::ListCommands::kind_at))]
fn read_kind(alloc: Global, words: &[Text]) -> Result<(bool, &[Text]), ReadError>
    ensures { Gives (λ x. (x.0, x.1.now)) result (kind_at words.now) }
{
    let (word, rest) = allowed(alloc, ListPart::Kind, words)?;
    Ok((is(word, b"extended"), rest))
}

/// Whether a name of digits alone is in the range of its kind; any other name is.
fn has_range(extended: bool, word: &Text) -> bool
    ensures { result ≡ has_range extended word.now }
{
    !is_numeral(word.as_bytes()) || in_range(extended, kind_by_number(word))
}

fn in_range(extended: bool, kind: Option<bool>) -> bool
    ensures { result ≡ in_range extended kind }
{
    match kind {
        None => false,
        Some(kind) => kind == extended,
    }
}

/// That the list may be opened as one of this kind.
fn opened(
    alloc: Global,
    names: &NameList,
    lists: &[WrittenList],
    extended: bool,
    word: &Text,
) -> Result<(), ReadError>
    ensures { Gives (λ x. x) result (opened extended (list_at names.now lists.now word.now) word.now) }
{
    if !has_range(extended, word) {
        return Err(refuse(Kind::BadListNumber, cut(alloc, word)?));
    }
    if is_other_kind(names, lists, word, extended) {
        return Err(refuse(Kind::ListKindClash, cut(alloc, word)?));
    }
    Ok(())
}

/// `ip access-list standard W`, `ip access-list extended W`
#[tactic(auto, unfolding(crate::specs::ListCommands::open_action))]
pub fn open_list(
    alloc: Global,
    names: &NameList,
    lists: &[WrittenList],
    words: &[Text],
) -> Result<Action, ReadError>
    ensures { Gives (λ a. a) result (open_action names.now lists.now words.now) }
{
    let (extended, rest) = read_kind(alloc, words)?;
    let (word, rest) = next(alloc, rest)?;
    opened(alloc, names, lists, extended, word)?;
    end(alloc, Plain, rest)?;
    let name = word.copy(alloc)?;
    Ok(Action::OpenList { name, extended })
}
