//! What is written after the destination of an entry: an ICMP message or a flag condition, and `log`.
ghost use Rattle.std.specs.Prelude.{◌≡◌, ◌-◌, length, fold};
ghost use Rattle.ios_words.specs.Words.{number_of};
ghost use Rattle.ios_lines.specs.Words.{Gives};
ghost use Rattle.ios_lists.specs.Entries.{no_trailing, is_log, message_test, code_of, after_code, icmp_at, signed_by, signed_of, leading_flags, no_flags, add_flag, signed_at, with_icmp, with_flags, any_flags, all_flags, flags_at, test_by, trailing_by, trailing_at, trailing_words};

use crate::refused::ListPart;
use ios_lines::{Kind, ReadError, after, allowed, cut, end, is, refuse};
use ios_words::{flag, icmp, number, proto};
use net_types::{FlagTest, IcmpTest, Text};
use std::alloc::Global;

/// What is written after the destination of an entry.
#[derive(Clone, Copy, Debug, PartialEq, Eq)]
pub struct Trailing {
    pub logged: bool,
    /// Whether an ICMP message or a flag condition is written.
    pub tested: bool,
    pub icmp: IcmpTest,
    pub flags: FlagTest,
}

/// Flags of TCP, with their signs, as masks.
#[derive(Clone, Copy, Debug, PartialEq, Eq)]
pub struct FlagMasks {
    pub set: u8,
    pub clear: u8,
}

/// `log` or `log-input` once, and one ICMP message or one flag condition
#[tactic(auto, unfolding(crate::specs::Entries::trailing_words))]
pub(crate) fn trailing_words(
    alloc: Global,
    proto: Option<u8>,
    words: &[Text],
) -> Result<Trailing, ReadError>
    ensures { Gives (λ t. t) result (trailing_words proto words.now) }
{
    let (trailing, rest) = trailing_word(alloc, proto, no_trailing(), words)?;
    let (trailing, rest) = trailing_word(alloc, proto, trailing, rest)?;
    end(alloc, ListPart::Trailing, rest)?;
    Ok(trailing)
}

pub(crate) fn no_trailing() -> Trailing
    ensures { result ≡ no_trailing }
{
    Trailing {
        logged: false,
        tested: false,
        icmp: IcmpTest::Any,
        flags: FlagTest::Any,
    }
}

/// One trailing word and what belongs to it, where a word is left.
#[tactic(auto, unfolding(crate::specs::Entries::trailing_at))]
fn trailing_word(
    alloc: Global,
    proto: Option<u8>,
    trailing: Trailing,
    words: &[Text],
) -> Result<(Trailing, &[Text]), ReadError>
    ensures { Gives (λ x. (x.0, x.1.now)) result (trailing_at proto trailing words.now) }
{
    if words.is_empty() {
        return Ok((trailing, words));
    }
    let (word, rest) = allowed(alloc, ListPart::Trailing, words)?;
    trailing_by(alloc, proto, trailing, word, rest)
}

fn trailing_by<'a>(
    alloc: Global,
    proto: Option<u8>,
    trailing: Trailing,
    word: &Text,
    words: &'a [Text],
) -> Result<(Trailing, &'a [Text]), ReadError>
    ensures { Gives (λ x. (x.0, x.1.now)) result (trailing_by proto trailing word.now words.now) }
{
    if is_log(word) && !trailing.logged {
        let trailing = Trailing {
            logged: true,
            ..trailing
        };
        return Ok((trailing, words));
    }
    test_by(alloc, proto, trailing, word, words)
}

fn is_log(word: &Text) -> bool
    ensures { result ≡ is_log word.now }
{
    is(word, b"log") || is(word, b"log-input")
}

/// An ICMP message for ICMP, or a flag condition for TCP
fn test_by<'a>(
    alloc: Global,
    proto: Option<u8>,
    trailing: Trailing,
    word: &Text,
    words: &'a [Text],
) -> Result<(Trailing, &'a [Text]), ReadError>
    ensures { Gives (λ x. (x.0, x.1.now)) result (test_by proto trailing word.now words.now) }
{
    let Some(proto) = proto else {
        return Err(refuse(Kind::ExtraWord, cut(alloc, word)?));
    };
    if trailing.tested {
        return Err(refuse(Kind::ExtraWord, cut(alloc, word)?));
    }
    if proto == 1 {
        return icmp_test(alloc, trailing, word, words);
    }
    if proto == 6 {
        return flags_test(alloc, trailing, word, words);
    }
    Err(refuse(Kind::ExtraWord, cut(alloc, word)?))
}

/// A name of an ICMP message, or a type and optionally a code
fn icmp_test<'a>(
    alloc: Global,
    trailing: Trailing,
    word: &Text,
    words: &'a [Text],
) -> Result<(Trailing, &'a [Text]), ReadError>
    ensures { Gives (λ x. (x.0, x.1.now)) result (icmp_at trailing word.now words.now) }
{
    if let Some((kind, code)) = icmp(word.as_bytes()) {
        return Ok((with_icmp(trailing, message_test(kind, code)), words));
    }
    let Some(kind) = byte(word) else {
        return Err(refuse(Kind::ExtraWord, cut(alloc, word)?));
    };
    let code = code(words);
    let trailing = with_icmp(trailing, message_test(kind, code));
    Ok((trailing, after_code(code, words)))
}

fn byte(word: &Text) -> Option<u8>
    ensures { result ≡ number_of 0 255 word.now }
{
    let Some(value) = number(word.as_bytes(), 0, 255) else {
        return None;
    };
    Some(value as u8)
}

fn code(words: &[Text]) -> Option<u8>
    ensures { result ≡ code_of words.now }
{
    match words {
        [] => None,
        [word, ..] => byte(word),
    }
}

fn after_code(code: Option<u8>, words: &[Text]) -> &[Text]
    ensures { result.now ≡ after_code code words.now }
{
    match code {
        None => words,
        Some(_) => after(words, 1),
    }
}

fn message_test(kind: u8, code: Option<u8>) -> IcmpTest
    ensures { result ≡ message_test (kind, code) }
{
    match code {
        None => IcmpTest::Kind { kind },
        Some(code) => IcmpTest::Exact { kind, code },
    }
}

fn with_icmp(trailing: Trailing, icmp: IcmpTest) -> Trailing
    ensures { result ≡ with_icmp trailing icmp }
{
    Trailing {
        tested: true,
        icmp,
        ..trailing
    }
}

fn with_flags(trailing: Trailing, flags: FlagTest) -> Trailing
    ensures { result ≡ with_flags trailing flags }
{
    Trailing {
        tested: true,
        flags,
        ..trailing
    }
}

/// `established`, `match-any` or `match-all` with flags, or one bare flag
fn flags_test<'a>(
    alloc: Global,
    trailing: Trailing,
    word: &Text,
    words: &'a [Text],
) -> Result<(Trailing, &'a [Text]), ReadError>
    ensures { Gives (λ x. (x.0, x.1.now)) result (flags_at trailing word.now words.now) }
{
    if is(word, b"established") {
        let flags = FlagTest::AnyOf { set: 20, clear: 0 };
        return Ok((with_flags(trailing, flags), words));
    }
    if is(word, b"match-any") {
        return any_flags(alloc, trailing, words);
    }
    if is(word, b"match-all") {
        return all_flags(alloc, trailing, words);
    }
    let Some(set) = flag(word.as_bytes()) else {
        return Err(refuse(Kind::ExtraWord, cut(alloc, word)?));
    };
    let flags = FlagTest::AllOf { set, clear: 0 };
    Ok((with_flags(trailing, flags), words))
}

#[tactic(auto, unfolding(crate::specs::Entries::any_flags))]
fn any_flags(
    alloc: Global,
    trailing: Trailing,
    words: &[Text],
) -> Result<(Trailing, &[Text]), ReadError>
    ensures { Gives (λ x. (x.0, x.1.now)) result (any_flags trailing words.now) }
{
    let (masks, rest) = flag_masks(alloc, words)?;
    let flags = FlagTest::AnyOf {
        set: masks.set,
        clear: masks.clear,
    };
    Ok((with_flags(trailing, flags), rest))
}

#[tactic(auto, unfolding(crate::specs::Entries::all_flags))]
fn all_flags(
    alloc: Global,
    trailing: Trailing,
    words: &[Text],
) -> Result<(Trailing, &[Text]), ReadError>
    ensures { Gives (λ x. (x.0, x.1.now)) result (all_flags trailing words.now) }
{
    let (masks, rest) = flag_masks(alloc, words)?;
    let flags = FlagTest::AllOf {
        set: masks.set,
        clear: masks.clear,
    };
    Ok((with_flags(trailing, flags), rest))
}

/// One or more of `+flag` and `-flag`
#[tactic(auto, unfolding(crate::specs::Entries::signed_at))]
fn flag_masks(alloc: Global, words: &[Text]) -> Result<(FlagMasks, &[Text]), ReadError>
    ensures { Gives (λ x. (x.0, x.1.now)) result (signed_at words.now) }
{
    let (word, rest) = allowed(alloc, ListPart::Trailing, words)?;
    let Some((sign, bit)) = signed(word.as_bytes()) else {
        return Err(refuse(Kind::BadWord, cut(alloc, word)?));
    };
    let (masks, count) = more_flags(add_flag(no_flags(), sign, bit), rest);
    Ok((masks, after(rest, count)))
}

/// The flags at the head of the words, added to these, and how many there are.
fn more_flags(start: FlagMasks, words: &[Text]) -> (FlagMasks, usize)
    ensures masks { result.0 ≡ fold add_flag start (leading_flags words.now) }
    ensures count { result.1 ≡ length (leading_flags words.now) }
{
    let mut masks = start;
    let mut count = 0;
    for word in words {
        let Some((sign, bit)) = signed(word.as_bytes()) else {
            return (masks, count);
        };
        masks = add_flag(masks, sign, bit);
        count += 1;
    }
    (masks, count)
}

fn no_flags() -> FlagMasks
    ensures { result ≡ no_flags }
{
    FlagMasks { set: 0, clear: 0 }
}

fn add_flag(masks: FlagMasks, sign: bool, bit: u8) -> FlagMasks
    ensures { result ≡ add_flag masks (sign, bit) }
{
    if sign {
        return FlagMasks {
            set: masks.set | bit,
            ..masks
        };
    }
    FlagMasks {
        clear: masks.clear | bit,
        ..masks
    }
}

/// A flag with its sign, true for `+`.
fn signed(word: &[u8]) -> Option<(bool, u8)>
    ensures { result ≡ signed_of word.now }
{
    match word {
        [] => None,
        [sign, name @ ..] => signed_by(*sign, flag(name)),
    }
}

fn signed_by(sign: u8, bit: Option<u8>) -> Option<(bool, u8)>
    ensures { result ≡ signed_by sign bit }
{
    let Some(bit) = bit else {
        return None;
    };
    if sign == b'+' {
        return Some((true, bit));
    }
    if sign == b'-' {
        return Some((false, bit));
    }
    None
}
