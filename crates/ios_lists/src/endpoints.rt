//! The source and the destination of an entry, with their port tests.
ghost use Rattle.std.specs.Prelude.{◌≡◌, ◌-◌, ◌++◌, IfOk, take, length};
ghost use Rattle.ios_lines.specs.Words.{Gives};
ghost use Rattle.ios_lists.specs.Entries.{any_address, one_address, masked_by, host_at, with_wildcard, lone_address, standard_by, standard_at, wild_address, endpoint_by, endpoint_at, port_at, leading, ports_limit, equal_test, other_test, greater_test, less_test, range_test, port_test_by, port_test_of, has_ports, port_test_at};

use crate::refused::ListPart;
use ios_lines::{
    Kind, Plain, ReadError, Refuses, after, allowed, cut, hop, is, next, read_address, refuse,
};
use ios_words::{address, port, proto};
use net_types::{List, Masked, NoMemory, PortTest, Text};
use std::alloc::Global;

// The most ports of an `eq`.
const PORTS_LIMIT: usize = 10;

pub(crate) fn any_address() -> Masked
    ensures { result ≡ any_address }
{
    Masked {
        value: 0,
        wild: 4294967295,
    }
}

fn one_address(address: u32) -> Masked
    ensures { result ≡ one_address address }
{
    Masked {
        value: address,
        wild: 0,
    }
}

/// An address with a wildcard: a bit under a 1 is taken as 0.
fn masked(address: u32, wild: u32) -> Masked
    ensures { result ≡ masked_by address wild }
{
    Masked {
        value: address & (4294967295 - wild),
        wild,
    }
}

/// `host A`
#[tactic(auto, unfolding(crate::specs::Entries::host_at))]
fn host<C: Refuses + Copy>(
    alloc: Global,
    part: C,
    words: &[Text],
) -> Result<(Masked, &[Text]), ReadError>
    ensures { Gives (λ x. (x.0, x.1.now)) result (host_at (C.refused part) words.now) }
{
    let (address, rest) = read_address(alloc, part, words)?;
    Ok((one_address(address), rest))
}

/// `any`, `host A`, `A` or `A W`
#[tactic(auto, unfolding(crate::specs::Entries::standard_at))]
pub(crate) fn standard_source(alloc: Global, words: &[Text]) -> Result<(Masked, &[Text]), ReadError>
    ensures { Gives (λ x. (x.0, x.1.now)) result (standard_at words.now) }
{
    let (word, rest) = next(alloc, words)?;
    standard_by(alloc, word, rest)
}

fn standard_by<'a>(
    alloc: Global,
    word: &Text,
    words: &'a [Text],
) -> Result<(Masked, &'a [Text]), ReadError>
    ensures { Gives (λ x. (x.0, x.1.now)) result (standard_by word.now words.now) }
{
    if is(word, b"any") {
        return Ok((any_address(), words));
    }
    if is(word, b"host") {
        return host(alloc, Plain, words);
    }
    lone_address(alloc, word, words)
}

#[tactic(auto, unfolding(crate::specs::Entries::lone_address))]
fn lone_address<'a>(
    alloc: Global,
    word: &Text,
    words: &'a [Text],
) -> Result<(Masked, &'a [Text]), ReadError>
    ensures { Gives (λ x. (x.0, x.1.now)) result (lone_address word.now words.now) }
{
    let Some(value) = address(word.as_bytes()) else {
        return Err(refuse(Kind::BadWord, cut(alloc, word)?));
    };
    Ok(with_wildcard(value, words, hop(words)))
}

fn with_wildcard(address: u32, words: &[Text], wild: Option<u32>) -> (Masked, &[Text])
    ensures { (result.0, result.1.now) ≡ with_wildcard address words.now wild }
{
    match wild {
        None => (one_address(address), words),
        Some(wild) => (masked(address, wild), after(words, 1)),
    }
}

/// `any`, `host A` or `A W`
#[tactic(auto, unfolding(crate::specs::Entries::endpoint_at))]
pub(crate) fn endpoint(alloc: Global, words: &[Text]) -> Result<(Masked, &[Text]), ReadError>
    ensures { Gives (λ x. (x.0, x.1.now)) result (endpoint_at words.now) }
{
    let (word, rest) = allowed(alloc, ListPart::Endpoint, words)?;
    endpoint_by(alloc, word, rest)
}

fn endpoint_by<'a>(
    alloc: Global,
    word: &Text,
    words: &'a [Text],
) -> Result<(Masked, &'a [Text]), ReadError>
    ensures { Gives (λ x. (x.0, x.1.now)) result (endpoint_by word.now words.now) }
{
    if is(word, b"any") {
        return Ok((any_address(), words));
    }
    if is(word, b"host") {
        return host(alloc, ListPart::Endpoint, words);
    }
    wild_address(alloc, word, words)
}

#[tactic(auto, unfolding(crate::specs::Entries::wild_address))]
fn wild_address<'a>(
    alloc: Global,
    word: &Text,
    words: &'a [Text],
) -> Result<(Masked, &'a [Text]), ReadError>
    ensures { Gives (λ x. (x.0, x.1.now)) result (wild_address word.now words.now) }
{
    let Some(value) = address(word.as_bytes()) else {
        return Err(refuse(Kind::BadWord, cut(alloc, word)?));
    };
    let (wild, rest) = read_address(alloc, ListPart::Endpoint, words)?;
    Ok((masked(value, wild), rest))
}

/// A port test, where one is written for a protocol that has ports
pub(crate) fn port_test(
    alloc: Global,
    proto: Option<u8>,
    words: &[Text],
) -> Result<(PortTest, &[Text]), ReadError>
    ensures { Gives (λ x. (x.0, x.1.now)) result (port_test_at proto words.now) }
{
    let Some(proto) = proto else {
        return Ok((PortTest::Any, words));
    };
    if has_ports(proto) {
        return written_test(alloc, proto, words);
    }
    Ok((PortTest::Any, words))
}

fn has_ports(proto: u8) -> bool
    ensures { result ≡ has_ports proto }
{
    proto == 6 || proto == 17
}

fn written_test(alloc: Global, proto: u8, words: &[Text]) -> Result<(PortTest, &[Text]), ReadError>
    ensures { Gives (λ x. (x.0, x.1.now)) result (port_test_of proto words.now) }
{
    match words {
        [] => Ok((PortTest::Any, words)),
        [word, rest @ ..] => test_by_word(alloc, proto, word, rest, words),
    }
}

fn test_by_word<'a>(
    alloc: Global,
    proto: u8,
    word: &Text,
    rest: &'a [Text],
    words: &'a [Text],
) -> Result<(PortTest, &'a [Text]), ReadError>
    ensures { Gives (λ x. (x.0, x.1.now)) result (port_test_by proto word.now rest.now words.now) }
{
    if is(word, b"eq") {
        return equal_test(alloc, proto, rest);
    }
    if is(word, b"neq") {
        return other_test(alloc, proto, rest);
    }
    if is(word, b"gt") {
        return greater_test(alloc, proto, rest);
    }
    if is(word, b"lt") {
        return less_test(alloc, proto, rest);
    }
    if is(word, b"range") {
        return range_test(alloc, proto, rest);
    }
    Ok((PortTest::Any, words))
}

#[tactic(auto, unfolding(crate::specs::Entries::port_at))]
fn read_port(alloc: Global, proto: u8, words: &[Text]) -> Result<(u16, &[Text]), ReadError>
    ensures { Gives (λ x. (x.0, x.1.now)) result (port_at proto words.now) }
{
    let (word, rest) = next(alloc, words)?;
    let Some(value) = port(word.as_bytes(), proto) else {
        return Err(refuse(Kind::BadWord, cut(alloc, word)?));
    };
    Ok((value, rest))
}

/// `eq` with one to ten ports
#[tactic(auto, unfolding(crate::specs::Entries::equal_test))]
fn equal_test(alloc: Global, proto: u8, words: &[Text]) -> Result<(PortTest, &[Text]), ReadError>
    ensures { Gives (λ x. (x.0, x.1.now)) result (equal_test proto words.now) }
{
    let (first, rest) = read_port(alloc, proto, words)?;
    let mut ports = Vec::new(alloc);
    ports.push(first)?;
    let count = more_ports(&mut ports, proto, rest)?;
    let ports = List::new(ports);
    Ok((PortTest::Eq { ports }, after(rest, count)))
}

/// Adds the ports at the head of the words, at most nine, and tells how many.
fn more_ports(ports: &mut Vec<u16>, proto: u8, words: &[Text]) -> Result<usize, NoMemory>
    ensures ports { IfOk result (λ _. ports.new.items ≡ ports.old.items ++ take (ports_limit - 1) (leading proto words.now)) }
    ensures count { IfOk result (λ n. n ≡ length (take (ports_limit - 1) (leading proto words.now))) }
{
    let mut count = 0;
    for word in words {
        if count >= PORTS_LIMIT - 1 {
            return Ok(count);
        }
        let Some(value) = port(word.as_bytes(), proto) else {
            return Ok(count);
        };
        ports.push(value)?;
        count += 1;
    }
    Ok(count)
}

/// `neq` with a port
#[tactic(auto, unfolding(crate::specs::Entries::other_test))]
fn other_test(alloc: Global, proto: u8, words: &[Text]) -> Result<(PortTest, &[Text]), ReadError>
    ensures { Gives (λ x. (x.0, x.1.now)) result (other_test proto words.now) }
{
    let (port, rest) = read_port(alloc, proto, words)?;
    Ok((PortTest::Neq { port }, rest))
}

/// `gt` with a port
#[tactic(auto, unfolding(crate::specs::Entries::greater_test))]
fn greater_test(alloc: Global, proto: u8, words: &[Text]) -> Result<(PortTest, &[Text]), ReadError>
    ensures { Gives (λ x. (x.0, x.1.now)) result (greater_test proto words.now) }
{
    let (port, rest) = read_port(alloc, proto, words)?;
    Ok((PortTest::Gt { port }, rest))
}

/// `lt` with a port
#[tactic(auto, unfolding(crate::specs::Entries::less_test))]
fn less_test(alloc: Global, proto: u8, words: &[Text]) -> Result<(PortTest, &[Text]), ReadError>
    ensures { Gives (λ x. (x.0, x.1.now)) result (less_test proto words.now) }
{
    let (port, rest) = read_port(alloc, proto, words)?;
    Ok((PortTest::Lt { port }, rest))
}

/// `range` with two ports
#[tactic(auto, unfolding(crate::specs::Entries::range_test))]
fn range_test(alloc: Global, proto: u8, words: &[Text]) -> Result<(PortTest, &[Text]), ReadError>
    ensures { Gives (λ x. (x.0, x.1.now)) result (range_test proto words.now) }
{
    let (low, rest) = read_port(alloc, proto, words)?;
    let (high, rest) = read_port(alloc, proto, rest)?;
    Ok((PortTest::Range { low, high }, rest))
}
