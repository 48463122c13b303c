//! An entry of an access list: what is read after `permit` or `deny`.
ghost use Rattle.std.specs.Prelude.{◌≡◌, ◌-◌};
ghost use Rattle.ios_lines.specs.Words.{Gives};
ghost use Rattle.ios_lists.specs.Entries.{any_address, after_log, standard_entry, proto_at, trailing_words, extended_entry, entry_at};

use crate::endpoints::{any_address, endpoint, port_test, standard_source};
use crate::refused::ListPart;
use crate::trailing::trailing_words;
use ios_lines::{Kind, Plain, ReadError, after, allowed, cut, end, is, refuse};
use ios_words::{icmp, number, port, proto};
use net_types::{Entry, FlagTest, IcmpTest, PortTest, Text};
use std::alloc::Global;

/// The entry after `permit` or `deny`.
pub fn read_entry(
    alloc: Global,
    extended: bool,
    sequence: u32,
    permit: bool,
    words: &[Text],
) -> Result<Entry, ReadError>
    ensures { Gives (λ e. e) result (entry_at extended sequence permit words.now) }
{
    if extended {
        return extended_entry(alloc, sequence, permit, words);
    }
    standard_entry(alloc, sequence, permit, words)
}

/// A source, then optionally `log`
#[tactic(auto, unfolding(crate::specs::Entries::standard_entry))]
fn standard_entry(
    alloc: Global,
    sequence: u32,
    permit: bool,
    words: &[Text],
) -> Result<Entry, ReadError>
    ensures { Gives (λ e. e) result (standard_entry sequence permit words.now) }
{
    let (src, rest) = standard_source(alloc, words)?;
    end(alloc, Plain, after_log(rest))?;
    Ok(Entry {
        sequence,
        permit,
        proto: None,
        src,
        sport: PortTest::Any,
        dst: any_address(),
        dport: PortTest::Any,
        icmp: IcmpTest::Any,
        flags: FlagTest::Any,
    })
}

/// A protocol, a source and a destination, each with its port test, and trailing words
#[tactic(auto, unfolding(crate::specs::Entries::extended_entry))]
fn extended_entry(
    alloc: Global,
    sequence: u32,
    permit: bool,
    words: &[Text],
) -> Result<Entry, ReadError>
    ensures { Gives (λ e. e) result (extended_entry sequence permit words.now) }
{
    let (proto, rest) = read_proto(alloc, words)?;
    let (src, rest) = endpoint(alloc, rest)?;
    let (sport, rest) = port_test(alloc, proto, rest)?;
    let (dst, rest) = endpoint(alloc, rest)?;
    let (dport, rest) = port_test(alloc, proto, rest)?;
    let trailing = trailing_words(alloc, proto, rest)?;
    Ok(Entry {
        sequence,
        permit,
        proto,
        src,
        sport,
        dst,
        dport,
        icmp: trailing.icmp,
        flags: trailing.flags,
    })
}

fn after_log(words: &[Text]) -> &[Text]
    ensures { result.now ≡ after_log words.now }
{
    match words {
        [] => words,
        [word, rest @ ..] => { if is(word, b"log") { rest } else { words } }
    }
}

/// `ip`, which is any protocol, or a name or number of one
#[tactic(auto, unfolding(crate::specs::Entries::proto_at))]
fn read_proto(alloc: Global, words: &[Text]) -> Result<(Option<u8>, &[Text]), ReadError>
    ensures { Gives (λ x. (x.0, x.1.now)) result (proto_at words.now) }
{
    let (word, rest) = allowed(alloc, ListPart::Protocol, words)?;
    if is(word, b"ip") {
        return Ok((None, rest));
    }
    let Some(value) = proto(word.as_bytes()) else {
        return Err(refuse(Kind::BadWord, cut(alloc, word)?));
    };
    Ok((Some(value), rest))
}
