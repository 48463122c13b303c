//! What a line of an audit says.
ghost use Rattle.std.specs.Prelude.{◌≡◌};
ghost use Rattle.audit_view.specs.Said.{kind_of, entry_said, by_said, said_of};

use ios_words::number;
use view_core::split_word;

/// What is wrong with an entry.
#[derive(Clone, Copy, Debug, PartialEq, Eq)]
pub enum Kind {
    /// It decides no packet.
    Dead,
    /// The list without it passes the same packets.
    Redundant,
}

/// What a line says. Of what stands behind its first words the print of all findings is the judge.
#[derive(Clone, Copy, Debug, PartialEq, Eq)]
pub enum Said {
    /// A list begins.
    List,
    /// A finding.
    Entry { sequence: u32, kind: Kind },
    /// An earlier entry that takes packets of the finding's entry.
    By { sequence: u32 },
    /// A row of these packets.
    Row,
    /// The number of all findings, or what no line of an audit says.
    Other,
}

// The greatest sequence number of an entry.
const LAST_SEQUENCE: u32 = 2_147_483_647;

/// What the line says.
pub(crate) fn said_of(line: &[u8]) -> Said
    ensures { result ≡ said_of line.now }
{
    let (first, rest) = split_word(line);
    if first == b"list".as_slice() {
        Said::List
    } else if first == b"dst".as_slice() {
        Said::Row
    } else if first == b"by".as_slice() {
        by_said(rest)
    } else if first == b"entry".as_slice() {
        entry_said(rest)
    } else {
        Said::Other
    }
}

fn by_said(rest: &[u8]) -> Said
    ensures { result ≡ by_said rest.now }
{
    let (word, _) = split_word(rest);
    match number(word, 1, LAST_SEQUENCE) {
        Some(sequence) => Said::By { sequence },
        None => Said::Other,
    }
}

fn entry_said(rest: &[u8]) -> Said
    ensures { result ≡ entry_said rest.now }
{
    let (word, kind) = split_word(rest);
    match number(word, 1, LAST_SEQUENCE) {
        Some(sequence) => Said::Entry {
            sequence,
            kind: kind_of(kind),
        },
        None => Said::Other,
    }
}

fn kind_of(word: &[u8]) -> Kind
    ensures { result ≡ kind_of word.now }
{
    if word == b"dead".as_slice() {
        Kind::Dead
    } else {
        Kind::Redundant
    }
}
