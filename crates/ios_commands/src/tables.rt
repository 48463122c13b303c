//! The commands that aren't covered by their first words.
ghost use Rattle.std.specs.Prelude.{◌≡◌, IfOk, length, map, option_map, find, take};
ghost use Rattle.ios_lines.specs.Words.{Gives};
ghost use Rattle.net_text.specs.Limits.{word_limit};
ghost use Rattle.ios_commands.specs.Tables.{global_rows, interface_rows, fits_row, row_words, word_of, refused_by};

use ios_lines::{Action, Kind, ReadError, begins, cut, refuse};
use net_types::{NoMemory, Text};
use std::alloc::Global;

/// Of the first row of the global commands that begins the words, the number of its words.
pub fn global_row(words: &[Text]) -> Option<usize>
    ensures { result ≡ option_map length (find (fits_row words.now) global_rows) }
{
    let rows: [&[&[u8]]; 23] = [
        &[b"router"],
        &[b"ip", b"vrf"],
        &[b"vrf"],
        &[b"ipv6", b"unicast-routing"],
        &[b"ipv6", b"route"],
        &[b"ip", b"multicast-routing"],
        &[b"ip", b"default-network"],
        &[b"ip", b"tcp", b"intercept"],
        &[b"bridge"],
        &[b"mpls", b"ip"],
        &[b"ip", b"nat", b"pool"],
        &[b"ip", b"nat", b"source"],
        &[b"ip", b"nat", b"inside", b"destination"],
        &[b"ip", b"nat", b"inside", b"source", b"list"],
        &[b"ip", b"nat", b"inside", b"source", b"route-map"],
        &[b"ip", b"nat", b"outside", b"source", b"list"],
        &[b"ip", b"nat", b"outside", b"source", b"route-map"],
        &[b"no", b"access-list"],
        &[b"no", b"ip", b"access-list"],
        &[b"no", b"ip", b"route"],
        &[b"no", b"ip", b"nat"],
        &[b"no", b"ip", b"routing"],
        &[b"no", b"ip", b"classless"],
    ];
    row_length(words, &rows)
}

/// Of the first row of an interface's commands that begins the words, the number of its words.
pub fn interface_row(words: &[Text]) -> Option<usize>
    ensures { result ≡ option_map length (find (fits_row words.now) interface_rows) }
{
    let rows: [&[&[u8]]; 26] = [
        &[b"ipv6", b"address"],
        &[b"ipv6", b"enable"],
        &[b"ip", b"vrf"],
        &[b"vrf"],
        &[b"ip", b"policy"],
        &[b"tunnel"],
        &[b"crypto", b"map"],
        &[b"ip", b"verify", b"unicast"],
        &[b"zone-member"],
        &[b"ip", b"inspect"],
        &[b"standby"],
        &[b"vrrp"],
        &[b"glbp"],
        &[b"bridge-group"],
        &[b"switchport"],
        &[b"channel-group"],
        &[b"ip", b"unnumbered"],
        &[b"ip", b"nat", b"enable"],
        &[b"ip", b"directed-broadcast"],
        &[b"ip", b"broadcast-address"],
        &[b"ip", b"wccp"],
        &[b"ip", b"pim"],
        &[b"mpls", b"ip"],
        &[b"xconnect"],
        &[b"service", b"instance"],
        &[b"backup"],
    ];
    row_length(words, &rows)
}

/// Of the first row that begins the words, the number of its words.
fn row_length(words: &[Text], rows: &[&[&[u8]]]) -> Option<usize>
    ensures { result ≡ option_map length (find (fits_row words.now) (map row_words rows.now)) }
{
    for row in rows {
        if begins(words, row) {
            return Some(row.len());
        }
    }
    None
}

/// A command that isn't covered: refused where a row of so many words begins it, else passed over.
pub fn uncovered(
    alloc: Global,
    words: &[Text],
    row: Option<usize>,
    passed: Action,
) -> Result<Action, ReadError>
    ensures { Gives (λ a. a) result (refused_by words.now row passed) }
{
    let Some(n) = row else {
        return Ok(passed);
    };
    let word = word_at(alloc, words, n.saturating_sub(1))?;
    Err(refuse(Kind::NotCovered, word))
}

/// The word at this place, at most its first 64 bytes.
fn word_at(alloc: Global, words: &[Text], i: usize) -> Result<Text, NoMemory>
    ensures { IfOk result (λ text. text ≡ take word_limit (word_of words.now i)) }
{
    match words.get(i) {
        None => Ok(Text::new(Vec::new(alloc))),
        Some(word) => Ok(cut(alloc, word)?),
    }
}
