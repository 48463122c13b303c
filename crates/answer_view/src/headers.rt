//! The header of an answer that fails, read as it is written.
ghost use Rattle.std.specs.Prelude.{◌≡◌, ◌≤◌, IfSome, option_map};
ghost use Rattle.hdr_bits.specs.HeaderBits.{IsHeader};
ghost use Rattle.ios_words.specs.Words.{address_of, number_of};
ghost use Rattle.answer_view.specs.Said.{value_at, header_at};

use hdr_bits::Header;
use ios_words::{address, number};
use view_core::split_word;

/// The header that six fields say, each behind its name. Of the names the print is the judge.
#[tactic(auto, unfolding(crate::specs::Said::header_at))]
pub(crate) fn header_at(text: &[u8]) -> Option<Header>
    ensures value { result ≡ header_at text.now }
    ensures fits { IfSome result IsHeader }
{
    let (dst, rest) = address_at(text)?;
    let (src, rest) = address_at(rest)?;
    let (proto, rest) = number_at(rest, 255)?;
    let (dport, rest) = number_at(rest, 65_535)?;
    let (sport, rest) = number_at(rest, 65_535)?;
    let (flags, _) = number_at(rest, 255)?;
    Some(Header {
        dst,
        src,
        proto: proto as u8,
        dport: dport as u16,
        sport: sport as u16,
        flags: flags as u8,
    })
}

// The address behind its name, and what stands behind it.
#[tactic(auto, unfolding(crate::specs::Said::value_at))]
fn address_at(text: &[u8]) -> Option<(u32, &[u8])>
    ensures { option_map (λ x. (x.0, x.1.now)) result ≡ value_at address_of text.now }
{
    let (_, rest) = split_word(text);
    let (word, rest) = split_word(rest);
    let found = address(word)?;
    Some((found, rest))
}

// The number behind its name, at most this one, and what stands behind it.
#[tactic(auto, unfolding(crate::specs::Said::value_at))]
fn number_at(text: &[u8], most: u32) -> Option<(u32, &[u8])>
    ensures value { option_map (λ x. (x.0, x.1.now)) result ≡ value_at (number_of 0 most) text.now }
    ensures below { IfSome result (λ x. x.0 ≤ most) }
{
    let (_, rest) = split_word(text);
    let (word, rest) = split_word(rest);
    let found = number(word, 0, most)?;
    Some((found, rest))
}
