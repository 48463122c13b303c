//! Words of a configuration that have a value: numbers, addresses, masks, and the names in access lists.
//!
//! No call takes memory.
#![tactic(auto)]

mod names;

ghost use Rattle.std.specs.Prelude.{◌≡◌, ◌+◌, ◌-◌, ◌^◌, ◌≤◌, ◌<◌, Some, IfSome, option_map, length, take, drop, position, find};
ghost use Rattle.std.specs.List.{range_with_len};
ghost use Rattle.ios_words.specs.Words.{is_numeral, number_of, octet_of, is_dot, address_of, mask_of, is_mask, mask_length_of};
ghost use Rattle.ios_words.specs.Steps.{capped_of, capped_number, dotted_of, address_steps};

pub use names::{flag, icmp, port, proto};

/// The number from `low` to `high` that the word's digits write.
///
/// There may be any count of digits and leading zeros, but no sign. None exactly where the word is no
/// such number.
pub fn number(word: &[u8], low: u32, high: u32) -> Option<u32>
    requires { low ≤ high }
    ensures value { result ≡ number_of low high word.now }
    ensures within { IfSome result (λ n. low ≤ n × n ≤ high) }
{
    let value = numeral(word)?;
    if value < u64::from(low) || value > u64::from(high) {
        return None;
    }
    Some(value as u32)
}

/// Whether the word is decimal digits alone, at least one.
pub fn is_numeral(word: &[u8]) -> bool
    ensures { result ≡ is_numeral word.now }
{
    match numeral(word) {
        Some(_) => true,
        None => false,
    }
}

/// The address that the word writes: four numbers of one to three digits up to 255, with dots between.
///
/// The first number is the highest byte. None exactly where the word is no address.
pub fn address(word: &[u8]) -> Option<u32>
    ensures { result ≡ address_of word.now }
{
    let found = address_by_dots(word);
    found
}

/// How many bits from the left of the mask are ones, 0 to 32, where all others are zeros.
///
/// None exactly where the ones are not contiguous from the left.
pub fn mask_length(mask: u32) -> Option<u8>
    ensures value { result ≡ mask_length_of mask }
    ensures small { IfSome result (λ n. n ≤ 32) }
{
    (0..33).find(|n| is_mask(mask, *n))
}

/// The number that the digits write, or 2^32 where it is greater.
fn numeral(word: &[u8]) -> Option<u64>
    ensures { result ≡ capped_number word.now }
{
    if word.is_empty() {
        return None;
    }
    capped(word)
}

/// The number that the digits write, or 2^32 where it is greater; 0 for no digit.
fn capped(word: &[u8]) -> Option<u64>
    ensures { result ≡ capped_of word.now }
{
    let mut value = 0u64;
    for b in word {
        if *b < b'0' || *b > b'9' {
            return None;
        }
        let digit = u64::from(*b - b'0');
        value = (value * 10 + digit).min(4294967296);
    }
    Some(value)
}

/// One to three digits, up to 255.
fn octet(part: &[u8]) -> Option<u32>
    ensures value { result ≡ octet_of part.now }
    ensures small { IfSome result (λ n. n ≤ 255) }
{
    if part.len() > 3 {
        return None;
    }
    number(part, 0, 255)
}

/// Where the first dot stands.
fn first_dot(word: &[u8]) -> Option<usize>
    ensures { result ≡ position is_dot word.now }
{
    word.iter().position(|b| *b == b'.')
}

/// The number before the first dot, and what stands after the dot.
fn dotted(word: &[u8]) -> Option<(u32, &[u8])>
    ensures value { option_map (λ x. (x.0, x.1.now)) result ≡ dotted_of word.now }
    ensures small { IfSome result (λ x. x.0 ≤ 255) }
{
    let i = first_dot(word)?;
    let n = octet(&word[..i])?;
    Some((n, &word[i + 1..]))
}

/// The address, read dot by dot.
#[tactic(auto, unfolding(crate::specs::Steps::address_steps))]
fn address_by_dots(word: &[u8]) -> Option<u32>
    ensures { result ≡ address_steps word.now }
{
    let (a, rest) = dotted(word)?;
    let (b, rest) = dotted(rest)?;
    let (c, rest) = dotted(rest)?;
    let d = octet(rest)?;
    Some(((a * 256 + b) * 256 + c) * 256 + d)
}

/// Whether just the first `n` bits of the mask are ones.
fn is_mask(mask: u32, n: u8) -> bool
    requires { n ≤ 32 }
    ensures { result ≡ is_mask mask n }
{
    (1u64 << 32) - (1u64 << (32 - n)) == u64::from(mask)
}
