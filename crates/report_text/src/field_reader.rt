//! The fields of a cube, read as they are written.
ghost use Rattle.std.specs.Prelude.{◌≡◌, ◌≢◌, ◌<◌, ◌≤◌, ◌^◌, ◌-◌, ℕ, List, [], ◌++◌, Some, IfSome, MatchOption, false, length, decimal, codes, ◌∷◌};
ghost use Rattle.std.specs.List.{flat_map};
ghost use Rattle.std.specs.Str.{bytes_eq};
ghost use Rattle.report_text.specs.FieldText.{address_text, ternary_text, prefix_length, address_field_text, number_field_text, partial_text, prefix_mask, width_of, field_text, IsField};
ghost use Rattle.report_text.specs.Reading.{known_digit, one_digit, binary_from, ternary_of, prefix_of, whole_address, dotted_of, address_read, whole_number, number_read, address_field_of, number_field_of, field_of, part_bytes};

use crate::fields::{prefix_length, ternary_digit};
use crate::words::{cut, same};
use ios_words::{address, number};
use itoa::Buffer;

/// The fixed bits of field 0 to 5 (dst, src, proto, dport, sport, flags), and the digits at those, from its text.
///
/// None exactly where the word isn't what `cube_bytes` writes for such a field: a number with a leading zero, an address
/// with bits outside its prefix, and ternary digits of which each is fixed or none is, are written otherwise.
pub fn read_field(word: &[u8], field: u8) -> Option<(u32, u32)>
    ensures field { IfSome result (λ f. IsField field f.0 f.1 × (field_text field f.0 f.1 ≡ word.now)) }
    ensures all { (fixed bits : ℕ) → IsField field fixed bits → field_text field fixed bits ≡ word.now → result ≡ Some (fixed, bits) }
{
    field_of(word, field)
}

// The same, by steps.
#[tactic(auto, unfolding(crate::specs::Reading::field_of))]
pub(crate) fn field_of(word: &[u8], field: u8) -> Option<(u32, u32)>
    ensures value { result ≡ field_of field word.now }
    ensures below { IfSome result (λ f. (f.0 < 2 ^ width_of field) × (f.1 < 2 ^ width_of field)) }
{
    if field < 2 {
        return address_field(word);
    }
    match field {
        2 | 5 => number_field(word, 8),
        3 | 4 => number_field(word, 16),
        _ => None,
    }
}

#[tactic(auto, unfolding(crate::specs::Reading::address_field_of))]
fn address_field(word: &[u8]) -> Option<(u32, u32)>
    ensures { result ≡ address_field_of word.now }
{
    let (fixed, bits) = read_address(word)?;
    if bits & fixed == bits && is_address_field(word, fixed, bits) {
        return Some((fixed, bits));
    }
    None
}

#[tactic(auto, unfolding(crate::specs::Reading::number_field_of))]
fn number_field(word: &[u8], width: u32) -> Option<(u32, u32)>
    requires { width ≤ 16 }
    ensures value { result ≡ number_field_of width word.now }
    ensures below { IfSome result (λ f. (f.0 < 2 ^ width) × (f.1 < 2 ^ width)) }
{
    let (fixed, bits) = read_number(word, width)?;
    if bits & fixed == bits && is_number_field(word, width, fixed, bits) {
        return Some((fixed, bits));
    }
    None
}

// ---- reading

// A field that is an address: of 32 ternary digits, `*`, an address or `A/len`.
#[tactic(auto, unfolding(crate::specs::Reading::address_read))]
fn read_address(word: &[u8]) -> Option<(u32, u32)>
    ensures { result ≡ address_read word.now }
{
    if word.len() == 32 {
        return Some(ternary(word));
    }
    if same(word, b"*") {
        return Some((0, 0));
    }
    dotted(word)
}

#[tactic(auto, unfolding(crate::specs::Reading::dotted_of))]
fn dotted(word: &[u8]) -> Option<(u32, u32)>
    ensures { result ≡ dotted_of word.now }
{
    let (front, back) = cut(word, b'/');
    if back.len() > 0 {
        return prefix(front, back);
    }
    let found = address(front)?;
    Some((u32::MAX, found))
}

#[tactic(auto, unfolding(crate::specs::Reading::prefix_of))]
fn prefix(front: &[u8], back: &[u8]) -> Option<(u32, u32)>
    ensures { result ≡ prefix_of front.now back.now }
{
    let found = address(front)?;
    let length = number(back, 1, 31)?;
    Some((prefix_mask(length), found))
}

// The mask of the first `length` of 32 bits.
fn prefix_mask(length: u32) -> u32
    requires some { 1 ≤ length }
    requires not_all { length ≤ 31 }
    ensures { result ≡ prefix_mask length }
{
    ((1u64 << 32) - (1u64 << (32 - length))) as u32
}

// A field that is a number: of `width` ternary digits, `*` or a number.
#[tactic(auto, unfolding(crate::specs::Reading::number_read))]
fn read_number(word: &[u8], width: u32) -> Option<(u32, u32)>
    requires { width ≤ 16 }
    ensures value { result ≡ number_read width word.now }
    ensures below { IfSome result (λ f. f.0 < 2 ^ width) }
{
    if word.len() == width as usize {
        return Some(ternary(word));
    }
    if same(word, b"*") {
        return Some((0, 0));
    }
    let most = (1 << width) - 1;
    let found = number(word, 0, most)?;
    Some((most, found))
}

fn known_digit(b: u8) -> u32
    ensures { result ≡ known_digit b }
{
    if b == b'*' { 0 } else { 1 }
}

fn one_digit(b: u8) -> u32
    ensures { result ≡ one_digit b }
{
    if b == b'1' { 1 } else { 0 }
}

// Ternary digits, the most significant one first: which are fixed, and the digits at those.
fn ternary(word: &[u8]) -> (u32, u32)
    requires { length word.now ≤ 32 }
    ensures value { result ≡ ternary_of word.now }
    ensures below { result.0 < 2 ^ length word.now }
{
    let mut fixed = 0;
    let mut bits = 0;
    for b in word {
        fixed = fixed * 2 + known_digit(*b);
        bits = bits * 2 + one_digit(*b);
    }
    (fixed, bits)
}

// ---- whether a field is written so, without memory for its text

// What stands behind the front of a text, where that is this part.
fn behind<'t>(bytes: &'t [u8], part: &[u8]) -> Option<&'t [u8]>
    ensures { (x : List ℕ) → MatchOption result (bytes_eq (part.now ++ x) bytes.now ≡ false) (λ rest. bytes_eq (part.now ++ x) bytes.now ≡ bytes_eq x rest.now) }
{
    if bytes.len() < part.len() {
        return None;
    }
    let (front, rest) = bytes.split_at(part.len());
    if !same(front, part) {
        return None;
    }
    Some(rest)
}

// Whether the word is these parts, one after the other.
fn is_joined(word: &[u8], parts: &[&[u8]]) -> bool
    ensures { result ≡ bytes_eq (flat_map part_bytes parts.now) word.now }
{
    let mut rest = word;
    for part in parts {
        let Some(after) = behind(rest, *part) else {
            return false;
        };
        rest = after;
    }
    rest.is_empty()
}

#[tactic(auto, unfolding(crate::specs::FieldText::address_text))]
fn is_address(word: &[u8], address: u32) -> bool
    ensures { result ≡ bytes_eq (address_text address) word.now }
{
    let (mut a, mut b, mut c, mut d) = (Buffer::new(), Buffer::new(), Buffer::new(), Buffer::new());
    let parts: [&[u8]; 7] = [
        a.format(address >> 24).as_bytes(),
        b".",
        b.format(address >> 16 & 0xff).as_bytes(),
        b".",
        c.format(address >> 8 & 0xff).as_bytes(),
        b".",
        d.format(address & 0xff).as_bytes(),
    ];
    is_joined(word, &parts)
}

fn is_number(word: &[u8], number: u32) -> bool
    ensures { result ≡ bytes_eq (decimal number) word.now }
{
    Buffer::new().format(number).as_bytes() == word
}

// Whether it is the address, a slash and the length.
fn is_prefix(word: &[u8], address: u32, length: u32) -> bool
    ensures { result ≡ bytes_eq (partial_text (Some length) 0 address) word.now }
{
    let (front, _) = cut(word, b'/');
    if !is_address(front, address) {
        return false;
    }
    is_length(word, front, length)
}

// Whether it is this front, a slash and the length.
fn is_length(word: &[u8], front: &[u8], length: u32) -> bool
    ensures { result ≡ bytes_eq (front.now ++ codes "/" ++ decimal length) word.now }
{
    let mut number = Buffer::new();
    let parts: [&[u8]; 3] = [front, b"/", number.format(length).as_bytes()];
    is_joined(word, &parts)
}

// The first byte, and what stands behind it.
fn first(bytes: &[u8]) -> Option<(u8, &[u8])>
    ensures { MatchOption result (bytes.now ≡ []) (λ x. bytes.now ≡ x.0 ∷ x.1.now) }
{
    match bytes {
        [] => None,
        [byte, rest @ ..] => Some((*byte, rest)),
    }
}

// Whether it is the lowest `width` bits as ternary digits.
fn is_ternary(word: &[u8], width: u32, fixed: u32, bits: u32) -> bool
    requires { width ≤ 32 }
    ensures { result ≡ bytes_eq (ternary_text width fixed bits) word.now }
{
    let mut rest = word;
    for k in (0..width).rev() {
        let Some((digit, after)) = first(rest) else {
            return false;
        };
        if digit != ternary_digit(fixed, bits, k) {
            return false;
        }
        rest = after;
    }
    rest.is_empty()
}

#[tactic(auto, unfolding(crate::specs::FieldText::address_field_text))]
fn is_address_field(word: &[u8], fixed: u32, bits: u32) -> bool
    ensures { result ≡ bytes_eq (address_field_text fixed bits) word.now }
{
    match fixed {
        0 => same(b"*", word),
        u32::MAX => is_address(word, bits),
        _ => is_partial(word, fixed, bits),
    }
}

fn is_partial(word: &[u8], fixed: u32, bits: u32) -> bool
    requires some { 0 < fixed }
    requires not_all { fixed < 2 ^ 32 - 1 }
    ensures { result ≡ bytes_eq (partial_text (prefix_length fixed) fixed bits) word.now }
{
    match prefix_length(fixed) {
        Some(length) => is_prefix(word, bits, length),
        None => is_ternary(word, 32, fixed, bits),
    }
}

#[tactic(auto, unfolding(crate::specs::FieldText::number_field_text))]
fn is_number_field(word: &[u8], width: u32, fixed: u32, bits: u32) -> bool
    requires { width ≤ 16 }
    ensures { result ≡ bytes_eq (number_field_text width fixed bits) word.now }
{
    if fixed == 0 {
        same(b"*", word)
    } else if fixed == (1 << width) - 1 {
        is_number(word, bits)
    } else {
        is_ternary(word, width, fixed, bits)
    }
}
