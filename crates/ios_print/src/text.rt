//! Words of a line.
//!
//! Each function adds a text at the end. Where memory runs out, a part of the text may stand there.
ghost use Rattle.std.specs.Prelude.{◌≡◌, ◌≤◌, ◌++◌, ◌∷◌, decimal, OnOk};
ghost use Rattle.ios_print.specs.Print.{address_word, subnet_words, masked_words};
ghost use Rattle.ios_words.specs.Words.{mask_of};
ghost use Rattle.ios_print.specs.Tail.{tail};

use itoa::{Buffer, Integer};
use net_types::{Masked, NoMemory, Subnet};

pub fn append(out: &mut Vec<u8>, text: &[u8]) -> Result<(), NoMemory>
    ensures { OnOk result (out.new.items ≡ out.old.items ++ text.now) }
{
    out.extend_from_slice(text)?;
    Ok(())
}

/// A word, after a blank.
pub fn append_word(out: &mut Vec<u8>, word: &[u8]) -> Result<(), NoMemory>
    ensures { OnOk result (out.new.items ≡ out.old.items ++ 32 ∷ word.now) }
{
    out.push(b' ')?;
    append(out, word)
}

fn append_digits<I: Integer>(out: &mut Vec<u8>, number: I) -> Result<(), NoMemory>
    ensures { OnOk result (out.new.items ≡ out.old.items ++ I.text number) }
{
    let mut buffer = Buffer::new();
    append(out, buffer.format(number).as_bytes())
}

/// A number, after a blank.
pub fn append_number(out: &mut Vec<u8>, number: u32) -> Result<(), NoMemory>
    ensures { OnOk result (out.new.items ≡ out.old.items ++ 32 ∷ decimal number) }
{
    out.push(b' ')?;
    append_digits(out, number)
}

/// A number, after a dot.
fn append_octet(out: &mut Vec<u8>, octet: u32) -> Result<(), NoMemory>
    ensures { OnOk result (out.new.items ≡ out.old.items ++ 46 ∷ decimal octet) }
{
    out.push(b'.')?;
    append_digits(out, octet)
}

/// An address, after a blank.
#[tactic(auto, unfolding(crate::specs::Print::address_word))]
pub fn append_address(out: &mut Vec<u8>, address: u32) -> Result<(), NoMemory>
    ensures { OnOk result (out.new.items ≡ out.old.items ++ 32 ∷ address_word address) }
{
    append_number(out, address >> 24)?;
    append_octet(out, address >> 16 & 0xff)?;
    append_octet(out, address >> 8 & 0xff)?;
    append_octet(out, address & 0xff)
}

/// The mask of a network part of this length.
fn mask(length: u8) -> u32
    requires { length ≤ 32 }
    ensures { result ≡ mask_of length }
{
    ((1u64 << 32) - (1u64 << (32 - length))) as u32
}

/// An address and its mask.
pub fn append_subnet(out: &mut Vec<u8>, subnet: Subnet) -> Result<(), NoMemory>
    ensures { OnOk result (out.new.items ≡ out.old.items ++ tail (subnet_words subnet)) }
{
    append_address(out, subnet.address)?;
    append_address(out, mask(subnet.length))
}

/// An address and its wildcard.
pub fn append_masked(out: &mut Vec<u8>, masked: Masked) -> Result<(), NoMemory>
    ensures { OnOk result (out.new.items ≡ out.old.items ++ tail (masked_words masked)) }
{
    append_address(out, masked.value)?;
    append_address(out, masked.wild)
}
