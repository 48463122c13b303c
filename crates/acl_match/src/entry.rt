//! An entry as cubes.

ghost use Rattle.std.specs.Prelude.{◌≡◌, ◌<◌, ◌≤◌, ◌^◌, ◌+◌, ◌/◌, ◌%◌, ◌&&◌, ◌==◌, ◌↔◌, bit_and, ℕ, Any, IfOk, OnOk, IsTrue};
ghost use Rattle.hdr_bits.specs.declared.header.Header.{Header};
ghost use Rattle.hdr_bits.specs.HeaderBits.{number, header_of, IsHeader};
ghost use Rattle.hdr_bits.specs.CubeBits.{IsIn, is_in};
ghost use Rattle.net_types.specs.AccessLists.{is_proto, agrees, meets_icmp, meets_flags, matches};
ghost use Rattle.acl_match.specs.Cubes.{any_in, is_in_some, field, meets_one_cube};

use crate::fields::{common, field_cube, one, outside, product};
use crate::ports::port_cubes;
use hdr_bits::Cube;
use net_types::{Entry, FlagTest, IcmpTest, Masked};
use no_memory::NoMemory;
use std::alloc::Global;

/// The headers that the entry matches, as cubes, which may overlap.
///
/// A port range takes at most 30 cubes, each port of an `eq` one, an address one, whatever its wildcard mask.
pub fn entry_cubes(alloc: Global, entry: &Entry) -> Result<Vec<Cube>, NoMemory>
    ensures members { IfOk result (λ r. (h : Header) → IsHeader h → Any (λ c. IsIn c (number h)) r.items ↔ IsTrue (matches entry.now h)) }
    ensures test { IfOk result (λ r. (h : ℕ) → any_in r.items h ≡ matches entry.now (header_of h)) }
{
    let Some(base) = base_cube(entry) else {
        return Ok(Vec::new(alloc));
    };
    let sources = port_cubes(alloc, 8, &entry.sport)?;
    let from = product(alloc, &[base], &sources)?;
    let destinations = port_cubes(alloc, 24, &entry.dport)?;
    let between = product(alloc, &from, &destinations)?;
    let flags = flag_cubes(alloc, entry.flags)?;
    let cubes = product(alloc, &between, &flags)?;
    Ok(cubes)
}

// The headers with the entry's protocol, addresses and ICMP type and code: one cube, if any.
fn base_cube(entry: &Entry) -> Option<Cube>
    ensures { (h : ℕ) → is_in_some result h ≡ meets_one_cube entry.now (header_of h) }
{
    let proto = proto_cube(entry.proto);
    let from = common(Some(proto), &address_cube(48, &entry.src));
    let between = common(from, &address_cube(80, &entry.dst));
    common(between, &icmp_cube(entry.icmp))
}

fn proto_cube(proto: Option<u8>) -> Cube
    ensures { (h : ℕ) → is_in result h ≡ is_proto proto (field 40 8 h) }
{
    match proto {
        Some(proto) => field_cube(40, 8, 0xff, u32::from(proto)),
        None => Cube::all(),
    }
}

// The headers whose address, the 32 bits above the lowest `shift`, agrees with this one.
fn address_cube(shift: u32, m: &Masked) -> Cube
    requires { shift + 32 ≤ 112 }
    ensures { (h : ℕ) → is_in result h ≡ agrees m.now (field shift 32 h) }
{
    field_cube(shift, 32, !m.wild, m.value)
}

fn icmp_cube(test: IcmpTest) -> Cube
    ensures { (h : ℕ) → is_in result h ≡ meets_icmp test (field 8 16 h) }
{
    match test {
        IcmpTest::Any => Cube::all(),
        IcmpTest::Kind { kind } => field_cube(8, 16, 0xff00, u32::from(kind) * 256),
        IcmpTest::Exact { kind, code } => {
            field_cube(8, 16, 0xffff, u32::from(kind) * 256 + u32::from(code))
        }
    }
}

// The headers whose flags meet the test. That one of several holds is that not each is turned round.
fn flag_cubes(alloc: Global, test: FlagTest) -> Result<Vec<Cube>, NoMemory>
    ensures { IfOk result (λ r. (h : ℕ) → any_in r.items h ≡ meets_flags test (field 0 8 h)) }
{
    match test {
        FlagTest::Any => one(alloc, Cube::all()),
        FlagTest::AnyOf { set, clear } => match all_flags(clear, set) {
            Some(turned) => outside(alloc, &turned),
            None => one(alloc, Cube::all()),
        },
        FlagTest::AllOf { set, clear } => match all_flags(set, clear) {
            Some(cube) => one(alloc, cube),
            None => Ok(Vec::new(alloc)),
        },
    }
}

// The headers with each flag of `set` 1 and each of `clear` 0: one cube, or none where a flag is in both.
fn all_flags(set: u8, clear: u8) -> Option<Cube>
    ensures { (h : ℕ) → is_in_some result h ≡ (bit_and (field 0 8 h) set == set && bit_and (field 0 8 h) clear == 0) }
{
    if set & clear != 0 {
        return None;
    }
    Some(field_cube(0, 8, u32::from(set | clear), u32::from(set)))
}
