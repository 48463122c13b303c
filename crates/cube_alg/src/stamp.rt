//! Stamps: fields of a header that address translation replaced.

ghost use Rattle.std.specs.Prelude.{◌≡◌, ◌^◌, ◌<◌, ◌≤◌, ◌+◌, ◌-◌, ◌*◌, ◌↔◌, ℕ, IfSome, IsNone};
ghost use Rattle.hdr_bits.specs.declared.header.Header.{Header};
ghost use Rattle.hdr_bits.specs.HeaderBits.{number, IsHeader};
ghost use Rattle.hdr_bits.specs.Bits.{bit_of};
ghost use Rattle.hdr_bits.specs.CubeBits.{IsIn, IsStar};
ghost use Rattle.cube_alg.specs.Stamps.{applied, followed, unless_same, changed_fields, IsMadeFrom, IsFieldAt, Writes};

use hdr_bits::{Cube, Header};

/// The fields that were replaced, with their values.
#[derive(Clone, Copy, PartialEq, Eq, Debug)]
pub struct Stamp {
    pub src: Option<u32>,
    pub dst: Option<u32>,
    pub sport: Option<u16>,
    pub dport: Option<u16>,
}

impl Stamp {
    /// The stamp that replaces nothing.
    pub fn none() -> Stamp
        ensures { result ≡ record { src = None; dst = None; sport = None; dport = None } }
    {
        Stamp {
            src: None,
            dst: None,
            sport: None,
            dport: None,
        }
    }

    /// The header with the stamp's fields.
    pub fn apply(&self, h: &Header) -> Header
        ensures { result ≡ applied self.now h.now }
    {
        Header {
            dst: self.dst.unwrap_or(h.dst),
            src: self.src.unwrap_or(h.src),
            proto: h.proto,
            dport: self.dport.unwrap_or(h.dport),
            sport: self.sport.unwrap_or(h.sport),
            flags: h.flags,
        }
    }

    /// First this stamp and then the later one.
    pub fn then(&self, later: &Stamp) -> Stamp
        ensures fields { result ≡ followed self.now later.now }
        ensures both { (h : Header) → applied result h ≡ applied later.now (applied self.now h) }
    {
        Stamp {
            src: later.src.or(self.src),
            dst: later.dst.or(self.dst),
            sport: later.sport.or(self.sport),
            dport: later.dport.or(self.dport),
        }
    }

    /// The stamp without the fields that it leaves as they are in this header: what it changes there. So two
    /// stamps that make one header of it become one stamp.
    pub fn changes(&self, h: &Header) -> Stamp
        ensures fields { result ≡ changed_fields self.now h.now }
        ensures same { applied result h.now ≡ applied self.now h.now }
    {
        Stamp {
            src: unless_same(self.src, h.src),
            dst: unless_same(self.dst, h.dst),
            sport: unless_same_port(self.sport, h.sport),
            dport: unless_same_port(self.dport, h.dport),
        }
    }

    /// The headers that the stamp sends into the cube; `None` exactly where there are none.
    pub fn back(&self, c: &Cube) -> Option<Cube>
        ensures sent { IfSome result
            (λ d. (h : Header) → IsHeader h → IsIn d (number h) ↔ IsIn c.now (number (applied self.now h))) }
        ensures none { IsNone result ↔ ((h : Header) → IsHeader h → IsIn c.now (number (applied self.now h)) → ⊥) }
    {
        let Written { mask, digits } = self.written();
        if digits & c.fixed != c.bits & mask {
            return None;
        }
        Some(Cube {
            fixed: c.fixed & !mask,
            bits: c.bits & !mask,
        })
    }

    /// The headers that the stamp makes of those of the cube.
    pub fn forth(&self, c: &Cube) -> Cube
        ensures made { (g : Header) → IsHeader g → IsIn result (number g) ↔ IsMadeFrom self.now c.now g }

        // What is `*` there is `*` in the cube, and the stamp leaves it as it is.
        ensures stars { (k : ℕ) → IsStar result k → IsStar c.now k }
        ensures kept { (k : ℕ) → IsStar result k → (h : Header) → IsHeader h → bit_of (number (applied self.now h)) k ≡ bit_of (number h) k }
    {
        let Written { mask, digits } = self.written();
        Cube {
            fixed: c.fixed | mask,
            bits: c.bits & !mask | digits,
        }
    }

    // The bits of the fields that are replaced, with their digits.
    fn written(&self) -> Written
        ensures { Writes self.now result.mask result.digits }
    {
        let dst = address_at(self.dst, 80);
        let src = address_at(self.src, 48);
        let dport = port_at(self.dport, 24);
        let sport = port_at(self.sport, 8);
        Written {
            mask: dst.mask | src.mask | dport.mask | sport.mask,
            digits: dst.digits | src.digits | dport.digits | sport.digits,
        }
    }
}

// Bits of a header's number, by their weights, and the digits that are written there.
#[derive(Clone, Copy)]
struct Written {
    mask: u128,
    digits: u128,
}

// An address that stands from this bit on.
fn address_at(value: Option<u32>, shift: u32) -> Written
    requires { shift ≤ 80 }
    ensures { IsFieldAt shift 32 value result.mask result.digits }
{
    match value {
        Some(address) => field_at(address, shift, 32),
        None => nowhere(),
    }
}

// A port that stands from this bit on.
fn port_at(value: Option<u16>, shift: u32) -> Written
    requires { shift ≤ 80 }
    ensures { IsFieldAt shift 16 value result.mask result.digits }
{
    match value {
        Some(port) => field_at(u32::from(port), shift, 16),
        None => nowhere(),
    }
}

fn nowhere() -> Written
    ensures { (result.mask ≡ 0) × (result.digits ≡ 0) }
{
    Written { mask: 0, digits: 0 }
}

fn field_at(value: u32, shift: u32, width: u32) -> Written
    requires shift { shift ≤ 80 }
    requires width { width ≤ 32 }
    requires value { value < 2 ^ width }
    ensures { (result.mask ≡ 2 ^ (shift + width) - 2 ^ shift) × (result.digits ≡ value * 2 ^ shift) }
{
    Written {
        mask: (1 << (shift + width)) - (1 << shift),
        digits: u128::from(value) << shift,
    }
}

fn unless_same(value: Option<u32>, field: u32) -> Option<u32>
    ensures { result ≡ unless_same value field }
{
    match value {
        Some(v) if v != field => Some(v),
        _ => None,
    }
}

fn unless_same_port(value: Option<u16>, field: u16) -> Option<u16>
    ensures { result ≡ unless_same value field }
{
    match value {
        Some(v) if v != field => Some(v),
        _ => None,
    }
}
