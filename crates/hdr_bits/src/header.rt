//! Headers: their six fields, and the number of 112 bits that these make.

ghost use Rattle.std.specs.Prelude.{◌≡◌, ◌≢◌, ◌<◌, ◌≤◌, ◌^◌, ◌↔◌, ℕ, IsTrue, IsSome, IfSome};
ghost use Rattle.hdr_bits.specs.Bits.{bit_of};
ghost use Rattle.hdr_bits.specs.HeaderBits.{number, header_of};

/// What the model reads of a packet's headers (IPv4, and TCP, UDP or ICMP behind it).
#[derive(Clone, Copy, PartialEq, Eq, PartialOrd, Ord, Debug)]
pub struct Header {
    /// The destination address.
    pub dst: u32,
    /// The source address.
    pub src: u32,
    /// The protocol's number, as 6 for TCP.
    pub proto: u8,
    /// The destination port.
    pub dport: u16,
    /// The source port; for ICMP the type times 256 plus the code, the first sixteen bits behind the IP header.
    pub sport: u16,
    /// TCP's flags: FIN 1, SYN 2, RST 4, PSH 8, ACK 16, URG 32. No rule reads the two upper bits.
    pub flags: u8,
}

impl Header {
    /// The header's number, below 2 to the 112.
    pub fn to_bits(&self) -> u128
        ensures number { result ≡ number self.now }
        ensures below { result < 2 ^ 112 }
        ensures header { header_of result ≡ self.now }
    {
        u128::from(self.dst) * (1 << 80)
            + u128::from(self.src) * (1 << 48)
            + u128::from(self.proto) * (1 << 40)
            + u128::from(self.dport) * (1 << 24)
            + u128::from(self.sport) * (1 << 8)
            + u128::from(self.flags)
    }

    /// The header with this number; `None` exactly where the number is 2 to the 112 or more.
    pub fn from_bits(bits: u128) -> Option<Header>
        ensures valid { IsSome result ↔ (bits < 2 ^ 112) }
        ensures header { IfSome result (λ h. h ≡ header_of bits) }
        ensures number { IfSome result (λ h. number h ≡ bits) }
    {
        (bits < 1 << 112).then(|| unpack(bits))
    }

    /// Bit `k`, below 112, where bit 0 is the most significant one of the destination.
    pub fn bit(&self, k: u32) -> bool
        requires { k < 112 }
        ensures { IsTrue result ↔ (bit_of (number self.now) k ≡ 1) }
    {
        self.to_bits() >> (111 - k) & 1 == 1
    }

    /// The header with bit `k`, below 112, set to `value`, and each other bit as it was.
    #[tactic(auto, using(crate::proofs::Masks::set_bit, crate::proofs::Masks::clear_bit))]
    pub fn with_bit(&self, k: u32, value: bool) -> Header
        requires { k < 112 }
        ensures at { IsTrue value ↔ (bit_of (number result) k ≡ 1) }
        ensures others { (i : ℕ) → i < 112 → i ≢ k → bit_of (number result) i ≡ bit_of (number self.now) i }
    {
        let bits = self.to_bits();
        let weight = 1 << (111 - k);
        if value {
            unpack(bits | weight)
        } else {
            unpack(bits & !weight)
        }
    }
}

// The header whose number this is.
pub(crate) fn unpack(bits: u128) -> Header
    requires { bits < 2 ^ 112 }
    ensures fields { result ≡ header_of bits }
    ensures number { number result ≡ bits }
{
    Header {
        dst: (bits >> 80) as u32,
        src: (bits >> 48 & 0xffff_ffff) as u32,
        proto: (bits >> 40 & 0xff) as u8,
        dport: (bits >> 24 & 0xffff) as u16,
        sport: (bits >> 8 & 0xffff) as u16,
        flags: (bits & 0xff) as u8,
    }
}
