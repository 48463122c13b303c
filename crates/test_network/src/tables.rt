//! Headers of the cases.

use hdr_bits::{Cube, Header};

/// The address a.b.c.d.
pub(crate) fn ip(a: u8, b: u8, c: u8, d: u8) -> u32 {
    u32::from_be_bytes([a, b, c, d])
}

/// The first segment of a web request.
pub(crate) fn web(src: u32, dst: u32) -> Header {
    Header {
        dst,
        src,
        proto: 6,
        dport: 80,
        sport: 40_000,
        flags: 2,
    }
}

/// The first segment of a secure web request from 192.0.2.7.
pub(crate) fn secure(dst: u32) -> Header {
    Header {
        dst,
        src: ip(192, 0, 2, 7),
        proto: 6,
        dport: 443,
        sport: 40_000,
        flags: 2,
    }
}

/// The cube of the headers that have this header's bits where `open` has none.
pub(crate) fn cube_of(header: &Header, open: u128) -> Option<Cube> {
    let fixed = !open & ((1 << 112) - 1);
    Cube::from_masks(fixed, header.to_bits() & fixed)
}
