//! The parts of a report, and reports.

use crate::runs::show_lines;
use hdr_bits::{Cube, Header};
use net_types::{Label, List, Names, NoMemory, Outcome, Place, Row, Section, Text};
use report_text::{
    address_bytes, cube_bytes, decimal_bytes, header_bytes, label_bytes, outcome_bytes,
    report_bytes,
};
use std::alloc::Global;
use test_stop::Stop;

const NONE: Header = Header {
    dst: 0,
    src: 0,
    proto: 0,
    dport: 0,
    sport: 0,
    flags: 0,
};

// TCP from any source to port 80 of 10.0.1.5: the fixed bits, and their values.
const WEB: (Header, Header) = (
    Header {
        dst: u32::MAX,
        proto: u8::MAX,
        dport: u16::MAX,
        ..NONE
    },
    Header {
        dst: 0x0a00_0105,
        proto: 6,
        dport: 80,
        ..NONE
    },
);

// Of each cube the fixed bits, and the values that they have.
const CUBES: [(Header, Header); 5] = [
    (NONE, NONE),
    WEB,
    (
        Header {
            dst: 0xffff_ffc0,
            src: 0xffff_00ff,
            ..NONE
        },
        Header {
            dst: 0x0a00_0180,
            src: 0xac10_0009,
            ..NONE
        },
    ),
    (
        Header {
            dst: 0xffff_fffd,
            src: 0x8000_0000,
            flags: 0b1_0100,
            ..NONE
        },
        Header {
            dst: 0x0a09_0000,
            flags: 0b0_0100,
            ..NONE
        },
    ),
    (
        Header {
            dst: 0xffff_fffe,
            src: 1,
            proto: 1,
            dport: 0xfff0,
            sport: u16::MAX,
            flags: u8::MAX,
        },
        Header {
            dst: 0xe000_00fc,
            src: 1,
            dport: 0x0050,
            ..NONE
        },
    ),
];

/// Cubes, each with its fixed bits and their values.
pub(crate) fn show_cubes(rt: &HostRuntime) -> Result<(), Stop> {
    for (fixed, bits) in &CUBES {
        show_cube(rt, Cube::from_masks(fixed.to_bits(), bits.to_bits()))?;
    }
    Ok(())
}

fn show_cube(rt: &HostRuntime, cube: Option<Cube>) -> Result<(), Stop> {
    let Some(cube) = cube else {
        println!(rt; "a value beside the fixed bits")?;
        return Ok(());
    };
    show(rt, &cube_bytes(rt.alloc(), &cube)?)
}

fn show(rt: &HostRuntime, text: &[u8]) -> Result<(), Stop> {
    println!(rt; "{}", text.escape_ascii())?;
    Ok(())
}

/// A header, the cube of it alone, an address and a number.
pub(crate) fn show_numbers(rt: &HostRuntime) -> Result<(), Stop> {
    let header = Header {
        dst: 0x0a09_0002,
        src: 0x0a00_0005,
        proto: 6,
        dport: 80,
        sport: 40000,
        flags: 2,
    };
    show(rt, &header_bytes(rt.alloc(), &header)?)?;
    show(rt, &cube_bytes(rt.alloc(), &Cube::of(&header))?)?;
    show(rt, &address_bytes(rt.alloc(), 0xc0a8_0aff)?)?;
    show(rt, &decimal_bytes(rt.alloc(), u64::MAX)?)
}

// Names of devices and interfaces, in the order of their bytes.
fn names(alloc: Global) -> Result<Names, NoMemory> {
    let mut texts = List::empty(alloc);
    for name in [
        "EDGE",
        "Ethernet0",
        "Ethernet1",
        "Ethernet2",
        "GigabitEthernet0/0",
        "R1",
    ] {
        texts.push(Text::copy_of(alloc, name.as_bytes())?)?;
    }
    Ok(Names { texts })
}

const EDGE_GIGABIT: Place = Place {
    device: 0,
    interface: 4,
};

const R1_ETHERNET0: Place = Place {
    device: 5,
    interface: 1,
};

const R1_ETHERNET1: Place = Place {
    device: 5,
    interface: 2,
};

const R1_ETHERNET2: Place = Place {
    device: 5,
    interface: 3,
};

// A packet that leaves as it came.
fn exit(place: Place) -> Outcome {
    Outcome::Exit {
        place,
        src: None,
        dst: None,
        sport: None,
        dport: None,
    }
}

/// Outcomes, and a label of two.
pub(crate) fn show_outcomes(rt: &HostRuntime) -> Result<(), Stop> {
    let names = names(rt.alloc())?;
    show_each(rt, &names)?;
    show_label(rt, &names)
}

fn show_each(rt: &HostRuntime, names: &Names) -> Result<(), Stop> {
    for outcome in outcomes() {
        show(rt, &outcome_bytes(rt.alloc(), names, &outcome)?)?;
    }
    Ok(())
}

fn outcomes() -> [Outcome; 7] {
    [
        Outcome::Dropped,
        Outcome::Expired,
        (Outcome::Local {
            place: R1_ETHERNET0,
        }),
        exit(R1_ETHERNET1),
        (Outcome::Exit {
            place: EDGE_GIGABIT,
            src: None,
            dst: Some(0xc0a8_0a14),
            sport: None,
            dport: None,
        }),
        (Outcome::Exit {
            place: R1_ETHERNET2,
            src: Some(0xcb00_7105),
            dst: Some(0x0a00_0005),
            sport: Some(0),
            dport: Some(65535),
        }),
        (exit(Place {
            device: 5,
            interface: 6,
        })),
    ]
}

fn show_label(rt: &HostRuntime, names: &Names) -> Result<(), Stop> {
    let alloc = rt.alloc();
    let label = Label::of(vec![in alloc; exit(R1_ETHERNET2), exit(R1_ETHERNET1)]?)?;
    show(rt, &label_bytes(alloc, names, &label)?)
}

fn web_row(alloc: Global, cube: Cube) -> Result<Row, NoMemory> {
    Ok(Row {
        cube,
        old: Label::of(vec![in alloc; Outcome::Dropped]?)?,
        new: Label::of(vec![in alloc; exit(R1_ETHERNET1)]?)?,
    })
}

/// A report of two sections, and one of none.
pub(crate) fn show_reports(rt: &HostRuntime) -> Result<(), Stop> {
    let Some(cube) = Cube::from_masks(WEB.0.to_bits(), WEB.1.to_bits()) else {
        println!(rt; "a value beside the fixed bits")?;
        return Ok(());
    };
    let names = names(rt.alloc())?;
    show_sections(rt, &names, cube)?;
    show_lines(rt, &report_bytes(rt.alloc(), &names, &[])?)
}

fn show_sections(rt: &HostRuntime, names: &Names, cube: Cube) -> Result<(), Stop> {
    let alloc = rt.alloc();
    let row = web_row(alloc, cube)?;
    let sections = [
        Section {
            place: R1_ETHERNET0,
            rows: List::new(vec![in alloc; row]?),
        },
        Section {
            place: EDGE_GIGABIT,
            rows: List::empty(alloc),
        },
    ];
    show_lines(rt, &report_bytes(alloc, names, &sections)?)
}
