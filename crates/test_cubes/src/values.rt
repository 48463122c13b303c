//! The headers of each value of a function within a set, and how many rows the function has there: a row for each way down
//! its diagram to a value.

ghost use Rattle.std.specs.Prelude.{◌<◌, IfOk};
ghost use Rattle.cube_diagram.specs.Functions.{count_of};

use crate::text::{cube, digits};
use cube_alg::Piece;
use cube_diagram::{Diagrams, ValueSet};
use std::alloc::Global;
use test_stop::Stop;

struct Case {
    shows: &'static str,
    pieces: &'static [(&'static str, u32)],
    given: &'static str,
}

const CASES: [Case; 8] = [
    Case {
        shows: "no header has a value",
        pieces: &[],
        given: "********",
    },
    Case {
        shows: "all headers have one",
        pieces: &[("********", 4)],
        given: "********",
    },
    Case {
        shows: "one value within the other",
        pieces: &[("00000001", 7), ("000000**", 9)],
        given: "********",
    },
    Case {
        shows: "only one of the two in the set",
        pieces: &[("00000001", 7), ("000000**", 9)],
        given: "0000001*",
    },
    Case {
        shows: "neither in the set",
        pieces: &[("00000001", 7), ("000000**", 9)],
        given: "1*******",
    },
    Case {
        shows: "the greater value first",
        pieces: &[("0*******", 5), ("1*******", 2)],
        given: "********",
    },
    Case {
        shows: "both values on both sides",
        pieces: &[("1*****1*", 7), ("0******1", 7), ("********", 3)],
        given: "********",
    },
    Case {
        shows: "each bit divides",
        pieces: &[
            ("*****001", 1),
            ("*****010", 1),
            ("*****100", 1),
            ("*****111", 1),
        ],
        given: "********",
    },
];

/// The sets of each case, cube by cube.
pub(crate) fn show(rt: &HostRuntime) -> Result<(), Stop> {
    let mut d = Diagrams::new(rt.alloc())?;
    show_all(rt, &mut d)
}

fn show_all(rt: &HostRuntime, d: &mut Diagrams) -> Result<(), Stop> {
    for case in &CASES {
        show_case(rt, d, case)?;
    }
    Ok(())
}

fn show_case(rt: &HostRuntime, d: &mut Diagrams, case: &Case) -> Result<(), Stop> {
    let list = function_of(rt.alloc(), d, case)?;
    let given = d.add_entry(&[cube(case.given)], 1)?;
    let part = d.within(list, given)?;
    let count = d.row_count(rt.alloc(), part)?;
    println!(rt; "{}: rows {count}", case.shows)?;
    let sets = d.sets_by_value(rt.alloc(), list, given)?;
    for one in sets.iter() {
        show_set(rt, d, one)?;
    }
    Ok(())
}

fn function_of(alloc: Global, d: &mut Diagrams, case: &Case) -> Result<u32, Stop>
    ensures below { IfOk result (λ list. list < count_of d.new) }
{
    let mut pieces = Vec::new(alloc);
    for (digits, value) in case.pieces {
        pieces.push(Piece {
            cube: cube(digits),
            value: *value,
        })?;
    }
    Ok(d.first_match(&pieces)?)
}

fn show_set(rt: &HostRuntime, d: &Diagrams, one: &ValueSet) -> Result<(), Stop>
    requires { one.now.set < count_of d.now }
{
    let rows = d.rows(rt.alloc(), one.set)?;
    show_rows(rt, one.value, &rows)
}

fn show_rows(rt: &HostRuntime, value: u32, rows: &[Piece]) -> Result<(), Stop> {
    for row in rows {
        println!(rt; "  {value} {}", digits(rt.alloc(), &row.cube)?)?;
    }
    Ok(())
}
