//! Canonical rows: a bit is `*` exactly where flipping it never changes the value, among all headers that agree with
//! the earlier bits.

use crate::text::{cube, digits};
use canon_rows::laws::{
    pieces_give_values, rows_are_constant, rows_are_disjoint, rows_are_one_list, rows_cover,
    rows_follow_differences,
};
use canon_rows::recursion::canon_by_recursion;
use canon_rows::{Piece, canon};
use std::alloc::Global;
use test_stop::Stop;

struct Case {
    shows: &'static str,
    pieces: &'static [(&'static str, u64)],
}

const CASES: [Case; 8] = [
    Case {
        shows: "no piece",
        pieces: &[],
    },
    Case {
        shows: "all headers",
        pieces: &[("********", 4)],
    },
    Case {
        shows: "two halves of one value",
        pieces: &[("0000101*", 7), ("0000100*", 7)],
    },
    Case {
        shows: "two halves of two values",
        pieces: &[("0000101*", 8), ("0000100*", 7)],
    },
    Case {
        shows: "the first piece decides",
        pieces: &[("00001001", 1), ("0000100*", 2)],
    },
    Case {
        shows: "a piece within one of its value",
        pieces: &[("***10000", 5), ("********", 5)],
    },
    Case {
        shows: "an early bit that doesn't matter",
        pieces: &[("0**1****", 3), ("1**1****", 3)],
    },
    Case {
        shows: "a later piece is cut where an early bit matters",
        pieces: &[("1**1****", 3), ("***1***1", 3)],
    },
];

/// The rows of each case, as the table and as the plain recursion make them.
pub(crate) fn show(rt: &HostRuntime) -> Result<(), Stop> {
    for case in &CASES {
        let pieces = pieces_of(rt.alloc(), case)?;
        show_case(rt, case, &pieces)?;
    }
    call_laws();
    Ok(())
}

fn pieces_of(alloc: Global, case: &Case) -> Result<Vec<Piece>, Stop> {
    let mut pieces = Vec::new(alloc);
    for (digits, value) in case.pieces {
        pieces.push(Piece {
            cube: cube(digits),
            value: *value,
        })?;
    }
    Ok(pieces)
}

fn show_case(rt: &HostRuntime, case: &Case, pieces: &[Piece]) -> Result<(), Stop> {
    let rows = canon(rt.alloc(), pieces)?;
    show_rows(rt, case, pieces, &rows)
}

fn show_rows(rt: &HostRuntime, case: &Case, pieces: &[Piece], rows: &[Piece]) -> Result<(), Stop> {
    let both = is_made_again(rt.alloc(), pieces, rows)?;
    println!(rt; "{}: {}", case.shows, if both { "both" } else { "?" })?;
    for row in rows {
        println!(rt; "  {} {}", digits(rt.alloc(), &row.cube)?, row.value)?;
    }
    Ok(())
}

// Whether the plain recursion makes these rows of the pieces too.
fn is_made_again(alloc: Global, pieces: &[Piece], rows: &[Piece]) -> Result<bool, Stop> {
    let again = canon_by_recursion(alloc, pieces)?;
    Ok(again.as_slice() == rows)
}

// Each law at one type.
fn call_laws() {
    pieces_give_values();
    rows_are_constant::<Vec<Piece>>();
    rows_are_disjoint::<Vec<Piece>>();
    rows_are_one_list::<Vec<Piece>>();
    rows_cover::<Vec<Piece>>();
    rows_follow_differences::<Vec<Piece>, Vec<Piece>>();
}
