//! Functions in one table of diagrams.

ghost use Rattle.std.specs.Prelude.{◌<◌};
ghost use Rattle.cube_diagram.specs.Functions.{count_of};

use crate::text::{cube, digits, print_all};
use cube_alg::{OnCube, Piece};
use cube_diagram::Diagrams;
use test_stop::Stop;

/// Each question about one table.
pub(crate) fn show(rt: &HostRuntime) -> Result<(), Stop> {
    let mut d = Diagrams::new(rt.alloc())?;
    show_all(rt, &mut d)
}

fn show_all(rt: &HostRuntime, d: &mut Diagrams) -> Result<(), Stop> {
    show_lists(rt, d)?;
    show_answers(rt, d)?;
    show_differences(rt, d)?;
    show_divided(rt, d)?;
    show_rows(rt, d)
}

/// The value 7 for 00000001, and the value 9 for the other headers of 000000**.
pub(crate) fn pieces() -> [Piece; 2] {
    [
        Piece {
            cube: cube("00000001"),
            value: 7,
        },
        Piece {
            cube: cube("000000**"),
            value: 9,
        },
    ]
}

// Equal functions have one number, however they were made.
fn show_lists(rt: &HostRuntime, d: &mut Diagrams) -> Result<(), Stop> {
    let two = d.count() == 2;
    let one = d.add_entry(&[cube("00000001")], 7)?;
    let four = d.add_entry(&[cube("0000000*"), cube("0000001*")], 9)?;
    let same = d.add_entry(&[cube("000000**")], 9)?;
    let list = d.first_of(&[one, four])?;
    let behind = d.first_of(&[four, one])?;
    let by_pieces = d.first_match(&pieces())?;
    print_all(
        rt,
        &[
            ("a new table has two functions", two),
            ("two cubes or one", d.same(four, same)),
            ("a hidden entry changes nothing", d.same(behind, four)),
            ("by entries or by pieces", d.same(list, by_pieces)),
            ("the list is the entry behind", d.same(list, four)),
        ],
    )
}

// What the list gives cubes.
fn show_answers(rt: &HostRuntime, d: &mut Diagrams) -> Result<(), Stop> {
    let list = d.first_match(&pieces())?;
    let outside = count_on(rt, d, list, "1*******")?;
    let inside = count_on(rt, d, list, "000000**")?;
    print_all(
        rt,
        &[
            (
                "7 at 00000001",
                is_all(d.divide(list, &cube("00000001")), Some(7)),
            ),
            (
                "9 on 0000001*",
                is_all(d.divide(list, &cube("0000001*")), Some(9)),
            ),
            (
                "nothing on 1*******",
                is_all(d.divide(list, &cube("1*******")), None),
            ),
            (
                "0000000* divides at 111",
                divides_at(d.divide(list, &cube("0000000*")), 111),
            ),
            (
                "000000** divides at 110",
                divides_at(d.divide(list, &cube("000000**")), 110),
            ),
            ("no value and two values", outside == 0 && inside == 2),
            (
                "7 for the header",
                d.lookup(list, &cube("00000001").least()) == Some(7),
            ),
        ],
    )
}

// How many values the function gives headers of the cube.
fn count_on(rt: &HostRuntime, d: &Diagrams, function: u32, digits: &str) -> Result<usize, Stop>
    requires { function < count_of d.now }
{
    let values = d.values_on(rt.alloc(), function, &cube(digits))?;
    Ok(values.len())
}

fn is_all(part: OnCube<Option<u32>>, value: Option<u32>) -> bool {
    match part {
        OnCube::All { answer } => answer == value,
        OnCube::Divides { .. } => false,
    }
}

fn divides_at(part: OnCube<Option<u32>>, wanted: u32) -> bool {
    match part {
        OnCube::All { .. } => false,
        OnCube::Divides { bit } => bit == wanted,
    }
}

// The list differs at 00000001 from the value 9 for 000000**.
fn show_differences(rt: &HostRuntime, d: &mut Diagrams) -> Result<(), Stop> {
    let list = d.first_match(&pieces())?;
    let four = d.add_entry(&[cube("000000**")], 9)?;
    let one = d.add_entry(&[cube("00000001")], 1)?;
    let changed = d.difference(list, four)?;
    print_all(rt, &[("they differ at one header", d.same(changed, one))])
}

// A cube is divided at the first bit that the diagram tests, though both its sides give ******11 the value 7.
fn show_divided(rt: &HostRuntime, d: &mut Diagrams) -> Result<(), Stop> {
    let crossing = d.add_entry(&[cube("1*****1*"), cube("0******1")], 7)?;
    print_all(
        rt,
        &[(
            "******11 is divided",
            divides_at(d.divide(crossing, &cube("******11")), 104),
        )],
    )
}

// The rows of the list in order: a bit that is skipped on the way to a value is `*`.
fn show_rows(rt: &HostRuntime, d: &mut Diagrams) -> Result<(), Stop> {
    let list = d.first_match(&pieces())?;
    println!(rt; "rows:")?;
    for row in d.rows(rt.alloc(), list)?.iter() {
        println!(rt; "  {} {}", digits(rt.alloc(), &row.cube)?, row.value)?;
    }
    Ok(())
}
