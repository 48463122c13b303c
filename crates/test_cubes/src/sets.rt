//! Sets of headers: what two have in common, what one has alone, their images, and the least member.

use crate::diagrams::pieces;
use crate::text::{cube, print_all};
use cube_alg::Stamp;
use cube_diagram::{Diagrams, ValuePair};
use indexmap::{IndexMap, IndexSet};
use test_stop::Stop;

/// Each operation on one table.
pub(crate) fn show(rt: &HostRuntime) -> Result<(), Stop> {
    let mut d = Diagrams::new(rt.alloc())?;
    let mut other = Diagrams::new(rt.alloc())?;
    show_all(rt, &mut d, &mut other)
}

fn show_all(rt: &HostRuntime, d: &mut Diagrams, other: &mut Diagrams) -> Result<(), Stop> {
    show_common(rt, d)?;
    show_rest(rt, d)?;
    show_values(rt, d)?;
    show_images(rt, d)?;
    show_pairs(rt, d)?;
    show_copies(rt, d, other)?;
    show_absorbed(rt, d, other)?;
    show_least(rt, d)
}

// The list within 0000001* is 9 there.
fn show_common(rt: &HostRuntime, d: &mut Diagrams) -> Result<(), Stop> {
    let list = d.first_match(&pieces())?;
    let upper = d.add_entry(&[cube("0000001*")], 5)?;
    let nine = d.add_entry(&[cube("0000001*")], 9)?;
    let common = d.within(list, upper)?;
    let whole = d.within(list, d.everything())?;
    print_all(
        rt,
        &[
            ("within a set", d.same(common, nine)),
            ("within everything", d.same(whole, list)),
        ],
    )
}

// The list without 0000001* is the list within 0000000*.
fn show_rest(rt: &HostRuntime, d: &mut Diagrams) -> Result<(), Stop> {
    let list = d.first_match(&pieces())?;
    let upper = d.add_entry(&[cube("0000001*")], 5)?;
    let lower = d.add_entry(&[cube("0000000*")], 1)?;
    let rest = d.without(list, upper)?;
    let expected = d.within(list, lower)?;
    let none = d.without(list, list)?;
    print_all(
        rt,
        &[
            ("without a set", d.same(rest, expected)),
            ("without itself", d.is_nothing(none)),
        ],
    )
}

// 7 stands at 00000001 alone; told anew, 7 is nothing and 9 is 1.
fn show_values(rt: &HostRuntime, d: &mut Diagrams) -> Result<(), Stop> {
    let list = d.first_match(&pieces())?;
    let one = d.add_entry(&[cube("00000001")], 1)?;
    let seven = d.with_value(list, 7)?;
    let nine = d.with_value(list, 9)?;
    let mut told = vec![in rt.alloc(); None; 9]?;
    told.push(Some(1))?;
    let retold = d.retold(rt.alloc(), list, &told)?;
    print_all(
        rt,
        &[
            ("with the value 7", d.same(seven, one)),
            ("told anew", d.same(retold, nine)),
        ],
    )
}

// A stamp of the source port sends all headers, or none, into a set of one source port.
fn show_images(rt: &HostRuntime, d: &mut Diagrams) -> Result<(), Stop> {
    let stamp = Stamp {
        sport: Some(1),
        ..Stamp::none()
    };
    let other = Stamp {
        sport: Some(2),
        ..Stamp::none()
    };
    let set = d.add_entry(&[stamp.forth(&cube("********"))], 1)?;
    let all = d.after_stamp(rt.alloc(), set, &stamp)?;
    let none = d.after_stamp(rt.alloc(), set, &other)?;
    print_all(
        rt,
        &[
            ("sent into it", d.same(all, d.everything())),
            ("sent elsewhere", d.same(none, d.nothing())),
        ],
    )
}

// The list and the value 9 for 000000** give the pair of 9 and 9 in three headers, and of 7 and 9 in one.
fn show_pairs(rt: &HostRuntime, d: &mut Diagrams) -> Result<(), Stop> {
    let mut pairs = IndexSet::new(rt.alloc());
    show_paired(rt, d, &mut pairs)
}

fn show_paired(
    rt: &HostRuntime,
    d: &mut Diagrams,
    pairs: &mut IndexSet<ValuePair>,
) -> Result<(), Stop> {
    let list = d.first_match(&pieces())?;
    let four = d.add_entry(&[cube("000000**")], 9)?;
    let both = d.paired(rt.alloc(), list, four, pairs)?;
    let number = d.lookup(both, &cube("00000001").least());
    let outside = d.lookup(both, &cube("1*******").least());
    for pair in pairs.iter() {
        println!(rt; "pair: {:?} {:?}", pair.first, pair.second)?;
    }
    println!(rt; "at 00000001 {number:?}, at 1******* {outside:?}")?;
    Ok(())
}

// A copy in another table is the function that is made there.
fn show_copies(rt: &HostRuntime, d: &mut Diagrams, other: &mut Diagrams) -> Result<(), Stop> {
    let list = d.first_match(&pieces())?;
    let made = other.first_match(&pieces())?;
    let copy = {
        let mut known = IndexMap::new(rt.alloc());
        other.copy_from(d, list, &mut known)
    }?;
    print_all(rt, &[("copied", other.same(copy, made))])
}

// All functions of another table, with the values 7 and 9 exchanged.
fn show_absorbed(rt: &HostRuntime, d: &mut Diagrams, other: &mut Diagrams) -> Result<(), Stop> {
    let list = d.first_match(&pieces())?;
    let one = other.add_entry(&[cube("00000001")], 9)?;
    let four = other.add_entry(&[cube("000000**")], 7)?;
    let made = other.first_of(&[one, four])?;
    let numbers = other.absorb(d, &[0, 1, 2, 3, 4, 5, 6, 9, 8, 7])?;
    let number = numbers.get(list as usize).copied();
    let same = number.is_some_and(|number| other.same(number, made));
    print_all(rt, &[("taken over with other values", same)])
}

// The least header of 0000001* has the flags 2, and no other bit.
fn show_least(rt: &HostRuntime, d: &mut Diagrams) -> Result<(), Stop> {
    let upper = d.add_entry(&[cube("0000001*")], 5)?;
    let two = Some(cube("00000010").least());
    print_all(
        rt,
        &[
            ("least", d.least(upper) == two),
            ("least of nothing", d.least(d.nothing()).is_some()),
        ],
    )
}
