//! A list in a table of diagrams.

ghost use Rattle.std.specs.Prelude.{◌≡◌, ◌<◌, ℕ, Some, IfOk};
ghost use Rattle.std.specs.Option.{option_copied};
ghost use Rattle.hdr_bits.specs.declared.header.Header.{Header};
ghost use Rattle.hdr_bits.specs.HeaderBits.{number, header_of, IsHeader};
ghost use Rattle.cube_diagram.specs.Functions.{Keeps, count_of, value_at};
ghost use Rattle.net_types.specs.AccessLists.{entries_verdict, verdict, passes};
ghost use Rattle.acl_match.specs.Lists.{number_of};
ghost use Rattle.acl_match.specs.Numbers.{AreNumbers};

use crate::entry::entry_cubes;
use crate::list::{end_of, entries_of, number_of};
use cube_diagram::Diagrams;
use hdr_bits::Cube;
use net_types::{AccessList, Entry};
use no_memory::NoMemory;
use std::alloc::Global;

/// The number of the list's function in the table: it gives a header 1 where the list passes it, and else 0.
///
/// The table has equal functions under one number, so lists that pass the same headers get the same number.
/// Without memory functions may have been added, but none that was there is changed.
pub fn add_list(
    alloc: Global,
    diagrams: &mut Diagrams,
    list: Option<&AccessList>,
) -> Result<u32, NoMemory>
    ensures below { IfOk result (λ r. r < count_of diagrams.new) }
    ensures exact { IfOk result (λ r. (h : Header) → IsHeader h →
        value_at diagrams.new r (number h) ≡ Some (number_of (passes (verdict (option_copied list.entry) h)))) }
    ensures kept { Keeps diagrams.old diagrams.new }
{
    let function = add_entries(alloc, diagrams, entries_of(list))?;
    Ok(function)
}

// The number of the function of the entries and the end behind them.
fn add_entries(alloc: Global, diagrams: &mut Diagrams, entries: &[Entry]) -> Result<u32, NoMemory>
    ensures below { IfOk result (λ r. r < count_of diagrams.new) }
    ensures exact { IfOk result (λ r. (h : ℕ) →
        value_at diagrams.new r h ≡ Some (number_of (passes (entries_verdict entries.now (header_of h))))) }
    ensures kept { Keeps diagrams.old diagrams.new }
{
    let mut numbers = entry_numbers(alloc, diagrams, entries)?;
    let end = diagrams.add_entry(&[Cube::all()], end_of(entries))?;
    numbers.push(end)?;
    let function = diagrams.first_of(&numbers)?;
    Ok(function)
}

// The numbers of the entries' functions, in order: each gives the headers that its entry matches what that says.
fn entry_numbers(
    alloc: Global,
    diagrams: &mut Diagrams,
    entries: &[Entry],
) -> Result<Vec<u32>, NoMemory>
    ensures numbers { IfOk result (λ r. AreNumbers diagrams.new entries.now r.items) }
    ensures kept { Keeps diagrams.old diagrams.new }
{
    let mut numbers = Vec::new(alloc);
    for e in entries {
        let cubes = entry_cubes(alloc, e)?;
        let number = diagrams.add_entry(&cubes, number_of(e.permit))?;
        numbers.push(number)?;
    }
    Ok(numbers)
}
