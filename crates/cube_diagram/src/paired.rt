//! Two functions as one whose values number the pairs of theirs.

ghost use Rattle.std.specs.Prelude.{◌<◌, ◌≡◌, Some, All, IfOk, OnOk, length, slice_get};
ghost use Rattle.hdr_bits.specs.Lists.{Extends};
ghost use Rattle.cube_diagram.specs.Combined.{IsSound};
ghost use Rattle.cube_diagram.specs.Paired.{IsPaired, IsPairedBy};

use crate::combine::{Tables, earlier_bit, parts, split};
use crate::descent::lookup;
use crate::memo::{Combination, Memo};
use crate::retold::constant;
use crate::table::NOTHING;
use indexmap::IndexSet;
use no_memory::NoMemory;

/// What two functions give one header.
#[derive(Clone, Copy, PartialEq, Eq, Hash, Debug)]
pub struct ValuePair {
    pub first: Option<u32>,
    pub second: Option<u32>,
}

/// The number that gives a header the number, among the pairs, of what the two give it; nothing where both give
/// nothing. Pairs that aren't there yet are added.
pub(crate) fn paired(
    tables: &mut Tables,
    a: u32,
    b: u32,
    pairs: &mut IndexSet<ValuePair>,
    memo: &mut Memo,
) -> Result<u32, NoMemory>
    requires sound { IsSound tables.old }
    requires first { a < length tables.old.table.nodes.items }
    requires second { b < length tables.old.table.nodes.items }
    requires memo { All (IsPairedBy tables.old.table.nodes.items pairs.old.keys) memo.old.slots.items }
    ensures paired { IfOk result (IsPaired tables.new.table.nodes.items pairs.new.keys a b) }
    ensures memo { OnOk result (All (IsPairedBy tables.new.table.nodes.items pairs.new.keys) memo.new.slots.items) }
    ensures pairs { OnOk result (Extends pairs.old.keys pairs.new.keys) }
    ensures grows { Extends tables.old.table.nodes.items tables.new.table.nodes.items }
    ensures sound { IsSound tables.new }
{
    if a == NOTHING && b == NOTHING {
        return Ok(NOTHING);
    }
    if let Some(r) = memo.recall(a, b) {
        return Ok(r);
    }
    let bit = earlier_bit(&tables.table, a, b);
    if bit >= 112 {
        let pair = ValuePair {
            first: lookup(&tables.table, a, 0),
            second: lookup(&tables.table, b, 0),
        };
        let number = number_of(pairs, pair)?;
        let r = constant(tables, Some(number))?;
        return Ok(r);
    }
    let (a_low, a_high) = parts(&tables.table, a, bit);
    let (b_low, b_high) = parts(&tables.table, b, bit);
    let low = paired(tables, a_low, b_low, pairs, memo)?;
    let high = paired(tables, a_high, b_high, pairs, memo)?;
    let result = split(tables, bit, low, high)?;
    let known = Combination {
        first: a,
        second: b,
        result,
    };
    memo.remember(tables.alloc, tables.table.nodes.len(), known);
    Ok(result)
}

// The number of the pair, which is added where it isn't there.
fn number_of(pairs: &mut IndexSet<ValuePair>, pair: ValuePair) -> Result<u32, NoMemory>
    ensures entry { IfOk result (λ n. slice_get pairs.new.keys n ≡ Some pair) }
    ensures grows { OnOk result (Extends pairs.old.keys pairs.new.keys) }
{
    let (number, _) = pairs.insert_full(pair)?;
    let Ok(number) = u32::try_from(number) else {
        return Err(NoMemory);
    };
    Ok(number)
}
