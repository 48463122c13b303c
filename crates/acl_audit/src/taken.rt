//! What earlier entries take of the headers of another.

ghost use Rattle.std.specs.Prelude.{◌≡◌, ◌<◌, ◌≤◌, ◌+◌, [], get_or, IfOk, OnOk, length};
ghost use Rattle.hdr_bits.specs.HeaderBits.{header_of};
ghost use Rattle.hdr_bits.specs.Rows.{AreRows};
ghost use Rattle.net_types.specs.AccessLists.{matches};
ghost use Rattle.net_types.specs.declared.config.Entry.{Entry};
ghost use Rattle.cube_diagram.specs.Functions.{Keeps, count_of, value_at};
ghost use Rattle.cube_diagram.specs.Paths.{cubes_of};
ghost use Rattle.acl_audit.specs.Findings.{AreTaken};
ghost use Rattle.acl_audit.specs.Sets.{IsAudited, IsSet, start_of};

use crate::audited::Audited;
use crate::finding::Taken;
use crate::unions::Block;
use cube_diagram::Diagrams;
use hdr_bits::Cube;
use net_types::List;
use no_memory::NoMemory;
use std::alloc::Global;

/// What the entries before a position take of the headers of the entry there, which are in the set `matched`.
///
/// Blocks of entries of which none takes anything are passed over at once.
pub(crate) fn taken_by_earlier(
    alloc: Global,
    diagrams: &mut Diagrams,
    audited: Audited,
    position: usize,
    matched: u32,
) -> Result<Vec<Taken>, NoMemory>
    requires audited { IsAudited diagrams.old audited }
    requires position { position < length audited.entries.now }
    requires matched { matched < count_of diagrams.old }
    ensures taken { IfOk result (λ taken. (e : Entry) → IsSet diagrams.old (λ h. matches e (header_of h)) matched → AreTaken audited.entry.entries.now position e taken.items) }
    ensures kept { Keeps diagrams.old diagrams.new }
{
    taken_by_blocks(alloc, diagrams, audited, 0, position, matched)
}

// What the first blocks of a level take of the headers of a set: two of them are one of the next level.
fn taken_by_blocks(
    alloc: Global,
    diagrams: &mut Diagrams,
    audited: Audited,
    level: usize,
    count: usize,
    matched: u32,
) -> Result<Vec<Taken>, NoMemory>
    requires few { level + count ≤ length audited.entries.now }
    requires there { count ≤ length (get_or audited.unions.now level []) }
    requires audited { IsAudited diagrams.old audited }
    requires matched { matched < count_of diagrams.old }
    ensures taken { IfOk result (λ taken. (e : Entry) → IsSet diagrams.old (λ h. matches e (header_of h)) matched → AreTaken audited.entry.entries.now (start_of level count) e taken.items) }
    ensures kept { Keeps diagrams.old diagrams.new }
{
    if count == 0 {
        return Ok(Vec::new(alloc));
    }
    let above = level + 1;
    let half = count / 2;
    let mut taken = taken_by_blocks(alloc, diagrams, audited, above, half, matched)?;
    let rest = count % 2;
    if rest == 0 {
        return Ok(taken);
    }
    let last = Block {
        level,
        number: count - 1,
    };
    add_taken_by(alloc, diagrams, audited, last, matched, &mut taken)?;
    Ok(taken)
}

// Adds what the entries of a block take of the headers of a set.
fn add_taken_by(
    alloc: Global,
    diagrams: &mut Diagrams,
    audited: Audited,
    block: Block,
    matched: u32,
    taken: &mut Vec<Taken>,
) -> Result<(), NoMemory>
    requires there { block.number < length (get_or audited.unions.now block.level []) }
    requires audited { IsAudited diagrams.old audited }
    requires matched { matched < count_of diagrams.old }
    ensures taken { OnOk result ((e : Entry) → IsSet diagrams.old (λ h. matches e (header_of h)) matched
        → AreTaken audited.entry.entries.now (start_of block.level block.number) e taken.old.items → AreTaken audited.entry.entries.now (start_of block.level (block.number + 1)) e taken.new.items) }
    ensures kept { Keeps diagrams.old diagrams.new }
{
    let Block { level, number } = block;
    let common = diagrams.within(matched, audited.unions.set(level, number))?;
    if diagrams.is_nothing(common) {
        return Ok(());
    }
    if level == 0 {
        let rows = rows_of(alloc, diagrams, common)?;
        taken.push(Taken {
            sequence: audited.entries[number].sequence,
            rows: List::new(rows),
        })?;
        return Ok(());
    }
    let below = level - 1;
    let twice = 2 * number;
    let low = Block {
        level: below,
        number: twice,
    };
    let high = Block {
        level: below,
        number: twice + 1,
    };
    add_taken_by(alloc, diagrams, audited, low, matched, taken)?;
    add_taken_by(alloc, diagrams, audited, high, matched, taken)?;
    Ok(())
}

// The rows of a set.
fn rows_of(alloc: Global, diagrams: &Diagrams, set: u32) -> Result<Vec<Cube>, NoMemory>
    requires { set < count_of diagrams.now }
    ensures { IfOk result (λ rows. AreRows (value_at diagrams.now set) rows.items) }
{
    let pieces = diagrams.rows(alloc, set)?;
    let mut rows = Vec::with_capacity(alloc, pieces.len())?;
    for piece in &pieces {
        rows.push(piece.cube)?;
    }
    Ok(rows)
}
