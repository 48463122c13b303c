//! The rows of an ingress as groups.
ghost use Rattle.std.specs.Prelude.{◌≡◌, ◌<◌, ◌^◌, [], ◌∷◌, map, length, All, IfOk};
ghost use Rattle.report_groups.specs.Groups.{cells_of, cell_of, choices, patterns_with};
ghost use Rattle.report_groups.specs.Drafts.{shown, IsCounted, JoinsBelow, Settles};
ghost use Rattle.report_groups.specs.Entries.{IsEntry, AreEntries};

use crate::change::change_of;
use crate::draft::finished;
use crate::joining::join;
use crate::shown::shown_of;
use crate::types::{Draft, Entry, Pattern};
use hdr_bits::Header;
use net_types::{List, NoMemory, Row};
use std::alloc::Global;

/// The rows of one ingress, joined as far as they can be, each group with what is shown of it.
///
/// Groups with equal outcomes that are equal in five of the six fields are joined in the sixth, until there are none.
/// What the groups stand for are exactly the rows: none is left out, and none is in two groups. In which order groups and
/// the patterns of a field stand isn't promised.
pub fn group_rows(alloc: Global, rows: &[Row]) -> Result<Vec<Entry>, NoMemory>
    ensures { IfOk result (λ entries. AreEntries rows.now entries.items) }
{
    let drafts = drafts_of(alloc, rows)?;
    let settled = settle(alloc, drafts)?;
    let entries = finish(alloc, settled)?;
    Ok(entries)
}

fn finish(alloc: Global, drafts: Vec<Draft>) -> Result<Vec<Entry>, NoMemory>
    requires { All IsCounted drafts.items }
    ensures groups { IfOk result (λ entries. map (λ e. e.group) entries.items ≡ map shown drafts.items) }
    ensures each { IfOk result (λ entries. All IsEntry entries.items) }
{
    let mut entries = Vec::with_capacity(alloc, drafts.len())?;
    for draft in drafts {
        let entry = entry_of(alloc, draft)?;
        entries.push(entry)?;
    }
    Ok(entries)
}

// The group of a draft, with what is shown of it.
fn entry_of(alloc: Global, draft: Draft) -> Result<Entry, NoMemory>
    requires { IsCounted draft }
    ensures group { IfOk result (λ e. e.group ≡ shown draft) }
    ensures shows { IfOk result IsEntry }
{
    let group = finished(alloc, draft)?;
    let shown = shown_of(alloc, &group)?;
    Ok(Entry {
        change: change_of(group.old.as_slice(), group.new.as_slice()),
        shown,
        rows: count_choices(group.fields.as_slice()),
        group,
    })
}

// In how many ways one pattern of each field is chosen.
fn count_choices(fields: &[List<Pattern>]) -> u64
    requires { length (choices fields.now) < 2 ^ 64 }
    ensures { result ≡ length (choices fields.now) }
{
    match fields {
        [] => 1,
        [first, rest @ ..] => {
            let patterns = first.as_slice();
            if patterns.is_empty() {
                return 0;
            }
            patterns.len() as u64 * count_choices(rest)
        }
    }
}

// A group for each row.
fn drafts_of(alloc: Global, rows: &[Row]) -> Result<Vec<Draft>, NoMemory>
    ensures { IfOk result (λ drafts. map (λ d. cells_of (shown d)) drafts.items ≡ map (λ row. cell_of row ∷ []) rows.now) }
{
    let mut drafts = Vec::with_capacity(alloc, rows.len())?;
    for row in rows {
        drafts.push(draft_of(alloc, row)?)?;
    }
    Ok(drafts)
}

// The group of one row.
fn draft_of(alloc: Global, row: &Row) -> Result<Draft, NoMemory>
    ensures { IfOk result (λ d. cells_of (shown d) ≡ cell_of row.now ∷ []) }
{
    let (Some(fixed), Some(bits)) = (
        Header::from_bits(row.cube.fixed),
        Header::from_bits(row.cube.bits),
    ) else {
        unreachable!("a cube has 112 bits");
    };
    let fields = single_lists(alloc, &patterns_with(&fixed, &bits))?;
    Ok(Draft {
        fields,
        before: row.old.as_slice().to_vec(alloc)?,
        after: row.new.as_slice().to_vec(alloc)?,
    })
}

fn patterns_with(fixed: &Header, bits: &Header) -> [Pattern; 6]
    ensures { result ≡ patterns_with fixed.now bits.now }
{
    [
        pattern(fixed.dst, bits.dst),
        pattern(fixed.src, bits.src),
        pattern(fixed.proto.into(), bits.proto.into()),
        pattern(fixed.dport.into(), bits.dport.into()),
        pattern(fixed.sport.into(), bits.sport.into()),
        pattern(fixed.flags.into(), bits.flags.into()),
    ]
}

fn pattern(fixed: u32, bits: u32) -> Pattern
    ensures fixed { result.fixed ≡ fixed }
    ensures bits { result.bits ≡ bits }
{
    Pattern { fixed, bits }
}

// A list of each pattern alone.
fn single_lists(alloc: Global, patterns: &[Pattern]) -> Result<Vec<Vec<Pattern>>, NoMemory>
    ensures { IfOk result (λ lists. map (λ list. list.items) lists.items ≡ map (λ p. p ∷ []) patterns.now) }
{
    let mut lists = Vec::with_capacity(alloc, patterns.len())?;
    for pattern in patterns {
        let mut list = Vec::new(alloc);
        list.push(*pattern)?;
        lists.push(list)?;
    }
    Ok(lists)
}

// The groups, joined in one field after the other until none can be joined.
fn settle(alloc: Global, drafts: Vec<Draft>) -> Result<Vec<Draft>, NoMemory>
    ensures { IfOk result (λ settled. Settles (map shown drafts.items) (map shown settled.items)) }
{
    let mut drafts = drafts;
    loop {
        let before = drafts.len();
        drafts = join_once(alloc, drafts)?;
        if drafts.len() == before {
            return Ok(drafts);
        }
    }
}

// The groups, joined in each field once.
fn join_once(alloc: Global, drafts: Vec<Draft>) -> Result<Vec<Draft>, NoMemory>
    ensures { IfOk result (λ joined. JoinsBelow 6 (map shown drafts.items) (map shown joined.items)) }
{
    let mut joined = drafts;
    for k in 0..6 {
        joined = join(alloc, joined, k)?;
    }
    Ok(joined)
}
