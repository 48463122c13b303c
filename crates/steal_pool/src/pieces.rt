//! A region that is worked down to leaves and open parts.
ghost use Rattle.std.specs.Prelude.{◌≡◌, ◌+◌, ◌≤◌, [], ◌∷◌, IfOk, length, map};
ghost use Rattle.cube_alg.specs.declared.Region.{Region as Area};
ghost use Rattle.task_board.specs.Stands.{IsWorked, part_of};
ghost use Rattle.steal_pool.specs.Pieces.{AreFiner, AddsWork};

use crate::plan::{Call, Plan};
use crate::splitter::{Splitter, Worked};
use chunk_rope::Rope;
use cube_alg::Region;
use no_memory::NoMemory;
use std::alloc::Global;
use task_board::{Leaf, Part};

// The greatest number of leaves and open parts of one settle.
const MOST_PIECES: usize = 256;

// The greatest number of parts into which a region is divided at once.
const MOST_PARTS: usize = 113;

// How many regions are worked on for one settle at most.
const STEPS: usize = 256;

/// What came of a region: its leaves, and its parts that are still open. There are at most 256 in all.
#[derive(Drop)]
pub struct Pieces<V> {
    pub finished: Rope<Leaf<V>>,
    pub rest: Vec<Part>,
    count: usize,
    pub ghost counted: { count ≡ length finished.items + length rest.items },
    pub ghost few: { count ≤ 256 },
    pub ghost room: { 256 ≤ length finished.items + finished.spare },
}

/// Works a region down to at most 256 leaves and open parts, each part with more fixed bits than the region. The part that was
/// divided last is worked on first, so that the greatest parts stay open.
pub fn work_down<S: Splitter, K: Call<S::Value>>(
    alloc: Global,
    plan: &Plan<S, K>,
    region: Region,
) -> Result<Pieces<S::Value>, NoMemory>
    ensures worked { IfOk result (λ p. IsWorked K.gives region p.finished.items p.rest.items) }
    ensures finer { IfOk result (λ p. AreFiner region p.rest.items) }
{
    let mut pieces = begin(alloc, plan, region)?;
    for _ in 1..STEPS {
        pieces = step(alloc, plan, pieces)?;
    }
    Ok(pieces)
}

// Works on the region itself.
fn begin<S: Splitter, K: Call<S::Value>>(
    alloc: Global,
    plan: &Plan<S, K>,
    region: Region,
) -> Result<Pieces<S::Value>, NoMemory>
    ensures worked { IfOk result (λ p. IsWorked K.gives region p.finished.items p.rest.items) }
    ensures finer { IfOk result (λ p. AreFiner region p.rest.items) }
{
    let mut finished = Rope::new(alloc);
    finished.reserve(MOST_PIECES)?;
    let mut rest = Vec::new(alloc);
    let count = work_part(alloc, plan, region, &mut finished, &mut rest)?;
    Ok(Pieces {
        finished,
        rest,
        count,
    })
}

// Works on the last open part, where there is one, and room for all that may come of it.
fn step<S: Splitter, K: Call<S::Value>>(
    alloc: Global,
    plan: &Plan<S, K>,
    pieces: Pieces<S::Value>,
) -> Result<Pieces<S::Value>, NoMemory>
    ensures worked { IfOk result (λ p. (r : Area) → IsWorked K.gives r pieces.finished.items pieces.rest.items → IsWorked K.gives r p.finished.items p.rest.items) }
    ensures finer { IfOk result (λ p. (r : Area) → AreFiner r pieces.rest.items → AreFiner r p.rest.items) }
{
    if pieces.count + MOST_PARTS > MOST_PIECES + 1 {
        return Ok(pieces);
    }
    let Pieces {
        mut finished,
        mut rest,
        count,
    } = pieces;
    let Some(part) = rest.pop() else {
        return Ok(Pieces {
            finished,
            rest,
            count,
        });
    };
    let added = work_part(alloc, plan, part.region, &mut finished, &mut rest)?;
    Ok(Pieces {
        finished,
        rest,
        count: count - 1 + added,
    })
}

// Works on one region, and adds what came of it. It answers how many leaves and parts were added.
fn work_part<S: Splitter, K: Call<S::Value>>(
    alloc: Global,
    plan: &Plan<S, K>,
    region: Region,
    finished: &mut Rope<Leaf<S::Value>>,
    rest: &mut Vec<Part>,
) -> Result<usize, NoMemory>
    requires { 1 ≤ finished.old.spare }
    ensures { IfOk result (AddsWork K.gives region finished.old finished.new rest.old.items rest.new.items) }
{
    match plan.work(alloc, &region)? {
        Worked::Nothing => Ok(0),
        Worked::Whole { value } => {
            finished.push_reserved(Leaf { region, value });
            Ok(1)
        }
        Worked::Parts { parts } => {
            let mut more = waiting(alloc, parts.as_slice())?;
            rest.append(&mut more)?;
            Ok(parts.len())
        }
    }
}

// The regions as parts that are to be opened.
fn waiting(alloc: Global, regions: &[Region]) -> Result<Vec<Part>, NoMemory>
    ensures { IfOk result (λ v. v.items ≡ map (λ r. part_of r 0) regions.now) }
{
    let parts = regions
        .iter()
        .map(|r| Part {
            region: *r,
            ticket: 0,
        })
        .collect(alloc)?;
    Ok(parts)
}
