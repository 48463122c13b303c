//! The board.
ghost use Rattle.std.specs.Prelude.{◌≡◌, ◌≢◌, ◌<◌, ◌≤◌, ◌^◌, ◌↔◌, ℕ, true, [], length, IsOk, IsTrue, OnOk, OnErr, IfOk, IfErr, IsNone, IfSome, MatchOption, AllPairs, option_copied, map, Some, None, if◌then◌else◌, count_by, is_some};
ghost use Rattle.task_board.specs.Regions.{LieApart};
ghost use Rattle.task_board.specs.Stands.{region_at, part_of, Stands, Answers, IsWorked, OpensRoots, Settles};

use crate::leaf::{Leaf, Part};
use crate::meaning::Meaning;
use crate::parts::open_parts;
use chunk_rope::Rope;
use cube_alg::Region;
use no_memory::NoMemory;
use slab::Slab;
use std::alloc::Global;
use std::marker::Model;

/// Open and finished regions, with the meaning and the roots that they stand for.
///
/// The open regions and the leaves are pairwise disjoint and each is inside a root. Each leaf's value is right for the
/// meaning, and every header of a root that is in no open region and in no leaf has no value. So it stands after every
/// list of settles, refused ones included.
#[derive(Drop)]
pub struct Board<M: Meaning> {
    meaning: M,
    roots: Vec<Region>,
    tickets: Slab<Region>,
    done: Rope<Leaf<M::Value>>,
    // How many more regions can be opened without memory.
    spare: usize,
}

impl<M: Meaning> Model for Board<M> {
    ghost use Rattle.slab.specs.Slab.{HasRoomFor};
    ghost use Rattle.task_board.specs.Stands.{Standing, Stands};

    ghost Value = { Standing M M.Value };

    ghost view = { λ b. record {
      meaning = b.meaning;
      roots = b.roots.items;
      tickets = b.tickets.slots;
      leaves = b.done.items;
      spare = b.spare;
    } };

    ghost invariant = { λ b. Stands (M.gives b.meaning) b.roots.items b.tickets.slots b.done.items × HasRoomFor b.tickets b.spare };
}

/// A settle that isn't of this board: its leaves, and what the board holds instead. Where it holds neither another
/// region nor another meaning, the ticket isn't open.
#[derive(Drop)]
pub struct Strange<M: Meaning> {
    /// The leaves that were handed in.
    pub finished: Rope<Leaf<M::Value>>,
    /// The region that is open under the ticket, where it is another one.
    pub held: Option<Region>,
    /// The board's meaning, where it is another one.
    pub other: Option<M>,
}

impl<M: Meaning> Board<M> {
    /// A board on which each root is open under a ticket of its own. The roots are disjoint, and fewer than 2^32.
    pub fn open_all(alloc: Global, meaning: M, roots: &[Region]) -> Result<Board<M>, NoMemory>
        requires apart { AllPairs LieApart roots.now }
        requires few { length roots.now < 2 ^ 32 }
        ensures meaning { IfOk result (λ b. b.meaning ≡ meaning) }
        ensures roots { IfOk result (λ b. b.roots ≡ roots.now) }
        ensures leaves { IfOk result (λ b. b.leaves ≡ []) }
        ensures tickets { IfOk result (λ b. OpensRoots roots.now b.tickets) }
    {
        let kept = copy_of(alloc, roots)?;
        let mut parts = waiting(alloc, roots)?;
        let mut tickets = Slab::new(alloc);
        tickets.reserve(parts.len())?;
        open_parts(&mut tickets, parts.as_mut_slice());
        Ok(Board {
            meaning,
            roots: kept,
            tickets,
            done: Rope::new(alloc),
            spare: 0,
        })
    }

    /// Makes the spare at least so many parts, which a settle may then open. All else stays. Where there is no memory for
    /// it, the board is as it was.
    pub fn make_room(&mut self, parts: usize) -> Result<(), NoMemory>
        ensures room { OnOk result (parts ≤ self.new.spare) }
        ensures more { self.old.spare ≤ self.new.spare }
        ensures rest_kept { self.new ≡ record self.old { spare = self.new.spare } }
        ensures unchanged { OnErr result (self.new ≡ self.old) }
    {
        self.tickets.reserve(parts)?;
        self.spare = self.spare.max(parts);
        Ok(())
    }

    /// Closes the region, appends the leaves, and opens the parts, each under the ticket that is then written into
    /// it. It takes no memory, and as long for many leaves as for few.
    ///
    /// The leaves and the parts are what the region was worked to: disjoint, inside it, with values that are right for
    /// the meaning that is brought, and every header of the region outside them has no value.
    ///
    /// It is refused exactly where the ticket isn't open with this region, or the board is one for another meaning. Then
    /// the board and the parts are as they were, and the leaves come back.
    pub fn settle(
        &mut self,
        meaning: &M,
        ticket: u64,
        region: &Region,
        finished: Rope<Leaf<M::Value>>,
        rest: &mut [Part],
    ) -> Result<(), Strange<M>>
        requires room { length rest.old ≤ self.old.spare }
        requires worked { IsWorked (M.gives meaning.now) region.now finished.items rest.old }

        ensures accepted { IsOk result ↔ ((region_at self.old.tickets ticket ≡ Some region.now) × (M.eq meaning.now self.old.meaning ≡ true)) }
        ensures settled { OnOk result (Settles self.old self.new ticket finished.items rest.new) }
        ensures regions { map (λ p. p.region) rest.new ≡ map (λ p. p.region) rest.old }
        ensures unchanged { OnErr result ((self.new ≡ self.old) × (rest.new ≡ rest.old)) }
        ensures finished { IfErr result (λ e. e.finished ≡ finished) }
        ensures held { IfErr result (λ e. (r : _) → (e.held ≡ Some r) ↔ ((region_at self.old.tickets ticket ≡ Some r) × (r ≢ region.now))) }
        ensures other { IfErr result (λ e. e.other ≡ (if M.eq meaning.now self.old.meaning then None else Some self.old.meaning)) }
    {
        let key = ticket as usize;
        let same = *meaning == self.meaning;
        let held = self.tickets.get(key).copied();
        if same && is_held(held, region) {
            self.tickets.remove(key);
            self.spare -= rest.len();
            open_parts(&mut self.tickets, rest);
            self.done.append(finished);
            return Ok(());
        }
        Err(Strange {
            finished,
            held: another(held, region),
            other: if same { None } else { Some(self.meaning) },
        })
    }

    /// The meaning that the board was made for.
    pub fn meaning(&self) -> M
        ensures { result ≡ self.now.meaning }
    {
        self.meaning
    }

    /// The roots that the board stands for.
    pub fn roots(&self) -> &[Region]
        ensures { result.now ≡ self.now.roots }
    {
        self.roots.as_slice()
    }

    /// How many regions are open.
    pub fn open_count(&self) -> usize
        ensures count { result ≡ count_by is_some self.now.tickets }
        ensures none { result ≡ 0 → (k : ℕ) → region_at self.now.tickets k ≡ None }
    {
        self.tickets.len()
    }

    /// The open region of the least ticket that isn't below this one.
    pub fn next_open(&self, from: u64) -> Option<Part>
        ensures none { IsNone result → (k : ℕ) → from ≤ k → region_at self.now.tickets k ≡ None }
        ensures found { IfSome result (λ p. (from ≤ p.ticket) × (region_at self.now.tickets p.ticket ≡ Some p.region)) }
        ensures least { IfSome result (λ p. (k : ℕ) → from ≤ k → k < p.ticket → region_at self.now.tickets k ≡ None) }
    {
        for key in from as usize..self.tickets.capacity() {
            if let Some(region) = self.tickets.get(key) {
                return Some(Part {
                    region: *region,
                    ticket: key as u64,
                });
            }
        }
        None
    }

    /// The leaves, which stand for the roots with the regions that are still open, and alone where none is.
    pub fn take_done(self) -> Rope<Leaf<M::Value>>
        ensures leaves { result.items ≡ self.leaves }
        ensures stands { Stands (M.gives self.meaning) self.roots self.tickets result.items }
        ensures whole { ((k : ℕ) → region_at self.tickets k ≡ None) → Answers (M.gives self.meaning) self.roots result.items }
    {
        let Board {
            meaning: _,
            roots: _,
            tickets: _,
            done,
            spare: _,
        } = self;
        done
    }
}

// The regions, in a list of their own.
fn copy_of(alloc: Global, regions: &[Region]) -> Result<Vec<Region>, NoMemory>
    ensures { IfOk result (λ v. v.items ≡ regions.now) }
{
    let kept = regions.iter().copied().collect(alloc)?;
    Ok(kept)
}

// The regions as parts that are to be opened.
fn waiting(alloc: Global, regions: &[Region]) -> Result<Vec<Part>, NoMemory>
    ensures { IfOk result (λ v. v.items ≡ map (λ r. part_of r 0) regions.now) }
{
    let parts = regions
        .iter()
        .map(|r| Part {
            region: *r,
            ticket: 0,
        })
        .collect(alloc)?;
    Ok(parts)
}

// Whether the two are one region.
#[tactic(auto, using(crate::proofs::Tickets::same_region))]
fn is_same(r: &Region, s: &Region) -> bool
    ensures { IsTrue result ↔ (r.now ≡ s.now) }
{
    r == s
}

// Whether this region is held.
fn is_held(held: Option<Region>, region: &Region) -> bool
    ensures { IsTrue result ↔ (held ≡ Some region.now) }
{
    match held {
        None => false,
        Some(r) => is_same(&r, region),
    }
}

// The region that is held, where it is another one.
fn another(held: Option<Region>, region: &Region) -> Option<Region>
    ensures { (r : _) → (result ≡ Some r) ↔ ((held ≡ Some r) × (r ≢ region.now)) }
{
    match held {
        None => None,
        Some(r) => { if is_same(&r, region) { None } else { Some(r) } }
    }
}
