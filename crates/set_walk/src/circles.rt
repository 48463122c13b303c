//! Walks that go round in circles. Where two levels have the same groups, whatever follows the one follows the other. Sets are
//! numbers of one table, in which equal sets have equal numbers, so groups are compared as they stand.

ghost use Rattle.std.specs.Prelude.{◌≡◌, ◌≤◌, ◌<◌, ◌⊎◌, ◌+◌, ◌*◌, ◌-◌, ◌/◌, ℕ, true, false};
ghost use Rattle.cube_diagram.specs.Functions.{Functions};
ghost use Rattle.net_types.specs.declared.network.Place.{Place};
ghost use Rattle.net_types.specs.World.{World};
ghost use Rattle.set_walk.specs.Levels.{IsLevel};
ghost use Rattle.set_walk.specs.Circles.{AllSame, IsRound};

use crate::step::{Way, same_step};

/// A level that was kept, with the number of moves to it.
#[derive(Drop)]
pub struct Mark {
    pub moves: u8,
    pub groups: Vec<Way>,
}

/// The level after n moves in place of the kept one, where that is of half as many moves or fewer. So one level is compared at
/// a time, and a circle is noticed soon after the walks are in it (Brent, BIT 20, 1980).
pub fn later(mark: Mark, moves: u8, groups: Vec<Way>) -> Mark
    ensures kept { moves / 2 < mark.moves → result ≡ mark }
    ensures moves { mark.moves ≤ moves / 2 → result.moves ≡ moves }
    ensures groups { mark.moves ≤ moves / 2 → result.groups.items ≡ groups.items }
{
    if moves / 2 < mark.moves {
        return mark;
    }
    Mark { moves, groups }
}

/// The number of moves from which to go on with these groups, those after n moves: n, and where they are those of the kept
/// level the greatest number below the TTL that is whole rounds after n.
pub(crate) fn onward(mark: &Mark, moves: u8, groups: &[Way], ttl: u8) -> u8
    requires before { mark.now.moves < moves }
    requires within { moves ≤ ttl }
    ensures after { moves ≤ result }
    ensures within { result ≤ ttl }
    ensures round { (result ≡ moves) ⊎ IsRound mark.now moves groups.now ttl result }
    ensures last { moves < ttl → mark.now.groups.items ≡ groups.now → ttl ≤ result + (moves - mark.now.moves) }
{
    if moves == ttl {
        return moves;
    }
    if !same_groups(&mark.groups, groups) {
        return moves;
    }
    rounds(mark.moves, moves, ttl)
}

// The greatest number below the TTL that is whole rounds after this one.
fn rounds(earlier: u8, moves: u8, ttl: u8) -> u8
    requires before { earlier < moves }
    requires within { moves < ttl }
    ensures after { moves ≤ result }
    ensures within { result < ttl }
    ensures round { (k : ℕ) × (result ≡ moves + k * (moves - earlier)) }
    ensures last { ttl ≤ result + (moves - earlier) }
{
    let last = ttl - 1;
    last - (last - moves) % (moves - earlier)
}

/// Whether the groups are the same, in the same order. Two levels of a domain that are the same repeat: after as many more
/// moves as one likes the walks from the one and from the other are in the same states.
pub fn same_groups(a: &[Way], b: &[Way]) -> bool
    ensures same { result ≡ true → a.now ≡ b.now }
    ensures other { result ≡ false → a.now ≡ b.now → ⊥ }
    ensures repeats { result ≡ true → (w : World) (start fs : Functions) (domain : ℕ) (p : Place) (n m : ℕ) → IsLevel w start domain p n fs a.now → IsLevel w start domain p m fs b.now → (k : ℕ) → AllSame w start domain p (n + k) (m + k) }
{
    same_lists(a, b)
}

fn same_lists(a: &[Way], b: &[Way]) -> bool
    ensures same { result ≡ true → a.now ≡ b.now }
    ensures other { result ≡ false → a.now ≡ b.now → ⊥ }
{
    if a.len() != b.len() {
        return false;
    }
    for i in 0..a.len() {
        if !same_way(&a[i], &b[i]) {
            return false;
        }
    }
    true
}

fn same_way(a: &Way, b: &Way) -> bool
    ensures same { result ≡ true → a.now ≡ b.now }
    ensures other { result ≡ false → a.now ≡ b.now → ⊥ }
{
    a.headers == b.headers && same_step(&a.step, &b.step)
}
