//! The headers of which a walk is twice at one place with one header.
//!
//! The levels of the domain's walks are kept. From the last one back, where few moves are left, it is asked of each group
//! which of its headers come back to its place unchanged. Headers that loop at all do so soon after the last levels, and
//! what is found isn't asked again; what has no walk to the last level can't loop and isn't asked at all. Levels that come
//! round are made once.

ghost use Rattle.std.specs.Prelude.{◌≡◌, ◌≤◌, ◌<◌, ◌⊎◌, ◌-◌, ℕ, Some, IfOk, IsTrue, length, slice_get};
ghost use Rattle.hdr_bits.specs.declared.header.Header.{Header};
ghost use Rattle.hdr_bits.specs.HeaderBits.{IsHeader};
ghost use Rattle.cube_alg.specs.Stamps.{applied};
ghost use Rattle.cube_diagram.specs.Functions.{Functions, Keeps, count_of};
ghost use Rattle.net_types.specs.declared.network.Place.{Place};
ghost use Rattle.net_types.specs.World.{World};
ghost use Rattle.net_types.specs.Walks.{state_at};
ghost use Rattle.net_view.specs.Borrowed.{world_of};
ghost use Rattle.set_walk.specs.declared.step.Way.{Way};
ghost use Rattle.set_walk.specs.Circles.{AllSame};
ghost use Rattle.set_walk.specs.Sets.{InSet, IsSet};
ghost use Rattle.set_walk.specs.Ways.{IsStamp};
ghost use Rattle.set_walk.specs.Told.{AreTold, IsTold};
ghost use Rattle.net_types.specs.Questions.{Loops};
ghost use Rattle.loop_search.specs.declared.search.Level.{Level};
ghost use Rattle.loop_search.specs.WholeNets.{IsWholeNet};
ghost use Rattle.loop_search.specs.Looping.{AreLevels, ByWay, GoesOn, IsBack, Returns, unchanged_at};

use cube_alg::Stamp;
use cube_diagram::Diagrams;
use hdr_bits::Cube;
use net_types::{NoMemory, Place};
use set_walk::sets::{before_stamp, both, either, without};
use set_walk::{Mark, Net, Step, Way, first_level, later, next_level, same_groups, same_step};
use std::alloc::Global;

/// The groups of a level.
#[derive(Drop)]
pub struct Level {
    pub groups: Vec<Way>,
}

/// Where a search for loops stands.
#[derive(Clone, Copy)]
struct Search {
    /// The headers that have a walk to the last level.
    lasting: u32,
    /// Those that were found to loop.
    found: u32,
}

/// Headers that come to a place; the stamp makes of each the header that arrives.
#[derive(Clone, Copy)]
struct Arrivals {
    place: Place,
    stamp: Stamp,
    headers: u32,
}

/// The headers of the domain, a set of the table, that enter at the place and loop under the TTL.
pub fn looping(
    alloc: Global,
    table: &mut Diagrams,
    net: &Net,
    place: Place,
    domain: u32,
    ttl: u8,
) -> Result<u32, NoMemory>
    requires net { IsWholeNet table.old net.now }
    requires domain { domain < count_of table.old }
    requires ttl { 1 ≤ ttl }
    ensures set { IfOk result (λ r. IsSet table.new r (λ h. InSet table.old domain h × Loops (world_of net.now.world) ttl place h)) }
    ensures kept { Keeps table.old table.new }
{
    if table.is_nothing(domain) {
        return Ok(domain);
    }
    let levels = levels_of(alloc, table, net, place, domain, ttl)?;
    looping_in(alloc, table, net, &levels, ttl)
}

// The levels of the domain, from that of no move on, as many as the TTL has.
fn levels_of(
    alloc: Global,
    table: &mut Diagrams,
    net: &Net,
    place: Place,
    domain: u32,
    ttl: u8,
) -> Result<Vec<Level>, NoMemory>
    requires net { IsWholeNet table.old net.now }
    requires domain { domain < count_of table.old }
    ensures levels { IfOk result (λ r. AreLevels (world_of net.now.world) table.old domain place table.new r.items) }
    ensures count { IfOk result (λ r. length r.items ≡ ttl) }
    ensures kept { Keeps table.old table.new }
{
    let mut groups = first_level(alloc, table, place, domain)?;
    let mut levels = Vec::new(alloc);
    let mut mark = 0;
    for n in 0..ttl {
        let steps = next_level(alloc, table, net, &groups)?;
        levels.push(Level { groups })?;
        groups = steps;
        mark = later_mark(mark, n);
        if same_groups(&levels[usize::from(mark)].groups, &groups) {
            return with_rounds(alloc, levels, n + 1 - mark, ttl);
        }
    }
    Ok(levels)
}

// The level with which further ones are compared, of two: the second, where the first is of half as many moves or fewer.
fn later_mark(mark: u8, n: u8) -> u8
    requires { mark ≤ n }
    ensures { result ≤ n }
{
    if n / 2 < mark {
        return mark;
    }
    n
}

// The levels of walks that go round in circles, as many as the TTL has: each further one is that of so many moves before.
fn with_rounds(
    alloc: Global,
    levels: Vec<Level>,
    round: u8,
    ttl: u8,
) -> Result<Vec<Level>, NoMemory>
    requires round { 1 ≤ round }
    requires before { round ≤ length levels.items }
    requires within { length levels.items ≤ ttl }
    ensures count { IfOk result (λ r. length r.items ≡ ttl) }
    ensures levels { IfOk result (λ r. (w : World) (start fs : Functions) (domain : ℕ) (p : Place) → AreLevels w start domain p fs levels.items → AllSame w start domain p (length levels.items - round) (length levels.items) → AreLevels w start domain p fs r.items) }
{
    let mut all = levels;
    for n in all.len()..usize::from(ttl) {
        let groups = copied(alloc, &all[n - usize::from(round)].groups)?;
        all.push(Level { groups })?;
    }
    Ok(all)
}

fn copied(alloc: Global, groups: &[Way]) -> Result<Vec<Way>, NoMemory>
    ensures { IfOk result (λ r. r.items ≡ groups.now) }
{
    let mut copy = Vec::new(alloc);
    copy.extend_from_slice(groups)?;
    Ok(copy)
}

// The headers that loop, by their levels.
fn looping_in(
    alloc: Global,
    table: &mut Diagrams,
    net: &Net,
    levels: &[Level],
    ttl: u8,
) -> Result<u32, NoMemory>
    requires net { IsWholeNet table.old net.now }
    requires levels { (n : ℕ) (l : Level) → slice_get levels.now n ≡ Some l → AreTold table.old l.groups.items }
    requires count { length levels.now ≡ ttl }
    requires ttl { 1 ≤ ttl }
    ensures set { IfOk result (λ r. (start : Functions) (domain : ℕ) (p : Place) → AreLevels (world_of net.now.world) start domain p table.old levels.now → IsSet table.new r (λ h. InSet start domain h × Loops (world_of net.now.world) ttl p h)) }
    ensures kept { Keeps table.old table.new }
{
    let last = &levels[usize::from(ttl - 1)];
    let lasting = headers_of(table, &last.groups)?;
    let mut found = table.nothing();
    for room in 0..ttl {
        let level = &levels[usize::from(ttl - 1 - room)];
        let search = Search { lasting, found };
        found = with_returning_from(alloc, table, net, &level.groups, room, search)?;
    }
    Ok(found)
}

// The headers of the groups.
fn headers_of(table: &mut Diagrams, groups: &[Way]) -> Result<u32, NoMemory>
    requires groups { AreTold table.old groups.now }
    ensures set { IfOk result (λ r. IsSet table.new r (ByWay table.old groups.now (λ m _. GoesOn m))) }
    ensures kept { Keeps table.old table.new }
{
    let mut set = table.nothing();
    for group in groups {
        set = with_group(table, *group, set)?;
    }
    Ok(set)
}

// The set, with the headers of the step, if it goes on.
fn with_group(table: &mut Diagrams, group: Way, set: u32) -> Result<u32, NoMemory>
    requires group { group.headers < count_of table.old }
    requires set { set < count_of table.old }
    ensures set { IfOk result (λ r. IsSet table.new r (λ h. InSet table.old set h ⊎ (InSet table.old group.headers h × GoesOn group.step))) }
    ensures kept { Keeps table.old table.new }
{
    match group.step {
        Step::Go { place: _, stamp: _ } => either(table, set, group.headers),
        Step::Drop => Ok(set),
        Step::Local { place: _ } => Ok(set),
        Step::Lost => Ok(set),
        Step::Exit { place: _, stamp: _ } => Ok(set),
    }
}

// The headers that were found, with those that last and come back in at most so many moves to the place of one of the groups.
fn with_returning_from(
    alloc: Global,
    table: &mut Diagrams,
    net: &Net,
    groups: &[Way],
    room: u8,
    search: Search,
) -> Result<u32, NoMemory>
    requires net { IsWholeNet table.old net.now }
    requires groups { AreTold table.old groups.now }
    requires lasting { search.lasting < count_of table.old }
    requires found { search.found < count_of table.old }
    ensures set { IfOk result (λ r. IsSet table.new r (λ h. InSet table.old search.found h ⊎ ByWay table.old groups.now (λ m g. InSet table.old search.lasting g × IsBack (world_of net.now.world) room m g) h)) }
    ensures kept { Keeps table.old table.new }
{
    let mut found = search.found;
    for group in groups {
        let so_far = Search { found, ..search };
        found = with_returning(alloc, table, net, *group, room, so_far)?;
    }
    Ok(found)
}

// The same of one group; none come back by a step that doesn't go on.
fn with_returning(
    alloc: Global,
    table: &mut Diagrams,
    net: &Net,
    group: Way,
    room: u8,
    search: Search,
) -> Result<u32, NoMemory>
    requires net { IsWholeNet table.old net.now }
    requires group { IsTold table.old group }
    requires lasting { search.lasting < count_of table.old }
    requires found { search.found < count_of table.old }
    ensures set { IfOk result (λ r. IsSet table.new r (λ h. InSet table.old search.found h ⊎ (InSet table.old group.headers h × (InSet table.old search.lasting h × IsBack (world_of net.now.world) room group.step h)))) }
    ensures kept { Keeps table.old table.new }
{
    match group.step {
        Step::Go { place, stamp } => {
            let asked = both(table, group.headers, search.lasting)?;
            let rest = without(table, asked, search.found)?;
            let arrivals = Arrivals {
                place,
                stamp,
                headers: rest,
            };
            let back = returning_by(alloc, table, net, arrivals, room)?;
            either(table, search.found, back)
        }
        Step::Drop => Ok(search.found),
        Step::Local { place: _ } => Ok(search.found),
        Step::Lost => Ok(search.found),
        Step::Exit { place: _, stamp: _ } => Ok(search.found),
    }
}

// Those of the headers that come back so to the place, after they arrived, in at most so many moves.
fn returning_by(
    alloc: Global,
    table: &mut Diagrams,
    net: &Net,
    arrivals: Arrivals,
    room: u8,
) -> Result<u32, NoMemory>
    requires net { IsWholeNet table.old net.now }
    requires headers { arrivals.headers < count_of table.old }
    requires stamp { IsStamp arrivals.stamp }
    ensures set { IfOk result (λ r. IsSet table.new r (λ h. InSet table.old arrivals.headers h × Returns (world_of net.now.world) room (state_at arrivals.place (applied arrivals.stamp h)))) }
    ensures kept { Keeps table.old table.new }
{
    if table.is_nothing(arrivals.headers) {
        return Ok(arrivals.headers);
    }
    let arriving = arriving(table, &arrivals.stamp, arrivals.headers)?;
    let back = returning(alloc, table, net, arrivals.place, arriving, room)?;
    let before = before_stamp(alloc, table, back, &arrivals.stamp)?;
    both(table, arrivals.headers, before)
}

// Headers among which are those that the stamp makes of these.
fn arriving(table: &mut Diagrams, stamp: &Stamp, headers: u32) -> Result<u32, NoMemory>
    requires headers { headers < count_of table.old }
    ensures below { IfOk result (λ r. r < count_of table.new) }
    ensures made { IfOk result (λ r. (h : Header) → IsHeader h → InSet table.old headers h → IsHeader (applied stamp.now h) → InSet table.new r (applied stamp.now h)) }
    ensures kept { Keeps table.old table.new }
{
    if is_none(stamp) {
        return Ok(headers);
    }
    let cube = stamp.forth(&Cube::all());
    table.add_entry(&[cube], 1)
}

// Whether the stamp replaces nothing.
fn is_none(stamp: &Stamp) -> bool
    ensures { IsTrue result → (h : Header) → applied stamp.now h ≡ h }
{
    stamp.src.is_none() && stamp.dst.is_none() && stamp.sport.is_none() && stamp.dport.is_none()
}

// The headers of the domain that enter at the place and come back to it unchanged in at most so many moves. Where a level comes
// round, no further one has more of them.
fn returning(
    alloc: Global,
    table: &mut Diagrams,
    net: &Net,
    place: Place,
    domain: u32,
    room: u8,
) -> Result<u32, NoMemory>
    requires net { IsWholeNet table.old net.now }
    requires domain { domain < count_of table.old }
    ensures set { IfOk result (λ r. IsSet table.new r (λ h. InSet table.old domain h × Returns (world_of net.now.world) room (state_at place h))) }
    ensures kept { Keeps table.old table.new }
{
    let mut mark = Mark {
        moves: 0,
        groups: first_level(alloc, table, place, domain)?,
    };
    let mut groups = first_level(alloc, table, place, domain)?;
    let mut found = table.nothing();
    for n in 0..room {
        let steps = next_level(alloc, table, net, &groups)?;
        found = with_unchanged(table, &steps, place, found)?;
        mark = later(mark, n, groups);
        if same_groups(&mark.groups, &steps) {
            return Ok(found);
        }
        groups = steps;
    }
    Ok(found)
}

// The set, with the headers that are at the place unchanged.
fn with_unchanged(
    table: &mut Diagrams,
    groups: &[Way],
    place: Place,
    set: u32,
) -> Result<u32, NoMemory>
    requires groups { AreTold table.old groups.now }
    requires set { set < count_of table.old }
    ensures set { IfOk result (λ r. IsSet table.new r (λ h. InSet table.old set h ⊎ ByWay table.old groups.now (λ m _. m ≡ unchanged_at place) h)) }
    ensures kept { Keeps table.old table.new }
{
    let unchanged = Step::Go {
        place,
        stamp: Stamp::none(),
    };
    let mut all = set;
    for group in groups {
        all = with_step(table, *group, &unchanged, all)?;
    }
    Ok(all)
}

// The set, with the headers of the way, if it has this step.
fn with_step(table: &mut Diagrams, way: Way, step: &Step, set: u32) -> Result<u32, NoMemory>
    requires way { way.headers < count_of table.old }
    requires set { set < count_of table.old }
    ensures set { IfOk result (λ r. IsSet table.new r (λ h. InSet table.old set h ⊎ (InSet table.old way.headers h × (way.step ≡ step.now)))) }
    ensures kept { Keeps table.old table.new }
{
    if !same_step(&way.step, step) {
        return Ok(set);
    }
    either(table, set, way.headers)
}
