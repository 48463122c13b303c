//! The headers that may end at a place, by the ends of their walks.

ghost use Rattle.std.specs.Prelude.{◌≡◌, ◌<◌, ◌⊎◌, ◌↔◌, IfOk, IsTrue};
ghost use Rattle.cube_diagram.specs.Functions.{Keeps, count_of};
ghost use Rattle.set_walk.specs.Sets.{InSet, IsSet};
ghost use Rattle.set_walk.specs.Outcomes.{AreEndsBelow};
ghost use Rattle.net_types.specs.Questions.{IsAt};
ghost use Rattle.ask_query.specs.Reaching.{EndsAt, EndsNamed};

use cube_diagram::Diagrams;
use net_types::{NoMemory, Outcome, Place};
use set_walk::OutcomeSet;
use set_walk::sets::either;

/// The headers that have an outcome at the place that is named; none where none is.
pub(crate) fn headers_to(
    table: &mut Diagrams,
    ends: &[OutcomeSet],
    to: Option<Place>,
) -> Result<u32, NoMemory>
    requires ends { AreEndsBelow table.old ends.now }
    ensures set { IfOk result (λ r. IsSet table.new r (EndsNamed table.old ends.now to)) }
    ensures kept { Keeps table.old table.new }
{
    let Some(place) = to else {
        return Ok(table.nothing());
    };
    headers_at(table, ends, place)
}

// The headers that have an outcome at the place.
fn headers_at(table: &mut Diagrams, ends: &[OutcomeSet], place: Place) -> Result<u32, NoMemory>
    requires ends { AreEndsBelow table.old ends.now }
    ensures set { IfOk result (λ r. IsSet table.new r (EndsAt table.old ends.now place)) }
    ensures kept { Keeps table.old table.new }
{
    let mut set = table.nothing();
    for end in ends {
        set = with_end(table, *end, place, set)?;
    }
    Ok(set)
}

// The set, with the headers of the end, if it is at the place.
fn with_end(table: &mut Diagrams, end: OutcomeSet, place: Place, set: u32) -> Result<u32, NoMemory>
    requires end { end.headers < count_of table.old }
    requires set { set < count_of table.old }
    ensures set { IfOk result (λ r. IsSet table.new r (λ h. InSet table.old set h ⊎ (InSet table.old end.headers h × IsAt place end.outcome))) }
    ensures kept { Keeps table.old table.new }
{
    if !is_at(&end.outcome, place) {
        return Ok(set);
    }
    either(table, set, end.headers)
}

// Whether a packet with the outcome is taken by the device at the place, or leaves the network there.
fn is_at(outcome: &Outcome, place: Place) -> bool
    ensures { IsTrue result ↔ IsAt place outcome.now }
{
    match *outcome {
        Outcome::Dropped => false,
        Outcome::Expired => false,
        Outcome::Local { place: end } => same_place(end, place),
        Outcome::Exit {
            place: end,
            src: _,
            dst: _,
            sport: _,
            dport: _,
        } => same_place(end, place),
    }
}

fn same_place(a: Place, b: Place) -> bool
    ensures { IsTrue result ↔ (a ≡ b) }
{
    a == b
}
