//! What becomes of packets that are sent over a segment, and whether two segments are known to send alike.

ghost use Rattle.std.specs.Prelude.{◌≡◌, ℕ, nat_eq, None, IsTrue};
ghost use Rattle.std.specs.Option.{option_copied};
ghost use Rattle.indexmap.specs.IndexMap.{get};
ghost use Rattle.link_sends.specs.Receivers.{TellsHeld, OfNext};
ghost use Rattle.link_sends.specs.Sends.{sent_p2p, sent_lan, holder_for, sent_over, sent_from, HasFunctions};

use crate::first_two::other_than;
use crate::holders::Holders;
use crate::wire::Wire;
use crate::{Next, Sent};
use cube_alg::OnCube;
use cube_diagram::Diagrams;
use hdr_bits::Cube;
use net_types::Place;

/// What becomes of packets with headers of the cube that are sent from `e` over its segment.
pub(crate) fn send_over(
    diagrams: &Diagrams,
    wire: &Wire,
    e: Place,
    next: Next,
    cube: &Cube,
) -> OnCube<Sent>
    requires { HasFunctions diagrams.now wire.now }
    ensures { OfNext (sent_over wire.now e) next cube.now result }
{
    match wire {
        Wire::PointToPoint { ends } => OnCube::All {
            answer: sent_p2p(other_than(e, *ends)),
        },
        Wire::Lan { live, silent } => send_lan(diagrams, live, silent, e, next, cube),
    }
}

fn sent_p2p(other: Option<Place>) -> Sent
    ensures { result ≡ sent_p2p other }
{
    match other {
        None => Sent::Exit,
        Some(place) => Sent::Go { place },
    }
}

fn send_lan(
    diagrams: &Diagrams,
    live: &Holders,
    silent: &Holders,
    e: Place,
    next: Next,
    cube: &Cube,
) -> OnCube<Sent>
    requires live { TellsHeld diagrams.now live.now.function (get nat_eq live.now.ends) }
    requires silent { TellsHeld diagrams.now silent.now.function (get nat_eq silent.now.ends) }
    ensures { OfNext (λ a. sent_lan (holder_for e live.now a) (holder_for e silent.now a)) next cube.now result }
{
    match live.receiver(diagrams, e, next, cube) {
        OnCube::Divides { bit } => OnCube::Divides { bit },
        OnCube::All {
            answer: Some(place),
        } => OnCube::All {
            answer: Sent::Go { place },
        },
        OnCube::All { answer: None } => lose_or_exit(diagrams, silent, e, next, cube),
    }
}

/// Whether packets that are sent from `e` over either are known to fare alike, whatever their next address. `None` is
/// what is kept where `e` is on no segment.
pub(crate) fn are_alike(one: Option<&Wire>, other: Option<&Wire>, e: Place) -> bool
    ensures { IsTrue result → (a : ℕ) → sent_from (option_copied one.entry) e a ≡ sent_from (option_copied other.entry) e a }
{
    match (one, other) {
        (None, None) => true,
        (Some(one), Some(other)) => are_alike_over(one, other, e),
        _ => false,
    }
}

fn are_alike_over(one: &Wire, other: &Wire, e: Place) -> bool
    ensures { IsTrue result → (a : ℕ) → sent_over one.now e a ≡ sent_over other.now e a }
{
    match (one, other) {
        (Wire::PointToPoint { ends: one }, Wire::PointToPoint { ends: other }) => {
            other_than(e, *one) == other_than(e, *other)
        }
        (
            Wire::Lan { live, silent },
            Wire::Lan {
                live: other_live,
                silent: other_silent,
            },
        ) => live.has_same_ends(other_live) && silent.has_same_ends(other_silent),
        _ => false,
    }
}

// What becomes of packets to an address that no IP-enabled end has.
fn lose_or_exit(
    diagrams: &Diagrams,
    silent: &Holders,
    e: Place,
    next: Next,
    cube: &Cube,
) -> OnCube<Sent>
    requires { TellsHeld diagrams.now silent.now.function (get nat_eq silent.now.ends) }
    ensures { OfNext (λ a. sent_lan None (holder_for e silent.now a)) next cube.now result }
{
    match silent.receiver(diagrams, e, next, cube) {
        OnCube::Divides { bit } => OnCube::Divides { bit },
        OnCube::All { answer: Some(_) } => OnCube::All { answer: Sent::Lost },
        OnCube::All { answer: None } => OnCube::All { answer: Sent::Exit },
    }
}
