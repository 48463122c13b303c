//! The trace of a packet: its states in the order of their numbers, each with what is told of it, and the outcome.

ghost use Rattle.std.specs.Prelude.{◌≡◌, ◌≤◌, IfOk, map};
ghost use Rattle.net_types.specs.Walks.{state_at};
ghost use Rattle.walk_trace.specs.Numbered.{numbered};
ghost use Rattle.walk_trace.specs.Traced.{state_told, states_told, traced};

use crate::numbers::numbered;
use crate::outcomes::label;
use crate::site::Site;
use crate::states::States;
use crate::told::{Frame, state_told};
use crate::types::{Trace, TraceState};
use crate::walked::keep_walked;
use hdr_bits::Header;
use net_types::{Links, List, Network, NoMemory, Place, State};
use net_view::WorldRef;
use std::alloc::Global;

/// The trace of a packet with this header that enters at a place with this TTL, at least 1.
///
/// Every network and link table is taken: where a place is absent, the packet is dropped there.
///
/// # Errors
///
/// There was no memory.
pub fn trace(
    alloc: Global,
    network: &Network,
    links: &Links,
    place: Place,
    h: &Header,
    ttl: u8,
) -> Result<Trace, NoMemory>
    requires ttl { 1 ≤ ttl }
    ensures traced { IfOk result (λ trace. trace ≡ traced (record { network = network.now; links = links.now }) ttl place h.now) }
{
    let mut site = Site::of(alloc, WorldRef { network, links })?;
    trace_on(alloc, &mut site, place, h, ttl)
}

/// The trace of a packet on a network of which some is kept: what its devices are asked is kept before it is told, and so are the
/// answers for the packets that follow.
///
/// # Errors
///
/// There was no memory.
pub fn trace_on(
    alloc: Global,
    site: &mut Site,
    place: Place,
    h: &Header,
    ttl: u8,
) -> Result<Trace, NoMemory>
    requires { 1 ≤ ttl }
    ensures traced { IfOk result (λ trace. trace ≡ traced site.old ttl place h.now) }
    ensures same { site.new ≡ site.old }
{
    keep_walked(alloc, site, ttl, &State { place, header: *h })?;
    trace_told(alloc, site, place, h, ttl)
}

#[tactic(auto, unfolding(crate::specs::Traced::traced))]
fn trace_told(
    alloc: Global,
    site: &Site,
    place: Place,
    h: &Header,
    ttl: u8,
) -> Result<Trace, NoMemory>
    requires { 1 ≤ ttl }
    ensures { IfOk result (λ trace. trace ≡ traced site.now ttl place h.now) }
{
    let outcome = label(alloc, site, ttl, place, h)?;
    let states = states_of(alloc, site, place, h, ttl)?;
    Ok(Trace {
        states: List::new(states),
        outcome,
    })
}

fn states_of(
    alloc: Global,
    site: &Site,
    place: Place,
    h: &Header,
    ttl: u8,
) -> Result<Vec<TraceState>, NoMemory>
    requires { 1 ≤ ttl }
    ensures { IfOk result (λ told. told.items ≡ states_told site.now (numbered site.now ttl (state_at place h.now)) h.now) }
{
    let numbers = numbered(alloc, site, ttl, &State { place, header: *h })?;
    states_told(alloc, site, &numbers, h)
}

fn states_told(
    alloc: Global,
    site: &Site,
    numbers: &States,
    first: &Header,
) -> Result<Vec<TraceState>, NoMemory>
    ensures { IfOk result (λ told. told.items ≡ states_told site.now numbers.now first.now) }
{
    let states = numbers.since(alloc, 0)?;
    let frame = Frame {
        site,
        numbers,
        first,
    };
    told_each(alloc, frame, &states)
}

fn told_each(alloc: Global, frame: Frame, states: &[State]) -> Result<Vec<TraceState>, NoMemory>
    ensures { IfOk result (λ told. told.items ≡ map (state_told frame.entry.site.now frame.entry.numbers.now frame.entry.first.now) states.now) }
{
    let mut told = Vec::with_capacity(alloc, states.len())?;
    for state in states {
        told.push(state_told(alloc, frame, state)?)?;
    }
    Ok(told)
}
