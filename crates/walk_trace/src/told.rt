//! What is told of a state: what its device does with the packet, and by which list, rule and choice.

ghost use Rattle.std.specs.Prelude.{◌≡◌, IfOk, IfSome, map, option_map};
ghost use Rattle.net_types.specs.Walks.{state_at};
ghost use Rattle.net_view.specs.Borrowed.{seat_of};
ghost use Rattle.walk_trace.specs.Kept.{IsSeated};
ghost use Rattle.walk_trace.specs.Numbered.{number_of};
ghost use Rattle.walk_trace.specs.Traced.{tried, fate_by, fate_after, choice_with, choice_after, choice_of, choice_if_any, choice_by};
ghost use Rattle.walk_trace.specs.Traced.{end_by, end_in, closed, turned_away, taken_in, judged, open_state, state_if_any, state_told};

use crate::device::{owner, said};
use crate::site::Site;
use crate::states::States;
use crate::translation::{coming_in, going_out, written_coming_in, written_going_out};
use crate::types::{TraceChoice, TraceEnd, TraceFate, TraceState};
use cube_alg::Stamp;
use hdr_bits::Header;
use header_rules::{exit_of, is_dropped, passes};
use net_types::{Duplicate, Hop, List, Move, NoMemory, Place, State, Text, Verdict};
use net_view::{SeatRef, is_enabled, seat_named};
use std::alloc::Global;

/// What a trace is told against: the network, its numbered states, and the header at the ingress.
#[derive(Clone, Copy)]
pub(crate) struct Frame<'a> {
    pub site: &'a Site<'a>,
    pub numbers: &'a States,
    pub first: &'a Header,
}

/// What is told of a state.
pub(crate) fn state_told(alloc: Global, frame: Frame, state: &State) -> Result<TraceState, NoMemory>
    ensures { IfOk result (λ told. told ≡ state_told frame.entry.site.now frame.entry.numbers.now frame.entry.first.now state.now) }
{
    state_if_any(alloc, frame, state, frame.site.seat(state.place))
}

fn state_if_any(
    alloc: Global,
    frame: Frame,
    state: &State,
    seat: Option<SeatRef>,
) -> Result<TraceState, NoMemory>
    requires { IfSome seat (λ s. IsSeated frame.site.now (seat_of s)) }
    ensures { IfOk result (λ told. told ≡ state_if_any frame.entry.site.now frame.entry.numbers.now frame.entry.first.now state.now (option_map seat_of seat.entry)) }
{
    let Some(seat) = seat else {
        return Ok(closed(state));
    };
    if !is_enabled(seat.interface) {
        return Ok(closed(state));
    }
    open_state(alloc, frame, state, seat)
}

fn closed(state: &State) -> TraceState
    ensures { result ≡ closed state.now }
{
    TraceState {
        place: state.place,
        header: state.header,
        input: None,
        verdict: Verdict::Passed,
        dst: None,
        dport: None,
        src: None,
        end: TraceEnd::Closed,
    }
}

fn open_state(
    alloc: Global,
    frame: Frame,
    state: &State,
    seat: SeatRef,
) -> Result<TraceState, NoMemory>
    requires { IsSeated frame.site.now (seat_of seat) }
    ensures { IfOk result (λ told. told ≡ open_state frame.entry.site.now frame.entry.numbers.now frame.entry.first.now state.now (seat_of seat.entry)) }
{
    let verdict = said(&seat.device.config, &seat.interface.input, &state.header);
    judged(alloc, frame, state, seat, verdict)
}

fn judged(
    alloc: Global,
    frame: Frame,
    state: &State,
    seat: SeatRef,
    verdict: Verdict,
) -> Result<TraceState, NoMemory>
    requires { IsSeated frame.site.now (seat_of seat) }
    ensures { IfOk result (λ told. told ≡ judged frame.entry.site.now frame.entry.numbers.now frame.entry.first.now state.now (seat_of seat.entry) verdict) }
{
    if !passes(verdict) {
        return turned_away(alloc, state, seat, verdict);
    }
    taken_in(
        alloc,
        frame,
        state,
        seat,
        verdict,
        written_coming_in(seat, &state.header),
    )
}

fn turned_away(
    alloc: Global,
    state: &State,
    seat: SeatRef,
    verdict: Verdict,
) -> Result<TraceState, NoMemory>
    ensures { IfOk result (λ told. told ≡ turned_away state.now (seat_of seat.entry) verdict) }
{
    let input = tried(alloc, verdict, &seat.interface.input)?;
    Ok(TraceState {
        place: state.place,
        header: state.header,
        input,
        verdict,
        dst: None,
        dport: None,
        src: None,
        end: TraceEnd::Denied,
    })
}

fn taken_in(
    alloc: Global,
    frame: Frame,
    state: &State,
    seat: SeatRef,
    verdict: Verdict,
    written: Stamp,
) -> Result<TraceState, NoMemory>
    requires { IsSeated frame.site.now (seat_of seat) }
    ensures { IfOk result (λ told. told ≡ taken_in frame.entry.site.now frame.entry.numbers.now frame.entry.first.now state.now (seat_of seat.entry) verdict written) }
{
    let input = tried(alloc, verdict, &seat.interface.input)?;
    let end = end_in(alloc, frame, seat, &coming_in(seat, &state.header))?;
    Ok(TraceState {
        place: state.place,
        header: state.header,
        input,
        verdict,
        dst: written.dst,
        dport: written.dport,
        src: written.src,
        end,
    })
}

// The name of the list that was tried.
fn tried(alloc: Global, verdict: Verdict, name: &Option<Text>) -> Result<Option<Text>, NoMemory>
    ensures { IfOk result (λ list. list ≡ tried verdict name.now) }
{
    match verdict {
        Verdict::Passed => Ok(None),
        Verdict::Permit { sequence: _ } => copy_of(alloc, name),
        Verdict::Deny { sequence: _ } => copy_of(alloc, name),
        Verdict::DenyEnd => copy_of(alloc, name),
    }
}

fn copy_of(alloc: Global, name: &Option<Text>) -> Result<Option<Text>, NoMemory>
    ensures { IfOk result (λ copy. copy ≡ name.now) }
{
    match name {
        None => Ok(None),
        Some(name) => Ok(Some(name.copy(alloc)?)),
    }
}

fn end_in(alloc: Global, frame: Frame, seat: SeatRef, h: &Header) -> Result<TraceEnd, NoMemory>
    requires { IsSeated frame.site.now (seat_of seat) }
    ensures { IfOk result (λ end. end ≡ end_in frame.entry.site.now frame.entry.numbers.now frame.entry.first.now (seat_of seat.entry) h.now) }
{
    if is_dropped(&seat.device.config, h.dst) {
        return Ok(TraceEnd::Broadcast);
    }
    end_by(alloc, frame, seat, h, owner(seat, h.dst))
}

fn end_by(
    alloc: Global,
    frame: Frame,
    seat: SeatRef,
    h: &Header,
    own: Option<SeatRef>,
) -> Result<TraceEnd, NoMemory>
    requires { IsSeated frame.site.now (seat_of seat) }
    ensures { IfOk result (λ end. end ≡ end_by frame.entry.site.now frame.entry.numbers.now frame.entry.first.now (seat_of seat.entry) h.now (option_map seat_of own.entry)) }
{
    if let Some(own) = own {
        return Ok(TraceEnd::Local { place: own.place });
    }
    let hops = frame.site.choices(alloc, seat.device, h.dst)?;
    let choices = choices_by(alloc, frame, seat, h, &hops)?;
    Ok(TraceEnd::Choices {
        choices: List::new(choices),
    })
}

fn choices_by(
    alloc: Global,
    frame: Frame,
    seat: SeatRef,
    h: &Header,
    hops: &[Hop],
) -> Result<Vec<TraceChoice>, NoMemory>
    ensures { IfOk result (λ told. told.items ≡ map (choice_by frame.entry.site.now frame.entry.numbers.now frame.entry.first.now (seat_of seat.entry) h.now) hops.now) }
{
    let mut told = Vec::with_capacity(alloc, hops.len())?;
    for hop in hops {
        told.push(choice_by(alloc, frame, seat, h, hop)?)?;
    }
    Ok(told)
}

fn choice_by(
    alloc: Global,
    frame: Frame,
    seat: SeatRef,
    h: &Header,
    hop: &Hop,
) -> Result<TraceChoice, NoMemory>
    ensures { IfOk result (λ told. told ≡ choice_by frame.entry.site.now frame.entry.numbers.now frame.entry.first.now (seat_of seat.entry) h.now hop.now) }
{
    match hop {
        Hop::Discard => Ok(TraceChoice::Discard),
        Hop::Out { name, next } => {
            let out = seat_named(seat.device, name.as_bytes());
            choice_if_any(alloc, frame, seat, h, *next, out)
        }
    }
}

fn choice_if_any(
    alloc: Global,
    frame: Frame,
    seat: SeatRef,
    h: &Header,
    address: u32,
    out: Option<SeatRef>,
) -> Result<TraceChoice, NoMemory>
    ensures { IfOk result (λ told. told ≡ choice_if_any frame.entry.site.now frame.entry.numbers.now frame.entry.first.now (seat_of seat.entry) h.now address (option_map seat_of out.entry)) }
{
    let Some(out) = out else {
        return Ok(TraceChoice::Discard);
    };
    choice_of(alloc, frame, seat, h, address, out)
}

fn choice_of(
    alloc: Global,
    frame: Frame,
    seat: SeatRef,
    h: &Header,
    address: u32,
    out: SeatRef,
) -> Result<TraceChoice, NoMemory>
    ensures { IfOk result (λ told. told ≡ choice_of frame.entry.site.now frame.entry.numbers.now frame.entry.first.now (seat_of seat.entry) h.now address (seat_of out.entry)) }
{
    let translated = going_out(seat, out, h);
    let written = written_going_out(seat, out, h);
    choice_after(alloc, frame, seat, out, address, &translated, written)
}

fn choice_after(
    alloc: Global,
    frame: Frame,
    seat: SeatRef,
    out: SeatRef,
    address: u32,
    h: &Header,
    written: Stamp,
) -> Result<TraceChoice, NoMemory>
    ensures { IfOk result (λ told. told ≡ choice_after frame.entry.site.now frame.entry.numbers.now frame.entry.first.now (seat_of seat.entry) (seat_of out.entry) address h.now written) }
{
    let verdict = said(&seat.device.config, &out.interface.output, h);
    choice_with(alloc, frame, out, address, h, written, verdict)
}

fn choice_with(
    alloc: Global,
    frame: Frame,
    out: SeatRef,
    address: u32,
    h: &Header,
    written: Stamp,
    verdict: Verdict,
) -> Result<TraceChoice, NoMemory>
    ensures { IfOk result (λ told. told ≡ choice_with frame.entry.site.now frame.entry.numbers.now frame.entry.first.now (seat_of out.entry) address h.now written verdict) }
{
    let output = tried(alloc, verdict, &out.interface.output)?;
    Ok(TraceChoice::Out {
        place: out.place,
        next: address,
        src: written.src,
        sport: written.sport,
        dst: written.dst,
        output,
        verdict,
        fate: fate_after(frame, out, address, h, verdict),
    })
}

fn fate_after(frame: Frame, out: SeatRef, address: u32, h: &Header, verdict: Verdict) -> TraceFate
    ensures { result ≡ fate_after frame.entry.site.now frame.entry.numbers.now frame.entry.first.now (seat_of out.entry) address h.now verdict }
{
    if !passes(verdict) {
        return TraceFate::Denied;
    }
    let sent = frame.site.send(out.place, address, h);
    fate_by(frame, &sent)
}

fn fate_by(frame: Frame, sent: &Move) -> TraceFate
    ensures { result ≡ fate_by frame.entry.numbers.now frame.entry.first.now sent.now }
{
    match sent {
        Move::Drop => TraceFate::Lost,
        Move::Local { place: _ } => TraceFate::Lost,
        Move::Lost => TraceFate::Lost,
        Move::Exit { place, header } => TraceFate::Exit {
            outcome: exit_of(frame.first, *place, header),
        },
        Move::Go { place, header } => TraceFate::Go {
            state: number_at(frame.numbers, *place, header),
        },
    }
}

fn number_at(numbers: &States, place: Place, header: &Header) -> Option<u64>
    ensures { result ≡ number_of numbers.now (state_at place header.now) }
{
    let state = State {
        place,
        header: *header,
    };
    numbers.number(&state)
}
