//! What a device does with a packet: its moves, one for each choice in order.

ghost use Rattle.std.specs.Prelude.{◌≡◌, [], ◌∷◌, IfOk, IfSome, map, position, option_map};
ghost use Rattle.net_types.specs.Moves.{is_dropped, owns, owner, lets_in};
ghost use Rattle.net_types.specs.Moves.{leave_with, leave, leave_if_any, move_by};
ghost use Rattle.net_view.specs.Borrowed.{seat_of};
ghost use Rattle.walk_trace.specs.Traced.{said};
ghost use Rattle.walk_trace.specs.Kept.{IsSeated};
ghost use Rattle.walk_trace.specs.Numbered.{ordered_moves_by, ordered_moves_in, ordered_moves_at, ordered_moves};

use crate::site::Site;
use crate::translation::{coming_in, going_out};
use hdr_bits::Header;
use header_rules::{first_match, is_dropped, passes};
use net_types::{Config, Hop, Interface, Move, NoMemory, State, Text, Verdict};
use net_view::{SeatRef, has_live_address, is_enabled, list_named, seat_in, seat_named};
use std::alloc::Global;

/// What the device's list of this name says.
pub(crate) fn said(config: &Config, name: &Option<Text>, h: &Header) -> Verdict
    ensures { result ≡ said config.now name.now h.now }
{
    first_match(list_named(config, name), h)
}

/// The interface of the device that has the address.
pub(crate) fn owner<'a>(seat: SeatRef<'a>, address: u32) -> Option<SeatRef<'a>>
    ensures { option_map seat_of result ≡ owner (seat_of seat.entry) address }
{
    let Some(i) = position_owning(seat.device.config.interfaces.as_slice(), address) else {
        return None;
    };
    seat_in(seat.device, i)
}

fn position_owning(interfaces: &[Interface], address: u32) -> Option<usize>
    ensures { result ≡ position (owns address) interfaces.now }
{
    interfaces.iter().position(|i| owns(address, i))
}

fn owns(address: u32, interface: &Interface) -> bool
    ensures { result ≡ owns address interface.now }
{
    has_live_address(interface, address)
}

/// All that may become of a packet in a state, a move for each choice in order. They are found once for a state whose moves
/// were kept.
pub(crate) fn ordered_moves(
    alloc: Global,
    site: &Site,
    state: &State,
) -> Result<Vec<Move>, NoMemory>
    ensures { IfOk result (λ answer. answer.items ≡ ordered_moves site.now state.now) }
{
    let Some(kept) = site.kept_moves(state) else {
        return moves_found(alloc, site, state);
    };
    let mut answer = Vec::new(alloc);
    answer.extend_from_slice(kept)?;
    Ok(answer)
}

/// Keeps the moves of a state, and the choices that its device gives the packet, so that they are found once.
pub(crate) fn keep_moves(alloc: Global, site: &mut Site, state: &State) -> Result<(), NoMemory>
    ensures { site.new ≡ site.old }
{
    if site.kept_moves(state).is_some() {
        return Ok(());
    }
    keep_choices(alloc, site, state)?;
    let moves = moves_found(alloc, site, state)?;
    site.keep_moves(state, moves)
}

// Keeps the choices for a packet in a state, where the device looks its destination up.
fn keep_choices(alloc: Global, site: &mut Site, state: &State) -> Result<(), NoMemory>
    ensures { site.new ≡ site.old }
{
    let Some(seat) = site.seat(state.place) else {
        return Ok(());
    };
    if !lets_in(seat, &state.header) {
        return Ok(());
    }
    let h = coming_in(seat, &state.header);
    if is_dropped(&seat.device.config, h.dst) || owner(seat, h.dst).is_some() {
        return Ok(());
    }
    site.keep_choices(alloc, seat.device, h.dst)
}

fn moves_found(alloc: Global, site: &Site, state: &State) -> Result<Vec<Move>, NoMemory>
    ensures { IfOk result (λ answer. answer.items ≡ ordered_moves site.now state.now) }
{
    ordered_moves_at(alloc, site, site.seat(state.place), &state.header)
}

fn ordered_moves_at(
    alloc: Global,
    site: &Site,
    seat: Option<SeatRef>,
    h: &Header,
) -> Result<Vec<Move>, NoMemory>
    requires { IfSome seat (λ s. IsSeated site.now (seat_of s)) }
    ensures { IfOk result (λ answer. answer.items ≡ ordered_moves_at site.now (option_map seat_of seat.entry) h.now) }
{
    let Some(seat) = seat else {
        return just(alloc, Move::Drop);
    };
    if !lets_in(seat, h) {
        return just(alloc, Move::Drop);
    }
    ordered_moves_in(alloc, site, seat, &coming_in(seat, h))
}

fn lets_in(seat: SeatRef, h: &Header) -> bool
    ensures { result ≡ lets_in (seat_of seat.entry) h.now }
{
    is_enabled(seat.interface) && passes(said(&seat.device.config, &seat.interface.input, h))
}

fn ordered_moves_in(
    alloc: Global,
    site: &Site,
    seat: SeatRef,
    h: &Header,
) -> Result<Vec<Move>, NoMemory>
    requires { IsSeated site.now (seat_of seat) }
    ensures { IfOk result (λ answer. answer.items ≡ ordered_moves_in site.now (seat_of seat.entry) h.now) }
{
    if is_dropped(&seat.device.config, h.dst) {
        return just(alloc, Move::Drop);
    }
    ordered_moves_by(alloc, site, seat, h, owner(seat, h.dst))
}

fn ordered_moves_by(
    alloc: Global,
    site: &Site,
    seat: SeatRef,
    h: &Header,
    own: Option<SeatRef>,
) -> Result<Vec<Move>, NoMemory>
    requires { IsSeated site.now (seat_of seat) }
    ensures { IfOk result (λ answer. answer.items ≡ ordered_moves_by site.now (seat_of seat.entry) h.now (option_map seat_of own.entry)) }
{
    if let Some(own) = own {
        return just(alloc, Move::Local { place: own.place });
    }
    let hops = site.choices(alloc, seat.device, h.dst)?;
    moves_by(alloc, site, seat, h, &hops)
}

fn moves_by(
    alloc: Global,
    site: &Site,
    seat: SeatRef,
    h: &Header,
    hops: &[Hop],
) -> Result<Vec<Move>, NoMemory>
    ensures { IfOk result (λ answer. answer.items ≡ map (move_by site.now (seat_of seat.entry) h.now) hops.now) }
{
    let mut answer = Vec::new(alloc);
    for hop in hops {
        answer.push(move_by(site, seat, h, hop))?;
    }
    Ok(answer)
}

fn just(alloc: Global, one: Move) -> Result<Vec<Move>, NoMemory>
    ensures { IfOk result (λ answer. answer.items ≡ one ∷ []) }
{
    let mut answer = Vec::new(alloc);
    answer.push(one)?;
    Ok(answer)
}

fn move_by(site: &Site, seat: SeatRef, h: &Header, hop: &Hop) -> Move
    ensures { result ≡ move_by site.now (seat_of seat.entry) h.now hop.now }
{
    match hop {
        Hop::Discard => Move::Drop,
        Hop::Out { name, next } => {
            leave_if_any(
                site,
                seat,
                h,
                *next,
                seat_named(seat.device, name.as_bytes()),
            )
        }
    }
}

fn leave_if_any(site: &Site, seat: SeatRef, h: &Header, address: u32, out: Option<SeatRef>) -> Move
    ensures { result ≡ leave_if_any site.now (seat_of seat.entry) h.now address (option_map seat_of out.entry) }
{
    let Some(out) = out else {
        return Move::Lost;
    };
    leave(site, seat, h, address, out)
}

fn leave(site: &Site, seat: SeatRef, h: &Header, address: u32, out: SeatRef) -> Move
    ensures { result ≡ leave site.now (seat_of seat.entry) h.now address (seat_of out.entry) }
{
    let translated = going_out(seat, out, h);
    leave_with(site, seat, &translated, address, out)
}

fn leave_with(site: &Site, seat: SeatRef, h: &Header, address: u32, out: SeatRef) -> Move
    ensures { result ≡ leave_with site.now (seat_of seat.entry) h.now address (seat_of out.entry) }
{
    if passes(said(&seat.device.config, &out.interface.output, h)) {
        return site.send(out.place, address, h);
    }
    Move::Lost
}
