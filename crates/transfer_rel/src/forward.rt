//! Forwarding: what a device does with the destination, and each choice of the lookup.

ghost use Rattle.std.specs.Prelude.{◌≡◌, ◌∷◌, ◌↔◌, [], ℕ, Some, Contains, IfOk, IsTrue, OnOk, map, slice_get, true};
ghost use Rattle.hdr_bits.specs.declared.header.Header.{Header};
ghost use Rattle.hdr_bits.specs.HeaderBits.{number, IsHeader};
ghost use Rattle.hdr_bits.specs.CubeBits.{IsIn};
ghost use Rattle.cube_alg.specs.declared.on_cube.OnCube.TheVariants as answer;
ghost use Rattle.net_view.specs.Borrowed.{seat_of};
ghost use Rattle.net_types.specs.Moves.{move_by, moves_in};
ghost use Rattle.fib_lookup.specs.Forms.{hop_of};
ghost use Rattle.device_fates.specs.Fates.{HasFate, IsFate};
ghost use Rattle.net_forms.specs.Seats.{IsCompiledSeat};
ghost use Rattle.transfer_rel.specs.declared.moves.StampMove.TheVariants.{Local};
ghost use Rattle.transfer_rel.specs.Stages.{AddsChoice, AddsMove, OfMovesAfter, after};

use crate::leave::leave_by;
use crate::{CubeMoves, StampMove};
use cube_alg::{OnCube, Stamp};
use device_fates::Fate;
use fib_lookup::HopForm;
use hdr_bits::Cube;
use net_forms::CompiledSeat;
use net_types::{List, NetDevice, NoMemory, Place};
use std::alloc::Global;

/// The moves of headers that came in, with the stamp that made them, as headers of the cube.
pub(crate) fn forward(
    alloc: Global,
    at: CompiledSeat,
    stamp: Stamp,
    cube: &Cube,
) -> Result<CubeMoves, NoMemory>
    requires { IsCompiledSeat at }
    ensures { IfOk result (λ answer. OfMovesAfter (moves_in at.entry.wiring.now (seat_of at.entry.seat)) stamp cube.now answer) }
{
    match at.tables.diagrams.divide(at.device.fates, cube) {
        OnCube::Divides { bit } => Ok(OnCube::Divides { bit }),
        OnCube::All { answer } => by_number(alloc, at, answer, stamp, cube),
    }
}

// By the number of the fate, which all headers of the cube have.
fn by_number(
    alloc: Global,
    at: CompiledSeat,
    value: Option<u32>,
    stamp: Stamp,
    cube: &Cube,
) -> Result<CubeMoves, NoMemory>
    requires at { IsCompiledSeat at }
    requires fate { (g : Header) → IsHeader g → IsIn cube.now (number g) → HasFate at.seat.device.now.config at.tables.now.fates value g.dst }
    ensures { IfOk result (λ answer. OfMovesAfter (moves_in at.entry.wiring.now (seat_of at.entry.seat)) stamp cube.now answer) }
{
    let Some(number) = value else {
        return just(alloc, StampMove::Drop);
    };
    let Some(fate) = at.tables.fates.get(number) else {
        return just(alloc, StampMove::Drop);
    };
    by_fate(alloc, at, fate, stamp, cube)
}

fn by_fate(
    alloc: Global,
    at: CompiledSeat,
    fate: &Fate,
    stamp: Stamp,
    cube: &Cube,
) -> Result<CubeMoves, NoMemory>
    requires at { IsCompiledSeat at }
    requires fate { (g : Header) → IsHeader g → IsIn cube.now (number g) → IsFate at.seat.device.now.config fate.now g.dst }
    ensures { IfOk result (λ answer. OfMovesAfter (moves_in at.entry.wiring.now (seat_of at.entry.seat)) stamp cube.now answer) }
{
    match fate {
        Fate::Dropped => just(alloc, StampMove::Drop),
        Fate::Own { position } => local(alloc, at.seat.device, *position),
        Fate::Sent { choices } => by_choices(alloc, at, choices.as_slice(), stamp, cube),
    }
}

// It is for the interface at this position.
fn local(alloc: Global, device: &NetDevice, position: u32) -> Result<CubeMoves, NoMemory>
    ensures { IfOk result (λ r. (n : ℕ) → Some n ≡ slice_get device.now.numbers position → r ≡ answer.All (Local (record { device = device.now.name; interface = n }) ∷ [])) }
{
    let Some(number) = number_at(device.numbers.as_slice(), position) else {
        return just(alloc, StampMove::Drop);
    };
    let place = Place {
        device: device.name,
        interface: number,
    };
    just(alloc, StampMove::Local { place })
}

fn number_at(numbers: &[u32], position: u32) -> Option<u32>
    ensures { result ≡ slice_get numbers.now position }
{
    numbers.get(position as usize).copied()
}

fn by_choices(
    alloc: Global,
    at: CompiledSeat,
    choices: &[HopForm],
    stamp: Stamp,
    cube: &Cube,
) -> Result<CubeMoves, NoMemory>
    requires { IsCompiledSeat at }
    ensures { IfOk result (λ answer. OfMovesAfter (λ g. map (move_by at.entry.wiring.now (seat_of at.entry.seat) g) (map (hop_of g.dst) choices.now)) stamp cube.now answer) }
{
    let mut moves = Vec::new(alloc);
    for form in choices {
        let left = leave_by(at, form, cube);
        if let Some(bit) = add_choice(&mut moves, left, &stamp)? {
            return Ok(OnCube::Divides { bit });
        }
    }
    Ok(OnCube::All {
        answer: List::new(moves),
    })
}

// Adds the move of a choice, or answers the bit that divides.
fn add_choice(
    moves: &mut Vec<StampMove>,
    left: OnCube<StampMove>,
    stamp: &Stamp,
) -> Result<Option<u32>, NoMemory>
    ensures { IfOk result (AddsChoice stamp.now left moves.old.items moves.new.items) }
{
    match left {
        OnCube::Divides { bit } => Ok(Some(bit)),
        OnCube::All { answer } => {
            add_move(moves, after(stamp, answer))?;
            Ok(None)
        }
    }
}

// The move, of headers that the stamp made.
fn after(stamp: &Stamp, step: StampMove) -> StampMove
    ensures { result ≡ after stamp.now step }
{
    match step {
        StampMove::Exit {
            place,
            stamp: later,
        } => StampMove::Exit {
            place,
            stamp: stamp.then(&later),
        },
        StampMove::Go {
            place,
            stamp: later,
        } => StampMove::Go {
            place,
            stamp: stamp.then(&later),
        },
        StampMove::Drop => StampMove::Drop,
        StampMove::Local { place } => StampMove::Local { place },
        StampMove::Lost => StampMove::Lost,
    }
}

// Adds the move where it isn't there yet.
fn add_move(moves: &mut Vec<StampMove>, step: StampMove) -> Result<(), NoMemory>
    ensures { OnOk result (AddsMove step moves.old.items moves.new.items) }
{
    if has_move(moves, &step) {
        return Ok(());
    }
    moves.push(step)?;
    Ok(())
}

/// Whether the move is among these.
fn has_move(moves: &[StampMove], step: &StampMove) -> bool
    ensures { result ≡ true → Contains moves.now step.now }
{
    for m in moves {
        if same_move(m, step) {
            return true;
        }
    }
    false
}

fn same_move(a: &StampMove, b: &StampMove) -> bool
    ensures { result ≡ true → a.now ≡ b.now }
{
    match (*a, *b) {
        (StampMove::Drop, StampMove::Drop) => true,
        (StampMove::Lost, StampMove::Lost) => true,
        (StampMove::Local { place: p }, StampMove::Local { place: q }) => same_place(p, q),
        (StampMove::Exit { place: p, stamp: s }, StampMove::Exit { place: q, stamp: t }) => {
            same_place(p, q) && same_stamp(s, t)
        }
        (StampMove::Go { place: p, stamp: s }, StampMove::Go { place: q, stamp: t }) => {
            same_place(p, q) && same_stamp(s, t)
        }
        _ => false,
    }
}

pub(crate) fn same_place(p: Place, q: Place) -> bool
    ensures { IsTrue result ↔ (p ≡ q) }
{
    p == q
}

fn same_stamp(s: Stamp, t: Stamp) -> bool
    ensures { result ≡ true → s ≡ t }
{
    s == t
}

/// This move alone.
pub(crate) fn just(alloc: Global, step: StampMove) -> Result<CubeMoves, NoMemory>
    ensures { IfOk result (λ r. r ≡ answer.All (step ∷ [])) }
{
    let mut moves = Vec::new(alloc);
    moves.push(step)?;
    Ok(OnCube::All {
        answer: List::new(moves),
    })
}
