//! Leaving: translation from inside, the output list, and the link.

ghost use Rattle.std.specs.Prelude.{◌≡◌};
ghost use Rattle.cube_alg.specs.OnCubes.{on_cube_map};
ghost use Rattle.net_view.specs.Borrowed.{seat_of};
ghost use Rattle.net_types.specs.Moves.{going_out, leave, leave_if_any, move_by};
ghost use Rattle.net_types.specs.World.{seat_named};
ghost use Rattle.link_sends.specs.Sending.{next_address};
ghost use Rattle.fib_lookup.specs.Forms.{hop_of};
ghost use Rattle.net_forms.specs.Forms.{IsSeatForm};
ghost use Rattle.net_forms.specs.Seats.{IsCompiledSeat};
ghost use Rattle.transfer_rel.specs.Stages.{OfLeft, OfPassedOn, OfTranslated, stamped_move};

use crate::StampMove;
use crate::gate::{Gate, ask_list};
use crate::translate::{Stamped, translate_out, untranslated};
use cube_alg::{OnCube, Stamp};
use fib_lookup::HopForm;
use hdr_bits::Cube;
use link_sends::{Next, Sent};
use net_forms::{CompiledSeat, FormedSeat};
use net_types::Place;
use net_view::{is_inside, is_outside};

/// The move of the headers of the cube by a choice of the lookup.
pub(crate) fn leave_by(at: CompiledSeat, form: &HopForm, cube: &Cube) -> OnCube<StampMove>
    requires { IsCompiledSeat at }
    ensures { OfLeft (λ g. move_by at.entry.wiring.now (seat_of at.entry.seat) g (hop_of g.dst form.now)) cube.now result }
{
    match form {
        HopForm::Discard => OnCube::All {
            answer: StampMove::Drop,
        },
        HopForm::Direct { name } => leave_named(at, name.as_bytes(), Next::Destination, cube),
        HopForm::Via { name, next } => {
            let next = Next::Address { address: *next };
            leave_named(at, name.as_bytes(), next, cube)
        }
    }
}

// Out of the interface of this name. Without one the packet is lost.
fn leave_named(at: CompiledSeat, name: &[u8], next: Next, cube: &Cube) -> OnCube<StampMove>
    requires { IsCompiledSeat at }
    ensures { OfLeft (λ g. leave_if_any at.entry.wiring.now (seat_of at.entry.seat) g (next_address next g) (seat_named at.entry.seat.device.now name.now)) cube.now result }
{
    let Some(out) = at.named(name) else {
        return OnCube::All {
            answer: StampMove::Lost,
        };
    };
    leave(at, out, next, cube)
}

// Out of this interface of the device.
fn leave(at: CompiledSeat, out: FormedSeat, next: Next, cube: &Cube) -> OnCube<StampMove>
    requires at { IsCompiledSeat at }
    requires out { IsSeatForm at.tables.now.diagrams at.seat.device.now.config out.seat.interface.now out.form }
    ensures { OfLeft (λ g. leave at.entry.wiring.now (seat_of at.entry.seat) g (next_address next g) (seat_of out.entry.seat)) cube.now result }
{
    match go_out(at, out, cube) {
        OnCube::Divides { bit } => OnCube::Divides { bit },
        OnCube::All { answer } => {
            let sent = pass_on(at, out, next, cube, &answer.cube);
            sent_with(out.seat.place, answer.stamp, sent)
        }
    }
}

// The move of headers that are sent with the stamp.
fn sent_with(place: Place, stamp: Stamp, sent: OnCube<Sent>) -> OnCube<StampMove>
    ensures { result ≡ on_cube_map (stamped_move place stamp) sent }
{
    match sent {
        OnCube::Divides { bit } => OnCube::Divides { bit },
        OnCube::All { answer } => OnCube::All {
            answer: stamped_move(place, stamp, answer),
        },
    }
}

fn stamped_move(place: Place, stamp: Stamp, sent: Sent) -> StampMove
    ensures { result ≡ stamped_move place stamp sent }
{
    match sent {
        Sent::Exit => StampMove::Exit { place, stamp },
        Sent::Go { place } => StampMove::Go { place, stamp },
        Sent::Lost => StampMove::Lost,
    }
}

// The output list sees the translated headers, and what it denies is lost. The next address is that of the headers as
// they came to the lookup.
fn pass_on(
    at: CompiledSeat,
    out: FormedSeat,
    next: Next,
    cube: &Cube,
    translated: &Cube,
) -> OnCube<Sent>
    requires { IsSeatForm at.tables.now.diagrams at.seat.device.now.config out.seat.interface.now out.form }
    ensures { OfPassedOn at.entry.wiring.now (seat_of at.entry.seat) (seat_of out.entry.seat) next cube.now translated.now result }
{
    match ask_list(&at.tables.diagrams, out.form.output, translated) {
        OnCube::Divides { bit } => OnCube::Divides { bit },
        OnCube::All { answer } => match answer {
            Gate::Denies => OnCube::All { answer: Sent::Lost },
            Gate::Passes => at.wiring.send_on(out.seat.place, next, cube),
        },
    }
}

/// From an inside to an outside interface they are translated from inside.
fn go_out(at: CompiledSeat, out: FormedSeat, cube: &Cube) -> OnCube<Stamped>
    requires { IsCompiledSeat at }
    ensures { OfTranslated (going_out (seat_of at.entry.seat) (seat_of out.entry.seat)) cube.now result }
{
    if is_inside(at.seat.interface.side) && is_outside(out.seat.interface.side) {
        let rules = at.seat.device.config.nat.as_slice();
        return translate_out(
            &at.tables.diagrams,
            at.device.rules.inside,
            at.device.rules.outer_inside,
            rules,
            cube,
        );
    }
    untranslated(cube)
}
