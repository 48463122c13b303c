//! What translation writes into a packet. A rule that matched is told also where it writes what was there.

ghost use Rattle.std.specs.Prelude.{◌≡◌};
ghost use Rattle.net_types.specs.Moves.{coming_in, going_out};
ghost use Rattle.net_view.specs.Borrowed.{seat_of};
ghost use Rattle.walk_trace.specs.Traced.{written_from_outside, written_from_inside, written_coming_in, written_going_out};

use cube_alg::Stamp;
use hdr_bits::Header;
use header_rules::{
    from_inside, from_outside, outer_rule_from, outer_rule_to, plain_rule_from, plain_rule_to,
    port_rule_from, port_rule_to,
};
use net_types::NatRule;
use net_view::{SeatRef, is_inside, is_outside};

/// The header after translation where it comes in.
pub(crate) fn coming_in(seat: SeatRef, h: &Header) -> Header
    ensures { result ≡ coming_in (seat_of seat.entry) h.now }
{
    if is_outside(seat.interface.side) {
        return from_outside(seat.device.config.nat.as_slice(), h);
    }
    *h
}

/// The header after translation where it goes out of another interface of the device.
pub(crate) fn going_out(seat: SeatRef, out: SeatRef, h: &Header) -> Header
    ensures { result ≡ going_out (seat_of seat.entry) (seat_of out.entry) h.now }
{
    if is_inside(seat.interface.side) && is_outside(out.interface.side) {
        return from_inside(seat.device.config.nat.as_slice(), h);
    }
    *h
}

/// What translation writes where the packet comes in.
pub(crate) fn written_coming_in(seat: SeatRef, h: &Header) -> Stamp
    ensures { result ≡ written_coming_in (seat_of seat.entry) h.now }
{
    if is_outside(seat.interface.side) {
        return written_from_outside(seat.device.config.nat.as_slice(), h);
    }
    Stamp::none()
}

/// What translation writes where the packet goes out of another interface of the device.
pub(crate) fn written_going_out(seat: SeatRef, out: SeatRef, h: &Header) -> Stamp
    ensures { result ≡ written_going_out (seat_of seat.entry) (seat_of out.entry) h.now }
{
    if is_inside(seat.interface.side) && is_outside(out.interface.side) {
        return written_from_inside(seat.device.config.nat.as_slice(), h);
    }
    Stamp::none()
}

fn written_from_outside(rules: &[NatRule], h: &Header) -> Stamp
    ensures { result ≡ written_from_outside rules.now h.now }
{
    let src = outer_rule_from(rules, h).map(|r| r.local);
    if let Some(rule) = port_rule_to(rules, h) {
        return Stamp {
            src,
            dst: Some(rule.local),
            sport: None,
            dport: Some(rule.local_port),
        };
    }
    Stamp {
        src,
        dst: plain_rule_to(rules, h).map(|r| r.local),
        sport: None,
        dport: None,
    }
}

fn written_from_inside(rules: &[NatRule], h: &Header) -> Stamp
    ensures { result ≡ written_from_inside rules.now h.now }
{
    let dst = outer_rule_to(rules, h).map(|r| r.global);
    if let Some(rule) = port_rule_from(rules, h) {
        return Stamp {
            src: Some(rule.global),
            dst,
            sport: Some(rule.global_port),
            dport: None,
        };
    }
    Stamp {
        src: plain_rule_from(rules, h).map(|r| r.global),
        dst,
        sport: None,
        dport: None,
    }
}
