//! What a move adds to the label of a header.

ghost use Rattle.std.specs.Prelude.{◌≡◌, ◌++◌, OnOk, filter_map, option_map};
ghost use Rattle.hdr_bits.specs.declared.header.Header.{Header};
ghost use Rattle.net_types.specs.Walks.{end_by, last_end_by, changed, outcome_of, exit};
ghost use Rattle.header_rules.specs.Outcomes.{outcome_by};

use hdr_bits::Header;
use net_types::{Move, NoMemory, Outcome, Place};

/// Adds the outcomes of the ends by these moves of a walk that the header began; `last` says that the packet arrives with the
/// TTL 1.
pub fn add_outcomes(
    last: bool,
    first: &Header,
    moves: &[Move],
    found: &mut Vec<Outcome>,
) -> Result<(), NoMemory>
    ensures { OnOk result (found.new.items ≡ found.old.items ++ filter_map (outcome_by first.now last) moves.now) }
{
    for one in moves {
        if let Some(outcome) = outcome_by(last, first, one) {
            found.push(outcome)?;
        }
    }
    Ok(())
}

fn outcome_by(last: bool, first: &Header, one: &Move) -> Option<Outcome>
    ensures { result ≡ outcome_by first.now last one.now }
{
    if last {
        return last_outcome_by(one);
    }
    early_outcome_by(first, one)
}

fn last_outcome_by(one: &Move) -> Option<Outcome>
    ensures { (first : Header) → result ≡ option_map (outcome_of first) (last_end_by one.now) }
{
    match one {
        Move::Drop => Some(Outcome::Dropped),
        Move::Local { place } => Some(Outcome::Local { place: *place }),
        Move::Lost => Some(Outcome::Expired),
        Move::Exit {
            place: _,
            header: _,
        } => Some(Outcome::Expired),
        Move::Go {
            place: _,
            header: _,
        } => Some(Outcome::Expired),
    }
}

fn early_outcome_by(first: &Header, one: &Move) -> Option<Outcome>
    ensures { result ≡ option_map (outcome_of first.now) (end_by one.now) }
{
    match one {
        Move::Drop => Some(Outcome::Dropped),
        Move::Local { place } => Some(Outcome::Local { place: *place }),
        Move::Lost => Some(Outcome::Dropped),
        Move::Exit { place, header } => Some(exit_of(first, *place, header)),
        Move::Go {
            place: _,
            header: _,
        } => None,
    }
}

/// The outcome of a packet that left the network: its last header relative to the first.
pub fn exit_of(first: &Header, place: Place, h: &Header) -> Outcome
    ensures { result ≡ outcome_of first.now (exit place h.now) }
{
    Outcome::Exit {
        place,
        src: changed(first.src, h.src),
        dst: changed(first.dst, h.dst),
        sport: changed_port(first.sport, h.sport),
        dport: changed_port(first.dport, h.dport),
    }
}

fn changed(before: u32, after: u32) -> Option<u32>
    ensures { result ≡ changed before after }
{
    if before == after { None } else { Some(after) }
}

fn changed_port(before: u16, after: u16) -> Option<u16>
    ensures { result ≡ changed before after }
{
    if before == after { None } else { Some(after) }
}
