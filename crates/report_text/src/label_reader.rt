//! Labels, read as they are written.
ghost use Rattle.std.specs.Prelude.{◌≡◌, ℕ, List, [], Option, length, option_map, codes};
ghost use Rattle.ios_words.specs.Words.{address_of};
ghost use Rattle.report_text.specs.Reading.{Gives, place_at, value_at, change_at, port_of, local_at, exit_at, outcome_at, outcomes_from, label_at};

use crate::names::Numbers;
use crate::reader::ReportFail;
use crate::words::{is_next, next, skip};
use ios_words::{address, number};
use net_types::{Label, Outcome, Place};
use std::alloc::Global;

/// The next two words as a place, and what stands behind them.
#[tactic(auto, unfolding(crate::specs::Reading::place_at))]
pub(crate) fn read_place<'t>(numbers: &Numbers, bytes: &'t [u8]) -> Option<(Place, &'t [u8])>
    ensures { option_map (λ x. (x.0, x.1.now)) result ≡ place_at numbers.now bytes.now }
{
    let (word, rest) = next(bytes);
    let device = numbers.get(word)?;
    let (word, rest) = next(rest);
    let interface = numbers.get(word)?;
    Some((Place { device, interface }, rest))
}

fn port(word: &[u8]) -> Option<u16>
    ensures { result ≡ port_of word.now }
{
    let value = number(word, 0, 65535)?;
    Some(value as u16)
}

#[tactic(auto, unfolding(crate::specs::Reading::value_at))]
fn read_address(bytes: &[u8]) -> Option<(Option<u32>, &[u8])>
    ensures { option_map (λ x. (x.0, x.1.now)) result ≡ value_at address_of bytes.now }
{
    let (word, rest) = next(bytes);
    let value = address(word)?;
    Some((Some(value), rest))
}

#[tactic(auto, unfolding(crate::specs::Reading::value_at))]
fn read_port(bytes: &[u8]) -> Option<(Option<u16>, &[u8])>
    ensures { option_map (λ x. (x.0, x.1.now)) result ≡ value_at port_of bytes.now }
{
    let (word, rest) = next(bytes);
    let value = port(word)?;
    Some((Some(value), rest))
}

// An address behind its name, where that is the next word.
#[tactic(auto, unfolding(crate::specs::Reading::change_at))]
fn changed_address<'t>(name: &[u8], bytes: &'t [u8]) -> Option<(Option<u32>, &'t [u8])>
    ensures { option_map (λ x. (x.0, x.1.now)) result ≡ change_at name.now address_of bytes.now }
{
    if is_next(name, bytes) {
        return read_address(skip(bytes));
    }
    Some((None, bytes))
}

// A port behind its name, where that is the next word.
#[tactic(auto, unfolding(crate::specs::Reading::change_at))]
fn changed_port<'t>(name: &[u8], bytes: &'t [u8]) -> Option<(Option<u16>, &'t [u8])>
    ensures { option_map (λ x. (x.0, x.1.now)) result ≡ change_at name.now port_of bytes.now }
{
    if is_next(name, bytes) {
        return read_port(skip(bytes));
    }
    Some((None, bytes))
}

#[tactic(auto, unfolding(crate::specs::Reading::local_at))]
fn read_local<'t>(numbers: &Numbers, bytes: &'t [u8]) -> Option<(Outcome, &'t [u8])>
    ensures { option_map (λ x. (x.0, x.1.now)) result ≡ local_at numbers.now bytes.now }
{
    let (place, rest) = read_place(numbers, bytes)?;
    Some((Outcome::Local { place }, rest))
}

#[tactic(auto, unfolding(crate::specs::Reading::exit_at))]
fn read_exit<'t>(numbers: &Numbers, bytes: &'t [u8]) -> Option<(Outcome, &'t [u8])>
    ensures { option_map (λ x. (x.0, x.1.now)) result ≡ exit_at numbers.now bytes.now }
{
    let (place, rest) = read_place(numbers, bytes)?;
    let (src, rest) = changed_address(b"src", rest)?;
    let (dst, rest) = changed_address(b"dst", rest)?;
    let (sport, rest) = changed_port(b"sport", rest)?;
    let (dport, rest) = changed_port(b"dport", rest)?;
    let outcome = Outcome::Exit {
        place,
        src,
        dst,
        sport,
        dport,
    };
    Some((outcome, rest))
}

#[tactic(auto, unfolding(crate::specs::Reading::outcome_at))]
fn read_outcome<'t>(numbers: &Numbers, bytes: &'t [u8]) -> Option<(Outcome, &'t [u8])>
    ensures { option_map (λ x. (x.0, x.1.now)) result ≡ outcome_at numbers.now bytes.now }
{
    if is_next(b"drop", bytes) {
        return Some((Outcome::Dropped, skip(bytes)));
    }
    if is_next(b"expired", bytes) {
        return Some((Outcome::Expired, skip(bytes)));
    }
    if is_next(b"local", bytes) {
        return read_local(numbers, skip(bytes));
    }
    if is_next(b"exit", bytes) {
        return read_exit(numbers, skip(bytes));
    }
    None
}

// Outcomes with a word between each two, at most `most`.
#[tactic(auto, using(crate::proofs::Steps::outcomes_more, crate::proofs::Steps::outcomes_stop, crate::proofs::Steps::outcomes_done, crate::proofs::Steps::outcomes_out))]
fn read_outcomes(
    alloc: Global,
    numbers: &Numbers,
    most: usize,
    bytes: &[u8],
) -> Result<Vec<Outcome>, ReportFail>
    ensures { Gives (λ outcomes. outcomes.items) result (outcomes_from numbers.now most [] bytes.now) }
{
    let mut outcomes = Vec::new(alloc);
    let mut rest = bytes;
    for _turn in 0..most {
        if rest.is_empty() {
            return Ok(outcomes);
        }
        let Some((outcome, after)) = read_outcome(numbers, rest) else {
            return Err(ReportFail::NotReport);
        };
        outcomes.push(outcome)?;
        rest = skip(after);
    }
    Ok(outcomes)
}

/// The label behind the first word of a line.
#[tactic(auto, unfolding(crate::specs::Reading::label_at))]
pub(crate) fn read_label(alloc: Global, numbers: &Numbers, line: &[u8]) -> Result<Label, ReportFail>
    ensures { Gives (λ label. label) result (label_at numbers.now line.now) }
{
    let outcomes = read_outcomes(alloc, numbers, line.len(), skip(line))?;
    if outcomes.is_empty() {
        return Err(ReportFail::NotReport);
    }
    let label = Label::of(outcomes)?;
    Ok(label)
}
