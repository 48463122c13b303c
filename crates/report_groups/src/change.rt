//! What a change is to a person.
ghost use Rattle.std.specs.Prelude.{◌≡◌};
ghost use Rattle.std.specs.List.{list_any};
ghost use Rattle.report_groups.specs.Changes.{appears, ends_alike, is_same, same_value, translates_alike, gets_through, is_lost};
ghost use Rattle.report_groups.specs.Changes.{is_dropped, is_expired, through_among, through_alike, change_through, change_of};

use crate::types::Change;
use net_types::Outcome;

/// What the change from the old outcomes to the new ones is.
///
/// The first that holds of: a loop is new, nothing gets through any more, something gets through for the first time. Where
/// something gets through in both networks, `change_through` says the rest; where nothing does in either, packets that all
/// loop now loop, and else a loop is gone.
pub fn change_of(old: &[Outcome], new: &[Outcome]) -> Change
    ensures { result ≡ change_of old.now new.now }
{
    if has_expired(new) && !has_expired(old) {
        return Change::Loops;
    }
    if has_through(old) && !has_through(new) {
        return Change::Closes;
    }
    if has_through(new) && !has_through(old) {
        return Change::Opens;
    }
    if has_through(new) {
        return change_through(old, new);
    }
    if has_dropped(new) {
        Change::LoopGone
    } else {
        Change::Loops
    }
}

// What the change is where something gets through in both networks.
fn change_through(old: &[Outcome], new: &[Outcome]) -> Change
    ensures { result ≡ change_through old.now new.now }
{
    if (has_lost(old) && !has_lost(new)) || (has_lost(new) && !has_lost(old)) {
        return Change::Sometimes;
    }
    if !is_same_through(old, new) {
        return if ends_through_alike(old, new) {
            Change::Translated
        } else {
            Change::Moves
        };
    }
    if has_expired(old) && !has_expired(new) {
        Change::LoopGone
    } else {
        Change::Sometimes
    }
}

fn is_dropped(outcome: &Outcome) -> bool
    ensures { result ≡ is_dropped outcome.now }
{
    match outcome {
        Outcome::Dropped => true,
        _ => false,
    }
}

fn is_expired(outcome: &Outcome) -> bool
    ensures { result ≡ is_expired outcome.now }
{
    match outcome {
        Outcome::Expired => true,
        _ => false,
    }
}

fn gets_through(outcome: &Outcome) -> bool
    ensures { result ≡ gets_through outcome.now }
{
    match outcome {
        Outcome::Local { .. } => true,
        Outcome::Exit { .. } => true,
        _ => false,
    }
}

fn is_lost(outcome: &Outcome) -> bool
    ensures { result ≡ is_lost outcome.now }
{
    !gets_through(outcome)
}

fn has_dropped(outcomes: &[Outcome]) -> bool
    ensures { result ≡ list_any is_dropped outcomes.now }
{
    outcomes.iter().any(|o| is_dropped(o))
}

fn has_expired(outcomes: &[Outcome]) -> bool
    ensures { result ≡ list_any is_expired outcomes.now }
{
    outcomes.iter().any(|o| is_expired(o))
}

fn has_through(outcomes: &[Outcome]) -> bool
    ensures { result ≡ list_any gets_through outcomes.now }
{
    outcomes.iter().any(|o| gets_through(o))
}

fn has_lost(outcomes: &[Outcome]) -> bool
    ensures { result ≡ list_any is_lost outcomes.now }
{
    outcomes.iter().any(|o| is_lost(o))
}

fn ends_alike(a: &Outcome, b: &Outcome) -> bool
    ensures { result ≡ ends_alike a.now b.now }
{
    match (*a, *b) {
        (Outcome::Dropped, Outcome::Dropped) => true,
        (Outcome::Expired, Outcome::Expired) => true,
        (Outcome::Local { place: p }, Outcome::Local { place: q }) => {
            p.device == q.device && p.interface == q.interface
        }
        (Outcome::Exit { place: p, .. }, Outcome::Exit { place: q, .. }) => {
            p.device == q.device && p.interface == q.interface
        }
        _ => false,
    }
}

fn same_address(a: Option<u32>, b: Option<u32>) -> bool
    ensures { result ≡ same_value a b }
{
    match (a, b) {
        (None, None) => true,
        (Some(a), Some(b)) => a == b,
        _ => false,
    }
}

fn same_port(a: Option<u16>, b: Option<u16>) -> bool
    ensures { result ≡ same_value a b }
{
    match (a, b) {
        (None, None) => true,
        (Some(a), Some(b)) => a == b,
        _ => false,
    }
}

fn translates_alike(a: &Outcome, b: &Outcome) -> bool
    ensures { result ≡ translates_alike a.now b.now }
{
    match (*a, *b) {
        (
            Outcome::Exit {
                src,
                dst,
                sport,
                dport,
                ..
            },
            Outcome::Exit {
                src: other_src,
                dst: other_dst,
                sport: other_sport,
                dport: other_dport,
                ..
            },
        ) => {
            same_address(src, other_src)
                && same_address(dst, other_dst)
                && same_port(sport, other_sport)
                && same_port(dport, other_dport)
        }
        _ => true,
    }
}

fn is_same(a: &Outcome, b: &Outcome) -> bool
    ensures { result ≡ is_same a.now b.now }
{
    ends_alike(a, b) && translates_alike(a, b)
}

fn has_end(outcomes: &[Outcome], outcome: &Outcome) -> bool
    ensures { result ≡ list_any (ends_alike outcome.now) outcomes.now }
{
    outcomes.iter().any(|o| ends_alike(outcome, o))
}

fn has_same(outcomes: &[Outcome], outcome: &Outcome) -> bool
    ensures { result ≡ list_any (is_same outcome.now) outcomes.now }
{
    outcomes.iter().any(|o| is_same(outcome, o))
}

fn ends_among(here: &[Outcome], there: &[Outcome]) -> bool
    ensures { result ≡ through_among ends_alike here.now there.now }
{
    here.iter().all(|o| is_lost(o) || has_end(there, o))
}

fn is_among(here: &[Outcome], there: &[Outcome]) -> bool
    ensures { result ≡ through_among is_same here.now there.now }
{
    here.iter().all(|o| is_lost(o) || has_same(there, o))
}

fn ends_through_alike(old: &[Outcome], new: &[Outcome]) -> bool
    ensures { result ≡ through_alike ends_alike old.now new.now }
{
    ends_among(old, new) && ends_among(new, old)
}

fn is_same_through(old: &[Outcome], new: &[Outcome]) -> bool
    ensures { result ≡ through_alike is_same old.now new.now }
{
    is_among(old, new) && is_among(new, old)
}
