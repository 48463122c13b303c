//! A group as a person reads it.
ghost use Rattle.std.specs.Prelude.{◌≡◌, ◌<◌, ◌^◌, ℕ, IsTrue, IfOk};
ghost use Rattle.std.specs.List.{list_any};
ghost use Rattle.report_groups.specs.Groups.{HasFields};
ghost use Rattle.report_groups.specs.Shown.{is_established, is_established_as, FlagsStandFor, ShowsGroup};
ghost use Rattle.report_groups.specs.Values.{matches};

use crate::spans::values_of;
use crate::types::{Flags, Group, Pattern, Shown};
use net_types::{List, NoMemory};
use std::alloc::Global;

/// The fields of a group as a person reads them: they hold exactly the group's headers.
///
/// How the values of a field are divided isn't promised.
pub(crate) fn shown_of(alloc: Global, group: &Group) -> Result<Shown, NoMemory>
    requires { HasFields group.now }
    ensures { IfOk result (ShowsGroup group.now) }
{
    let [dst, src, proto, dport, sport, flags] = group.fields.as_slice() else {
        unreachable!("a group has six fields");
    };
    Ok(Shown {
        dst: values_of(alloc, dst.as_slice(), 32)?,
        src: values_of(alloc, src.as_slice(), 32)?,
        proto: values_of(alloc, proto.as_slice(), 8)?,
        dport: values_of(alloc, dport.as_slice(), 16)?,
        sport: values_of(alloc, sport.as_slice(), 16)?,
        flags: flags_of(alloc, flags.as_slice())?,
    })
}

// The flags by the word that entries have for them, where there is one.
fn flags_of(alloc: Global, patterns: &[Pattern]) -> Result<Flags, NoMemory>
    ensures { IfOk result (FlagsStandFor patterns.now) }
{
    if are_established(patterns, true) {
        return Ok(Flags::Established);
    }
    if are_established(patterns, false) {
        return Ok(Flags::NotEstablished);
    }
    Ok(Flags::Matching(List::new(patterns.to_vec(alloc)?)))
}

// Whether the patterns hold exactly the flags of which ACK or RST is set, or exactly the others.
fn are_established(patterns: &[Pattern], set: bool) -> bool
    ensures { IsTrue result → (v : ℕ) → v < 2 ^ 8 → list_any (matches v) patterns.now ≡ is_established_as set v }
{
    for flags in 0..256 {
        if is_matched(flags, patterns) != is_established_as(flags, set) {
            return false;
        }
    }
    true
}

fn is_matched(value: u32, patterns: &[Pattern]) -> bool
    ensures { result ≡ list_any (matches value) patterns.now }
{
    patterns.iter().any(|p| value & p.fixed == p.bits)
}

fn is_established(flags: u32) -> bool
    ensures { result ≡ is_established flags }
{
    flags & ESTABLISHED != 0
}

fn is_established_as(flags: u32, set: bool) -> bool
    ensures { result ≡ is_established_as set flags }
{
    if set {
        is_established(flags)
    } else {
        !is_established(flags)
    }
}

// ACK and RST.
const ESTABLISHED: u32 = 20;
