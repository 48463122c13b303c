//! Findings about places.
ghost use Rattle.std.specs.Prelude.{◌≡◌, ◌++◌, OnOk};
ghost use Rattle.finding_texts.specs.PlaceTexts.{apart_text, line_of, near_text, place_name, place_text, where_text};

use crate::adding::append_text;
use net_types::{NoMemory, Text};
use place_checks::{Networks, PlaceFinding};
use report_text::append;

/// The line of the link table that a finding is about; 0 where it is about none.
pub fn line_of(finding: &PlaceFinding) -> u32
    ensures { result ≡ line_of finding.now }
{
    match finding {
        PlaceFinding::Missing { line, .. } => *line,
        PlaceFinding::Shut { line, .. } => *line,
        PlaceFinding::NoAddress { line, .. } => *line,
        PlaceFinding::Apart { line, .. } => *line,
        PlaceFinding::Unlinked { .. } => 0,
    }
}

/// A finding; `two` where it is about two networks.
pub fn append_finding(out: &mut Vec<u8>, two: bool, finding: &PlaceFinding) -> Result<(), NoMemory>
    ensures { OnOk result (out.new.items ≡ out.old.items ++ place_text two finding.now) }
{
    match finding {
        PlaceFinding::Missing { place, near, .. } => {
            append(out, b"no network has ")?;
            append_name(out, place)?;
            append_near(out, near)
        }
        PlaceFinding::Shut {
            place,
            networks,
            ..
        } => {
            append_name(out, place)?;
            append(out, b" is shut")?;
            append_where(out, two, *networks)
        }
        PlaceFinding::NoAddress {
            place,
            networks,
            ..
        } => {
            append_name(out, place)?;
            append(out, b" has no address")?;
            append_where(out, two, *networks)
        }
        PlaceFinding::Apart {
            place,
            first,
            networks,
            ..
        } => append_apart(out, place, first, two, *networks),
        PlaceFinding::Unlinked {
            place,
            other,
            networks,
        } => append_unlinked(out, place, other, two, *networks),
    }
}

/// `DEVICE INTERFACE`
pub(crate) fn append_name(out: &mut Vec<u8>, place: &(Text, Text)) -> Result<(), NoMemory>
    ensures { OnOk result (out.new.items ≡ out.old.items ++ place_name place.now) }
{
    append_text(out, &place.0)?;
    append(out, b" ")?;
    append_text(out, &place.1)
}

fn append_near(out: &mut Vec<u8>, near: &Option<(Text, Text)>) -> Result<(), NoMemory>
    ensures { OnOk result (out.new.items ≡ out.old.items ++ near_text near.now) }
{
    match near {
        None => Ok(()),
        Some(place) => {
            append(out, b", the nearest name is ")?;
            append_name(out, place)
        }
    }
}

/// The network, where there are two and it isn't so in both.
pub(crate) fn append_where(out: &mut Vec<u8>, two: bool, networks: Networks) -> Result<(), NoMemory>
    ensures { OnOk result (out.new.items ≡ out.old.items ++ where_text two networks) }
{
    if !two {
        return Ok(());
    }
    match networks {
        Networks::Old => append(out, b" in the old network"),
        Networks::New => append(out, b" in the new network"),
        Networks::Both => Ok(()),
    }
}

/// An end without a subnet of the first one.
fn append_apart(
    out: &mut Vec<u8>,
    place: &(Text, Text),
    first: &(Text, Text),
    two: bool,
    networks: Networks,
) -> Result<(), NoMemory>
    ensures { OnOk result (out.new.items ≡ out.old.items ++ apart_text two place.now first.now networks) }
{
    append_name(out, place)?;
    append(out, b" has no subnet in common with ")?;
    append_name(out, first)?;
    append_where(out, two, networks)
}

/// Places of one subnet that no link joins.
fn append_unlinked(
    out: &mut Vec<u8>,
    place: &(Text, Text),
    other: &(Text, Text),
    two: bool,
    networks: Networks,
) -> Result<(), NoMemory>
    ensures { OnOk result (out.new.items ≡ out.old.items ++ place_text two (PlaceFinding.Unlinked place.now other.now networks)) }
{
    append_name(out, place)?;
    append(out, b" has a subnet of ")?;
    append_name(out, other)?;
    append(out, b", and no link joins them")?;
    append_where(out, two, networks)
}
