//! The least header of a group.

ghost use Rattle.std.specs.Prelude.{◌≡◌, fold, min};
ghost use Rattle.report_groups.specs.Groups.{field_at};
ghost use Rattle.report_groups.specs.Least.{least_of, least_value};

use crate::types::{Group, Pattern};
use hdr_bits::Header;

/// The header of the group that has the smallest number, where the group is one of those that `group_rows` gives.
pub fn least_header(group: &Group) -> Header
    ensures { result ≡ least_of group.now }
{
    Header {
        dst: least_at(group, 0),
        src: least_at(group, 1),
        proto: (least_at(group, 2) % 256) as u8,
        dport: (least_at(group, 3) % 65_536) as u16,
        sport: (least_at(group, 4) % 65_536) as u16,
        flags: (least_at(group, 5) % 256) as u8,
    }
}

// The least value of a field.
fn least_at(group: &Group, field: usize) -> u32
    ensures { result ≡ least_value (field_at field group.now) }
{
    match group.fields.as_slice().get(field) {
        Some(patterns) => least_value(patterns.as_slice()),
        None => 0,
    }
}

fn least_value(patterns: &[Pattern]) -> u32
    ensures { result ≡ least_value patterns.now }
{
    match patterns {
        [] => 0,
        [first, rest @ ..] => least_digits(first.bits, rest),
    }
}

fn least_digits(first: u32, patterns: &[Pattern]) -> u32
    ensures { result ≡ fold (λ least q. min least q.bits) first patterns.now }
{
    let mut least = first;
    for pattern in patterns {
        if pattern.bits < least {
            least = pattern.bits;
        }
    }
    least
}
