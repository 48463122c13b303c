//! Whether two versions of a device answer their neighbours alike at an interface.

ghost use Rattle.std.specs.Prelude.{IsTrue};
ghost use Rattle.live_network.specs.Shown.{AnswerAlike, AnswerAlikeAt};

use device_equality::{same_primary, same_subnets};
use net_types::{Interface, NetDevice};
use net_view::{is_enabled, seat_numbered};

/// Whether the interfaces of this number are known to answer for the same addresses, or neither version has one. A false answer
/// says nothing.
pub(crate) fn answers_alike(before: &NetDevice, after: &NetDevice, number: u32) -> bool
    ensures { IsTrue result → AnswerAlikeAt before.now after.now number }
{
    match (seat_numbered(before, number), seat_numbered(after, number)) {
        (None, None) => true,
        (Some(one), Some(other)) => interfaces_answer_alike(one.interface, other.interface),
        _ => false,
    }
}

fn interfaces_answer_alike(one: &Interface, other: &Interface) -> bool
    ensures { IsTrue result → AnswerAlike one.now other.now }
{
    is_enabled(one) == is_enabled(other)
        && same_primary(one.primary, other.primary)
        && same_subnets(one.secondary.as_slice(), other.secondary.as_slice())
}
