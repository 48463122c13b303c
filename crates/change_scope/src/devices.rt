//! Whether two devices can be compared by their functions.

ghost use Rattle.std.specs.Prelude.{◌≡◌, true};
ghost use Rattle.change_scope.specs.Devices.{AreComparable, HaveSameSeats, IsSameSeat};

use device_equality::same_nat_rules;
use like_devices::send_alike;
use link_sends::Wiring;
use net_types::{Interface, NetDevice};
use net_view::is_enabled;

/// Whether two devices are known to have the same translation rules, the same interfaces, apart from their addresses and
/// lists, and to send alike. The wirings are those of their networks.
pub(crate) fn are_comparable(before: &Wiring, after: &Wiring, a: &NetDevice, b: &NetDevice) -> bool
    ensures { result ≡ true → AreComparable before.now after.now a.now b.now }
{
    same_numbers(a.numbers.as_slice(), b.numbers.as_slice())
        && same_nat_rules(a.config.nat.as_slice(), b.config.nat.as_slice())
        && same_seats(
            a.config.interfaces.as_slice(),
            b.config.interfaces.as_slice(),
        )
        && send_alike(before, after, a.name, a.numbers.as_slice())
}

fn same_numbers(a: &[u32], b: &[u32]) -> bool
    ensures { result ≡ true → a.now ≡ b.now }
{
    a == b
}

// Whether the interfaces have the same names and sides in the same order, and the same of them are IP-enabled.
fn same_seats(a: &[Interface], b: &[Interface]) -> bool
    ensures { result ≡ true → HaveSameSeats a.now b.now }
{
    if a.len() != b.len() {
        return false;
    }
    for i in 0..a.len() {
        if !same_seat(&a[i], &b[i]) {
            return false;
        }
    }
    true
}

fn same_seat(a: &Interface, b: &Interface) -> bool
    ensures { result ≡ true → IsSameSeat a.now b.now }
{
    same_name(a.name.as_bytes(), b.name.as_bytes())
        && a.side == b.side
        && is_enabled(a) == is_enabled(b)
}

fn same_name(a: &[u8], b: &[u8]) -> bool
    ensures { result ≡ true → a.now ≡ b.now }
{
    a == b
}
