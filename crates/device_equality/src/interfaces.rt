//! Whether the interfaces of two configurations are equal: names, addresses, access lists and sides of translation.

ghost use Rattle.std.specs.Prelude.{◌≡◌, true, Some};

use crate::lists::{same_subnet, same_subnets, same_text};
use net_types::{Interface, Side, Subnet, Text};

pub(crate) fn same_interfaces(a: &[Interface], b: &[Interface]) -> bool
    ensures { result ≡ true → a.now ≡ b.now }
{
    if a.len() != b.len() {
        return false;
    }
    for i in 0..a.len() {
        if !same_interface(&a[i], &b[i]) {
            return false;
        }
    }
    true
}

fn same_interface(a: &Interface, b: &Interface) -> bool
    ensures { result ≡ true → a.now ≡ b.now }
{
    same_text(&a.name, &b.name)
        && same_primary(a.primary, b.primary)
        && same_subnets(a.secondary.as_slice(), b.secondary.as_slice())
        && a.shut == b.shut
        && same_list_name(&a.input, &b.input)
        && same_list_name(&a.output, &b.output)
        && same_side(a.side, b.side)
}

/// Whether two primary addresses are known to be equal, or there is none on either side. The contract says nothing of the answer
/// `false`.
pub fn same_primary(a: Option<Subnet>, b: Option<Subnet>) -> bool
    ensures { result ≡ true → a ≡ b }
{
    match (a, b) {
        (None, None) => true,
        (Some(s), Some(t)) => same_subnet(s, t),
        _ => false,
    }
}

fn same_list_name(a: &Option<Text>, b: &Option<Text>) -> bool
    ensures { result ≡ true → a.now ≡ b.now }
{
    match a {
        None => b.is_none(),
        Some(name) => is_name(b, name),
    }
}

fn is_name(b: &Option<Text>, name: &Text) -> bool
    ensures { result ≡ true → Some name.now ≡ b.now }
{
    match b {
        None => false,
        Some(other) => same_text(name, other),
    }
}

fn same_side(a: Side, b: Side) -> bool
    ensures { result ≡ true → a ≡ b }
{
    a == b
}
