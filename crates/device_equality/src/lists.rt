//! Whether texts, numbers, ports, subnets and rules of translation are equal, and lists of them.

ghost use Rattle.std.specs.Prelude.{◌≡◌, true};

use net_types::{NatRule, Subnet, Text};

pub(crate) fn same_text(a: &Text, b: &Text) -> bool
    ensures { result ≡ true → a.now ≡ b.now }
{
    a.as_bytes() == b.as_bytes()
}

pub(crate) fn same_numbers(a: &[u32], b: &[u32]) -> bool
    ensures { result ≡ true → a.now ≡ b.now }
{
    a == b
}

pub(crate) fn same_ports(a: &[u16], b: &[u16]) -> bool
    ensures { result ≡ true → a.now ≡ b.now }
{
    a == b
}

/// Whether two lists of translation rules are known to be equal, rule by rule in order. The contract says nothing of the
/// answer `false`.
pub fn same_nat_rules(a: &[NatRule], b: &[NatRule]) -> bool
    ensures { result ≡ true → a.now ≡ b.now }
{
    if a.len() != b.len() {
        return false;
    }
    for i in 0..a.len() {
        if !same_nat_rule(a[i], b[i]) {
            return false;
        }
    }
    true
}

fn same_nat_rule(a: NatRule, b: NatRule) -> bool
    ensures { result ≡ true → a ≡ b }
{
    a == b
}

/// Whether two lists of subnets are known to be equal, one by one in order. The contract says nothing of the answer `false`.
pub fn same_subnets(a: &[Subnet], b: &[Subnet]) -> bool
    ensures { result ≡ true → a.now ≡ b.now }
{
    if a.len() != b.len() {
        return false;
    }
    for i in 0..a.len() {
        if !same_subnet(a[i], b[i]) {
            return false;
        }
    }
    true
}

pub(crate) fn same_subnet(a: Subnet, b: Subnet) -> bool
    ensures { result ≡ true → a ≡ b }
{
    a == b
}
