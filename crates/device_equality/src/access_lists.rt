//! Whether access lists are equal: their names, their forms, and their entries one by one.

ghost use Rattle.std.specs.Prelude.{◌≡◌, true};

use crate::lists::same_text;
use crate::port_tests::same_port_test;
use net_types::{AccessList, Entry, FlagTest, IcmpTest, Masked};

pub(crate) fn same_access_lists(a: &[AccessList], b: &[AccessList]) -> bool
    ensures { result ≡ true → a.now ≡ b.now }
{
    if a.len() != b.len() {
        return false;
    }
    for i in 0..a.len() {
        if !same_access_list(&a[i], &b[i]) {
            return false;
        }
    }
    true
}

pub(crate) fn same_access_list(a: &AccessList, b: &AccessList) -> bool
    ensures { result ≡ true → a.now ≡ b.now }
{
    same_text(&a.name, &b.name)
        && a.extended == b.extended
        && same_entries(a.entries.as_slice(), b.entries.as_slice())
}

fn same_entries(a: &[Entry], b: &[Entry]) -> bool
    ensures { result ≡ true → a.now ≡ b.now }
{
    if a.len() != b.len() {
        return false;
    }
    for i in 0..a.len() {
        if !same_entry(&a[i], &b[i]) {
            return false;
        }
    }
    true
}

fn same_entry(a: &Entry, b: &Entry) -> bool
    ensures { result ≡ true → a.now ≡ b.now }
{
    a.sequence == b.sequence
        && a.permit == b.permit
        && same_proto(a.proto, b.proto)
        && same_masked(a.src, b.src)
        && same_port_test(&a.sport, &b.sport)
        && same_masked(a.dst, b.dst)
        && same_port_test(&a.dport, &b.dport)
        && same_icmp(a.icmp, b.icmp)
        && same_flags(a.flags, b.flags)
}

fn same_proto(a: Option<u8>, b: Option<u8>) -> bool
    ensures { result ≡ true → a ≡ b }
{
    match (a, b) {
        (None, None) => true,
        (Some(p), Some(q)) => p == q,
        _ => false,
    }
}

fn same_masked(a: Masked, b: Masked) -> bool
    ensures { result ≡ true → a ≡ b }
{
    a == b
}

fn same_icmp(a: IcmpTest, b: IcmpTest) -> bool
    ensures { result ≡ true → a ≡ b }
{
    a == b
}

fn same_flags(a: FlagTest, b: FlagTest) -> bool
    ensures { result ≡ true → a ≡ b }
{
    a == b
}
