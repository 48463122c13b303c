//! Whether two tests of ports are equal: the same kind of test, of the same ports.

ghost use Rattle.std.specs.Prelude.{◌≡◌, true};
ghost use Rattle.net_types.specs.declared.config.PortTest.TheVariants as test;

use crate::lists::same_ports;
use net_types::PortTest;

pub(crate) fn same_port_test(a: &PortTest, b: &PortTest) -> bool
    ensures { result ≡ true → a.now ≡ b.now }
{
    match a {
        PortTest::Any => is_any(b),
        PortTest::Eq { ports } => is_eq(b, ports.as_slice()),
        PortTest::Neq { port } => is_neq(b, *port),
        PortTest::Gt { port } => is_gt(b, *port),
        PortTest::Lt { port } => is_lt(b, *port),
        PortTest::Range { low, high } => is_range(b, *low, *high),
    }
}

fn is_any(b: &PortTest) -> bool
    ensures { result ≡ true → test.Any ≡ b.now }
{
    matches!(b, PortTest::Any)
}

fn is_eq(b: &PortTest, ports: &[u16]) -> bool
    ensures { result ≡ true → test.Eq ports.now ≡ b.now }
{
    match b {
        PortTest::Eq { ports: others } => same_ports(ports, others.as_slice()),
        _ => false,
    }
}

fn is_neq(b: &PortTest, port: u16) -> bool
    ensures { result ≡ true → test.Neq port ≡ b.now }
{
    match b {
        PortTest::Neq { port: other } => port == *other,
        _ => false,
    }
}

fn is_gt(b: &PortTest, port: u16) -> bool
    ensures { result ≡ true → test.Gt port ≡ b.now }
{
    match b {
        PortTest::Gt { port: other } => port == *other,
        _ => false,
    }
}

fn is_lt(b: &PortTest, port: u16) -> bool
    ensures { result ≡ true → test.Lt port ≡ b.now }
{
    match b {
        PortTest::Lt { port: other } => port == *other,
        _ => false,
    }
}

fn is_range(b: &PortTest, low: u16, high: u16) -> bool
    ensures { result ≡ true → test.Range low high ≡ b.now }
{
    match b {
        PortTest::Range {
            low: least,
            high: greatest,
        } => low == *least && high == *greatest,
        _ => false,
    }
}
