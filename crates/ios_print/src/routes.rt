//! Static routes and rules of address translation as text.
ghost use Rattle.std.specs.Prelude.{◌≡◌, ◌++◌, ◌∷◌, [], decimal, OnOk};
ghost use Rattle.net_text.specs.Texts.{spell};
ghost use Rattle.ios_print.specs.Print.{subnet_words, exit_words, route_row, sides_with_ports, rule_words, rule_row, rule_start};
ghost use Rattle.ios_print.specs.Tail.{tail};

use crate::text::{append, append_address, append_number, append_subnet, append_word};
use net_types::{NatKind, NatRule, NoMemory, Route, RouteExit};

/// A static route: its line.
pub fn append_route(out: &mut Vec<u8>, route: &Route) -> Result<(), NoMemory>
    ensures { OnOk result (out.new.items ≡ out.old.items ++ spell (route_row route.now)) }
{
    append(out, b"ip route")?;
    append_route_words(out, route)?;
    append(out, b"\n")
}

fn append_route_words(out: &mut Vec<u8>, route: &Route) -> Result<(), NoMemory>
    ensures { OnOk result (out.new.items ≡ out.old.items ++ tail (subnet_words route.now.prefix ++ (exit_words route.now.exit ++ (decimal route.now.distance ∷ [])))) }
{
    append_subnet(out, route.prefix)?;
    append_exit(out, &route.exit)?;
    append_number(out, u32::from(route.distance))
}

fn append_exit(out: &mut Vec<u8>, exit: &RouteExit) -> Result<(), NoMemory>
    ensures { OnOk result (out.new.items ≡ out.old.items ++ tail (exit_words exit.now)) }
{
    match exit {
        RouteExit::Null => append_word(out, b"Null0"),
        RouteExit::Port { name } => append_word(out, name.as_bytes()),
        RouteExit::Both { name, next } => {
            append_word(out, name.as_bytes())?;
            append_address(out, *next)
        }
        RouteExit::Next { next } => append_address(out, *next),
    }
}

/// A rule of address translation: its line.
pub fn append_rule(out: &mut Vec<u8>, rule: &NatRule) -> Result<(), NoMemory>
    ensures { OnOk result (out.new.items ≡ out.old.items ++ spell (rule_row rule.now)) }
{
    append(out, rule_start(rule.kind))?;
    append_sides(out, rule)?;
    append(out, b"\n")
}

// The start of a rule's line, up to its sides.
fn rule_start(kind: NatKind) -> &'static [u8]
    ensures { result.now ≡ rule_start kind }
{
    match kind {
        NatKind::Plain | NatKind::Tcp | NatKind::Udp => b"ip nat inside source static",
        NatKind::Outer => b"ip nat outside source static",
    }
}

fn append_sides(out: &mut Vec<u8>, rule: &NatRule) -> Result<(), NoMemory>
    ensures { OnOk result (out.new.items ≡ out.old.items ++ tail (rule_words rule.now rule.now.kind)) }
{
    match rule.kind {
        NatKind::Plain => {
            append_address(out, rule.local)?;
            append_address(out, rule.global)
        }
        NatKind::Tcp => {
            append_word(out, b"tcp")?;
            append_ports(out, rule)
        }
        NatKind::Udp => {
            append_word(out, b"udp")?;
            append_ports(out, rule)
        }
        NatKind::Outer => {
            append_address(out, rule.global)?;
            append_address(out, rule.local)
        }
    }
}

fn append_ports(out: &mut Vec<u8>, rule: &NatRule) -> Result<(), NoMemory>
    ensures { OnOk result (out.new.items ≡ out.old.items ++ tail (sides_with_ports rule.now)) }
{
    append_address(out, rule.local)?;
    append_number(out, u32::from(rule.local_port))?;
    append_address(out, rule.global)?;
    append_number(out, u32::from(rule.global_port))
}
