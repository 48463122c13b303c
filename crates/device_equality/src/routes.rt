//! Whether the static routes of two configurations are equal: prefix, exit and distance of each.

ghost use Rattle.std.specs.Prelude.{◌≡◌, true};
ghost use Rattle.net_types.specs.declared.config.RouteExit.TheVariants as exit;

use crate::lists::{same_subnet, same_text};
use net_types::{Route, RouteExit, Text};

pub(crate) fn same_routes(a: &[Route], b: &[Route]) -> bool
    ensures { result ≡ true → a.now ≡ b.now }
{
    if a.len() != b.len() {
        return false;
    }
    for i in 0..a.len() {
        if !same_route(&a[i], &b[i]) {
            return false;
        }
    }
    true
}

fn same_route(a: &Route, b: &Route) -> bool
    ensures { result ≡ true → a.now ≡ b.now }
{
    same_subnet(a.prefix, b.prefix) && same_exit(&a.exit, &b.exit) && a.distance == b.distance
}

fn same_exit(a: &RouteExit, b: &RouteExit) -> bool
    ensures { result ≡ true → a.now ≡ b.now }
{
    match a {
        RouteExit::Null => is_null(b),
        RouteExit::Port { name } => is_port(b, name),
        RouteExit::Both { name, next } => is_both(b, name, *next),
        RouteExit::Next { next } => is_next(b, *next),
    }
}

fn is_null(b: &RouteExit) -> bool
    ensures { result ≡ true → exit.Null ≡ b.now }
{
    match b {
        RouteExit::Null => true,
        RouteExit::Port { name: _ } => false,
        RouteExit::Both { name: _, next: _ } => false,
        RouteExit::Next { next: _ } => false,
    }
}

fn is_port(b: &RouteExit, name: &Text) -> bool
    ensures { result ≡ true → exit.Port name.now ≡ b.now }
{
    match b {
        RouteExit::Port { name: other } => same_text(name, other),
        RouteExit::Null => false,
        RouteExit::Both { name: _, next: _ } => false,
        RouteExit::Next { next: _ } => false,
    }
}

fn is_both(b: &RouteExit, name: &Text, next: u32) -> bool
    ensures { result ≡ true → exit.Both name.now next ≡ b.now }
{
    match b {
        RouteExit::Both {
            name: other,
            next: hop,
        } => next == *hop && same_text(name, other),
        RouteExit::Null => false,
        RouteExit::Port { name: _ } => false,
        RouteExit::Next { next: _ } => false,
    }
}

fn is_next(b: &RouteExit, next: u32) -> bool
    ensures { result ≡ true → exit.Next next ≡ b.now }
{
    match b {
        RouteExit::Next { next: hop } => next == *hop,
        RouteExit::Null => false,
        RouteExit::Port { name: _ } => false,
        RouteExit::Both { name: _, next: _ } => false,
    }
}
