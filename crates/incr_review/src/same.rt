//! Whether two routes are equal.

ghost use Rattle.std.specs.Prelude.{◌≡◌};
ghost use Rattle.net_types.specs.declared.config.RouteExit.TheVariants as exit;
ghost use Rattle.net_types.specs.Routes.{same_text};
ghost use Rattle.incr_review.specs.Same.{same_subnet, same_exit, same_route};

use net_types::{Route, RouteExit, Subnet, Text};

/// Whether the two have the same prefix, exit and distance.
pub(crate) fn same_route(a: &Route, b: &Route) -> bool
    ensures { result ≡ same_route a.now b.now }
{
    same_subnet(a.prefix, b.prefix) && same_exit(&a.exit, &b.exit) && a.distance == b.distance
}

fn same_subnet(a: Subnet, b: Subnet) -> bool
    ensures { result ≡ same_subnet a b }
{
    a.address == b.address && a.length == b.length
}

fn same_exit(a: &RouteExit, b: &RouteExit) -> bool
    ensures { result ≡ same_exit a.now b.now }
{
    match a {
        RouteExit::Null => is_null(b),
        RouteExit::Port { name } => is_port(b, name),
        RouteExit::Both { name, next } => is_both(b, name, *next),
        RouteExit::Next { next } => is_next(b, *next),
    }
}

fn is_null(b: &RouteExit) -> bool
    ensures { result ≡ same_exit exit.Null b.now }
{
    match b {
        RouteExit::Null => true,
        RouteExit::Port { name: _ } => false,
        RouteExit::Both { name: _, next: _ } => false,
        RouteExit::Next { next: _ } => false,
    }
}

fn is_port(b: &RouteExit, name: &Text) -> bool
    ensures { result ≡ same_exit (exit.Port name.now) b.now }
{
    match b {
        RouteExit::Port { name: other } => same_text(name, other),
        RouteExit::Null => false,
        RouteExit::Both { name: _, next: _ } => false,
        RouteExit::Next { next: _ } => false,
    }
}

fn is_both(b: &RouteExit, name: &Text, next: u32) -> bool
    ensures { result ≡ same_exit (exit.Both name.now next) b.now }
{
    match b {
        RouteExit::Both {
            name: other,
            next: after,
        } => same_text(name, other) && next == *after,
        RouteExit::Null => false,
        RouteExit::Port { name: _ } => false,
        RouteExit::Next { next: _ } => false,
    }
}

fn is_next(b: &RouteExit, next: u32) -> bool
    ensures { result ≡ same_exit (exit.Next next) b.now }
{
    match b {
        RouteExit::Next { next: after } => next == *after,
        RouteExit::Null => false,
        RouteExit::Port { name: _ } => false,
        RouteExit::Both { name: _, next: _ } => false,
    }
}

/// Whether the two have the same bytes.
pub(crate) fn same_text(a: &Text, b: &Text) -> bool
    ensures { result ≡ same_text a.now b.now }
{
    a.as_bytes() == b.as_bytes()
}
