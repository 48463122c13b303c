//! The words that the commands of interfaces, routes and translation don't cover.
ghost use Rattle.std.specs.Prelude.{◌≡◌};
ghost use Rattle.ios_commands.specs.Refused.{command_refuses};

use ios_lines::{Refuses, is};
use net_types::Text;

/// A part of a command.
#[derive(Clone, Copy, Debug, PartialEq, Eq)]
pub enum CommandPart {
    /// `ip address`
    Address,
    /// `ip route`, the prefix
    RoutePrefix,
    /// `ip route`, what stands after the mask
    RouteTail,
    /// `ip nat inside source static`, the local address
    NatLocal,
    /// `ip nat inside source static`, the global address
    NatGlobal,
    /// `ip nat outside source static`, the global address
    OuterGlobal,
    /// `ip nat inside source static` and `ip nat outside source static`, what stands after the complete rule
    NatEnd,
}

impl Refuses for CommandPart {
    ghost refused = { λ p. command_refuses p };

    fn refuses(&self, word: &Text) -> bool {
        match self {
            CommandPart::Address => is(word, b"dhcp") || is(word, b"negotiated"),
            CommandPart::RoutePrefix => is(word, b"vrf"),
            CommandPart::RouteTail => is_tail_refused(word),
            CommandPart::NatLocal => is(word, b"network") || is(word, b"esp"),
            CommandPart::NatGlobal => is(word, b"interface"),
            CommandPart::OuterGlobal => is_outer_refused(word),
            CommandPart::NatEnd => !is(word, b"extendable"),
        }
    }
}

/// Whether a rule of the outer side doesn't cover this word as its global address.
fn is_outer_refused(word: &Text) -> bool
    ensures { result ≡ command_refuses CommandPart.OuterGlobal word.now }
{
    is(word, b"network") || is(word, b"tcp") || is(word, b"udp") || is(word, b"esp")
}

/// Whether a route doesn't cover this word after its mask.
fn is_tail_refused(word: &Text) -> bool
    ensures { result ≡ command_refuses CommandPart.RouteTail word.now }
{
    is(word, b"permanent") || is(word, b"track") || is(word, b"multicast") || is(word, b"dhcp")
}
