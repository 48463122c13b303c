//! The words that the commands of access lists don't cover.
ghost use Rattle.std.specs.Prelude.{◌≡◌};
ghost use Rattle.ios_lists.specs.Refused.{list_refuses, refused_after_destination};

use ios_lines::{Refuses, is};
use net_types::Text;

/// A part of a command of access lists.
#[derive(Clone, Copy, Debug, PartialEq, Eq)]
pub enum ListPart {
    /// `ip access-list`, the kind
    Kind,
    /// An entry, its `permit` or `deny`
    Entry,
    /// An extended entry, the protocol
    Protocol,
    /// An extended entry, its source or destination
    Endpoint,
    /// An extended entry, what stands after its destination
    Trailing,
}

impl Refuses for ListPart {
    ghost refused = { λ p. list_refuses p };

    fn refuses(&self, word: &Text) -> bool {
        match self {
            ListPart::Kind => !(is(word, b"standard") || is(word, b"extended")),
            ListPart::Entry => is(word, b"evaluate") || is(word, b"dynamic") || is(word, b"no"),
            ListPart::Protocol => is(word, b"0") || is(word, b"object-group"),
            ListPart::Endpoint => is(word, b"object-group") || is(word, b"interface"),
            ListPart::Trailing => is_trailing_refused(word),
        }
    }
}

/// Whether an extended entry doesn't cover this word after its destination.
#[tactic(auto, unfolding(crate::specs::Refused::refused_after_destination))]
fn is_trailing_refused(word: &Text) -> bool
    ensures { result ≡ refused_after_destination word.now }
{
    is(word, b"fragments")
        || is(word, b"dscp")
        || is(word, b"precedence")
        || is(word, b"tos")
        || is(word, b"ttl")
        || is(word, b"option")
        || is(word, b"time-range")
        || is(word, b"reflect")
}
