//! What an explanation rests on.

use net_types::Names;
use walk_trace::Site;

/// The names of a report's places, and two networks with theirs.
pub struct Basis<'a> {
    /// The names that the report's own lines have.
    pub report: &'a Names,
    /// The names of both networks.
    pub names: &'a Names,
    /// The old network.
    pub before: Site<'a>,
    /// The new network.
    pub after: Site<'a>,
}

impl<'a> Drop for Basis<'a> {
    fn drop(self) {
        let Basis {
            report: _,
            names: _,
            before: _,
            after: _,
        } = self;
    }
}
