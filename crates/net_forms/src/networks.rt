//! Two networks, before they are compiled.

use net_view::WorldRef;

/// Two networks that are compared, each with its links.
#[derive(Clone, Copy)]
pub struct Networks<'a> {
    pub old: WorldRef<'a>,
    pub new: WorldRef<'a>,
}
