//! A list with what is known of all its entries.

use crate::unions::Unions;
use net_types::Entry;

/// The entries of a list that is audited, with sets of headers in a table.
#[derive(Clone, Copy)]
pub(crate) struct Audited<'a> {
    pub(crate) entries: &'a [Entry],
    /// What the last entries pass, by how many these are.
    pub(crate) tails: &'a [u32],
    /// What entries decide, and blocks of them.
    pub(crate) unions: &'a Unions,
}
