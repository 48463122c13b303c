//! What the rules of a router say of one header: the verdict of an access list, static address translation, the destinations
//! that are dropped at once, and what a move adds to a label.
//!
//! Each function is the definition of net_types that its contract names. The rules are those of IOS: of the entries
//! of a list the first that matches decides, and its end denies; of translation rules a port rule comes before a
//! plain one.
#![tactic(auto)]

mod access_lists;
mod drops;
mod outcomes;
mod translation;

pub use access_lists::{first_match, matches, passes};
pub use drops::is_dropped;
pub use outcomes::{add_outcomes, exit_of};
pub use translation::{
    from_inside, from_outside, is_outer, outer_rule_from, outer_rule_to, plain_rule_from,
    plain_rule_to, port_rule_from, port_rule_to,
};
