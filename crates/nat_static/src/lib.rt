//! Static address translation: what it does to a header, and the same for all headers at once, as disjoint cubes
//! with stamps. The rules are those of `ip nat inside source static`, a port rule before a plain one, and of `ip nat
//! outside source static` (Cisco IOS): each replaces one side of a header, judged on the header as it comes.
#![tactic(auto)]

mod compiled;
mod rules;

pub use compiled::{
    compile_inside, compile_outside, inside_pieces, inside_stamp, outer_inside_pieces,
    outer_outside_pieces, outside_pieces, outside_stamp,
};
pub use header_rules::{from_inside, from_outside};
