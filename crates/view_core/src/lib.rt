//! A report of `review compare`, shown to a person.
//!
//! The rows of each ingress are joined in groups: what a group does to packets, which headers it holds, and the outcomes in
//! the two networks. A report is shown as a text or as a document of JSON, and both are exact: `specs/ViewText` and
//! `specs/ReportJson` say each byte. `view_run` is the program on any files and sinks.
#![tactic(auto)]

mod addresses;
mod cuts;
mod differing;
mod faults;
mod fields;
mod flags;
mod group_json;
mod ingresses;
mod kinds;
mod labels;
mod lines;
mod names;
mod numbers;
mod reading;
mod report_json;
mod summary;
mod tallies;
mod text;
mod top;
mod words;

pub use cuts::split_word;
pub use differing::first_difference;
pub use fields::append_fields;
pub use group_json::behind_blanks;
pub use ingresses::Ingress;
pub use kinds::in_order;
pub use lines::lines_of;
pub use reading::{Reported, read_report_file, report_in};
pub use tallies::{Count, Tally, Version};
pub use text::{append_outcomes, group_bytes, group_words};
pub use top::view_run;
pub use words::{Format, behind_format, format_of};
