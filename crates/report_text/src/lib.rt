//! The texts that are printed: a report with its cubes, labels, rows and sections, as bytes.
//!
//! A report has lines that end with LF. Each ingress has a line `ingress DEVICE INTERFACE rows N` and three lines
//! for each row, the cube, `old LABEL` and `new LABEL`; the last line is `affected N`. Beside these there are the lines of
//! the extent of a comparison and of the configurations of a network. The definitions of `specs/` say each form as a list
//! of bytes: those of fields and cubes are in `FieldText`, those of configurations in `Readings`, the others in
//! `ReportText`.
//!
//! Fields and reports are read back. `Reports` says by the printing alone which bytes are a report; `Reading` is how they are
//! read, and no public contract names it.
#![tactic(auto)]

mod cubes;
mod field_reader;
mod fields;
mod label_reader;
mod names;
mod parts;
mod reader;
mod readings;
mod report;
mod words;

pub use cubes::{cube_bytes, header_bytes};
pub use field_reader::read_field;
pub use fields::{
    address_bytes, append, append_address, append_address_field, append_number,
    append_number_field, append_ternary, decimal_bytes,
};
pub use names::are_names;
pub use parts::{TextPart, append_all};
pub use reader::{ReportFail, read_report};
pub use readings::readings_bytes;
pub use report::{append_place, label_bytes, name_of, outcome_bytes, report_bytes, summary_bytes};
