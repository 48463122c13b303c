//! Texts of results that one program writes and another reads: the answers to questions, and the audit of access lists. A report has
//! `report_text`.
#![tactic(auto)]

mod answers;
mod audits;

pub use answers::{answers_bytes, failed_count};
pub use audits::{
    append_by_line, append_entry_line, append_list_line, append_row_line, append_total_line,
    kind_name,
};
