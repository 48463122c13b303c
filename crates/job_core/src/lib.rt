//! What every program of the house does around its job: it reads files, stops at the first cause, writes its report whole or tells
//! why there is none, and answers a status.
//!
//! A job is any relation between what the files tell and a report or a stop. `specs/Endings.antt` states once, for all programs,
//! what a run leaves behind (`Ends`), and `finish` and `refuse` end a run so.
#![tactic(auto)]

mod command_line;
mod ending;
mod file;
mod report;
mod stop;
mod table;

pub use command_line::words;
pub use ending::{finish, no_memory, refuse};
pub use file::read_bytes;
pub use report::Report;
pub use stop::Stop;
pub use table::{Wires, links_in, read_links_file, read_table};
