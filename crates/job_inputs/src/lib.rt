//! The configurations that a job reads: those of a folder, or one by itself.
#![tactic(auto)]

mod config;
mod folder;

pub use config::config_in;
pub use folder::{read_folder, read_folder_by_workers};
