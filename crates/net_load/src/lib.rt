//! Folders of configurations, and networks whose names are numbers.
#![tactic(auto)]

mod folder;
pub mod laws;
mod loader;
mod numbering;
mod readings;
mod texts;

pub use folder::{LoadFail, list_configs, load_folder, load_folder_by_workers};
pub use numbering::{Numbered, NumberedBoth, number_all, number_both};
