//! How configurations, folders and link tables are read, and how configurations are printed, on small texts. What each must
//! give follows from the rules.

use crate::{configs, folders, links};
use test_stop::Stop;

/// Prints what each text is read as.
pub(crate) fn show(rt: &HostRuntime) -> Result<(), Stop> {
    configs::show_texts(rt)?;
    configs::show_bytes(rt)?;
    configs::show_large(rt)?;
    folders::show(rt)?;
    links::show(rt)
}
