//! Configurations from their texts.

use ios_config::{Reading, read_config};
use net_types::{Config, Text};
use std::alloc::Global;
use std::str;

/// The configuration that the text is read as; none where it is refused.
pub(crate) fn read(alloc: Global, text: &[u8]) -> Option<Config> {
    if text.len() > 16_777_216 {
        return None;
    }
    match read_config(alloc, text) {
        Ok(Reading { config, passed: _ }) => Some(config),
        Err(_) => None,
    }
}

/// The configuration of router R1 with these lines.
pub(crate) fn read_lines(alloc: Global, first: &str, then: &str) -> Option<Config> {
    let text = format!(in alloc; "hostname R1\n{first}\n{then}\n").ok()?;
    read(alloc, text.as_bytes())
}

/// The name as it is printed.
pub(crate) fn shown(name: &Text) -> &str {
    match str::from_utf8(name.as_bytes()) {
        Ok(name) => name,
        Err(_) => "?",
    }
}
