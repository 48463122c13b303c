//! Files that were read, and what they hold.
ghost use Rattle.std.specs.Prelude.{◌≤◌, length};
ghost use Rattle.net_text.specs.Limits.{text_limit};

use net_types::{List, Text};

/// A file of a folder, of at most 16,777,216 bytes.
#[derive(Drop)]
pub struct TextFile {
    /// Its name in the folder.
    pub name: Text,
    pub bytes: List<u8>,
    ghost short: { length bytes ≤ text_limit },
}

/// A file by its path, of at most 16,777,216 bytes.
#[derive(Drop)]
pub struct TextAt {
    pub path: Text,
    pub bytes: List<u8>,
    ghost short: { length bytes ≤ text_limit },
}
