//! The old network or the new one.

/// Which of two networks is meant.
#[derive(Clone, Copy, Debug, PartialEq, Eq)]
pub enum Version {
    Old,
    New,
}
