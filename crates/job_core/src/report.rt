//! What a job gives.

/// A text as it is written, with what its status says.
#[derive(Drop)]
pub struct Report {
    pub text: Vec<u8>,
    /// Whether it has something to look at, which is told by status 1: a row, a question that fails, or a finding of an audit.
    pub affected: bool,
}
