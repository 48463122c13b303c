//! The usage, and the operands.

ghost use Rattle.std.specs.Prelude.{◌≡◌};
ghost use Rattle.rollout_words.specs.Usage.{is_operand};

/// What is written where the words are outside the usage.
pub const USAGE: &[u8] = b"usage:
  audit NET
  edits NET LINKS EDITS
  rollout NET LINKS QUESTIONS STEPS
  variants NET LINKS VARIANTS
";

/// Whether the word may be an operand: it isn't empty and doesn't begin with `-`.
pub fn is_operand(word: &[u8]) -> bool
    ensures { result ≡ is_operand word.now }
{
    match word.first() {
        Some(byte) => *byte != b'-',
        None => false,
    }
}
