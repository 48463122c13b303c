//! The usage, the program's name, and the operands.

ghost use Rattle.std.specs.Prelude.{◌≡◌};
ghost use Rattle.view_words.specs.Usage.{is_operand};

/// How the program is used: on the error output where the words are outside it, and on the output where that is asked.
pub const USAGE: &[u8] = b"usage:
  view [--title TEXT] REPORT
  view --json REPORT
  view --audit [--json] [--rows] FINDINGS NET
  view --answers [--json] QUESTIONS [BEFORE] AFTER
  view --traces [--json] OLD NEW LINKS DEVICE INTERFACE HEADER
  view --why [--json] OLD NEW LINKS REPORT
  view --why-all [--json] OLD NEW LINKS REPORT
  view --help
  view --version
";

/// Which program it is, and the version of what it writes for machines.
pub const VERSION: &[u8] = b"view of Diqenyu, schema 1\n";

/// Whether the word may be an operand: it isn't empty and doesn't begin with `-`.
pub fn is_operand(word: &[u8]) -> bool
    ensures { result ≡ is_operand word.now }
{
    match word.first() {
        Some(byte) => *byte != b'-',
        None => false,
    }
}
