//! What the program says of itself, and the operands.

ghost use Rattle.std.specs.Prelude.{◌≡◌};
ghost use Rattle.doctor_core.specs.Usage.{is_operand};

/// What is written where the words are outside the usage.
pub(crate) const USAGE: &[u8] = b"usage:
  doctor [--all] [--json] NET LINKS
  doctor [--all] [--json] OLD NEW LINKS [NEWLINKS]
  doctor --help
  doctor --version
";

/// What `--help` writes.
pub(crate) const HELP: &[u8] = b"usage:
  doctor [--all] [--json] NET LINKS
  doctor [--all] [--json] OLD NEW LINKS [NEWLINKS]
  doctor --help
  doctor --version
Says what has to be looked at before a comparison of networks is believed, a line each:
PATH:LINE: WHAT: the line as it stands. The last line is 'warnings N'.
  - each file's first refusal, and files that aren't read
  - lines that are passed over and look like a command that is read
  - lines that are passed over and stand in one folder alone, or more often there
  - places that no network has, links, lists, routes and translations that do nothing
Where there is a warning, lines 'limit: ..' tell the limits of the model that are met.
  --all  the limits, and every line that is passed over, counted by its first words
  --json  the same as one document of JSON
Statuses: 0 no warning, 1 a warning, 2 usage, 4 cannot read, 5 too long or too many,
6 cannot write, 7 no memory, 8 not found.
";

/// What `--version` writes.
pub(crate) const VERSION: &[u8] = b"doctor of Diqenyu, schema 1\n";

/// Whether the word may be an operand: it isn't empty and doesn't begin with `-`.
pub(crate) fn is_operand(word: &[u8]) -> bool
    ensures { result ≡ is_operand word.now }
{
    match word.first() {
        Some(byte) => *byte != b'-',
        None => false,
    }
}
