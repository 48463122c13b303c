//! Lines on which the way of no packet depends.
ghost use Rattle.std.specs.Prelude.{◌≡◌};
ghost use Rattle.look_alikes.specs.Idle.{is_description, is_idle, is_idle_word, own_word};

use crate::words::{after_word, first_word};
use ios_config::Mode;

/// Whether the way of no packet depends on a line that is passed over: a line of a banner, a description of an interface, a
/// global command for people or for the device itself, or a line below one. `heading` is the line that opened its section.
pub fn is_idle(mode: Mode, heading: &[u8], line: &[u8]) -> bool
    ensures { result ≡ is_idle mode heading.now line.now }
{
    match mode {
        Mode::Banner => true,
        Mode::Global => is_idle_word(own_word(line)),
        Mode::Interface => own_word(line) == b"description".as_slice(),
        Mode::Other => is_idle_word(own_word(heading)),
    }
}

// The command's own word.
fn own_word(line: &[u8]) -> &[u8]
    ensures { result.now ≡ own_word line.now }
{
    if first_word(line) == b"no".as_slice() {
        return first_word(after_word(line));
    }
    first_word(line)
}

// Whether a global command that begins with the word is for people or for the device itself.
fn is_idle_word(word: &[u8]) -> bool
    ensures { result ≡ is_idle_word word.now }
{
    word == b"banner".as_slice()
        || word == b"line".as_slice()
        || word == b"logging".as_slice()
        || word == b"username".as_slice()
        || word == b"enable".as_slice()
        || word == b"alias".as_slice()
        || word == b"privilege".as_slice()
        || word == b"version".as_slice()
        || word == b"ntp".as_slice()
        || word == b"clock".as_slice()
        || word == b"snmp-server".as_slice()
}
