//! The words of the command line.

ghost use Rattle.std.specs.Prelude.{◌≡◌, map, string_bytes};
ghost use Rattle.std.specs.Option.{option_copied};
ghost use Rattle.audit_core.specs.Words.{net_of};

use rollout_words::is_operand;

/// The folder that the words want audited; none where they are outside the usage.
pub(crate) fn net_of(words: &[String]) -> Option<&str>
    ensures { option_copied result ≡ net_of (map string_bytes words.now) }
{
    if words.len() != 2 {
        return None;
    }
    let net = words[1].as_str();
    if words[0].as_bytes() == b"audit".as_slice() && is_operand(net.as_bytes()) {
        return Some(net);
    }
    None
}
