//! The words of the command line.

ghost use Rattle.std.specs.Prelude.{◌≡◌, map, option_map, string_bytes};
ghost use Rattle.variants_core.specs.Words.{are_operands, if_operands, paths, paths_of};
ghost use Rattle.std.specs.Str.{bytes_eq};

use rollout_words::is_operand;

/// Where the network, its link table and the variants are.
#[derive(Clone, Copy)]
pub struct Asked<'a> {
    pub net: &'a str,
    pub links: &'a str,
    pub variants: &'a str,
}

/// What the words ask for; nothing where they are outside the usage.
pub(crate) fn asked_in(words: &[String]) -> Option<Asked<'_>>
    ensures { option_map paths result ≡ paths_of (map string_bytes words.now) }
{
    let [command, net, links, variants] = words else {
        return None;
    };
    let asked = Asked {
        net: net.as_str(),
        links: links.as_str(),
        variants: variants.as_str(),
    };
    if command.as_bytes() == b"variants".as_slice() && are_operands(&asked) {
        return Some(asked);
    }
    None
}

// Whether each of them may be an operand.
fn are_operands(asked: &Asked) -> bool
    ensures { result ≡ are_operands (paths asked.now) }
{
    is_operand(asked.net.as_bytes())
        && is_operand(asked.links.as_bytes())
        && is_operand(asked.variants.as_bytes())
}
