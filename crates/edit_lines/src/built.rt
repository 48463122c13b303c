//! The texts that are built of the words of a line, and what they say as configurations.

ghost use Rattle.std.specs.Prelude.{◌≡◌, ◌++◌, ◌∷◌, ◌≤◌, IfOk, OnOk, length, map};
ghost use Rattle.std.specs.List.{list_any};
ghost use Rattle.std.specs.Option.{option_copied};
ghost use Rattle.net_text.specs.Limits.{text_limit};
ghost use Rattle.edit_lines.specs.Built.{entry_in, entry_text, first_entry, host_line, is_port, kind_word, list_head, list_line, port_line, route_in, route_text, spaced, third, words_line};

use net_types::{AccessList, Config, Entry, Interface, NoMemory, Route, Text};
use std::alloc::Global;

// A device has a name.
const HOST_LINE: &[u8] = b"hostname x\n";

/// The text of an entry of a list of this name, by its sequence number and the words behind it.
#[tactic(auto, unfolding(crate::specs::Built::entry_text))]
pub(crate) fn entry_text(
    alloc: Global,
    extended: bool,
    name: &Text,
    words: &[Text],
) -> Result<Vec<u8>, NoMemory>
    ensures { IfOk result (λ text. text.items ≡ entry_text extended name.now words.now) }
{
    let mut text = HOST_LINE.to_vec(alloc)?;
    append_list_line(&mut text, extended, name)?;
    append_words_line(&mut text, words)?;
    Ok(text)
}

/// The text of a route of a device with these interfaces, by the words behind `ip route`.
#[tactic(auto, unfolding(crate::specs::Built::route_text))]
pub(crate) fn route_text(
    alloc: Global,
    interfaces: &[Interface],
    words: &[Text],
) -> Result<Vec<u8>, NoMemory>
    ensures { IfOk result (λ text. text.items ≡ route_text interfaces.now words.now) }
{
    let mut text = HOST_LINE.to_vec(alloc)?;
    append_port_line(&mut text, interfaces, third(words))?;
    append(&mut text, b"ip route")?;
    append_words_line(&mut text, words)?;
    Ok(text)
}

fn append(out: &mut Vec<u8>, text: &[u8]) -> Result<(), NoMemory>
    ensures { OnOk result (out.new.items ≡ out.old.items ++ text.now) }
{
    out.extend_from_slice(text)?;
    Ok(())
}

#[tactic(auto, unfolding(crate::specs::Built::list_line))]
fn append_list_line(out: &mut Vec<u8>, extended: bool, name: &Text) -> Result<(), NoMemory>
    ensures { OnOk result (out.new.items ≡ out.old.items ++ list_line extended name.now) }
{
    append_list_head(out, extended)?;
    append(out, b" ")?;
    append(out, name.as_bytes())?;
    append(out, b"\n")?;
    Ok(())
}

#[tactic(auto, unfolding(crate::specs::Built::list_head))]
fn append_list_head(out: &mut Vec<u8>, extended: bool) -> Result<(), NoMemory>
    ensures { OnOk result (out.new.items ≡ out.old.items ++ list_head extended) }
{
    append(out, b"ip access-list ")?;
    append(out, kind_word(extended))?;
    Ok(())
}

#[tactic(auto, unfolding(crate::specs::Built::kind_word))]
fn kind_word(extended: bool) -> &'static [u8]
    ensures { result.now ≡ kind_word extended }
{
    if extended {
        return b"extended";
    }
    b"standard"
}

#[tactic(auto, unfolding(crate::specs::Built::words_line))]
fn append_words_line(out: &mut Vec<u8>, words: &[Text]) -> Result<(), NoMemory>
    ensures { OnOk result (out.new.items ≡ out.old.items ++ words_line words.now) }
{
    append_words(out, words)?;
    append(out, b"\n")?;
    Ok(())
}

// Each word behind a blank.
fn append_words(out: &mut Vec<u8>, words: &[Text]) -> Result<(), NoMemory>
    ensures { OnOk result (out.new.items ≡ out.old.items ++ spaced words.now) }
{
    for word in words {
        append_word(out, word)?;
    }
    Ok(())
}

fn append_word(out: &mut Vec<u8>, word: &Text) -> Result<(), NoMemory>
    ensures { OnOk result (out.new.items ≡ out.old.items ++ 32 ∷ word.now) }
{
    append(out, b" ")?;
    append(out, word.as_bytes())?;
    Ok(())
}

// The third word, if there are so many.
fn third(words: &[Text]) -> Option<&Text>
    ensures { option_copied result ≡ third words.now }
{
    let [_, _, word, ..] = words else {
        return None;
    };
    Some(word)
}

// The line that opens the interface of this name, if the device has one.
fn append_port_line(
    out: &mut Vec<u8>,
    interfaces: &[Interface],
    word: Option<&Text>,
) -> Result<(), NoMemory>
    ensures { OnOk result (out.new.items ≡ out.old.items ++ port_line interfaces.now (option_copied word.entry)) }
{
    let Some(word) = word else {
        return Ok(());
    };
    if !has_port(interfaces, word) {
        return Ok(());
    }
    append(out, b"interface ")?;
    append(out, word.as_bytes())?;
    append(out, b"\n")?;
    Ok(())
}

fn has_port(interfaces: &[Interface], word: &Text) -> bool
    ensures { result ≡ list_any (is_port word.now) interfaces.now }
{
    interfaces.iter().any(|interface| is_port(word, interface))
}

fn is_port(word: &Text, interface: &Interface) -> bool
    ensures { result ≡ is_port word.now interface.now }
{
    interface.name.as_bytes() == word.as_bytes()
}

/// The entry that a configuration says, if it says one.
pub(crate) fn entry_in(config: &Config) -> Option<&Entry>
    ensures { option_copied result ≡ entry_in config.now }
{
    first_entry(config.lists.as_slice())
}

fn first_entry(lists: &[AccessList]) -> Option<&Entry>
    ensures { option_copied result ≡ first_entry lists.now }
{
    let [list, ..] = lists else {
        return None;
    };
    list.entries.as_slice().first()
}

/// The route that a configuration says, if it says one.
pub(crate) fn route_in(config: &Config) -> Option<&Route>
    ensures { option_copied result ≡ route_in config.now }
{
    config.routes.as_slice().first()
}
