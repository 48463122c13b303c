//! The commands about interfaces.
ghost use Rattle.std.specs.Prelude.{◌≡◌};
ghost use Rattle.ios_lines.specs.Words.{Gives};
ghost use Rattle.ios_commands.specs.Interfaces.{
  is_link_kind,
  after_link_kind,
  interface_action,
  subnet_of,
  written_at,
  begins_secondary,
  address_change,
  after_secondary,
  address_action,
  plain_action,
  direction_at,
  group_action,
};

use crate::refused::CommandPart;
use ios_lines::{
    Action, Change, Kind, Plain, ReadError, WrittenAddress, after, cut, end, first, is, next,
    read_address, read_mask, refuse,
};
use net_types::{Duplicate, Subnet, Text};
use std::alloc::Global;

/// `interface W`, optionally `point-to-point` or `multipoint`; `Null0` is passed over
#[tactic(auto, unfolding(crate::specs::Interfaces::interface_action))]
pub fn interface(alloc: Global, words: &[Text]) -> Result<Action, ReadError>
    ensures { Gives (λ a. a) result (interface_action words.now) }
{
    let (name, rest) = next(alloc, words)?;
    end(alloc, Plain, after_link_kind(rest))?;
    if is(name, b"Null0") {
        return Ok(Action::Pass { global: true });
    }
    Ok(Action::Interface {
        name: name.copy(alloc)?,
        change: Change::Open,
    })
}

fn after_link_kind(words: &[Text]) -> &[Text]
    ensures { result.now ≡ after_link_kind words.now }
{
    match words {
        [] => words,
        [word, rest @ ..] => { if is_link_kind(word) { rest } else { words } }
    }
}

fn is_link_kind(word: &Text) -> bool
    ensures { result ≡ is_link_kind word.now }
{
    is(word, b"point-to-point") || is(word, b"multipoint")
}

/// ` ip address A M`, optionally `secondary`
#[tactic(auto, unfolding(crate::specs::Interfaces::address_action))]
pub fn interface_address(
    alloc: Global,
    name: &Text,
    line: u32,
    words: &[Text],
) -> Result<Action, ReadError>
    ensures { Gives (λ a. a) result (address_action name.now line words.now) }
{
    let (address, rest) = written_address(alloc, line, words)?;
    let secondary = begins_secondary(rest);
    end(
        alloc,
        CommandPart::Address,
        after_secondary(secondary, rest),
    )?;
    let name = name.copy(alloc)?;
    let change = address_change(secondary, address);
    Ok(Action::Interface { name, change })
}

/// `A M`, where the mask isn't 0.0.0.0
#[tactic(auto, unfolding(crate::specs::Interfaces::written_at))]
fn written_address(
    alloc: Global,
    line: u32,
    words: &[Text],
) -> Result<(WrittenAddress, &[Text]), ReadError>
    ensures { Gives (λ x. (x.0, x.1.now)) result (written_at line words.now) }
{
    let (address, rest) = read_address(alloc, CommandPart::Address, words)?;
    let (length, rest) = read_mask(alloc, CommandPart::Address, 1, rest)?;
    let word = first(alloc, words)?;
    let subnet = subnet(address, length);
    Ok((WrittenAddress { subnet, line, word }, rest))
}

/// An address with the length of its mask.
pub fn subnet(address: u32, length: u8) -> Subnet
    ensures { result ≡ subnet_of address length }
{
    let length = length.min(32);
    Subnet { address, length }
}

fn begins_secondary(words: &[Text]) -> bool
    ensures { result ≡ begins_secondary words.now }
{
    match words {
        [] => false,
        [word, ..] => is(word, b"secondary"),
    }
}

fn after_secondary(secondary: bool, words: &[Text]) -> &[Text]
    ensures { result.now ≡ after_secondary secondary words.now }
{
    if secondary {
        return after(words, 1);
    }
    words
}

fn address_change(secondary: bool, address: WrittenAddress) -> Change
    ensures { result ≡ address_change secondary address }
{
    if secondary {
        return Change::Secondary { address };
    }
    Change::Primary { address }
}

/// A command that has no word after it.
#[tactic(auto, unfolding(crate::specs::Interfaces::plain_action))]
pub fn plain(
    alloc: Global,
    name: &Text,
    change: Change,
    words: &[Text],
) -> Result<Action, ReadError>
    ensures { Gives (λ a. a) result (plain_action name.now change words.now) }
{
    end(alloc, Plain, words)?;
    let name = name.copy(alloc)?;
    Ok(Action::Interface { name, change })
}

/// ` ip access-group W in`, ` ip access-group W out`
#[tactic(auto, unfolding(crate::specs::Interfaces::group_action))]
pub fn access_group(alloc: Global, name: &Text, words: &[Text]) -> Result<Action, ReadError>
    ensures { Gives (λ a. a) result (group_action name.now words.now) }
{
    let (list, rest) = next(alloc, words)?;
    let (change, rest) = direction(alloc, list, rest)?;
    end(alloc, Plain, rest)?;
    let name = name.copy(alloc)?;
    Ok(Action::Interface { name, change })
}

/// `in` or `out`
#[tactic(auto, unfolding(crate::specs::Interfaces::direction_at))]
fn direction<'a>(
    alloc: Global,
    list: &Text,
    words: &'a [Text],
) -> Result<(Change, &'a [Text]), ReadError>
    ensures { Gives (λ x. (x.0, x.1.now)) result (direction_at list.now words.now) }
{
    let (word, rest) = next(alloc, words)?;
    if is(word, b"in") {
        let list = list.copy(alloc)?;
        return Ok((Change::Input { list }, rest));
    }
    if is(word, b"out") {
        let list = list.copy(alloc)?;
        return Ok((Change::Output { list }, rest));
    }
    Err(refuse(Kind::BadWord, cut(alloc, word)?))
}
