//! The command of static routes: `ip route P M TAIL`.
ghost use Rattle.std.specs.Prelude.{◌≡◌, ◌-◌, ◌^◌, ◌≤◌, IfOk, IfSome, unwrap_or, drop};
ghost use Rattle.ios_words.specs.Words.{address_of, number_of};
ghost use Rattle.ios_lines.specs.Words.{Gives};
ghost use Rattle.ios_commands.specs.Routes.{is_prefix, prefix_at, port_by, after_hop, exit_by, exit_at, no_options, free_distance, distance_option, name_option, tag_option, is_name_option, is_tag_option, option_by, option_at, options_at, route_at, route_action};
ghost use Rattle.ios_lines.specs.Words.{hop_of};

use crate::interfaces::subnet;
use crate::refused::CommandPart;
use ios_lines::{
    Action, Kind, Plain, ReadError, WrittenRoute, after, allowed, cut, end, first, hop, is, next,
    read_address, read_mask, read_number, refuse,
};
use ios_words::{address, number};
use net_types::{Duplicate, NoMemory, Route, RouteExit, Subnet, Text};
use std::alloc::Global;

/// What is written after the exit of a route, each at most once.
#[derive(Clone, Copy, Debug, PartialEq, Eq)]
pub struct RouteOptions {
    pub distance: Option<u8>,
    pub named: bool,
    pub tagged: bool,
}

/// `ip route P M TAIL`
#[tactic(auto, unfolding(crate::specs::Routes::route_action))]
pub fn static_route(alloc: Global, line: u32, words: &[Text]) -> Result<Action, ReadError>
    ensures { Gives (λ a. a) result (route_action line words.now) }
{
    let route = route(alloc, words)?;
    Ok(Action::Route {
        route: WrittenRoute { route, line },
    })
}

#[tactic(auto, unfolding(crate::specs::Routes::route_at))]
fn route(alloc: Global, words: &[Text]) -> Result<Route, ReadError>
    ensures { Gives (λ r. r) result (route_at words.now) }
{
    let (prefix, rest) = read_prefix(alloc, words)?;
    let (exit, rest) = read_exit(alloc, rest)?;
    let options = read_options(alloc, rest)?;
    Ok(Route {
        prefix,
        exit,
        distance: options.distance.unwrap_or(1),
    })
}

/// `P M`, where a bad mask decides before bits of the prefix after it
#[tactic(auto, unfolding(crate::specs::Routes::prefix_at))]
fn read_prefix(alloc: Global, words: &[Text]) -> Result<(Subnet, &[Text]), ReadError>
    ensures { Gives (λ x. (x.0, x.1.now)) result (prefix_at words.now) }
{
    let (address, rest) = read_address(alloc, CommandPart::RoutePrefix, words)?;
    let (length, rest) = read_mask(alloc, Plain, 0, rest)?;
    let prefix = subnet(address, length);
    if is_prefix(prefix) {
        return Ok((prefix, rest));
    }
    let word = first(alloc, words)?;
    Err(refuse(Kind::HostBits, cut(alloc, &word)?))
}

/// Whether the subnet has no bit after its length.
fn is_prefix(subnet: Subnet) -> bool
    ensures { result ≡ is_prefix subnet }
{
    u64::from(subnet.address) % size(subnet) == 0
}

/// How many addresses the subnet has.
fn size(subnet: Subnet) -> u64
    ensures value { result ≡ 2 ^ (32 - subnet.length) }
    ensures some { 1 ≤ result }
{
    1u64 << (32 - subnet.length)
}

/// A next hop; or `Null0`; or an interface name and optionally a next hop
#[tactic(auto, unfolding(crate::specs::Routes::exit_at))]
fn read_exit(alloc: Global, words: &[Text]) -> Result<(RouteExit, &[Text]), ReadError>
    ensures { Gives (λ x. (x.0, x.1.now)) result (exit_at words.now) }
{
    let (word, rest) = allowed(alloc, CommandPart::RouteTail, words)?;
    let (exit, rest) = exit_by(alloc, address(word.as_bytes()), word, rest)?;
    Ok((exit, rest))
}

fn exit_by<'a>(
    alloc: Global,
    next: Option<u32>,
    word: &Text,
    words: &'a [Text],
) -> Result<(RouteExit, &'a [Text]), NoMemory>
    ensures { IfOk result (λ x. (x.0, x.1.now) ≡ exit_by next word.now words.now) }
{
    if let Some(next) = next {
        return Ok((RouteExit::Next { next }, words));
    }
    if is(word, b"Null0") {
        return Ok((RouteExit::Null, words));
    }
    let hop = hop(words);
    let exit = port_by(alloc, word, hop)?;
    Ok((exit, after_hop(hop, words)))
}

fn port_by(alloc: Global, name: &Text, hop: Option<u32>) -> Result<RouteExit, NoMemory>
    ensures { IfOk result (λ x. x ≡ port_by name.now hop) }
{
    let name = name.copy(alloc)?;
    match hop {
        None => Ok(RouteExit::Port { name }),
        Some(next) => Ok(RouteExit::Both { name, next }),
    }
}

fn after_hop(hop: Option<u32>, words: &[Text]) -> &[Text]
    ensures { result.now ≡ after_hop hop words.now }
{
    match hop {
        None => words,
        Some(_) => after(words, 1),
    }
}

/// A distance, a name and a tag, each at most once and in any order
#[tactic(auto, unfolding(crate::specs::Routes::options_at))]
fn read_options(alloc: Global, words: &[Text]) -> Result<RouteOptions, ReadError>
    ensures { Gives (λ o. o) result (options_at words.now) }
{
    let (options, rest) = read_option(alloc, no_options(), words)?;
    let (options, rest) = read_option(alloc, options, rest)?;
    let (options, rest) = read_option(alloc, options, rest)?;
    end(alloc, CommandPart::RouteTail, rest)?;
    Ok(options)
}

fn no_options() -> RouteOptions
    ensures { result ≡ no_options }
{
    RouteOptions {
        distance: None,
        named: false,
        tagged: false,
    }
}

/// One option, where a word is left.
#[tactic(auto, unfolding(crate::specs::Routes::option_at))]
fn read_option(
    alloc: Global,
    options: RouteOptions,
    words: &[Text],
) -> Result<(RouteOptions, &[Text]), ReadError>
    ensures { Gives (λ x. (x.0, x.1.now)) result (option_at options words.now) }
{
    if words.is_empty() {
        return Ok((options, words));
    }
    let (word, rest) = allowed(alloc, CommandPart::RouteTail, words)?;
    option_by(alloc, options, word, rest)
}

#[tactic(auto, unfolding(crate::specs::Routes::option_by))]
fn option_by<'a>(
    alloc: Global,
    options: RouteOptions,
    word: &Text,
    words: &'a [Text],
) -> Result<(RouteOptions, &'a [Text]), ReadError>
    ensures { Gives (λ x. (x.0, x.1.now)) result (option_by options word.now words.now) }
{
    if is_name_option(options, word) {
        return name_option(alloc, options, words);
    }
    if is_tag_option(options, word) {
        return tag_option(alloc, options, words);
    }
    distance_option(alloc, options, word, words)
}

fn is_name_option(options: RouteOptions, word: &Text) -> bool
    ensures { result ≡ is_name_option options word.now }
{
    is(word, b"name") && !options.named
}

fn is_tag_option(options: RouteOptions, word: &Text) -> bool
    ensures { result ≡ is_tag_option options word.now }
{
    is(word, b"tag") && !options.tagged
}

#[tactic(auto, unfolding(crate::specs::Routes::name_option))]
fn name_option(
    alloc: Global,
    options: RouteOptions,
    words: &[Text],
) -> Result<(RouteOptions, &[Text]), ReadError>
    ensures { Gives (λ x. (x.0, x.1.now)) result (name_option options words.now) }
{
    let (_, rest) = next(alloc, words)?;
    let options = RouteOptions {
        named: true,
        ..options
    };
    Ok((options, rest))
}

#[tactic(auto, unfolding(crate::specs::Routes::tag_option))]
fn tag_option(
    alloc: Global,
    options: RouteOptions,
    words: &[Text],
) -> Result<(RouteOptions, &[Text]), ReadError>
    ensures { Gives (λ x. (x.0, x.1.now)) result (tag_option options words.now) }
{
    let (_, rest) = read_number(alloc, CommandPart::RouteTail, 0, 4294967295, words)?;
    let options = RouteOptions {
        tagged: true,
        ..options
    };
    Ok((options, rest))
}

#[tactic(auto, unfolding(crate::specs::Routes::distance_option))]
fn distance_option<'a>(
    alloc: Global,
    options: RouteOptions,
    word: &Text,
    words: &'a [Text],
) -> Result<(RouteOptions, &'a [Text]), ReadError>
    ensures { Gives (λ x. (x.0, x.1.now)) result (distance_option options word.now words.now) }
{
    let Some(distance) = free_distance(options, word) else {
        return Err(refuse(Kind::ExtraWord, cut(alloc, word)?));
    };
    let options = RouteOptions {
        distance: Some(distance),
        ..options
    };
    Ok((options, words))
}

/// The distance that the word is, where none is written yet.
fn free_distance(options: RouteOptions, word: &Text) -> Option<u8>
    ensures { result ≡ free_distance options word.now }
{
    if options.distance.is_some() {
        return None;
    }
    let Some(value) = number(word.as_bytes(), 1, 255) else {
        return None;
    };
    Some(value as u8)
}
