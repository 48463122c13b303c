//! Reading a configuration.
ghost use Rattle.std.specs.Prelude.{◌≡◌, ◌≤◌, ◌<◌, [], IfOk, Some, length, map};
ghost use Rattle.std.specs.Result.{result_map_both};
ghost use Rattle.net_text.specs.Limits.{text_limit};
ghost use Rattle.net_text.specs.Lines.{lines_of};
ghost use Rattle.ios_config.specs.Rules.{interface_of, list_of};
ghost use Rattle.ios_config.specs.Reads.{effects};
ghost use Rattle.ios_config.specs.Draft.{parts, parts_of};
ghost use Rattle.ios_config.specs.Answers.{Answers, Drafted, Finished, config_by};

use crate::commands::effect;
use crate::draft::Draft;
use crate::late::{late, no_hostname};
use ios_commands::NatBook;
use ios_lines::{Effect, Refusal, WrittenAddress, WrittenInterface, WrittenList, WrittenRoute};
use net_text::{Line, lines};
use net_types::{AccessList, Config, Interface, List, NoMemory, Route, Subnet, Text};
use std::alloc::Global;
use std::mem;

/// A configuration, and how many lines were passed over.
#[derive(Drop)]
pub struct Reading {
    pub config: Config,
    pub passed: u32,
}

/// Why there is no configuration.
#[derive(Drop)]
pub enum ConfigFail {
    /// The text isn't one.
    Refused { refusal: Refusal },
    /// There was no memory.
    NoMemory,
}

impl From<NoMemory> for ConfigFail {
    ghost use Rattle.std.specs.Prelude.{◌≡◌};
    ghost use Rattle.ios_config.specs.declared.reader.ConfigFail.TheVariants as fails;

    ghost from_gives = { λ _ e. e ≡ fails.NoMemory };

    fn from(_: NoMemory) -> ConfigFail {
        ConfigFail::NoMemory
    }
}

/// The configuration that a text of at most 16,777,216 bytes is read as.
///
/// A refusal is answered exactly where the text is refused, with the kind, the line and the word. A
/// configuration has fewer interfaces than its text has bytes, so the names of several texts can be
/// counted by their bytes.
pub fn read_config(alloc: Global, bytes: &[u8]) -> Result<Reading, ConfigFail>
    requires { length bytes.now ≤ text_limit }
    ensures reads { Answers bytes.now result }
    ensures interfaces { IfOk result (λ r. length r.config.interfaces < length bytes.now) }
{
    read_text(alloc, bytes)
}

/// What the text is read as.
fn read_text(alloc: Global, bytes: &[u8]) -> Result<Reading, ConfigFail>
    requires { length bytes.now ≤ text_limit }
    ensures { Answers bytes.now result }
{
    let lines = lines(alloc, bytes)?;
    let mut draft = Draft::new(alloc);
    read_lines(alloc, bytes, &lines, &mut draft)
}

/// What the lines are read as, by a draft of no line.
fn read_lines(
    alloc: Global,
    bytes: &[u8],
    lines: &[Line],
    draft: &mut Draft,
) -> Result<Reading, ConfigFail>
    requires size { length bytes.now ≤ text_limit }
    requires lines { lines.now ≡ lines_of bytes.now }
    requires draft { parts draft.old ≡ parts_of [] }
    ensures { Answers bytes.now result }
{
    add_lines(alloc, bytes, lines, draft)?;
    finish(alloc, draft)
}

/// Adds what the lines make to a draft of no line, up to the first refusal.
fn add_lines(
    alloc: Global,
    bytes: &[u8],
    lines: &[Line],
    draft: &mut Draft,
) -> Result<(), ConfigFail>
    requires size { length bytes.now ≤ text_limit }
    requires lines { lines.now ≡ lines_of bytes.now }
    requires draft { parts draft.old ≡ parts_of [] }
    ensures { Drafted (effects bytes.now) (result_map_both (λ _. draft.new) (λ fail. fail) result) }
{
    for line in lines {
        let effect = effect(alloc, bytes, draft, line)?;
        if let Effect::Refused { refusal } = effect {
            return Err(ConfigFail::Refused { refusal });
        }
        draft.apply(alloc, effect)?;
    }
    Ok(())
}

/// The configuration after the last line, or what is refused then. Its parts leave the draft.
pub(crate) fn finish(alloc: Global, draft: &mut Draft) -> Result<Reading, ConfigFail>
    ensures { Finished (parts draft.old) result }
{
    let Some(hostname) = draft.hostname.take() else {
        return Err(ConfigFail::Refused {
            refusal: no_hostname(alloc),
        });
    };
    if let Some(refusal) = late(alloc, &draft.names, &draft.interfaces, &draft.routes)? {
        return Err(ConfigFail::Refused { refusal });
    }
    let config = finish_config(alloc, hostname, draft)?;
    Ok(Reading {
        config,
        passed: draft.passed,
    })
}

/// The configuration of this name, of the parts of a draft.
fn finish_config(alloc: Global, hostname: Text, draft: &mut Draft) -> Result<Config, NoMemory>
    ensures config { IfOk result (λ c. c ≡ config_by (record (parts draft.old) { hostname = Some hostname })) }
    ensures passed { draft.new.passed ≡ draft.old.passed }
{
    let interfaces = mem::replace(&mut draft.interfaces, Vec::new(alloc));
    let interfaces = finish_interfaces(alloc, interfaces)?;
    let routes = mem::replace(&mut draft.routes, Vec::new(alloc));
    let routes = finish_routes(alloc, routes)?;
    let lists = mem::replace(&mut draft.lists, Vec::new(alloc));
    let lists = finish_lists(alloc, lists)?;
    let nat = mem::replace(&mut draft.nat, NatBook::new(alloc));
    Ok(Config {
        hostname,
        interfaces: List::new(interfaces),
        routes: List::new(routes),
        lists: List::new(lists),
        nat: List::new(nat.into_rules()),
    })
}

/// The routes, without their lines.
fn finish_routes(alloc: Global, routes: Vec<WrittenRoute>) -> Result<Vec<Route>, NoMemory>
    ensures { IfOk result (λ rs. rs.items ≡ map (λ r. r.route) routes.items) }
{
    let mut finished = Vec::new(alloc);
    for route in routes {
        let WrittenRoute { route, line: _ } = route;
        finished.push(route)?;
    }
    Ok(finished)
}

/// The lists, with their entries in order.
fn finish_lists(alloc: Global, lists: Vec<WrittenList>) -> Result<Vec<AccessList>, NoMemory>
    ensures { IfOk result (λ ls. ls.items ≡ map list_of lists.items) }
{
    let mut finished = Vec::new(alloc);
    for list in lists {
        finished.push(finish_list(alloc, list)?)?;
    }
    Ok(finished)
}

fn finish_list(alloc: Global, list: WrittenList) -> Result<AccessList, NoMemory>
    ensures { IfOk result (λ l. l ≡ list_of list) }
{
    let WrittenList {
        name,
        extended,
        book,
    } = list;
    Ok(AccessList {
        name,
        extended,
        entries: book.into_entries(alloc)?,
    })
}

/// The interfaces, without the places of their addresses.
fn finish_interfaces(
    alloc: Global,
    interfaces: Vec<WrittenInterface>,
) -> Result<Vec<Interface>, NoMemory>
    ensures { IfOk result (λ is. is.items ≡ map interface_of interfaces.items) }
{
    let mut finished = Vec::new(alloc);
    for interface in interfaces {
        finished.push(finish_interface(alloc, interface)?)?;
    }
    Ok(finished)
}

fn finish_interface(alloc: Global, interface: WrittenInterface) -> Result<Interface, NoMemory>
    ensures { IfOk result (λ i. i ≡ interface_of interface) }
{
    let WrittenInterface {
        name,
        primary,
        secondary,
        shut,
        input,
        output,
        side,
    } = interface;
    Ok(Interface {
        name,
        primary: primary.map(|a| a.subnet),
        secondary: List::new(subnets(alloc, secondary.as_slice())?),
        shut,
        input,
        output,
        side,
    })
}

fn subnets(alloc: Global, addresses: &[WrittenAddress]) -> Result<Vec<Subnet>, NoMemory>
    ensures { IfOk result (λ subnets. subnets.items ≡ map (λ a. a.subnet) addresses.now) }
{
    let mut subnets = Vec::new(alloc);
    for address in addresses {
        subnets.push(address.subnet)?;
    }
    Ok(subnets)
}
