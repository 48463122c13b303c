//! Numbers in place of names.
ghost use Rattle.std.specs.Prelude.{◌≡◌, ◌<◌, ◌^◌, ◌∷◌, ◌++◌, ◌≤◌, [], IfOk, OnOk, length, map, flat_map};
ghost use Rattle.std.specs.List.{list_any};
ghost use Rattle.net_types.specs.declared.network.Place.{Place};
ghost use Rattle.net_types.specs.World.{same_place};
ghost use Rattle.topo_links.specs.Table.{end_names, table_names};
ghost use Rattle.topo_links.specs.Names.{add_name, add_names, sorted_names};
ghost use Rattle.net_load.specs.Numbering.{config_names, folder_names, count_names, names_of, number_of, device_of, network_of, place_of, places_of, segments_of, links_of, ingress_of, numbered_with, numbered_of, extra_names, unnamed, all_ingresses, numbered_both_with, numbered_both};

use indexmap::IndexSet;
use net_types::{
    Config, Interface, Links, List, Loaded, Names, NetDevice, Network, NoMemory, Place, Segment,
    Text,
};
use std::alloc::Global;
use topo_links::{LinkKind, LinkLine, LinkTable, NameIndex};

/// Two networks and the links between their devices, over one list of names.
pub struct Numbered {
    pub names: Names,
    pub old: Network,
    pub new: Network,
    pub links: Links,
}

impl Drop for Numbered {
    fn drop(self) {
        let Numbered {
            names: _,
            old: _,
            new: _,
            links: _,
        } = self;
    }
}

/// Two networks with links of their own, over one list of names.
pub struct NumberedBoth {
    pub names: Names,
    pub old: Network,
    pub new: Network,
    pub old_links: Links,
    pub new_links: Links,
    /// The ingresses of the old network's links in their order, then those that the new one's links alone name.
    pub ingress: List<Place>,
}

impl Drop for NumberedBoth {
    fn drop(self) {
        let NumberedBoth {
            names: _,
            old: _,
            new: _,
            old_links: _,
            new_links: _,
            ingress: _,
        } = self;
    }
}

/// Gives each name its number, which is its place among all names in the order of their bytes.
///
/// The names are the hostnames and interface names of both networks, the names of the table and the extra ones. Devices
/// keep their order and their configurations, segments and ingresses the order of the table. There must be fewer than
/// 2^32 names in all.
pub fn number_all(
    alloc: Global,
    old: Vec<Loaded>,
    new: Vec<Loaded>,
    table: &LinkTable,
    extra: &[Text],
) -> Result<Numbered, NoMemory>
    requires { count_names old.items new.items table.now extra.now < 2 ^ 32 }
    ensures { IfOk result (λ numbered. numbered ≡ numbered_of old.items new.items table.now extra.now) }
{
    let names = collect(alloc, &old, &new, table, extra)?;
    numbered_with(alloc, &names, old, new, table)
}

/// The networks and the links over these names.
fn numbered_with(
    alloc: Global,
    names: &NameIndex,
    old: Vec<Loaded>,
    new: Vec<Loaded>,
    table: &LinkTable,
) -> Result<Numbered, NoMemory>
    requires { length names.now < 2 ^ 32 }
    ensures { IfOk result (λ numbered. numbered ≡ numbered_with names.now old.items new.items table.now) }
{
    let texts = names.copies(alloc)?;
    let (old, new) = number_networks(alloc, names, old, new)?;
    let links = number_links(alloc, names, table)?;
    Ok(Numbered {
        names: Names { texts },
        old,
        new,
        links,
    })
}

/// Gives each name its number, as `number_all` does, where each network has a link table of its own.
///
/// The names are those of both tables. There must be fewer than 2^32 names in all.
pub fn number_both(
    alloc: Global,
    old: Vec<Loaded>,
    new: Vec<Loaded>,
    table: &LinkTable,
    new_table: &LinkTable,
    extra: &[Text],
) -> Result<NumberedBoth, NoMemory>
    requires { count_names old.items new.items table.now (extra_names new_table.now extra.now) < 2 ^ 32 }
    ensures { IfOk result (λ numbered. numbered ≡ numbered_both old.items new.items table.now new_table.now extra.now) }
{
    let names = collect_both(alloc, &old, &new, table, new_table, extra)?;
    numbered_both_with(alloc, &names, old, new, table, new_table)
}

/// The networks and the links of both tables over these names.
fn numbered_both_with(
    alloc: Global,
    names: &NameIndex,
    old: Vec<Loaded>,
    new: Vec<Loaded>,
    table: &LinkTable,
    new_table: &LinkTable,
) -> Result<NumberedBoth, NoMemory>
    requires { length names.now < 2 ^ 32 }
    ensures { IfOk result (λ numbered. numbered ≡ numbered_both_with names.now old.items new.items table.now new_table.now) }
{
    let texts = names.copies(alloc)?;
    let (old, new) = number_networks(alloc, names, old, new)?;
    let (old_links, new_links, ingress) = number_both_links(alloc, names, table, new_table)?;
    Ok(NumberedBoth {
        names: Names { texts },
        old,
        new,
        old_links,
        new_links,
        ingress,
    })
}

/// The links of both tables, and the ingresses of both.
fn number_both_links(
    alloc: Global,
    names: &NameIndex,
    table: &LinkTable,
    new_table: &LinkTable,
) -> Result<(Links, Links, List<Place>), NoMemory>
    requires { length names.now < 2 ^ 32 }
    ensures old { IfOk result (λ links. links.0 ≡ links_of names.now table.now) }
    ensures new { IfOk result (λ links. links.1 ≡ links_of names.now new_table.now) }
    ensures ingress { IfOk result (λ links. links.2 ≡ all_ingresses (links_of names.now table.now).ingress (links_of names.now new_table.now).ingress) }
{
    let old = number_links(alloc, names, table)?;
    let new = number_links(alloc, names, new_table)?;
    let ingress = all_ingresses(alloc, old.ingress.as_slice(), new.ingress.as_slice())?;
    Ok((old, new, ingress))
}

/// All names of two tables in order.
fn collect_both(
    alloc: Global,
    old: &[Loaded],
    new: &[Loaded],
    table: &LinkTable,
    new_table: &LinkTable,
    extra: &[Text],
) -> Result<NameIndex, NoMemory>
    ensures names { IfOk result (λ names. names ≡ names_of old.now new.now table.now (extra_names new_table.now extra.now)) }
    ensures count { IfOk result (λ names. length names ≤ count_names old.now new.now table.now (extra_names new_table.now extra.now)) }
{
    let mut names = NameIndex::new(alloc);
    add_networks(alloc, &mut names, old, new, table)?;
    add_extra(alloc, &mut names, new_table, extra)?;
    Ok(names)
}

/// Adds the names of the new network's table, and further ones, and puts all in order.
fn add_extra(
    alloc: Global,
    names: &mut NameIndex,
    new_table: &LinkTable,
    extra: &[Text],
) -> Result<(), NoMemory>
    ensures { OnOk result (names.new ≡ sorted_names (add_names names.old (extra_names new_table.now extra.now))) }
{
    add_table(alloc, names, new_table)?;
    add_last(alloc, names, extra)
}

/// Adds further names, and puts all in order.
fn add_last(alloc: Global, names: &mut NameIndex, extra: &[Text]) -> Result<(), NoMemory>
    ensures { OnOk result (names.new ≡ sorted_names (add_names names.old extra.now)) }
{
    add_texts(alloc, names, extra)?;
    names.sort()?;
    Ok(())
}

/// The ingresses of the old links, and behind them those of the new links that are not among them.
fn all_ingresses(alloc: Global, old: &[Place], new: &[Place]) -> Result<List<Place>, NoMemory>
    ensures { IfOk result (λ places. places ≡ all_ingresses old.now new.now) }
{
    let named = places_set(alloc, old)?;
    let mut places = old.to_vec(alloc)?;
    add_unnamed(&mut places, &named, old, new)?;
    Ok(List::new(places))
}

/// The places, to be found by their hash.
fn places_set(alloc: Global, places: &[Place]) -> Result<IndexSet<Place>, NoMemory>
    ensures { IfOk result (λ named. (p : Place) → list_any (same_place p) named.keys ≡ list_any (same_place p) places.now) }
{
    let mut named = IndexSet::new(alloc);
    for place in places {
        named.insert(*place)?;
    }
    Ok(named)
}

/// Adds the places that are not named.
fn add_unnamed(
    found: &mut Vec<Place>,
    named: &IndexSet<Place>,
    names: &[Place],
    places: &[Place],
) -> Result<(), NoMemory>
    requires { (p : Place) → list_any (same_place p) named.now.keys ≡ list_any (same_place p) names.now }
    ensures { OnOk result (found.new.items ≡ found.old.items ++ unnamed names.now places.now) }
{
    for place in places {
        if !named.contains(place) {
            found.push(*place)?;
        }
    }
    Ok(())
}

/// All names in order.
fn collect(
    alloc: Global,
    old: &[Loaded],
    new: &[Loaded],
    table: &LinkTable,
    extra: &[Text],
) -> Result<NameIndex, NoMemory>
    ensures names { IfOk result (λ names. names ≡ names_of old.now new.now table.now extra.now) }
    ensures count { IfOk result (λ names. length names ≤ count_names old.now new.now table.now extra.now) }
{
    let mut names = NameIndex::new(alloc);
    add_networks(alloc, &mut names, old, new, table)?;
    add_last(alloc, &mut names, extra)?;
    Ok(names)
}

/// Adds the names of two networks and of a link table.
fn add_networks(
    alloc: Global,
    names: &mut NameIndex,
    old: &[Loaded],
    new: &[Loaded],
    table: &LinkTable,
) -> Result<(), NoMemory>
    ensures { OnOk result (names.new ≡ add_names (add_names (add_names names.old (folder_names old.now)) (folder_names new.now)) (table_names table.now)) }
{
    add_folder(alloc, names, old)?;
    add_folder(alloc, names, new)?;
    add_table(alloc, names, table)
}

/// Adds the names of a network.
fn add_folder(alloc: Global, names: &mut NameIndex, folder: &[Loaded]) -> Result<(), NoMemory>
    ensures { OnOk result (names.new ≡ add_names names.old (folder_names folder.now)) }
{
    for loaded in folder {
        add_config(alloc, names, &loaded.config)?;
    }
    Ok(())
}

/// Adds the names of a device.
fn add_config(alloc: Global, names: &mut NameIndex, config: &Config) -> Result<(), NoMemory>
    ensures { OnOk result (names.new ≡ add_names names.old (config_names config.now)) }
{
    names.add(alloc, &config.hostname)?;
    for interface in config.interfaces.as_slice() {
        names.add(alloc, &interface.name)?;
    }
    Ok(())
}

/// Adds the names of a link table.
fn add_table(alloc: Global, names: &mut NameIndex, table: &LinkTable) -> Result<(), NoMemory>
    ensures { OnOk result (names.new ≡ add_names names.old (table_names table.now)) }
{
    for line in table.lines.as_slice() {
        add_ends(alloc, names, line.ends.as_slice())?;
    }
    Ok(())
}

/// Adds the names of ends.
fn add_ends(alloc: Global, names: &mut NameIndex, ends: &[(Text, Text)]) -> Result<(), NoMemory>
    ensures { OnOk result (names.new ≡ add_names names.old (end_names ends.now)) }
{
    for (device, interface) in ends {
        names.add(alloc, device)?;
        names.add(alloc, interface)?;
    }
    Ok(())
}

/// Adds further names.
fn add_texts(alloc: Global, names: &mut NameIndex, texts: &[Text]) -> Result<(), NoMemory>
    ensures { OnOk result (names.new ≡ add_names names.old texts.now) }
{
    for text in texts {
        names.add(alloc, text)?;
    }
    Ok(())
}

/// The number of a name.
fn number(names: &NameIndex, name: &Text) -> u32
    requires { length names.now < 2 ^ 32 }
    ensures { result ≡ number_of names.now name.now }
{
    match names.place(name) {
        None => 0,
        Some(place) => place as u32,
    }
}

/// The numbers of the interfaces.
fn number_interfaces(
    alloc: Global,
    names: &NameIndex,
    interfaces: &[Interface],
) -> Result<List<u32>, NoMemory>
    requires { length names.now < 2 ^ 32 }
    ensures { IfOk result (λ numbers. numbers ≡ map (λ i. number_of names.now i.name) interfaces.now) }
{
    let mut numbers = Vec::with_capacity(alloc, interfaces.len())?;
    for interface in interfaces {
        numbers.push(number(names, &interface.name))?;
    }
    Ok(List::new(numbers))
}

/// A device whose names are numbers.
fn number_device(alloc: Global, names: &NameIndex, loaded: Loaded) -> Result<NetDevice, NoMemory>
    requires { length names.now < 2 ^ 32 }
    ensures { IfOk result (λ device. device ≡ device_of names.now loaded) }
{
    let Loaded {
        file: _,
        config,
        passed: _,
    } = loaded;
    let name = number(names, &config.hostname);
    let numbers = number_interfaces(alloc, names, config.interfaces.as_slice())?;
    Ok(NetDevice {
        name,
        config,
        numbers,
    })
}

/// A network whose names are numbers.
fn number_network(
    alloc: Global,
    names: &NameIndex,
    folder: Vec<Loaded>,
) -> Result<Network, NoMemory>
    requires { length names.now < 2 ^ 32 }
    ensures { IfOk result (λ network. network ≡ network_of names.now folder.items) }
{
    let mut devices = Vec::with_capacity(alloc, folder.len())?;
    for loaded in folder {
        devices.push(number_device(alloc, names, loaded)?)?;
    }
    Ok(Network {
        devices: List::new(devices),
    })
}

/// The old and the new network.
fn number_networks(
    alloc: Global,
    names: &NameIndex,
    old: Vec<Loaded>,
    new: Vec<Loaded>,
) -> Result<(Network, Network), NoMemory>
    requires { length names.now < 2 ^ 32 }
    ensures old { IfOk result (λ networks. networks.0 ≡ network_of names.now old.items) }
    ensures new { IfOk result (λ networks. networks.1 ≡ network_of names.now new.items) }
{
    let old = number_network(alloc, names, old)?;
    let new = number_network(alloc, names, new)?;
    Ok((old, new))
}

/// The places of ends.
fn number_ends(
    alloc: Global,
    names: &NameIndex,
    ends: &[(Text, Text)],
) -> Result<Vec<Place>, NoMemory>
    requires { length names.now < 2 ^ 32 }
    ensures { IfOk result (λ places. places.items ≡ places_of names.now ends.now) }
{
    let mut places = Vec::with_capacity(alloc, ends.len())?;
    for (device, interface) in ends {
        places.push(Place {
            device: number(names, device),
            interface: number(names, interface),
        })?;
    }
    Ok(places)
}

/// Adds the segment of a line, or its ingress.
fn add_line(
    alloc: Global,
    names: &NameIndex,
    segments: &mut Vec<Segment>,
    ingress: &mut Vec<Place>,
    line: &LinkLine,
) -> Result<(), NoMemory>
    requires { length names.now < 2 ^ 32 }
    ensures segments { OnOk result (segments.new.items ≡ segments.old.items ++ segments_of names.now line.now) }
    ensures ingress { OnOk result (ingress.new.items ≡ ingress.old.items ++ ingress_of names.now line.now) }
{
    let places = number_ends(alloc, names, line.ends.as_slice())?;
    match line.kind {
        LinkKind::P2p => {
            segments.push(Segment {
                lan: false,
                ends: List::new(places),
            })?;
        }
        LinkKind::Lan => {
            segments.push(Segment {
                lan: true,
                ends: List::new(places),
            })?;
        }
        LinkKind::Ingress => {
            ingress.extend_from_slice(&places)?;
        }
    }
    Ok(())
}

/// The links of a table.
fn number_links(alloc: Global, names: &NameIndex, table: &LinkTable) -> Result<Links, NoMemory>
    requires { length names.now < 2 ^ 32 }
    ensures { IfOk result (λ links. links ≡ links_of names.now table.now) }
{
    let mut segments = Vec::new(alloc);
    let mut ingress = Vec::new(alloc);
    for line in table.lines.as_slice() {
        add_line(alloc, names, &mut segments, &mut ingress, line)?;
    }
    Ok(Links {
        segments: List::new(segments),
        ingress: List::new(ingress),
    })
}
