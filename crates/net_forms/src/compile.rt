//! How a network is compiled: each device once, and each of its lists once. A device that another network has compiled
//! already, equal in all, keeps the form that it has there.

ghost use Rattle.std.specs.Prelude.{◌≡◌, ◌<◌, ℕ, All, Contains, IfOk, IfSome, OnOk, Some, option_and_then, position, slice_get};
ghost use Rattle.std.specs.Option.{option_copied};
ghost use Rattle.hdr_bits.specs.declared.header.Header.{Header};
ghost use Rattle.hdr_bits.specs.HeaderBits.{number, IsHeader};
ghost use Rattle.cube_alg.specs.Pieces.{value_of};
ghost use Rattle.cube_diagram.specs.Functions.{Keeps, count_of, value_at};
ghost use Rattle.device_fates.specs.Fates.{HasFate, IsFateFunction};
ghost use Rattle.net_types.specs.Moves.{list_named};
ghost use Rattle.net_view.specs.Borrowed.{world_of};
ghost use Rattle.net_types.specs.Routes.{same_text};
ghost use Rattle.net_forms.specs.Forms.{AreSeatForms, IsDeviceForm, IsKnown, IsList, TablesGrow, list_in};
ghost use Rattle.net_forms.specs.Known.{AreKnownBefore, AreKnownParts, known_at};
ghost use Rattle.net_forms.specs.Networks.{AreDevices, IsCopy, IsFormIn, IsIndexed, IsNetworkForm};
ghost use Rattle.net_forms.specs.Rules.{AreRuleForms};

use crate::forms::{
    Beforehand, DeviceForm, DeviceLists, KnownList, KnownParts, NetworkForm, RuleForms, SeatForm,
    Tables,
};
use crate::seat::device_named;
use acl_match::add_list;
use cube_alg::Piece;
use cube_diagram::Diagrams;
use device_equality::same_device;
use device_fates::add_device;
use link_sends::Wiring;
use nat_static::{inside_pieces, outer_inside_pieces, outer_outside_pieces, outside_pieces};
use net_types::{AccessList, Config, NatRule, NetDevice, NoMemory, Text};
use net_view::{WorldRef, same_text};
use std::alloc::Global;

/// The form of the network, in these tables. `known` is a network that was compiled before in the same tables, if one was:
/// an equal device has the same form in both. `before` tells which functions of devices the tables have already: those aren't
/// made again.
///
/// # Errors
///
/// There was no memory.
pub fn compile_network<'a>(
    alloc: Global,
    tables: &mut Tables,
    world: WorldRef<'a>,
    known: Option<&NetworkForm>,
    before: Beforehand,
) -> Result<NetworkForm<'a>, NoMemory>
    requires known { IfSome known (λ n. IsNetworkForm tables.old.diagrams tables.old.fates n.now) }
    requires before { AreKnownBefore tables.old.diagrams tables.old.fates world.network.now.devices before }
    ensures form { IfOk result (λ n. IsNetworkForm tables.new.diagrams tables.new.fates n) }
    ensures world { IfOk result (λ n. n.world ≡ world.entry) }
    ensures kept { OnOk result (TablesGrow tables.old tables.new) }
{
    let devices = compile_devices(
        alloc,
        tables,
        known,
        world.network.devices.as_slice(),
        before,
    )?;
    let wiring = Wiring::of(alloc, world)?;
    Ok(NetworkForm {
        world,
        devices,
        wiring,
    })
}

fn compile_devices(
    alloc: Global,
    tables: &mut Tables,
    known: Option<&NetworkForm>,
    devices: &[NetDevice],
    before: Beforehand,
) -> Result<Vec<DeviceForm>, NoMemory>
    requires known { IfSome known (λ n. IsNetworkForm tables.old.diagrams tables.old.fates n.now) }
    requires before { AreKnownBefore tables.old.diagrams tables.old.fates devices.now before }
    ensures forms { IfOk result (λ r. AreDevices tables.new.diagrams tables.new.fates devices.now r.items) }
    ensures kept { OnOk result (TablesGrow tables.old tables.new) }
{
    let mut forms = Vec::new(alloc);
    for i in 0..devices.len() {
        let form = known_or_compiled(alloc, tables, known, &devices[i], known_parts(before, i))?;
        forms.push(form)?;
    }
    Ok(forms)
}

// What is known of the device at this position.
fn known_parts<'a>(before: Beforehand<'a>, i: usize) -> KnownParts<'a>
    ensures lists { result.lists.now ≡ known_at before.entry.lists.now i }
    ensures fates { IfSome result.fates (λ f. slice_get before.entry.fates.now i ≡ Some (Some f)) }
{
    KnownParts {
        lists: known_lists(before.lists, i),
        fates: known_fates(before.fates, i),
    }
}

// The function that is known of what the device at this position does with destinations.
fn known_fates(fates: &[Option<u32>], i: usize) -> Option<u32>
    ensures { IfSome result (λ f. slice_get fates.now i ≡ Some (Some f)) }
{
    match fates.get(i) {
        Some(known) => *known,
        None => None,
    }
}

// The lists that are known of the device at this position.
fn known_lists(lists: &[DeviceLists], i: usize) -> &[KnownList]
    ensures { result.now ≡ known_at lists.now i }
{
    match lists.get(i) {
        Some(known) => &known.lists,
        None => &[],
    }
}

// The form that the known network has of an equal device, else a new one.
fn known_or_compiled(
    alloc: Global,
    tables: &mut Tables,
    known: Option<&NetworkForm>,
    device: &NetDevice,
    parts: KnownParts,
) -> Result<DeviceForm, NoMemory>
    requires known { IfSome known (λ n. IsNetworkForm tables.old.diagrams tables.old.fates n.now) }
    requires parts { AreKnownParts tables.old.diagrams tables.old.fates device.now.config parts }
    ensures form { IfOk result (λ f. IsDeviceForm tables.new.diagrams tables.new.fates device.now f) }
    ensures kept { OnOk result (TablesGrow tables.old tables.new) }
{
    let Some(network) = known else {
        return compile_device(alloc, tables, device, parts);
    };
    let Some(form) = known_form(network, device) else {
        return compile_device(alloc, tables, device, parts);
    };
    copy_of(alloc, form)
}

// The form of an equal device in the network, if it has one.
fn known_form<'a>(network: &'a NetworkForm<'a>, device: &NetDevice) -> Option<&'a DeviceForm>
    requires { IsIndexed network.now }
    ensures { IfSome result (λ f. IsFormIn network.now device.now f.now) }
{
    let Some(known) = device_named(network, device.name) else {
        return None;
    };
    if !same_device(known.device, device) {
        return None;
    }
    Some(known.form)
}

fn copy_of(alloc: Global, form: &DeviceForm) -> Result<DeviceForm, NoMemory>
    ensures { IfOk result (IsCopy form.now) }
{
    let seats = form.seats.to_vec(alloc)?;
    Ok(DeviceForm {
        seats,
        rules: form.rules,
        fates: form.fates,
    })
}

/// The form of a device, in these tables. `parts` tells which of its functions the tables have already.
///
/// # Errors
///
/// There was no memory. Then functions and fates may have been added, but none that was there is changed.
pub fn compile_device(
    alloc: Global,
    tables: &mut Tables,
    device: &NetDevice,
    parts: KnownParts,
) -> Result<DeviceForm, NoMemory>
    requires { AreKnownParts tables.old.diagrams tables.old.fates device.now.config parts }
    ensures form { IfOk result (λ f. IsDeviceForm tables.new.diagrams tables.new.fates device.now f) }
    ensures kept { TablesGrow tables.old tables.new }
{
    let config = &device.config;
    let seats = compile_seats(alloc, &mut tables.diagrams, config, parts.lists)?;
    let rules = compile_rules(alloc, &mut tables.diagrams, config.nat.as_slice())?;
    let fates = add_fates(alloc, tables, config, parts.fates)?;
    Ok(DeviceForm {
        seats,
        rules,
        fates,
    })
}

// The functions of a device's translation rules.
fn compile_rules(
    alloc: Global,
    diagrams: &mut Diagrams,
    rules: &[NatRule],
) -> Result<RuleForms, NoMemory>
    ensures rules { IfOk result (AreRuleForms diagrams.new rules.now) }
    ensures kept { Keeps diagrams.old diagrams.new }
{
    let outside = add_pieces(diagrams, outside_pieces(alloc, rules)?)?;
    let outer_outside = add_pieces(diagrams, outer_outside_pieces(alloc, rules)?)?;
    let inside = add_pieces(diagrams, inside_pieces(alloc, rules)?)?;
    let outer_inside = add_pieces(diagrams, outer_inside_pieces(alloc, rules)?)?;
    Ok(RuleForms {
        outside,
        outer_outside,
        inside,
        outer_inside,
    })
}

// The function that gives a header the value of the first of these pieces that holds it. The pieces are done with then.
fn add_pieces(diagrams: &mut Diagrams, pieces: Vec<Piece>) -> Result<u32, NoMemory>
    ensures below { IfOk result (λ r. r < count_of diagrams.new) }
    ensures exact { IfOk result (λ r. (h : ℕ) → value_at diagrams.new r h ≡ value_of pieces.items h) }
    ensures kept { Keeps diagrams.old diagrams.new }
{
    diagrams.first_match(&pieces)
}

// The number of the function that gives each header the number of the fate of its destination.
fn add_fates(
    alloc: Global,
    tables: &mut Tables,
    config: &Config,
    known: Option<u32>,
) -> Result<u32, NoMemory>
    requires { IfSome known (IsFateFunction tables.old.diagrams tables.old.fates config.now) }
    ensures below { IfOk result (λ r. r < count_of tables.new.diagrams) }
    ensures kept { TablesGrow tables.old tables.new }
    ensures exact { IfOk result (λ r. (h : Header) → IsHeader h → HasFate config.now tables.new.fates (value_at tables.new.diagrams r (number h)) h.dst) }
{
    match known {
        Some(function) => Ok(function),
        None => add_device(alloc, &mut tables.diagrams, &mut tables.fates, config),
    }
}

// The lists of each interface. What is known of them at first is known of more of them as these are met.
fn compile_seats(
    alloc: Global,
    diagrams: &mut Diagrams,
    config: &Config,
    known: &[KnownList],
) -> Result<Vec<SeatForm>, NoMemory>
    requires { All (IsKnown diagrams.old config.now.lists) known.now }
    ensures seats { IfOk result (λ r. AreSeatForms diagrams.new config.now config.now.interfaces r.items) }
    ensures kept { Keeps diagrams.old diagrams.new }
{
    let mut known = known.to_vec(alloc)?;
    seats_with(alloc, diagrams, config, &mut known)
}

fn seats_with(
    alloc: Global,
    diagrams: &mut Diagrams,
    config: &Config,
    known: &mut Vec<KnownList>,
) -> Result<Vec<SeatForm>, NoMemory>
    requires { All (IsKnown diagrams.old config.now.lists) known.old.items }
    ensures seats { IfOk result (λ r. AreSeatForms diagrams.new config.now config.now.interfaces r.items) }
    ensures kept { Keeps diagrams.old diagrams.new }
{
    let lists = config.lists.as_slice();
    let mut seats = Vec::new(alloc);
    for interface in config.interfaces.as_slice() {
        let input = list_function(alloc, diagrams, lists, known, &interface.input)?;
        let output = list_function(alloc, diagrams, lists, known, &interface.output)?;
        seats.push(SeatForm { input, output })?;
    }
    Ok(seats)
}

// The function of the list of this name. A list that was met before is known by its position.
fn list_function(
    alloc: Global,
    diagrams: &mut Diagrams,
    lists: &[AccessList],
    known: &mut Vec<KnownList>,
    name: &Option<Text>,
) -> Result<u32, NoMemory>
    requires { All (IsKnown diagrams.old lists.now) known.old.items }
    ensures list { IfOk result (IsList diagrams.new (list_in lists.now name.now)) }
    ensures known { OnOk result (All (IsKnown diagrams.new lists.now) known.new.items) }
    ensures kept { Keeps diagrams.old diagrams.new }
{
    let Some(position) = list_position(lists, name) else {
        let function = add_list(alloc, diagrams, None)?;
        return Ok(function);
    };
    if let Some(function) = known_function(known, position) {
        return Ok(function);
    }
    let function = add_list(alloc, diagrams, list_at(lists, position))?;
    known.push(KnownList { position, function })?;
    Ok(function)
}

fn list_position(lists: &[AccessList], name: &Option<Text>) -> Option<usize>
    ensures { result ≡ option_and_then (λ n. position (λ l. same_text l.name n) lists.now) name.now }
{
    let Some(name) = name else {
        return None;
    };
    position_named(lists, name.as_bytes())
}

fn position_named(lists: &[AccessList], name: &[u8]) -> Option<usize>
    ensures { result ≡ position (λ l. same_text l.name name.now) lists.now }
{
    lists
        .iter()
        .position(|l| same_text(l.name.as_bytes(), name))
}

fn list_at(lists: &[AccessList], position: usize) -> Option<&AccessList>
    ensures { option_copied result ≡ slice_get lists.now position }
{
    lists.get(position)
}

// The function that is known of the list at this position.
fn known_function(known: &[KnownList], position: usize) -> Option<u32>
    ensures { IfSome result (λ f. Contains known.now (record { position = position; function = f })) }
{
    for k in known {
        if k.position == position {
            return Some(k.function);
        }
    }
    None
}
