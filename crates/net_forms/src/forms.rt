//! The compiled forms of networks and devices.

ghost use Rattle.std.specs.Prelude.{◌≡◌, [], IfOk};

use cube_diagram::Diagrams;
use device_fates::Fates;
use link_sends::Wiring;
use net_types::NoMemory;
use net_view::WorldRef;
use std::alloc::Global;

/// What compiled networks share: the functions, and the fates of destinations. Both only grow, and what is there keeps its
/// number.
#[derive(Drop)]
pub struct Tables {
    /// Functions from headers to numbers.
    pub diagrams: Diagrams,
    /// What devices do with destinations, by numbers.
    pub fates: Fates,
}

impl Tables {
    /// No fates, and only the functions that each table has.
    pub fn new(alloc: Global) -> Result<Tables, NoMemory>
        ensures { IfOk result (λ tables. tables.fates ≡ []) }
    {
        let diagrams = Diagrams::new(alloc)?;
        Ok(Tables {
            diagrams,
            fates: Fates::new(alloc),
        })
    }
}

/// The functions of an interface's lists: they give a header 1 where the list passes it, and else 0.
#[derive(Clone, Copy)]
pub struct SeatForm {
    /// Of the list that arriving packets meet.
    pub input: u32,
    /// Of the list that leaving packets meet.
    pub output: u32,
}

/// The function of a list of a device, by the list's position.
#[derive(Clone, Copy)]
pub struct KnownList {
    pub position: usize,
    pub function: u32,
}

/// The lists of a device whose functions are known before the device is compiled.
#[derive(Drop)]
pub struct DeviceLists {
    pub lists: Vec<KnownList>,
}

/// What is known of the devices of a network before they are compiled, by their positions, as far as it goes.
#[derive(Clone, Copy)]
pub struct Beforehand<'a> {
    pub lists: &'a [DeviceLists],
    /// The functions of what they do with destinations.
    pub fates: &'a [Option<u32>],
}

/// What is known of one device before it is compiled.
#[derive(Clone, Copy)]
pub struct KnownParts<'a> {
    pub lists: &'a [KnownList],
    /// The function of what it does with destinations.
    pub fates: Option<u32>,
}

/// The functions of a device's translation rules.
#[derive(Clone, Copy)]
pub struct RuleForms {
    /// The number of the port or plain rule that replaces the destination from outside; no value where none does.
    pub outside: u32,
    /// The number of the outer rule that replaces the source from outside.
    pub outer_outside: u32,
    /// The number of the port or plain rule that replaces the source from inside.
    pub inside: u32,
    /// The number of the outer rule that replaces the destination from inside.
    pub outer_inside: u32,
}

/// The functions of a device.
#[derive(Drop)]
pub struct DeviceForm {
    /// By the positions of its interfaces.
    pub seats: Vec<SeatForm>,
    /// Of its translation rules.
    pub rules: RuleForms,
    /// The number of the fate of the destination.
    pub fates: u32,
}

/// A network with the forms of its devices.
pub struct NetworkForm<'a> {
    /// The network.
    pub world: WorldRef<'a>,
    /// By the positions of its devices.
    pub devices: Vec<DeviceForm>,
    /// Its links.
    pub wiring: Wiring<'a>,
}

impl<'a> Drop for NetworkForm<'a> {
    fn drop(self) {
        let NetworkForm {
            world: _,
            devices: _,
            wiring: _,
        } = self;
    }
}
