//! Which devices, and which interfaces, are found to do the same in two networks. That all are found is shown here alone.

ghost use Rattle.std.specs.Prelude.{◌≡◌};
ghost use Rattle.net_view.specs.Borrowed.{world_of};

use crate::networks::{Networks, Plan, at};
use like_devices::{has_name, like_devices};
use link_sends::Wiring;
use net_types::{NoMemory, Place};
use net_view::WorldRef;
use std::alloc::Global;
use std::io;

#[derive(Clone, Copy)]
struct Case {
    name: &'static str,
    plan: Plan,
    /// Of what is sent out of these interfaces.
    places: [Place; 4],
}

#[derive(Clone, Copy)]
struct Found {
    /// By the numbers of devices.
    devices: [bool; 4],
    sends: [bool; 4],
}

/// Prints for each case of the devices 0 to 3 whether they are known to be alike, and of some interfaces whether they are
/// known to send alike.
pub(crate) fn show(rt: &HostRuntime) -> io::Result<()> {
    let lan = [at(0, 0), at(0, 1), at(2, 0), at(3, 0)];
    let fan = [at(0, 0), at(0, 1), at(0, 2), at(2, 0)];
    let cases = [
        // There are two devices, and nothing has changed.
        Case {
            name: "pair",
            plan: Plan::Pair,
            places: [at(0, 0), at(0, 1), at(1, 0), at(9, 9)],
        },
        // The second router's list has changed, and none of the ends.
        Case {
            name: "fan",
            plan: Plan::Fan,
            places: fan,
        },
        // The fourth router has lost a route, and the lan has the ends that it had.
        Case {
            name: "lan",
            plan: Plan::Lan,
            places: lan,
        },
        // An end of the lan has another address, so that the others may send there what they didn't.
        Case {
            name: "moved end",
            plan: Plan::MovedEnd,
            places: lan,
        },
        // The other end of the lan is up in the new network.
        Case {
            name: "end shut down",
            plan: Plan::ShutEnd,
            places: [at(0, 0), at(0, 1), at(1, 0), at(9, 9)],
        },
        // The third router is shut down, and the first one still sends to it.
        Case {
            name: "far end",
            plan: Plan::FarEnd,
            places: fan,
        },
    ];
    for case in &cases {
        show_case(rt, case)?;
    }
    Ok(())
}

fn show_case(rt: &HostRuntime, case: &Case) -> io::Result<()> {
    match Networks::of(rt.alloc(), case.plan) {
        Some(networks) => show_networks(rt, case, &networks),
        None => println!(rt; "no network"),
    }
}

fn show_networks(rt: &HostRuntime, case: &Case, networks: &Networks) -> io::Result<()> {
    match compare(rt.alloc(), case, networks.old(), networks.new()) {
        Ok(found) => {
            let name = case.name;
            let devices = found.devices;
            let sends = found.sends;
            println!(rt; "{name}: devices alike {devices:?}, send alike {sends:?}")
        }
        Err(_) => println!(rt; "no memory"),
    }
}

fn compare(alloc: Global, case: &Case, old: WorldRef, new: WorldRef) -> Result<Found, NoMemory> {
    let before = Wiring::of(alloc, old)?;
    compare_after(alloc, case, old, new, &before)
}

fn compare_after(
    alloc: Global,
    case: &Case,
    old: WorldRef,
    new: WorldRef,
    before: &Wiring,
) -> Result<Found, NoMemory>
    requires { before.now ≡ world_of old }
{
    let after = Wiring::of(alloc, new)?;
    compare_by(alloc, case, old, new, before, &after)
}

fn compare_by(
    alloc: Global,
    case: &Case,
    old: WorldRef,
    new: WorldRef,
    before: &Wiring,
    after: &Wiring,
) -> Result<Found, NoMemory>
    requires before { before.now ≡ world_of old }
    requires after { after.now ≡ world_of new }
{
    let names = like_devices(alloc, old, new, before, after)?;
    let [p, q, r, s] = case.places;
    Ok(Found {
        devices: [
            has_name(&names, 0),
            has_name(&names, 1),
            has_name(&names, 2),
            has_name(&names, 3),
        ],
        sends: [
            before.sends_alike(after, p),
            before.sends_alike(after, q),
            before.sends_alike(after, r),
            before.sends_alike(after, s),
        ],
    })
}
