//! The moves of single headers, as the list of a place has them.

use crate::cases::{NetworkCase, show_all};
use crate::networks::{Plan, at};
use crate::tables::{ip, secure, web};
use device_transfers::Transfer;
use hdr_bits::Header;
use net_types::{Move, Place};
use std::io;
use transfer_rel::{Prepared, Version};

// A header that arrives at a place.
#[derive(Clone, Copy)]
struct Case {
    name: &'static str,
    plan: Plan,
    place: Place,
    header: Header,
}

fn arriving(name: &'static str, plan: Plan, place: Place, header: Header) -> Case {
    Case {
        name,
        plan,
        place,
        header,
    }
}

/// Prints the moves of each case in order.
pub(crate) fn show(rt: &HostRuntime) -> io::Result<()> {
    show_all(rt, &stopped_cases())?;
    show_all(rt, &translated_cases())?;
    show_all(rt, &office_cases())?;
    show_all(rt, &outer_cases())
}

// Where nothing is translated.
fn stopped_cases() -> [Case; 4] {
    let host = ip(10, 0, 0, 9);
    let to_link = web(host, ip(10, 0, 1, 2));
    let to_router = web(host, ip(10, 0, 1, 1));
    let to_choices = web(host, ip(192, 168, 0, 7));
    let bare = Header {
        dst: to_link.dst,
        src: 0,
        proto: 0,
        dport: 0,
        sport: 0,
        flags: 0,
    };
    let start = at(0, 0);
    [
        arriving("out of the other interface", Plan::TwoLinks, start, to_link),
        arriving(
            "with nothing but a destination",
            Plan::TwoLinks,
            start,
            bare,
        ),
        arriving("for the device itself", Plan::TwoLinks, start, to_router),
        arriving(
            "one of two choices is stopped",
            Plan::StoppedChoice,
            start,
            to_choices,
        ),
    ]
}

fn translated_cases() -> [Case; 4] {
    let inside = web(ip(10, 0, 0, 5), ip(10, 9, 0, 2));
    let global = web(ip(203, 0, 113, 5), ip(10, 9, 0, 2));
    let denied = web(ip(10, 0, 1, 5), ip(10, 9, 0, 2));
    let to_link = web(ip(10, 0, 0, 9), ip(10, 0, 1, 2));
    let twice = Plan::TranslatedTwice;
    [
        arriving("the source is translated", twice, at(0, 0), inside),
        arriving("and back", twice, at(1, 0), global),
        arriving("a source that the list denies", twice, at(0, 0), denied),
        arriving("the end is shut down", Plan::ShutEnd, at(0, 0), to_link),
    ]
}

fn office_cases() -> [Case; 2] {
    let served = secure(ip(198, 51, 100, 2));
    let office = Plan::Office;
    [
        arriving("the destination is translated", office, at(0, 1), served),
        arriving("no such place", office, at(7, 0), served),
    ]
}

// Where hosts outside are known by other addresses.
fn outer_cases() -> [Case; 4] {
    let host = ip(10, 0, 0, 9);
    let outer = Plan::OuterLan;
    [
        arriving(
            "to the next address of the destination that came",
            outer,
            at(0, 0),
            web(host, ip(10, 0, 5, 2)),
        ),
        arriving(
            "the list sees the destination that leaves",
            outer,
            at(0, 0),
            web(host, ip(10, 8, 0, 7)),
        ),
        arriving(
            "no route for the destination that would leave",
            outer,
            at(0, 0),
            web(host, ip(198, 51, 100, 7)),
        ),
        arriving(
            "source and destination are translated",
            outer,
            at(0, 1),
            Header {
                src: ip(198, 51, 100, 7),
                ..secure(ip(203, 0, 113, 5))
            },
        ),
    ]
}

impl NetworkCase for Case {
    fn plan(&self) -> Plan {
        self.plan
    }

    fn show_in(&self, rt: &HostRuntime, prepared: &Prepared) -> io::Result<()> {
        let name = self.name;
        println!(rt; "{name}:")?;
        show_arriving(rt, self, prepared)
    }
}

fn show_arriving(rt: &HostRuntime, case: &Case, prepared: &Prepared) -> io::Result<()> {
    match Transfer::of(rt.alloc(), prepared, Version::Old, case.place) {
        Ok(transfer) => show_transfer(rt, case, &transfer),
        Err(_) => println!(rt; "  no memory"),
    }
}

fn show_transfer(rt: &HostRuntime, case: &Case, transfer: &Transfer) -> io::Result<()> {
    match transfer.moves(rt.alloc(), &case.header) {
        Ok(moves) => show_moves(rt, &moves),
        Err(_) => println!(rt; "  no memory"),
    }
}

fn show_moves(rt: &HostRuntime, moves: &[Move]) -> io::Result<()> {
    for one in moves {
        show_move(rt, one)?;
    }
    Ok(())
}

fn show_move(rt: &HostRuntime, one: &Move) -> io::Result<()> {
    match one {
        Move::Drop => println!(rt; "  dropped"),
        Move::Lost => println!(rt; "  lost"),
        Move::Local { place } => show_sent(rt, "local", *place, None),
        Move::Exit { place, header } => show_sent(rt, "exit", *place, Some(*header)),
        Move::Go { place, header } => show_sent(rt, "go to", *place, Some(*header)),
    }
}

// With the bytes of the addresses with which it goes on.
fn show_sent(rt: &HostRuntime, word: &str, place: Place, header: Option<Header>) -> io::Result<()> {
    let device = place.device;
    let interface = place.interface;
    let Some(header) = header else {
        return println!(rt; "  {word} {device}.{interface}");
    };
    let src = header.src.to_be_bytes();
    let dst = header.dst.to_be_bytes();
    println!(rt; "  {word} {device}.{interface} from {src:?} to {dst:?}")
}
