//! Access lists of one entry, by the headers that they pass, and the verdicts of lists of two entries and of none.

use crate::read::read_lines;
use acl_match::{add_list, compile_list, entry_cubes, first_match};
use cube_diagram::Diagrams;
use hdr_bits::Header;
use net_types::{AccessList, Entry, NoMemory, Verdict};
use std::alloc::Global;
use std::io;

/// Three of TCP (with SYN, with ACK, with no flag), one of UDP, and of ICMP an echo (type 8) and an unreachable port
/// (type 3, code 3), whose type and code stand in place of the source port.
const HEADERS: [Header; 6] = [
    Header {
        dst: 0x0a00_0105,
        src: 0xc000_0201,
        proto: 6,
        dport: 80,
        sport: 40000,
        flags: 2,
    },
    Header {
        dst: 0x0a00_0105,
        src: 0xc000_0201,
        proto: 6,
        dport: 443,
        sport: 39999,
        flags: 16,
    },
    Header {
        dst: 0x0a00_0005,
        src: 0xc000_0201,
        proto: 6,
        dport: 1024,
        sport: 40001,
        flags: 0,
    },
    Header {
        dst: 0x0a01_0005,
        src: 0xc000_0201,
        proto: 17,
        dport: 53,
        sport: 40000,
        flags: 0,
    },
    Header {
        dst: 0x0a00_0105,
        src: 0xc000_0201,
        proto: 1,
        dport: 0,
        sport: 2048,
        flags: 0,
    },
    Header {
        dst: 0x0a00_0004,
        src: 0xc000_0201,
        proto: 1,
        dport: 0,
        sport: 771,
        flags: 0,
    },
];

/// Each stands alone in a list.
const ENTRIES: [&str; 21] = [
    " permit ip any any",
    " permit tcp any any",
    " permit tcp any any eq 80 443",
    " permit tcp any any neq 80",
    " permit tcp any any gt 443",
    " permit tcp any any gt 65535",
    " permit tcp any any lt 80",
    " permit tcp any any lt 81",
    " permit tcp any any range 80 443",
    " permit tcp any any range 443 80",
    " permit tcp any gt 39999 any",
    " permit udp any any eq 53",
    " permit tcp any any established",
    " permit tcp any any match-any +syn -ack",
    " permit tcp any any match-all +syn -ack",
    " permit tcp any any match-all +ack -ack",
    " permit icmp any any echo",
    " permit icmp any any 3",
    " permit ip any host 10.0.1.5",
    " permit ip any 10.0.0.5 0.0.255.0",
    " deny ip any any",
];

/// Prints of each entry which of the headers a list of it passes.
pub(crate) fn print_lists(rt: &HostRuntime) -> io::Result<()> {
    for entry in ENTRIES {
        print_entry(rt, entry)?;
    }
    Ok(())
}

fn print_entry(rt: &HostRuntime, entry: &str) -> io::Result<()> {
    match read_lines(rt.alloc(), "ip access-list extended A", entry) {
        Some(config) => print_signs(rt, config.lists.as_slice().first(), entry),
        None => println!(rt; "refused:{entry}"),
    }
}

fn print_signs(rt: &HostRuntime, list: Option<&AccessList>, entry: &str) -> io::Result<()> {
    for header in &HEADERS {
        print!(rt; "{}", sign(rt.alloc(), list, header))?;
    }
    println!(rt; "{entry}")
}

// Whether the list passes the header, by each form of the list.
fn sign(alloc: Global, list: Option<&AccessList>, header: &Header) -> &'static str {
    let passes = passes(first_match(list, header));
    let cubes = cubes_pass(alloc, list, header) == Ok(passes);
    let diagram = diagram_passes(alloc, list, header) == Ok(passes);
    if !(cubes && diagram && is_permitted(alloc, list, header) == Ok(passes)) {
        return "?";
    }
    if passes { "+" } else { "-" }
}

fn passes(verdict: Verdict) -> bool {
    matches!(verdict, Verdict::Passed | Verdict::Permit { .. })
}

// By the disjoint cubes of the list.
fn cubes_pass(alloc: Global, list: Option<&AccessList>, header: &Header) -> Result<bool, NoMemory> {
    let answers = compile_list(alloc, list)?;
    Ok(answers.iter().any(|p| p.1 && p.0.contains(header)))
}

// By the diagram of the list.
fn diagram_passes(
    alloc: Global,
    list: Option<&AccessList>,
    header: &Header,
) -> Result<bool, NoMemory> {
    let mut diagrams = Diagrams::new(alloc)?;
    passes_in(alloc, &mut diagrams, list, header)
}

fn passes_in(
    alloc: Global,
    diagrams: &mut Diagrams,
    list: Option<&AccessList>,
    header: &Header,
) -> Result<bool, NoMemory> {
    let function = add_list(alloc, diagrams, list)?;
    Ok(diagrams.lookup(function, header) == Some(1))
}

// By the cubes of the one entry.
fn is_permitted(
    alloc: Global,
    list: Option<&AccessList>,
    header: &Header,
) -> Result<bool, NoMemory> {
    match list.and_then(|list| list.entries.as_slice().first()) {
        Some(entry) => entry_permits(alloc, entry, header),
        None => Ok(true),
    }
}

fn entry_permits(alloc: Global, entry: &Entry, header: &Header) -> Result<bool, NoMemory> {
    let cubes = entry_cubes(alloc, entry)?;
    Ok(entry.permit && cubes.iter().any(|c| c.contains(header)))
}

/// Lists, each by its lines.
const LISTS: [&str; 5] = [
    " 10 deny tcp any any",
    " 10 deny tcp any any\n 20 permit ip any host 10.0.1.5",
    " 10 deny udp any any\n 20 permit tcp any any eq 80\n 30 deny tcp any any eq 80",
    " permit icmp any any\n permit tcp any host 10.0.1.5 eq www",
    "",
];

/// Prints the verdicts of the lists on each header, and of no list on the first one.
pub(crate) fn print_verdicts(rt: &HostRuntime) -> io::Result<()> {
    for lines in LISTS {
        print_verdicts_of(rt, lines)?;
    }
    print!(rt; "without a list:")?;
    print_verdict(rt, first_match(None, &HEADERS[0]))?;
    println!(rt; "")
}

fn print_verdicts_of(rt: &HostRuntime, lines: &str) -> io::Result<()> {
    match read_lines(rt.alloc(), "ip access-list extended A", lines) {
        Some(config) => print_verdicts_by(rt, config.lists.as_slice().first()),
        None => println!(rt; "refused: {lines}"),
    }
}

fn print_verdicts_by(rt: &HostRuntime, list: Option<&AccessList>) -> io::Result<()> {
    print!(rt; "verdicts:")?;
    for header in &HEADERS {
        print_verdict(rt, first_match(list, header))?;
    }
    println!(rt; "")
}

fn print_verdict(rt: &HostRuntime, verdict: Verdict) -> io::Result<()> {
    match verdict {
        Verdict::Passed => print!(rt; " passed"),
        Verdict::Permit { sequence } => print!(rt; " permit {sequence}"),
        Verdict::Deny { sequence } => print!(rt; " deny {sequence}"),
        Verdict::DenyEnd => print!(rt; " end"),
    }
}
