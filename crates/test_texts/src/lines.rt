//! The command lines of the file `lines`, one a line, with a blank between words.

use hdr_bits::Header;
use net_types::{Text, Word};
use review_args::{Job, Packet, Request, WordsFail, read_words};
use std::alloc::Global;
use std::{fs, io};
use test_stop::Stop;

/// Each line, and what it is read as.
pub(crate) fn show(rt: &HostRuntime) -> Result<(), Stop> {
    let lines = fs::read_to_string(rt, "lines")?;
    show_lines(rt, lines.as_str())
}

fn show_lines(rt: &HostRuntime, lines: &str) -> Result<(), Stop> {
    for line in lines.lines() {
        show_line(rt, line)?;
    }
    Ok(())
}

fn show_line(rt: &HostRuntime, line: &str) -> Result<(), Stop> {
    println!(rt; "$ {line}")?;
    let words = words(rt.alloc(), line)?;
    show_command(rt, &words)
}

fn words(alloc: Global, line: &str) -> Result<Vec<String>, Stop> {
    let mut words = Vec::new(alloc);
    for word in line.split(' ') {
        words.push(String::from_str(alloc, word)?)?;
    }
    Ok(words)
}

fn show_command(rt: &HostRuntime, words: &[String]) -> Result<(), Stop> {
    match read_words(rt.alloc(), words) {
        Ok(request) => Ok(show_read(rt, &request)?),
        Err(WordsFail::Refused) => Ok(println!(rt; "refused")?),
        Err(WordsFail::NoMemory) => Err(Stop::NoMemory),
    }
}

fn show_read(rt: &HostRuntime, request: &Request) -> io::Result<()> {
    let workers = request.workers;
    match &request.job {
        Job::Compare(asked) => {
            show_compared(rt, &asked.old, &asked.new, &asked.links)?;
            show_new_links(rt, &asked.new_links)?;
            println!(rt; ", {} workers, ttl {}", workers, asked.ttl)
        }
        Job::Ask(asked) => {
            show_asked(rt, &asked.net, &asked.links, &asked.questions)?;
            println!(rt; ", {} workers, ttl {}", workers, asked.ttl)
        }
        Job::Trace(asked) => {
            show_traced(rt, &asked.net, &asked.links)?;
            show_place(rt, &asked.packet)?;
            show_header(rt, &asked.packet.header, asked.ttl)
        }
        Job::Read { net } => println!(rt; "read {}", net.as_str()),
        Job::Gen { number, size } => {
            println!(rt; "gen {} of {}, {} workers", *number, *size, workers)
        }
    }
}

fn show_compared(rt: &HostRuntime, old: &Word, new: &Word, links: &Word) -> io::Result<()> {
    print!(rt;
        "compare {} with {} over {}",
        old.as_str(),
        new.as_str(),
        links.as_str()
    )
}

fn show_new_links(rt: &HostRuntime, new_links: &Option<Word>) -> io::Result<()> {
    match new_links {
        Some(new_links) => print!(rt; " and {}", new_links.as_str()),
        None => Ok(()),
    }
}

fn show_asked(rt: &HostRuntime, net: &Word, links: &Word, questions: &Word) -> io::Result<()> {
    print!(rt;
        "ask {} over {} with {}",
        net.as_str(),
        links.as_str(),
        questions.as_str()
    )
}

fn show_traced(rt: &HostRuntime, net: &Word, links: &Word) -> io::Result<()> {
    print!(rt; "trace {} over {}", net.as_str(), links.as_str())
}

fn show_place(rt: &HostRuntime, packet: &Packet) -> io::Result<()> {
    print!(rt;
        " from {} {}",
        text(&packet.device),
        text(&packet.interface)
    )
}

// A name of a device or an interface; the ones here are text.
fn text(name: &Text) -> &str {
    str::from_utf8(name.as_bytes()).unwrap_or("?")
}

fn show_header(rt: &HostRuntime, header: &Header, ttl: u8) -> io::Result<()> {
    let Header {
        dst,
        src,
        proto,
        dport,
        sport,
        flags,
    } = *header;
    println!(rt; ", header {dst} {src} {proto} {dport} {sport} {flags}, ttl {ttl}")
}
