//! Texts and what they are read as: a copy of the configuration, as it is printed, and how many lines are passed over, or the
//! refusal.
ghost use Rattle.std.specs.Prelude.{◌≤◌, length};
ghost use Rattle.net_text.specs.Limits.{text_limit};

use ios_config::{ConfigFail, Reading, Refusal, read_config};
use ios_print::print_config;
use net_types::{Duplicate, NoMemory};
use std::alloc::Global;
use std::fs;
use std::io::Write;
use test_stop::Stop;

/// The texts of the file `configurations`, each behind a line `==`, behind the line `hostname R1`.
pub(crate) fn show_texts(rt: &HostRuntime) -> Result<(), Stop> {
    let cases = fs::read_to_string(rt, "configurations")?;
    for lines in cases.as_str().split("==\n").skip(1) {
        print!(rt; "==\n{lines}")?;
        show_lines(rt, lines.as_bytes())?;
    }
    Ok(())
}

/// Texts that aren't UTF-8, behind the line `hostname R1`.
pub(crate) fn show_bytes(rt: &HostRuntime) -> Result<(), Stop> {
    let cases: [&[u8]; 3] = [
        b"hostname R1 \xff\xfe",
        b"banner motd \xc3\xa9 x \xa9",
        b"banner motd   \xc3\xa9 x\nrouter ospf 1 \xc3",
    ];
    for lines in cases {
        println!(rt; "==\n{}", lines.escape_ascii())?;
        show_lines(rt, lines)?;
    }
    Ok(())
}

fn show_lines(rt: &HostRuntime, lines: &[u8]) -> Result<(), Stop> {
    let text = after_hostname(rt.alloc(), lines)?;
    show_text(rt, &text)
}

fn after_hostname(alloc: Global, lines: &[u8]) -> Result<Vec<u8>, NoMemory> {
    let mut text = Vec::from_slice(alloc, b"hostname R1\n")?;
    text.extend_from_slice(lines)?;
    Ok(text)
}

fn show_text(rt: &HostRuntime, text: &[u8]) -> Result<(), Stop> {
    if text.len() > 16_777_216 {
        return Ok(());
    }
    match read_printed(rt.alloc(), text) {
        Ok((printed, passed)) => {
            println!(rt; "=> passed over {passed}")?;
            rt.stdout().write_all(&printed)?;
            Ok(())
        }
        Err(ConfigFail::Refused { refusal }) => show_refusal(rt, &refusal),
        Err(ConfigFail::NoMemory) => Err(Stop::NoMemory),
    }
}

/// A copy of the configuration of a text, as it is printed, and how many lines are passed over.
fn read_printed(alloc: Global, text: &[u8]) -> Result<(Vec<u8>, u32), ConfigFail>
    requires { length text.now ≤ text_limit }
{
    let Reading { config, passed } = read_config(alloc, text)?;
    let copy = config.copy(alloc)?;
    match print_config(alloc, &copy) {
        Ok(printed) => Ok((printed, passed)),
        Err(NoMemory) => Err(ConfigFail::NoMemory),
    }
}

fn show_refusal(rt: &HostRuntime, refusal: &Refusal) -> Result<(), Stop> {
    let word = refusal.word.as_bytes().escape_ascii();
    println!(rt;
        "=> refused line {} {} {word}",
        refusal.line,
        refusal.kind.name()
    )?;
    Ok(())
}

/// A text with so many interfaces, routes and rules of address translation.
fn large_text(alloc: Global, count: u32) -> Result<Vec<u8>, NoMemory> {
    let mut text = Vec::from_slice(alloc, b"hostname R1\n")?;
    for i in 0..count {
        let (a, b, c) = (i >> 16 & 255, i >> 8 & 255, i & 255);
        let lines = format!(in alloc;
            "interface E{i}\n ip address 10.{a}.{b}.{c} 255.255.255.255\nip route 172.{a}.{b}.{c} 255.255.255.255 E{i}\nip nat inside source static 11.{a}.{b}.{c} 12.{a}.{b}.{c}\n"
        )?;
        text.extend_from_slice(lines.as_bytes())?;
    }
    Ok(text)
}

/// Of 20,000 interfaces, routes and rules all are read, and an overlap at their end is found.
pub(crate) fn show_large(rt: &HostRuntime) -> Result<(), Stop> {
    let mut text = large_text(rt.alloc(), 20_000)?;
    show_counts(rt, &text)?;
    text.extend_from_slice(b"interface F0\n ip address 10.0.0.7 255.255.255.0\n")?;
    show_text(rt, &text)
}

fn show_counts(rt: &HostRuntime, text: &[u8]) -> Result<(), Stop> {
    if text.len() > 16_777_216 {
        return Ok(());
    }
    let Ok(Reading { config, passed }) = read_config(rt.alloc(), text) else {
        println!(rt; "refused")?;
        return Ok(());
    };
    let interfaces = config.interfaces.as_slice().len();
    let routes = config.routes.as_slice().len();
    let rules = config.nat.as_slice().len();
    println!(rt; "{interfaces} interfaces, {routes} routes, {rules} rules, passed over {passed}")?;
    Ok(())
}
