//! Access lists as text.
ghost use Rattle.std.specs.Prelude.{◌≡◌, ◌++◌, ◌∷◌, [], map, flat_map, decimal, OnOk};
ghost use Rattle.net_text.specs.Texts.{spell};
ghost use Rattle.ios_print.specs.Print.{list_row, list_rows, kind_word, entry_row, verb_word, entry_words, extended_words, port_words, icmp_words, flag_words, mask_words, flag_word, proto_word};
ghost use Rattle.ios_print.specs.Tail.{tail};

use crate::text::{append, append_masked, append_number, append_word};
use net_types::{AccessList, Entry, FlagTest, IcmpTest, NoMemory, PortTest};

/// An access list: its section.
pub fn append_list(out: &mut Vec<u8>, list: &AccessList) -> Result<(), NoMemory>
    ensures { OnOk result (out.new.items ≡ out.old.items ++ flat_map spell (list_rows list.now)) }
{
    append_list_line(out, list)?;
    append_entries(out, list.extended, list.entries.as_slice())
}

/// The line that opens the section of a list.
fn append_list_line(out: &mut Vec<u8>, list: &AccessList) -> Result<(), NoMemory>
    ensures { OnOk result (out.new.items ≡ out.old.items ++ spell (list_row list.now)) }
{
    append(out, b"ip access-list")?;
    append_list_words(out, list)?;
    append(out, b"\n")
}

fn append_list_words(out: &mut Vec<u8>, list: &AccessList) -> Result<(), NoMemory>
    ensures { OnOk result (out.new.items ≡ out.old.items ++ tail (kind_word list.now.extended ∷ list.now.name ∷ [])) }
{
    append_kind(out, list.extended)?;
    append_word(out, list.name.as_bytes())
}

fn append_kind(out: &mut Vec<u8>, extended: bool) -> Result<(), NoMemory>
    ensures { OnOk result (out.new.items ≡ out.old.items ++ 32 ∷ kind_word extended) }
{
    if extended {
        append_word(out, b"extended")
    } else {
        append_word(out, b"standard")
    }
}

fn append_entries(out: &mut Vec<u8>, extended: bool, entries: &[Entry]) -> Result<(), NoMemory>
    ensures { OnOk result (out.new.items ≡ out.old.items ++ flat_map spell (map (entry_row extended) entries.now)) }
{
    for entry in entries {
        append_entry(out, extended, entry)?;
    }
    Ok(())
}

/// An entry: its line.
fn append_entry(out: &mut Vec<u8>, extended: bool, entry: &Entry) -> Result<(), NoMemory>
    ensures { OnOk result (out.new.items ≡ out.old.items ++ spell (entry_row extended entry.now)) }
{
    append_number(out, entry.sequence)?;
    append_action(out, extended, entry)?;
    append(out, b"\n")
}

fn append_action(out: &mut Vec<u8>, extended: bool, entry: &Entry) -> Result<(), NoMemory>
    ensures { OnOk result (out.new.items ≡ out.old.items ++ tail (verb_word entry.now.permit ∷ entry_words extended entry.now)) }
{
    append_verb(out, entry.permit)?;
    append_tests(out, extended, entry)
}

fn append_verb(out: &mut Vec<u8>, permit: bool) -> Result<(), NoMemory>
    ensures { OnOk result (out.new.items ≡ out.old.items ++ 32 ∷ verb_word permit) }
{
    if permit {
        append_word(out, b"permit")
    } else {
        append_word(out, b"deny")
    }
}

fn append_tests(out: &mut Vec<u8>, extended: bool, entry: &Entry) -> Result<(), NoMemory>
    ensures { OnOk result (out.new.items ≡ out.old.items ++ tail (entry_words extended entry.now)) }
{
    if extended {
        append_extended(out, entry)
    } else {
        append_masked(out, entry.src)
    }
}

fn append_extended(out: &mut Vec<u8>, entry: &Entry) -> Result<(), NoMemory>
    ensures { OnOk result (out.new.items ≡ out.old.items ++ tail (extended_words entry.now)) }
{
    append_proto(out, entry.proto)?;
    append_masked(out, entry.src)?;
    append_port_test(out, &entry.sport)?;
    append_masked(out, entry.dst)?;
    append_port_test(out, &entry.dport)?;
    append_icmp(out, entry.icmp)?;
    append_flags(out, entry.flags)
}

fn append_proto(out: &mut Vec<u8>, proto: Option<u8>) -> Result<(), NoMemory>
    ensures { OnOk result (out.new.items ≡ out.old.items ++ 32 ∷ proto_word proto) }
{
    match proto {
        None => append_word(out, b"ip"),
        Some(proto) => append_number(out, u32::from(proto)),
    }
}

fn append_port_test(out: &mut Vec<u8>, test: &PortTest) -> Result<(), NoMemory>
    ensures { OnOk result (out.new.items ≡ out.old.items ++ tail (port_words test.now)) }
{
    match test {
        PortTest::Any => Ok(()),
        PortTest::Eq { ports } => {
            append_word(out, b"eq")?;
            append_ports(out, ports.as_slice())
        }
        PortTest::Neq { port } => append_port(out, b"neq", *port),
        PortTest::Gt { port } => append_port(out, b"gt", *port),
        PortTest::Lt { port } => append_port(out, b"lt", *port),
        PortTest::Range { low, high } => {
            append_port(out, b"range", *low)?;
            append_number(out, u32::from(*high))
        }
    }
}

fn append_port(out: &mut Vec<u8>, word: &[u8], port: u16) -> Result<(), NoMemory>
    ensures { OnOk result (out.new.items ≡ out.old.items ++ tail (word.now ∷ decimal port ∷ [])) }
{
    append_word(out, word)?;
    append_number(out, u32::from(port))
}

fn append_ports(out: &mut Vec<u8>, ports: &[u16]) -> Result<(), NoMemory>
    ensures { OnOk result (out.new.items ≡ out.old.items ++ tail (map decimal ports.now)) }
{
    for port in ports {
        append_number(out, u32::from(*port))?;
    }
    Ok(())
}

fn append_icmp(out: &mut Vec<u8>, test: IcmpTest) -> Result<(), NoMemory>
    ensures { OnOk result (out.new.items ≡ out.old.items ++ tail (icmp_words test)) }
{
    match test {
        IcmpTest::Any => Ok(()),
        IcmpTest::Kind { kind } => append_number(out, u32::from(kind)),
        IcmpTest::Exact { kind, code } => {
            append_number(out, u32::from(kind))?;
            append_number(out, u32::from(code))
        }
    }
}

fn append_flags(out: &mut Vec<u8>, test: FlagTest) -> Result<(), NoMemory>
    ensures { OnOk result (out.new.items ≡ out.old.items ++ tail (flag_words test)) }
{
    match test {
        FlagTest::Any => Ok(()),
        FlagTest::AnyOf { set, clear } => {
            append_word(out, b"match-any")?;
            append_mask(out, b'+', set)?;
            append_mask(out, b'-', clear)
        }
        FlagTest::AllOf { set, clear } => {
            append_word(out, b"match-all")?;
            append_mask(out, b'+', set)?;
            append_mask(out, b'-', clear)
        }
    }
}

/// The flags of a mask, each behind a sign.
fn append_mask(out: &mut Vec<u8>, sign: u8, mask: u8) -> Result<(), NoMemory>
    ensures { OnOk result (out.new.items ≡ out.old.items ++ tail (mask_words sign mask)) }
{
    append_flag(out, sign, mask, 1, b"fin")?;
    append_flag(out, sign, mask, 2, b"syn")?;
    append_flag(out, sign, mask, 4, b"rst")?;
    append_flag(out, sign, mask, 8, b"psh")?;
    append_flag(out, sign, mask, 16, b"ack")?;
    append_flag(out, sign, mask, 32, b"urg")
}

fn append_flag(out: &mut Vec<u8>, sign: u8, mask: u8, flag: u8, name: &[u8]) -> Result<(), NoMemory>
    ensures { OnOk result (out.new.items ≡ out.old.items ++ tail (flag_word sign mask (flag, name.now))) }
{
    if mask & flag == 0 {
        return Ok(());
    }
    out.push(b' ')?;
    out.push(sign)?;
    append(out, name)
}
