//! Interfaces as text.
ghost use Rattle.std.specs.Prelude.{◌≡◌, ◌++◌, [], ◌∷◌, map, flat_map, option_to_list, codes, OnOk};
ghost use Rattle.net_text.specs.Texts.{spell};
ghost use Rattle.ios_print.specs.Print.{primary_row, secondary_row, shut_rows, group_row, side_rows, interface_row, interface_rows};
ghost use Rattle.ios_print.specs.Tail.{tail};

use crate::text::{append, append_subnet, append_word};
use net_types::{Interface, NoMemory, Side, Subnet, Text};

/// An interface: its section.
pub fn append_interface(out: &mut Vec<u8>, interface: &Interface) -> Result<(), NoMemory>
    ensures { OnOk result (out.new.items ≡ out.old.items ++ flat_map spell (interface_rows interface.now)) }
{
    append_interface_line(out, interface)?;
    append_primary(out, interface.primary)?;
    append_secondaries(out, interface.secondary.as_slice())?;
    append_shut(out, interface.shut)?;
    append_input(out, &interface.input)?;
    append_output(out, &interface.output)?;
    append_side(out, interface.side)
}

/// The line that opens the section of an interface.
fn append_interface_line(out: &mut Vec<u8>, interface: &Interface) -> Result<(), NoMemory>
    ensures { OnOk result (out.new.items ≡ out.old.items ++ spell (interface_row interface.now)) }
{
    append(out, b"interface")?;
    append_word(out, interface.name.as_bytes())?;
    append(out, b"\n")
}

fn append_primary(out: &mut Vec<u8>, subnet: Option<Subnet>) -> Result<(), NoMemory>
    ensures { OnOk result (out.new.items ≡ out.old.items ++ flat_map spell (map primary_row (option_to_list subnet))) }
{
    match subnet {
        None => Ok(()),
        Some(subnet) => append_primary_line(out, subnet),
    }
}

fn append_secondaries(out: &mut Vec<u8>, subnets: &[Subnet]) -> Result<(), NoMemory>
    ensures { OnOk result (out.new.items ≡ out.old.items ++ flat_map spell (map secondary_row subnets.now)) }
{
    for subnet in subnets {
        append_secondary_line(out, *subnet)?;
    }
    Ok(())
}

fn append_primary_line(out: &mut Vec<u8>, subnet: Subnet) -> Result<(), NoMemory>
    ensures { OnOk result (out.new.items ≡ out.old.items ++ spell (primary_row subnet)) }
{
    append(out, b" ip address")?;
    append_subnet(out, subnet)?;
    append(out, b"\n")
}

fn append_secondary_line(out: &mut Vec<u8>, subnet: Subnet) -> Result<(), NoMemory>
    ensures { OnOk result (out.new.items ≡ out.old.items ++ spell (secondary_row subnet)) }
{
    append(out, b" ip address")?;
    append_subnet(out, subnet)?;
    append(out, b" secondary\n")
}

fn append_shut(out: &mut Vec<u8>, shut: bool) -> Result<(), NoMemory>
    ensures { OnOk result (out.new.items ≡ out.old.items ++ flat_map spell (shut_rows shut)) }
{
    if shut {
        append(out, b" shutdown\n")?;
    }
    Ok(())
}

fn append_input(out: &mut Vec<u8>, list: &Option<Text>) -> Result<(), NoMemory>
    ensures { OnOk result (out.new.items ≡ out.old.items ++ flat_map spell (map (group_row (codes "in")) (option_to_list list.now))) }
{
    match list {
        None => Ok(()),
        Some(name) => append_group(out, name, b"in"),
    }
}

fn append_output(out: &mut Vec<u8>, list: &Option<Text>) -> Result<(), NoMemory>
    ensures { OnOk result (out.new.items ≡ out.old.items ++ flat_map spell (map (group_row (codes "out")) (option_to_list list.now))) }
{
    match list {
        None => Ok(()),
        Some(name) => append_group(out, name, b"out"),
    }
}

fn append_group(out: &mut Vec<u8>, name: &Text, direction: &[u8]) -> Result<(), NoMemory>
    ensures { OnOk result (out.new.items ≡ out.old.items ++ spell (group_row direction.now name.now)) }
{
    append(out, b" ip access-group")?;
    append_group_words(out, name, direction)?;
    append(out, b"\n")
}

fn append_group_words(out: &mut Vec<u8>, name: &Text, direction: &[u8]) -> Result<(), NoMemory>
    ensures { OnOk result (out.new.items ≡ out.old.items ++ tail (name.now ∷ direction.now ∷ [])) }
{
    append_word(out, name.as_bytes())?;
    append_word(out, direction)
}

fn append_side(out: &mut Vec<u8>, side: Side) -> Result<(), NoMemory>
    ensures { OnOk result (out.new.items ≡ out.old.items ++ flat_map spell (side_rows side)) }
{
    match side {
        Side::Neither => Ok(()),
        Side::Inside => append(out, b" ip nat inside\n"),
        Side::Outside => append(out, b" ip nat outside\n"),
    }
}
