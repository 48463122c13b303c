//! A configuration as text.
ghost use Rattle.std.specs.Prelude.{◌≡◌, ◌++◌, map, flat_map, IfOk, OnOk};
ghost use Rattle.net_text.specs.Texts.{spell};
ghost use Rattle.ios_config.specs.Reads.{Reads};
ghost use Rattle.ios_print.specs.Accepted.{Accepted};
ghost use Rattle.ios_print.specs.Print.{host_row, interface_rows, route_row, rule_row, list_rows, printed};

use crate::entries::append_list;
use crate::interfaces::append_interface;
use crate::routes::{append_route, append_rule};
use crate::text::{append, append_word};
use net_types::{AccessList, Config, Interface, NatRule, NoMemory, Route, Text};
use std::alloc::Global;

/// The text of a configuration: its hostname, interfaces, routes, rules of address translation and access lists.
///
/// The configuration is one that some text is read as. What is written is read as this configuration, with no line
/// passed over.
pub fn print_config(alloc: Global, config: &Config) -> Result<Vec<u8>, NoMemory>
    requires { Accepted config.now }
    ensures text { IfOk result (λ text. text.items ≡ printed config.now) }
    ensures read { IfOk result (λ text. Reads text.items config.now 0) }
{
    write_config(alloc, config)
}

/// The text of a configuration.
fn write_config(alloc: Global, config: &Config) -> Result<Vec<u8>, NoMemory>
    ensures { IfOk result (λ text. text.items ≡ printed config.now) }
{
    let mut out = Vec::new(alloc);
    append_config(&mut out, config)?;
    Ok(out)
}

fn append_config(out: &mut Vec<u8>, config: &Config) -> Result<(), NoMemory>
    ensures { OnOk result (out.new.items ≡ out.old.items ++ printed config.now) }
{
    append_hostname(out, &config.hostname)?;
    append_interfaces(out, config.interfaces.as_slice())?;
    append_routes(out, config.routes.as_slice())?;
    append_rules(out, config.nat.as_slice())?;
    append_lists(out, config.lists.as_slice())
}

fn append_hostname(out: &mut Vec<u8>, name: &Text) -> Result<(), NoMemory>
    ensures { OnOk result (out.new.items ≡ out.old.items ++ spell (host_row name.now)) }
{
    append(out, b"hostname")?;
    append_word(out, name.as_bytes())?;
    append(out, b"\n")
}

fn append_interfaces(out: &mut Vec<u8>, interfaces: &[Interface]) -> Result<(), NoMemory>
    ensures { OnOk result (out.new.items ≡ out.old.items ++ flat_map spell (flat_map interface_rows interfaces.now)) }
{
    for interface in interfaces {
        append_interface(out, interface)?;
    }
    Ok(())
}

fn append_routes(out: &mut Vec<u8>, routes: &[Route]) -> Result<(), NoMemory>
    ensures { OnOk result (out.new.items ≡ out.old.items ++ flat_map spell (map route_row routes.now)) }
{
    for route in routes {
        append_route(out, route)?;
    }
    Ok(())
}

fn append_rules(out: &mut Vec<u8>, rules: &[NatRule]) -> Result<(), NoMemory>
    ensures { OnOk result (out.new.items ≡ out.old.items ++ flat_map spell (map rule_row rules.now)) }
{
    for rule in rules {
        append_rule(out, rule)?;
    }
    Ok(())
}

fn append_lists(out: &mut Vec<u8>, lists: &[AccessList]) -> Result<(), NoMemory>
    ensures { OnOk result (out.new.items ≡ out.old.items ++ flat_map spell (flat_map list_rows lists.now)) }
{
    for list in lists {
        append_list(out, list)?;
    }
    Ok(())
}
