//! Cases that are asked in the compiled networks of a plan.

use crate::networks::{Networks, Plan};
use std::io;
use transfer_rel::Prepared;

/// A case with the plan of its networks.
pub(crate) trait NetworkCase {
    fn plan(&self) -> Plan;

    /// Prints what is found for it in its networks.
    fn show_in(&self, rt: &HostRuntime, prepared: &Prepared) -> io::Result<()>;
}

/// Prints what is found for each case in order.
pub(crate) fn show_all<C: NetworkCase>(rt: &HostRuntime, cases: &[C]) -> io::Result<()> {
    for case in cases {
        show_case(rt, case)?;
    }
    Ok(())
}

fn show_case<C: NetworkCase>(rt: &HostRuntime, case: &C) -> io::Result<()> {
    match Networks::of(rt.alloc(), case.plan()) {
        Some(networks) => show_networks(rt, case, &networks),
        None => println!(rt; "no network"),
    }
}

fn show_networks<C: NetworkCase>(
    rt: &HostRuntime,
    case: &C,
    networks: &Networks,
) -> io::Result<()> {
    match Prepared::of(rt.alloc(), networks.both()) {
        Ok(prepared) => case.show_in(rt, &prepared),
        Err(_) => println!(rt; "no memory"),
    }
}
