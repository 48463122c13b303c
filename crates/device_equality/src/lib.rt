//! Whether two devices of a network are the same: the same name, configuration and numbers.
#![tactic(auto)]

ghost use Rattle.std.specs.Prelude.{◌≡◌, true};

mod access_lists;
mod interfaces;
mod lists;
mod port_tests;
mod routes;

use access_lists::same_access_lists;
use interfaces::same_interfaces;
pub use interfaces::same_primary;
pub use lists::{same_nat_rules, same_subnets};
use lists::{same_numbers, same_text};
use net_types::{Config, NetDevice};
use routes::same_routes;

/// Whether two devices are known to be equal: name, configuration and numbers. It reads both once and takes no memory.
///
/// The contract says nothing of the answer `false`. The tests show on small devices that equal ones are found equal.
pub fn same_device(a: &NetDevice, b: &NetDevice) -> bool
    ensures { result ≡ true → a.now ≡ b.now }
{
    a.name == b.name
        && same_numbers(a.numbers.as_slice(), b.numbers.as_slice())
        && same_config(&a.config, &b.config)
}

fn same_config(a: &Config, b: &Config) -> bool
    ensures { result ≡ true → a.now ≡ b.now }
{
    same_text(&a.hostname, &b.hostname)
        && same_interfaces(a.interfaces.as_slice(), b.interfaces.as_slice())
        && same_routes(a.routes.as_slice(), b.routes.as_slice())
        && same_access_lists(a.lists.as_slice(), b.lists.as_slice())
        && same_nat_rules(a.nat.as_slice(), b.nat.as_slice())
}
