//! Networks, compiled: each access list, the translation rules of each device, and what each device does with
//! destinations, as functions in one table of diagrams.
//!
//! What is asked of a network afterwards, for one cube of headers or for exact sets of them, is asked of these functions.
//! Two networks that are compared stand in one table, so that equal functions have equal numbers in both.
#![tactic(auto)]

mod compile;
mod formed;
mod forms;
mod networks;
mod prepared;
mod seat;
mod version;

pub use compile::{compile_device, compile_network};
pub use formed::FormedNetwork;
pub use forms::{
    Beforehand, DeviceForm, DeviceLists, KnownList, KnownParts, NetworkForm, RuleForms, SeatForm,
    Tables,
};
pub use networks::Networks;
pub use prepared::{BothForms, Prepared, PreparedParts};
pub use seat::{
    CompiledSeat, FormedDevice, FormedSeat, device_named, formed_named, formed_numbered, seat_at,
};
pub use version::Version;
