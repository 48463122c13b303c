//! The types of configurations, networks and reports, and the rules of what a packet does in a network.
//!
//! The rules are definitions of `specs/`: access lists in `AccessLists`, static routes in `Routes`, static address
//! translation in `Translation`, a network and its links in `World`, what a device does with a packet in `Moves`, the walks
//! of a packet and its label in `Walks`, the devices that it visits in `Visits`, headers that walk alike in two networks in
//! `SameWalks`, networks that differ in one device in `Edits`, the order of outcomes in `Order`, the report in `Report`,
//! and questions in `Questions`.
#![tactic(auto)]

mod config;
mod copies;
mod label;
pub mod laws;
mod list;
mod network;
mod prefix;
mod question;
mod text;
mod word;

pub use config::{
    AccessList, Config, Entry, FlagTest, IcmpTest, Interface, Loaded, Masked, NatKind, NatRule,
    PortTest, Route, RouteExit, Side, Subnet,
};
pub use copies::Duplicate;
pub use label::{Label, Outcome};
pub use list::List;
pub use network::{
    Hop, Links, Move, Names, NetDevice, Network, Place, Rib, Row, Section, Segment, State, Verdict,
};
pub use no_memory::NoMemory;
pub use prefix::first_bits;
pub use question::{Answer, Question, QuestionKind};
pub use text::Text;
pub use word::Word;
