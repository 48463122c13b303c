//! What a line of a configuration does.

use crate::book::EntryBook;
use crate::fault::Refusal;
use net_types::{Entry, List, NatRule, Route, Side, Subnet, Text};

/// An address of an interface, and where it is written.
#[derive(Drop)]
pub struct WrittenAddress {
    pub subnet: Subnet,
    /// The line, from 1.
    pub line: u32,
    /// The address as it is written.
    pub word: Text,
}

/// An interface as its lines have written it.
#[derive(Drop)]
pub struct WrittenInterface {
    pub name: Text,
    pub primary: Option<WrittenAddress>,
    pub secondary: List<WrittenAddress>,
    pub shut: bool,
    pub input: Option<Text>,
    pub output: Option<Text>,
    pub side: Side,
}

/// What a line does to one interface.
#[derive(Drop)]
pub enum Change {
    /// Opens or reopens its section.
    Open,
    /// Replaces the primary address.
    Primary { address: WrittenAddress },
    /// Adds a secondary address.
    Secondary { address: WrittenAddress },
    /// Removes all addresses written so far.
    Clear,
    /// Shuts it, or not.
    Shut { shut: bool },
    /// Replaces the input list.
    Input { list: Text },
    /// Replaces the output list.
    Output { list: Text },
    /// Replaces the side of address translation.
    OnSide { side: Side },
}

/// A static route, and its line.
#[derive(Drop)]
pub struct WrittenRoute {
    pub route: Route,
    /// The line, from 1.
    pub line: u32,
}

/// An access list as its lines have written it.
#[derive(Drop)]
pub struct WrittenList {
    pub name: Text,
    pub extended: bool,
    pub book: EntryBook,
}

/// A line of an access list: an entry, or none where it opens the list or is a remark.
#[derive(Drop)]
pub struct ListLine {
    pub extended: bool,
    pub entry: Option<Entry>,
}

/// What a command does.
#[derive(Drop)]
pub enum Action {
    /// Nothing: it is passed over. As a global command it ends the section.
    Pass { global: bool },
    /// Names the device.
    Host { name: Text },
    /// Changes an interface.
    Interface { name: Text, change: Change },
    /// Adds a static route.
    Route { route: WrittenRoute },
    /// Adds a rule of address translation.
    Nat { rule: NatRule },
    /// Opens or reopens the section of an access list.
    OpenList { name: Text, extended: bool },
    /// Writes a numbered list, as a global command.
    Numbered { name: Text, line: ListLine },
    /// Writes a list in its section.
    Entry { name: Text, line: ListLine },
}

/// What a line does.
#[derive(Drop)]
pub enum Effect {
    /// Nothing: a comment, or a line of a banner's text.
    Skip,
    /// A banner over these lines, which are passed over.
    Banner { first: u32, last: u32 },
    /// A command.
    Act { action: Action },
    /// The text is refused.
    Refused { refusal: Refusal },
}

/// What an indented line belongs to.
#[derive(Drop)]
pub enum Section {
    /// No section, or one whose lines are passed over.
    Other,
    /// The section of an interface.
    Interface { name: Text },
    /// The section of an access list.
    List { name: Text, extended: bool },
}
