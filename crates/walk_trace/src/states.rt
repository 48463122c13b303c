//! States, numbered in the order in which they were added.

use hdr_bits::Header;
use indexmap::IndexSet;
use net_types::{NoMemory, Place, State};
use std::alloc::Global;
use std::marker::Model;

/// A state by all its parts, as the key of a table.
#[derive(Clone, Copy, PartialEq, Eq, Hash, Debug)]
pub(crate) struct StateKey {
    pub place: Place,
    pub dst: u32,
    pub src: u32,
    pub proto: u8,
    pub dport: u16,
    pub sport: u16,
    pub flags: u8,
}

/// States in the order in which they were added, each once. A state is found without a scan.
pub(crate) struct States {
    keys: IndexSet<StateKey>,
}

impl Drop for States {
    fn drop(self) {
        let States { keys: _ } = self;
    }
}

impl Model for States {
    ghost use Rattle.std.specs.Prelude.{List, map};
    ghost use Rattle.net_types.specs.declared.network.State.{State};
    ghost use Rattle.walk_trace.specs.Keys.{state_of};

    ghost Value = { List State };

    ghost view = { λ s. map state_of s.keys.keys };
}

impl States {
    ghost use Rattle.std.specs.Prelude.{◌≡◌, ◌<◌, ◌^◌, [], IfOk, IfSome, OnOk, drop, length, position};
    ghost use Rattle.walk_trace.specs.Numbered.{same_state, with_state, number_of};

    /// No state.
    pub(crate) fn new(alloc: Global) -> States
        ensures { result ≡ [] }
    {
        States {
            keys: IndexSet::new(alloc),
        }
    }

    /// Adds a state, unless it is there.
    pub(crate) fn add(&mut self, state: &State) -> Result<(), NoMemory>
        ensures { OnOk result (self.new ≡ with_state self.old state.now) }
    {
        self.keys.insert(key_of(state))?;
        Ok(())
    }

    /// How many there are.
    pub(crate) fn len(&self) -> usize
        ensures { result ≡ length self.now }
    {
        self.keys.len()
    }

    /// The number of a state, from 1.
    pub(crate) fn number(&self, state: &State) -> Option<u64>
        ensures { result ≡ number_of self.now state.now }
    {
        match self.position(state) {
            Some(i) => Some(i as u64 + 1),
            None => None,
        }
    }

    fn position(&self, state: &State) -> Option<usize>
        ensures position { result ≡ position (same_state state.now) self.now }
        ensures small { IfSome result (λ i. i < 2 ^ 63) }
    {
        // A table has fewer than 2^63 keys.
        let _len = self.keys.len();
        self.keys.get_index_of(&key_of(state))
    }

    /// The states from a position on.
    pub(crate) fn since(&self, alloc: Global, first: usize) -> Result<Vec<State>, NoMemory>
        ensures { IfOk result (λ states. states.items ≡ drop first self.now) }
    {
        states_since(alloc, self.keys.as_slice(), first)
    }
}

ghost use Rattle.std.specs.Prelude.{◌≡◌, IfOk, drop, map};
ghost use Rattle.walk_trace.specs.Keys.{state_of, key_of};

fn states_since(alloc: Global, keys: &[StateKey], first: usize) -> Result<Vec<State>, NoMemory>
    ensures { IfOk result (λ states. states.items ≡ drop first (map state_of keys.now)) }
{
    if first > keys.len() {
        return Ok(Vec::new(alloc));
    }
    let (_, rest) = keys.split_at(first);
    states_of(alloc, rest)
}

fn states_of(alloc: Global, keys: &[StateKey]) -> Result<Vec<State>, NoMemory>
    ensures { IfOk result (λ states. states.items ≡ map state_of keys.now) }
{
    let mut states = Vec::new(alloc);
    for key in keys {
        states.push(state_of(key))?;
    }
    Ok(states)
}

pub(crate) fn key_of(state: &State) -> StateKey
    ensures { result ≡ key_of state.now }
{
    StateKey {
        place: state.place,
        dst: state.header.dst,
        src: state.header.src,
        proto: state.header.proto,
        dport: state.header.dport,
        sport: state.header.sport,
        flags: state.header.flags,
    }
}

fn state_of(key: &StateKey) -> State
    ensures { result ≡ state_of key.now }
{
    State {
        place: key.place,
        header: Header {
            dst: key.dst,
            src: key.src,
            proto: key.proto,
            dport: key.dport,
            sport: key.sport,
            flags: key.flags,
        },
    }
}
