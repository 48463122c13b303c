//! The table of the fates that were met, each with its number, and the search for a fate by its hash.

ghost use Rattle.std.specs.Prelude.{◌≡◌, [], Some, slice_get, IfOk, IfSome};
ghost use Rattle.std.specs.Option.{option_copied};

use crate::fate::Fate;
use crate::hash::hash_of;
use crate::same::same_fate;
use net_types::{Duplicate, NoMemory};
use std::alloc::Global;
use std::collections::HashMap;
use std::marker::Model;

/// The fates that were met, each with a number: its position. Equal fates of all devices share one number, and a number
/// keeps its fate. Of two fates with one hash the later one drives out the other, which gets a new number where it is
/// met again.
pub struct Fates {
    fates: Vec<Fate>,
    /// The number of a fate by its hash.
    numbers: HashMap<u64, u32>,
}

impl Drop for Fates {
    fn drop(self) {
        let Fates {
            fates: _,
            numbers: _,
        } = self;
    }
}

impl Model for Fates {
    ghost use Rattle.std.specs.Prelude.{List};
    ghost use Rattle.device_fates.specs.declared.fate.Fate.{Fate};

    ghost Value = { List Fate };

    ghost view = { λ f. f.fates.items };
}

impl Fates {
    ghost use Rattle.hdr_bits.specs.Lists.{Extends};
    ghost use Rattle.device_fates.specs.Pieces.{AreNumbers};

    /// No fates.
    pub fn new(alloc: Global) -> Fates
        ensures { result ≡ [] }
    {
        Fates {
            fates: Vec::new(alloc),
            numbers: HashMap::new(alloc),
        }
    }

    /// The fate of this number; none where no fate has it.
    pub fn get(&self, number: u32) -> Option<&Fate>
        ensures { option_copied result ≡ slice_get self.now number }
    {
        self.fates.get(number as usize)
    }

    fn as_slice(&self) -> &[Fate]
        ensures { result.now ≡ self.now }
    {
        &self.fates
    }

    /// The number of the fate, which is added where it isn't there.
    pub(crate) fn number_of(&mut self, fate: Fate) -> Result<u32, NoMemory>
        ensures number { IfOk result (λ number. slice_get self.new number ≡ Some fate) }
        ensures grows { Extends self.old self.new }
    {
        let hash = hash_of(&fate);
        if let Some(number) = self.known(hash, &fate) {
            return Ok(number);
        }
        let number = u32::try_from(self.fates.len()).map_err(|_| NoMemory)?;
        self.fates.push(fate)?;
        self.numbers.insert(hash, number)?;
        Ok(number)
    }

    /// The numbers of the fates of another table, one by one, each of which is added where it isn't there. Without memory fates
    /// may have been added, but none that was there is changed.
    pub fn numbers_of(&mut self, alloc: Global, others: &Fates) -> Result<Vec<u32>, NoMemory>
        ensures numbers { IfOk result (λ numbers. AreNumbers self.new numbers.items others.now) }
        ensures grows { Extends self.old self.new }
    {
        let items = others.as_slice();
        let mut numbers = Vec::with_capacity(alloc, items.len())?;
        for fate in items {
            let copy = fate.copy(alloc)?;
            let number = self.number_of(copy)?;
            numbers.push(number)?;
        }
        Ok(numbers)
    }

    /// The number of the fate, if it has one; the hash is that of the fate.
    fn known(&self, hash: u64, fate: &Fate) -> Option<u32>
        ensures { IfSome result (λ number. slice_get self.now number ≡ Some fate.now) }
    {
        let number = *self.numbers.get(&hash)?;
        let there = self.get(number)?;
        same_fate(there, fate).then_some(number)
    }
}
