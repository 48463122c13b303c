//! The numbers of names, found by a hash of the name.
ghost use Rattle.std.specs.Prelude.{◌≡◌, ◌↔◌, [], IfOk, IsTrue, position};
ghost use Rattle.std.specs.Str.{bytes_eq};
ghost use Rattle.std.specs.List.{list_all};
ghost use Rattle.net_text.specs.Texts.{is_inside};
ghost use Rattle.net_types.specs.Order.{text_cmp};
ghost use Rattle.report_text.specs.Reading.{name_number, is_less, is_name, are_rising};
ghost use Rattle.report_text.specs.Reports.{AreNames};

use indexmap::IndexSet;
use net_types::{Names, NoMemory, Text};
use std::alloc::Global;
use std::cmp::Ordering;
use std::marker::Model;

/// Names, each once, which are found by their bytes.
#[derive(Drop)]
pub(crate) struct Numbers {
    names: IndexSet<Vec<u8>>,
}

impl Model for Numbers {
    ghost use Rattle.std.specs.Prelude.{List, ℕ, map};

    ghost Value = { List (List ℕ) };

    ghost view = { λ n. map (λ v. v.items) n.names.keys };
}

impl Numbers {
    /// The numbers of these names: their positions.
    pub(crate) fn of(alloc: Global, names: &Names) -> Result<Numbers, NoMemory>
        requires { AreNames names.now.texts }
        ensures { IfOk result (λ numbers. numbers ≡ names.now.texts) }
    {
        let mut found = IndexSet::new(alloc);
        for text in names.texts.as_slice() {
            found.insert(text.as_bytes().to_vec(alloc)?)?;
        }
        Ok(Numbers { names: found })
    }

    /// The number of a name.
    pub(crate) fn get(&self, name: &[u8]) -> Option<u32>
        ensures { result ≡ name_number self.now name.now }
    {
        let place = self.place(name)?;
        u32::try_from(place).ok()
    }

    fn place(&self, name: &[u8]) -> Option<usize>
        ensures { result ≡ position (bytes_eq name.now) self.now }
    {
        self.names.get_index_of(name)
    }
}

/// Whether the names are as `read_report` wants them: each a word, and behind the one before it in the order of their bytes.
#[tactic(auto, using(crate::proofs::NameTests::names_tested))]
pub fn are_names(names: &Names) -> bool
    ensures { IsTrue result ↔ AreNames names.now.texts }
{
    are_rising(names.texts.as_slice())
}

fn are_rising(texts: &[Text]) -> bool
    ensures { result ≡ are_rising [] texts.now }
{
    let mut before: &[u8] = &[];
    for text in texts {
        let word = text.as_bytes();
        if !is_name(word) || !is_before(before, word) {
            return false;
        }
        before = word;
    }
    true
}

fn is_name(word: &[u8]) -> bool
    ensures { result ≡ is_name word.now }
{
    !word.is_empty() && all_inside(word)
}

fn all_inside(word: &[u8]) -> bool
    ensures { result ≡ list_all is_inside word.now }
{
    word.iter().all(|b| is_inside(*b))
}

// Whether the byte ends neither a word nor a line.
fn is_inside(b: u8) -> bool
    ensures { result ≡ is_inside b }
{
    !(b == b' ' || b == b'\t' || b == b'\r' || b == b'\n')
}

fn is_before(a: &[u8], b: &[u8]) -> bool
    ensures { result ≡ is_less (text_cmp a.now b.now) }
{
    match a.cmp(b) {
        Ordering::Less => true,
        Ordering::Equal => false,
        Ordering::Greater => false,
    }
}
