//! The findings that the lines of an audit say, read from the last line to the first.
ghost use Rattle.std.specs.Prelude.{◌≡◌, [], map, reverse, IfOk};
ghost use Rattle.audit_view.specs.Said.{said_of, with_line, nothing, behind, said_in};

use crate::said::{Kind, Said, said_of};
use net_types::{List, NoMemory, Text};
use std::alloc::Global;
use std::mem;

/// An earlier entry that takes packets of a finding's entry.
#[derive(Drop)]
pub struct Taken {
    pub sequence: u32,
    /// The rows of these packets, each as its line.
    pub rows: List<Text>,
}

/// An entry that could go.
pub struct Finding {
    pub sequence: u32,
    pub kind: Kind,
    /// What earlier entries take of its packets, in their order.
    pub taken: List<Taken>,
}

impl Drop for Finding {
    fn drop(self) {
        let Finding {
            sequence: _,
            kind: _,
            taken: _,
        } = self;
    }
}

/// What the lines behind one say, from the last to the first: what belongs to a line that is still to come stands apart.
pub struct Behind {
    /// The findings of whole lists.
    pub lists: List<List<Finding>>,
    /// Findings of a list that is still to come.
    pub findings: List<Finding>,
    /// What takes packets of a finding that is still to come.
    pub taken: List<Taken>,
    /// Rows that an entry takes that is still to come.
    pub rows: List<Text>,
}

impl Drop for Behind {
    fn drop(self) {
        let Behind {
            lists: _,
            findings: _,
            taken: _,
            rows: _,
        } = self;
    }
}

/// The findings of each list of which there is a line, the last list first.
pub(crate) fn findings_in(alloc: Global, lines: &[&[u8]]) -> Result<Vec<List<Finding>>, NoMemory>
    ensures { IfOk result (λ lists. lists.items ≡ said_in (map (λ line. line.now) lines.now)) }
{
    let behind = read_back(alloc, lines)?;
    Ok(behind.into_lists())
}

fn read_back(alloc: Global, lines: &[&[u8]]) -> Result<Behind, NoMemory>
    ensures { IfOk result (λ b. b ≡ behind (map (λ line. line.now) lines.now)) }
{
    let mut behind = nothing(alloc);
    let mut at = lines.len();
    while at > 0 {
        at -= 1;
        let line = lines[at];
        behind.add(alloc, said_of(line), line)?;
    }
    Ok(behind)
}

fn nothing(alloc: Global) -> Behind
    ensures { result ≡ nothing }
{
    Behind {
        lists: List::empty(alloc),
        findings: List::empty(alloc),
        taken: List::empty(alloc),
        rows: List::empty(alloc),
    }
}

// The list, from its last item to its first; it is left empty.
fn turned<T: Drop>(alloc: Global, list: &mut List<T>) -> List<T>
    ensures turned { result ≡ reverse list.old }
    ensures empty { list.new ≡ [] }
{
    let mut items = mem::replace(list, List::empty(alloc)).into_vec();
    items.reverse();
    List::new(items)
}

impl Behind {
    fn into_lists(self) -> Vec<List<Finding>>
        ensures { result.items ≡ self.lists }
    {
        let Behind {
            lists,
            findings: _,
            taken: _,
            rows: _,
        } = self;
        lists.into_vec()
    }

    // One line more, above the others.
    fn add(&mut self, alloc: Global, said: Said, line: &[u8]) -> Result<(), NoMemory>
        ensures { IfOk result (λ _. self.new ≡ with_line said line.now self.old) }
    {
        match said {
            Said::Row => self.rows.push(Text::copy_of(alloc, line)?),
            Said::By { sequence } => {
                let rows = turned(alloc, &mut self.rows);
                self.taken.push(Taken { sequence, rows })
            }
            Said::Entry { sequence, kind } => {
                let taken = turned(alloc, &mut self.taken);
                self.findings.push(Finding {
                    sequence,
                    kind,
                    taken,
                })
            }
            Said::List => {
                let findings = turned(alloc, &mut self.findings);
                self.lists.push(findings)
            }
            Said::Other => Ok(()),
        }
    }
}
