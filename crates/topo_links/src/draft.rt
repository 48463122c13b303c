//! A link table that is read line by line.
ghost use Rattle.std.specs.Prelude.{◌≡◌, ◌++◌, ◌∷◌, [], IfOk, OnOk, option_to_list};
ghost use Rattle.topo_links.specs.Ends.{ends_of, Gives};
ghost use Rattle.topo_links.specs.Table.{segment_part, ingress_part, taken_in, line_with, link_effect, effect_of};
ghost use Rattle.topo_links.specs.Draft.{IsDraft, Adds};

use crate::ends::{at_word, is_comment, kind_of, read_ends};
use crate::taken::Taken;
use crate::{LinkFail, LinkKind, LinkLine, LinkRefusal};
use net_types::{List, Text};
use std::alloc::Global;

/// The lines so far, with the ends that they take.
#[derive(Drop)]
pub struct Draft {
    pub lines: Vec<LinkLine>,
    pub segment_ends: Taken,
    pub ingress_ends: Taken,
}

impl Draft {
    /// No line yet.
    pub fn new(alloc: Global) -> Draft
        ensures lines { result.lines.items ≡ [] }
        ensures draft { IsDraft result }
    {
        Draft {
            lines: Vec::new(alloc),
            segment_ends: Taken::new(alloc),
            ingress_ends: Taken::new(alloc),
        }
    }

    /// The lines, without the ends that they take.
    pub fn into_lines(self) -> Vec<LinkLine>
        ensures { result ≡ self.lines }
    {
        let Draft {
            lines,
            segment_ends: _,
            ingress_ends: _,
        } = self;
        lines
    }

    /// The ends of a line, which are taken from now on.
    fn take_ends(
        &mut self,
        alloc: Global,
        kind: LinkKind,
        line: u32,
        words: &[Text],
    ) -> Result<Vec<(Text, Text)>, LinkFail>
        ensures ends { Gives (λ ends. ends.items) result (ends_of kind line (taken_in kind self.old.segment_ends self.old.ingress_ends) [] words.now) }
        ensures lines { self.new.lines.items ≡ self.old.lines.items }
        ensures segments { IfOk result (λ ends. self.new.segment_ends ≡ self.old.segment_ends ++ segment_part kind ends.items) }
        ensures ingress { IfOk result (λ ends. self.new.ingress_ends ≡ self.old.ingress_ends ++ ingress_part kind ends.items) }
    {
        match kind {
            LinkKind::P2p => read_ends(alloc, kind, line, &mut self.segment_ends, words),
            LinkKind::Lan => read_ends(alloc, kind, line, &mut self.segment_ends, words),
            LinkKind::Ingress => read_ends(alloc, kind, line, &mut self.ingress_ends, words),
        }
    }

    /// A line of this kind, whose ends are taken from now on.
    fn read_link(
        &mut self,
        alloc: Global,
        kind: LinkKind,
        line: u32,
        words: &[Text],
    ) -> Result<LinkLine, LinkFail>
        ensures link { Gives Some result (line_with kind line (ends_of kind line (taken_in kind self.old.segment_ends self.old.ingress_ends) [] words.now)) }
        ensures lines { self.new.lines.items ≡ self.old.lines.items }
        ensures segments { IfOk result (λ link. self.new.segment_ends ≡ self.old.segment_ends ++ segment_part link.kind link.ends) }
        ensures ingress { IfOk result (λ link. self.new.ingress_ends ≡ self.old.ingress_ends ++ ingress_part link.kind link.ends) }
    {
        let ends = self.take_ends(alloc, kind, line, words)?;
        Ok(LinkLine {
            line,
            kind,
            ends: List::new(ends),
        })
    }

    /// Adds a line of this kind.
    fn add_link(
        &mut self,
        alloc: Global,
        kind: LinkKind,
        line: u32,
        words: &[Text],
    ) -> Result<(), LinkFail>
        requires { IsDraft self.old }
        ensures adds { Adds self.old.lines.items self.new.lines.items result (line_with kind line (ends_of kind line (taken_in kind self.old.segment_ends self.old.ingress_ends) [] words.now)) }
        ensures draft { OnOk result (IsDraft self.new) }
    {
        let link = self.read_link(alloc, kind, line, words)?;
        self.lines.push(link)?;
        Ok(())
    }

    /// Adds what a line of the text says.
    #[tactic(auto, unfolding(crate::specs::Table::effect_of))]
    pub fn add_line(&mut self, alloc: Global, line: u32, words: &[Text]) -> Result<(), LinkFail>
        requires { IsDraft self.old }
        ensures adds { Adds self.old.lines.items self.new.lines.items result (effect_of line self.old.lines.items words.now) }
        ensures draft { OnOk result (IsDraft self.new) }
    {
        let [word, rest @ ..] = words else {
            return Ok(());
        };
        if is_comment(word) {
            return Ok(());
        }
        let Some(kind) = kind_of(word) else {
            return Err(at_word(alloc, LinkRefusal::BadWord, line, word));
        };
        self.add_link(alloc, kind, line, rest)
    }
}
