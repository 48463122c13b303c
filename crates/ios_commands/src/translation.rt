//! The commands of static address translation: `ip nat inside source static` and `ip nat outside source static`.
ghost use Rattle.std.specs.Prelude.{◌≡◌, IfOk, ◌++◌, ◌∷◌, []};
ghost use Rattle.ios_lines.specs.Words.{Gives};
ghost use Rattle.ios_commands.specs.Translation.{
  side_by,
  local_side,
  global_side,
  has_local,
  has_global,
  clash,
  extendable_at,
  rule_action,
  address_rule,
  port_rule,
  static_action,
  outer_action,
};

use crate::refused::CommandPart;
use indexmap::IndexSet;
use ios_lines::{
    Action, Kind, Plain, ReadError, allowed, cut, end, first, is, read_address, read_number, refuse,
};
use net_types::{NatKind, NatRule, NoMemory, Text};
use std::alloc::Global;
use std::marker::Model;

/// One side of a rule: the address, with the port in a port rule.
#[derive(Clone, Copy, Debug, PartialEq, Eq, Hash)]
pub enum NatSide {
    Plain { address: u32 },
    Tcp { address: u32, port: u16 },
    Udp { address: u32, port: u16 },
    Outer { address: u32 },
}

/// Rules in the order of their lines, with their sides at hand.
#[derive(Drop)]
pub struct NatBook {
    rules: Vec<NatRule>,
    locals: IndexSet<NatSide>,
    globals: IndexSet<NatSide>,
}

impl Model for NatBook {
    ghost use Rattle.std.specs.Prelude.{List, ◌≡◌};
    ghost use Rattle.std.specs.List.{list_any};
    ghost use Rattle.net_types.specs.declared.config.NatRule.{NatRule};
    ghost use Rattle.ios_commands.specs.declared.translation.NatSide.{NatSide};
    ghost use Rattle.ios_commands.specs.Translation.{same_side, has_local, has_global};

    ghost Value = { List NatRule };

    ghost view = { λ b. b.rules.items };

    ghost invariant = { λ b.
        ((s : NatSide) → list_any (same_side s) b.locals.keys ≡ has_local b.rules.items s)
        × ((s : NatSide) → list_any (same_side s) b.globals.keys ≡ has_global b.rules.items s) };
}

impl NatBook {
    /// No rule.
    pub fn new(alloc: Global) -> NatBook
        ensures { result ≡ [] }
    {
        NatBook {
            rules: Vec::new(alloc),
            locals: IndexSet::new(alloc),
            globals: IndexSet::new(alloc),
        }
    }

    /// The same with one more rule at the end.
    pub fn with(self, rule: NatRule) -> Result<NatBook, NoMemory>
        ensures { IfOk result (λ book. book ≡ self ++ rule ∷ []) }
    {
        let NatBook {
            mut rules,
            mut locals,
            mut globals,
        } = self;
        locals.insert(local_side(&rule))?;
        globals.insert(global_side(&rule))?;
        rules.push(rule)?;
        Ok(NatBook {
            rules,
            locals,
            globals,
        })
    }

    /// Whether a rule has this local side.
    pub fn has_local(&self, side: NatSide) -> bool
        ensures { result ≡ has_local self.now side }
    {
        self.locals.contains(&side)
    }

    /// Whether a rule has this global side.
    pub fn has_global(&self, side: NatSide) -> bool
        ensures { result ≡ has_global self.now side }
    {
        self.globals.contains(&side)
    }

    /// The rules, in order.
    pub fn into_rules(self) -> Vec<NatRule>
        ensures { result.items ≡ self }
    {
        let NatBook {
            rules,
            locals: _,
            globals: _,
        } = self;
        rules
    }
}

fn side_by(kind: NatKind, address: u32, port: u16) -> NatSide
    ensures { result ≡ side_by kind address port }
{
    match kind {
        NatKind::Plain => NatSide::Plain { address },
        NatKind::Tcp => NatSide::Tcp { address, port },
        NatKind::Udp => NatSide::Udp { address, port },
        NatKind::Outer => NatSide::Outer { address },
    }
}

fn local_side(rule: &NatRule) -> NatSide
    ensures { result ≡ local_side rule.now }
{
    side_by(rule.kind, rule.local, rule.local_port)
}

fn global_side(rule: &NatRule) -> NatSide
    ensures { result ≡ global_side rule.now }
{
    side_by(rule.kind, rule.global, rule.global_port)
}

/// `static L G`, `static tcp L LP G GP`, `static udp L LP G GP`
#[tactic(auto, unfolding(crate::specs::Translation::static_action))]
pub fn static_rule(alloc: Global, rules: &NatBook, words: &[Text]) -> Result<Action, ReadError>
    ensures { Gives (λ a. a) result (static_action rules.now words.now) }
{
    let (word, rest) = allowed(alloc, CommandPart::NatLocal, words)?;
    if is(word, b"tcp") {
        return port_rule(alloc, rules, NatKind::Tcp, rest);
    }
    if is(word, b"udp") {
        return port_rule(alloc, rules, NatKind::Udp, rest);
    }
    address_rule(alloc, rules, words)
}

/// `static G L` of the outer side
#[tactic(auto, unfolding(crate::specs::Translation::outer_action))]
pub fn outer_rule(alloc: Global, rules: &NatBook, words: &[Text]) -> Result<Action, ReadError>
    ensures { Gives (λ a. a) result (outer_action rules.now words.now) }
{
    let (global, after_global) = read_address(alloc, CommandPart::OuterGlobal, words)?;
    let (local, rest) = read_address(alloc, Plain, after_global)?;
    let local_word = first(alloc, after_global)?;
    let global_word = first(alloc, words)?;
    let rule = NatRule {
        kind: NatKind::Outer,
        local,
        local_port: 0,
        global,
        global_port: 0,
    };
    rule_action(alloc, rules, rule, &local_word, &global_word, rest)
}

/// `L G`
#[tactic(auto, unfolding(crate::specs::Translation::address_rule))]
fn address_rule(alloc: Global, rules: &NatBook, words: &[Text]) -> Result<Action, ReadError>
    ensures { Gives (λ a. a) result (address_rule rules.now words.now) }
{
    let (local, after_local) = read_address(alloc, CommandPart::NatLocal, words)?;
    let (global, rest) = read_address(alloc, CommandPart::NatGlobal, after_local)?;
    let local_word = first(alloc, words)?;
    let global_word = first(alloc, after_local)?;
    let rule = NatRule {
        kind: NatKind::Plain,
        local,
        local_port: 0,
        global,
        global_port: 0,
    };
    rule_action(alloc, rules, rule, &local_word, &global_word, rest)
}

/// `L LP G GP`, with ports 1 to 65535
#[tactic(auto, unfolding(crate::specs::Translation::port_rule))]
fn port_rule(
    alloc: Global,
    rules: &NatBook,
    kind: NatKind,
    words: &[Text],
) -> Result<Action, ReadError>
    ensures { Gives (λ a. a) result (port_rule rules.now kind words.now) }
{
    let (local, rest) = read_address(alloc, CommandPart::NatLocal, words)?;
    let (local_port, after_local) = read_number(alloc, Plain, 1, 65535, rest)?;
    let (global, rest) = read_address(alloc, CommandPart::NatGlobal, after_local)?;
    let (global_port, rest) = read_number(alloc, Plain, 1, 65535, rest)?;
    let local_word = first(alloc, words)?;
    let global_word = first(alloc, after_local)?;
    let rule = NatRule {
        kind,
        local,
        local_port: local_port as u16,
        global,
        global_port: global_port as u16,
    };
    rule_action(alloc, rules, rule, &local_word, &global_word, rest)
}

/// A complete rule, with the words of its addresses.
#[tactic(auto, unfolding(crate::specs::Translation::rule_action))]
fn rule_action(
    alloc: Global,
    rules: &NatBook,
    rule: NatRule,
    local: &Text,
    global: &Text,
    words: &[Text],
) -> Result<Action, ReadError>
    ensures { Gives (λ a. a) result (rule_action rules.now rule local.now global.now words.now) }
{
    clash(alloc, rules, &rule, local, global)?;
    extendable(alloc, words)?;
    Ok(Action::Nat { rule })
}

/// That no rule of the same kind has the same local or the same global side.
fn clash(
    alloc: Global,
    rules: &NatBook,
    rule: &NatRule,
    local: &Text,
    global: &Text,
) -> Result<(), ReadError>
    ensures { Gives (λ x. x) result (clash rules.now rule.now local.now global.now) }
{
    if rules.has_local(local_side(rule)) {
        return Err(refuse(Kind::NatClash, cut(alloc, local)?));
    }
    if rules.has_global(global_side(rule)) {
        return Err(refuse(Kind::NatClash, cut(alloc, global)?));
    }
    Ok(())
}

/// Optionally `extendable`
#[tactic(auto, unfolding(crate::specs::Translation::extendable_at))]
fn extendable(alloc: Global, words: &[Text]) -> Result<(), ReadError>
    ensures { Gives (λ x. x) result (extendable_at words.now) }
{
    if words.is_empty() {
        return Ok(());
    }
    let (_, rest) = allowed(alloc, CommandPart::NatEnd, words)?;
    end(alloc, CommandPart::NatEnd, rest)
}
