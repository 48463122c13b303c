//! What a line does.
ghost use Rattle.std.specs.Prelude.{◌≡◌, ◌≤◌, IfOk, length, map};
ghost use Rattle.net_text.specs.Limits.{text_limit};
ghost use Rattle.net_text.specs.Lines.{piece};
ghost use Rattle.ios_lines.specs.Words.{Gives};
ghost use Rattle.ios_config.specs.Effects.{
  hostname_action,
  interface_command,
  global_command,
  sub_command,
  command_action,
  resolve,
  begins_mark,
  is_comment,
  words_effect,
  effect_of,
};
ghost use Rattle.ios_config.specs.Answers.{seen_in};

use crate::draft::Draft;
use ios_commands::{
    access_group, banner, global_row, interface, interface_address, interface_row, is_banner,
    outer_rule, plain, static_route, static_rule, uncovered,
};
use ios_lines::{
    Action, Change, Effect, Fault, Plain, ReadError, Refusal, Section, after, begins, end, next,
};
use ios_lists::{list_line, numbered_list, open_list};
use net_text::{Line, Span, part};
use net_types::{Duplicate, NoMemory, Side, Text};
use std::alloc::Global;

/// What a line does after the lines that have made the draft.
#[tactic(auto, unfolding(crate::specs::Effects::effect_of))]
pub fn effect(alloc: Global, bytes: &[u8], draft: &Draft, line: &Line) -> Result<Effect, NoMemory>
    requires size { length bytes.now ≤ text_limit }
    requires number { line.now.number ≤ 16777217 }
    ensures { IfOk result (λ e. e ≡ effect_of bytes.now (seen_in draft.now) line.now) }
{
    if line.number <= draft.covered {
        return Ok(Effect::Skip);
    }
    let words = line_words(alloc, bytes, line.words.as_slice())?;
    let effect = words_effect(alloc, bytes, draft, line, &words)?;
    Ok(effect)
}

/// The words of a line.
fn line_words(alloc: Global, bytes: &[u8], spans: &[Span]) -> Result<Vec<Text>, NoMemory>
    ensures { IfOk result (λ words. words.items ≡ map (piece bytes.now) spans.now) }
{
    let mut words = Vec::with_capacity(alloc, spans.len())?;
    for span in spans {
        words.push(Text::copy_of(alloc, part(bytes, *span))?)?;
    }
    Ok(words)
}

/// What a line of these words does, which no banner covers.
#[tactic(auto, unfolding(crate::specs::Effects::words_effect))]
fn words_effect(
    alloc: Global,
    bytes: &[u8],
    draft: &Draft,
    line: &Line,
    words: &[Text],
) -> Result<Effect, NoMemory>
    requires size { length bytes.now ≤ text_limit }
    requires number { line.now.number ≤ 16777217 }
    ensures { IfOk result (λ e. e ≡ words_effect bytes.now (seen_in draft.now) line.now words.now) }
{
    if is_comment(words) {
        return Ok(Effect::Skip);
    }
    if is_banner(line.indent, words) {
        return Ok(banner(alloc, bytes, line));
    }
    match command(alloc, draft, line.number, line.indent, words) {
        Ok(action) => Ok(Effect::Act { action }),
        Err(ReadError::NoMemory) => Err(NoMemory),
        Err(ReadError::Fault(Fault { kind, word })) => Ok(Effect::Refused {
            refusal: Refusal {
                kind,
                line: line.number,
                word,
            },
        }),
    }
}

/// Whether the line is skipped.
fn is_comment(words: &[Text]) -> bool
    ensures { result ≡ is_comment words.now }
{
    match words {
        [] => true,
        [word, ..] => begins_mark(word.as_bytes()),
    }
}

/// Whether the word begins with an exclamation mark.
fn begins_mark(word: &[u8]) -> bool
    ensures { result ≡ begins_mark word.now }
{
    match word {
        [] => false,
        [b, ..] => *b == b'!',
    }
}

/// An indented line belongs to the section.
#[tactic(auto, unfolding(crate::specs::Effects::command_action))]
fn command(
    alloc: Global,
    draft: &Draft,
    line: u32,
    indent: bool,
    words: &[Text],
) -> Result<Action, ReadError>
    ensures { Gives (λ a. a) result (command_action (seen_in draft.now) line indent words.now) }
{
    if indent {
        return sub_command(alloc, draft, line, words);
    }
    global_command(alloc, draft, line, words)
}

/// A line of a section.
fn sub_command(alloc: Global, draft: &Draft, line: u32, words: &[Text]) -> Result<Action, ReadError>
    ensures { Gives (λ a. a) result (sub_command (seen_in draft.now) draft.now.section line words.now) }
{
    match &draft.section {
        Section::Other => Ok(Action::Pass { global: false }),
        Section::Interface { name } => interface_command(alloc, name, line, words),
        Section::List { name, extended } => list_line(
            alloc,
            &draft.list_names,
            &draft.lists,
            name,
            *extended,
            words,
        ),
    }
}

/// A global command.
#[tactic(auto, unfolding(crate::specs::Effects::global_command))]
fn global_command(
    alloc: Global,
    draft: &Draft,
    line: u32,
    words: &[Text],
) -> Result<Action, ReadError>
    ensures { Gives (λ a. a) result (global_command (seen_in draft.now) line words.now) }
{
    if begins(words, &[b"hostname"]) {
        return hostname(alloc, after(words, 1));
    }
    if begins(words, &[b"interface"]) {
        return interface(alloc, after(words, 1));
    }
    if begins(words, &[b"ip", b"route"]) {
        return static_route(alloc, line, after(words, 2));
    }
    if begins(words, &[b"ip", b"nat", b"inside", b"source", b"static"]) {
        return static_rule(alloc, &draft.nat, after(words, 5));
    }
    if begins(words, &[b"ip", b"nat", b"outside", b"source", b"static"]) {
        return outer_rule(alloc, &draft.nat, after(words, 5));
    }
    if begins(words, &[b"access-list"]) {
        return numbered_list(alloc, &draft.list_names, &draft.lists, after(words, 1));
    }
    if begins(words, &[b"ip", b"access-list"]) {
        return open_list(alloc, &draft.list_names, &draft.lists, after(words, 2));
    }
    uncovered(
        alloc,
        words,
        global_row(words),
        Action::Pass { global: true },
    )
}

/// A command of an interface's section.
#[tactic(auto, unfolding(crate::specs::Effects::interface_command))]
fn interface_command(
    alloc: Global,
    name: &Text,
    line: u32,
    words: &[Text],
) -> Result<Action, ReadError>
    ensures { Gives (λ a. a) result (interface_command name.now line words.now) }
{
    if begins(words, &[b"ip", b"address"]) {
        return interface_address(alloc, name, line, after(words, 2));
    }
    if begins(words, &[b"no", b"ip", b"address"]) {
        return plain(alloc, name, Change::Clear, after(words, 3));
    }
    if begins(words, &[b"shutdown"]) {
        return plain(alloc, name, Change::Shut { shut: true }, after(words, 1));
    }
    if begins(words, &[b"no", b"shutdown"]) {
        return plain(alloc, name, Change::Shut { shut: false }, after(words, 2));
    }
    if begins(words, &[b"ip", b"access-group"]) {
        return access_group(alloc, name, after(words, 2));
    }
    if begins(words, &[b"ip", b"nat", b"inside"]) {
        return plain(
            alloc,
            name,
            Change::OnSide { side: Side::Inside },
            after(words, 3),
        );
    }
    if begins(words, &[b"ip", b"nat", b"outside"]) {
        return plain(
            alloc,
            name,
            Change::OnSide {
                side: Side::Outside,
            },
            after(words, 3),
        );
    }
    uncovered(
        alloc,
        words,
        interface_row(words),
        Action::Pass { global: false },
    )
}

/// `hostname W`
#[tactic(auto, unfolding(crate::specs::Effects::hostname_action))]
fn hostname(alloc: Global, words: &[Text]) -> Result<Action, ReadError>
    ensures { Gives (λ a. a) result (hostname_action words.now) }
{
    let (name, rest) = next(alloc, words)?;
    end(alloc, Plain, rest)?;
    Ok(Action::Host {
        name: name.copy(alloc)?,
    })
}
