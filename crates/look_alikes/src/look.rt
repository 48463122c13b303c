//! What a line that is passed over looks like.
ghost use Rattle.std.specs.Prelude.{◌≡◌};
ghost use Rattle.look_alikes.specs.LookAlikes.{command_of, global_back, global_command, global_rest, indented_command, interface_back, interface_command, interface_rest, look_alike, outside_banner};

use crate::command::Command;
use crate::words::{abbreviated, has_mark, has_prompt, resembles};
use ios_config::Mode;

/// What a line that is passed over looks like.
#[derive(Clone, Copy, Debug, PartialEq, Eq)]
pub enum LookAlike {
    /// A line behind a pager's mark, `--More--`.
    Pager,
    /// A line behind a prompt, as `R1(config)#`.
    Prompt,
    /// A line of this command.
    Like { command: Command },
}

/// What a line looks like that is passed over at such a place; it may be cut off before its first word and behind its last one.
pub fn look_alike(mode: Mode, line: &[u8]) -> Option<LookAlike>
    ensures { result ≡ look_alike mode line.now }
{
    match mode {
        Mode::Banner => None,
        _ => outside_banner(mode, line),
    }
}

// What it looks like outside banners.
fn outside_banner(mode: Mode, line: &[u8]) -> Option<LookAlike>
    ensures { result ≡ outside_banner mode line.now }
{
    if has_mark(b"--More--", line) {
        return Some(LookAlike::Pager);
    }
    if has_prompt(line) {
        return Some(LookAlike::Prompt);
    }
    match command_of(mode, line) {
        None => None,
        Some(command) => Some(LookAlike::Like { command }),
    }
}

// The command that it looks like.
fn command_of(mode: Mode, line: &[u8]) -> Option<Command>
    ensures { result ≡ command_of mode line.now }
{
    match mode {
        Mode::Banner => None,
        Mode::Global => global_command(line),
        Mode::Interface => interface_command(line),
        Mode::Other => indented_command(line),
    }
}

// Of the global commands, one that takes something back.
#[tactic(auto, unfolding(crate::specs::LookAlikes::global_back))]
fn global_back(line: &[u8]) -> Option<Command>
    ensures { result ≡ global_back line.now }
{
    if abbreviated(&[b"no", b"hostname"], line) {
        return Some(Command::NoHostname);
    }
    if abbreviated(&[b"no", b"interface"], line) {
        return Some(Command::NoInterface);
    }
    if abbreviated(&[b"default", b"interface"], line) {
        return Some(Command::DefaultInterface);
    }
    None
}

// Of the global commands, one of translation, a list with a name, or a banner.
#[tactic(auto, unfolding(crate::specs::LookAlikes::global_rest))]
fn global_rest(line: &[u8]) -> Option<Command>
    ensures { result ≡ global_rest line.now }
{
    if resembles(&[b"ip", b"nat", b"inside", b"source", b"static"], line) {
        return Some(Command::InnerRule);
    }
    if resembles(&[b"ip", b"nat", b"outside", b"source", b"static"], line) {
        return Some(Command::OuterRule);
    }
    if resembles(&[b"ip", b"access-list"], line) {
        return Some(Command::NamedList);
    }
    if resembles(&[b"banner"], line) {
        return Some(Command::Banner);
    }
    global_back(line)
}

// Of the global commands.
#[tactic(auto, unfolding(crate::specs::LookAlikes::global_command))]
fn global_command(line: &[u8]) -> Option<Command>
    ensures { result ≡ global_command line.now }
{
    if resembles(&[b"hostname"], line) {
        return Some(Command::Hostname);
    }
    if resembles(&[b"interface"], line) {
        return Some(Command::Interface);
    }
    if resembles(&[b"ip", b"route"], line) {
        return Some(Command::StaticRoute);
    }
    if resembles(&[b"access-list"], line) {
        return Some(Command::NumberedList);
    }
    global_rest(line)
}

// Of the global commands, at an indented line.
#[tactic(auto, unfolding(crate::specs::LookAlikes::indented_command))]
fn indented_command(line: &[u8]) -> Option<Command>
    ensures { result ≡ indented_command line.now }
{
    if abbreviated(&[b"interface"], line) {
        return Some(Command::Interface);
    }
    if abbreviated(&[b"ip", b"route"], line) {
        return Some(Command::StaticRoute);
    }
    if abbreviated(&[b"access-list"], line) {
        return Some(Command::NumberedList);
    }
    if abbreviated(&[b"ip", b"access-list"], line) {
        return Some(Command::NamedList);
    }
    None
}

// Of an interface's commands, one that takes something back.
#[tactic(auto, unfolding(crate::specs::LookAlikes::interface_back))]
fn interface_back(line: &[u8]) -> Option<Command>
    ensures { result ≡ interface_back line.now }
{
    if abbreviated(&[b"no", b"ip", b"access-group"], line) {
        return Some(Command::NoAccessGroup);
    }
    if abbreviated(&[b"no", b"ip", b"nat"], line) {
        return Some(Command::NoTranslation);
    }
    if abbreviated(&[b"default", b"ip", b"address"], line) {
        return Some(Command::DefaultAddress);
    }
    if abbreviated(&[b"default", b"ip", b"access-group"], line) {
        return Some(Command::DefaultAccessGroup);
    }
    indented_command(line)
}

// Of an interface's commands, one of lists and translation.
#[tactic(auto, unfolding(crate::specs::LookAlikes::interface_rest))]
fn interface_rest(line: &[u8]) -> Option<Command>
    ensures { result ≡ interface_rest line.now }
{
    if resembles(&[b"ip", b"access-group"], line) {
        return Some(Command::AccessGroup);
    }
    if resembles(&[b"ip", b"nat", b"inside"], line) {
        return Some(Command::Inside);
    }
    if resembles(&[b"ip", b"nat", b"outside"], line) {
        return Some(Command::Outside);
    }
    interface_back(line)
}

// Of an interface's commands.
#[tactic(auto, unfolding(crate::specs::LookAlikes::interface_command))]
fn interface_command(line: &[u8]) -> Option<Command>
    ensures { result ≡ interface_command line.now }
{
    if resembles(&[b"ip", b"address"], line) {
        return Some(Command::Address);
    }
    if resembles(&[b"no", b"ip", b"address"], line) {
        return Some(Command::NoAddress);
    }
    if resembles(&[b"shutdown"], line) {
        return Some(Command::Shutdown);
    }
    if resembles(&[b"no", b"shutdown"], line) {
        return Some(Command::NoShutdown);
    }
    interface_rest(line)
}
