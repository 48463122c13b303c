//! By which words lines are counted.
ghost use Rattle.std.specs.Prelude.{◌≡◌, ◌++◌, IfOk, OnOk};
ghost use Rattle.look_alikes.specs.Naming.{behind_lead, blank_word, counted_by, first_words, is_lead, is_prepared, refused_by};

use crate::words::{after_word, first_word, has_mark};
use ios_config::Mode;
use net_types::NoMemory;
use std::alloc::Global;

/// By what a line that is passed over is counted: its first words.
pub fn counted_by(alloc: Global, mode: Mode, line: &[u8]) -> Result<Vec<u8>, NoMemory>
    ensures { IfOk result (λ words. words.items ≡ counted_by mode line.now) }
{
    match mode {
        Mode::Banner => Ok(b"banner".to_vec(alloc)?),
        _ => first_words(alloc, line),
    }
}

/// By what a refused line is counted: its first words, and the word that decides where it doesn't stand there.
pub fn refused_by(alloc: Global, line: &[u8], word: &[u8]) -> Result<Vec<u8>, NoMemory>
    ensures { IfOk result (λ words. words.items ≡ refused_by line.now word.now) }
{
    let mut words = first_words(alloc, line)?;
    if !has_mark(word, &words) {
        words.extend_from_slice(b" .. ")?;
        words.extend_from_slice(word)?;
    }
    Ok(words)
}

/// Whether `prepare` brings what the word means into what is read.
pub fn is_prepared(word: &[u8]) -> bool
    ensures { result ≡ is_prepared word.now }
{
    word == b"router".as_slice()
        || word == b"vrf".as_slice()
        || word == b"standby".as_slice()
        || word == b"vrrp".as_slice()
        || word == b"glbp".as_slice()
        || word == b"switchport".as_slice()
        || word == b"channel-group".as_slice()
        || word == b"object-group".as_slice()
}

// The first word, and those behind it where unlike commands begin with it.
fn first_words(alloc: Global, line: &[u8]) -> Result<Vec<u8>, NoMemory>
    ensures { IfOk result (λ words. words.items ≡ first_words line.now) }
{
    let mut words = first_word(line).to_vec(alloc)?;
    if is_lead(first_word(line)) {
        append_behind(&mut words, after_word(line))?;
    }
    Ok(words)
}

// The next word, and the one behind it where unlike commands begin with it, too.
fn append_behind(words: &mut Vec<u8>, line: &[u8]) -> Result<(), NoMemory>
    ensures { OnOk result (words.new.items ≡ words.old.items ++ behind_lead line.now) }
{
    append_word(words, first_word(line))?;
    if is_lead(first_word(line)) {
        append_word(words, first_word(after_word(line)))?;
    }
    Ok(())
}

// A word behind a blank, or nothing where there is none.
fn append_word(words: &mut Vec<u8>, word: &[u8]) -> Result<(), NoMemory>
    ensures { OnOk result (words.new.items ≡ words.old.items ++ blank_word word.now) }
{
    if word.is_empty() {
        return Ok(());
    }
    words.push(b' ')?;
    words.extend_from_slice(word)?;
    Ok(())
}

// Whether unlike commands begin with the word.
fn is_lead(word: &[u8]) -> bool
    ensures { result ≡ is_lead word.now }
{
    word == b"no".as_slice()
        || word == b"default".as_slice()
        || word == b"ip".as_slice()
        || word == b"ipv6".as_slice()
        || word == b"router".as_slice()
}
