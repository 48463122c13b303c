//! The words by what they are: positional words, and the values of options.
ghost use Rattle.std.specs.Prelude.{◌≡◌, ◌++◌, ◌∷◌, ◌||◌, [], false, codes, drop, IfOk, OnOk, map, option_to_list, string_bytes};
ghost use Rattle.std.specs.List.{before_first, after_first};
ghost use Rattle.std.specs.Str.{bytes_eq};
ghost use Rattle.std.specs.Option.{MatchOption, option_copied};
ghost use Rattle.review_args.specs.Words.{workers, ttl, is_end, is_dashed, is_name, after, is_option, value_in, positional_in, is_stray, has_stray, values, positional};
ghost use Rattle.review_args.specs.Parts.{texts};

use net_types::NoMemory;
use std::alloc::Global;

/// The words after the command, by what they are.
#[derive(Drop)]
pub struct Parts<'a> {
    /// The words that stand for themselves.
    pub positional: Vec<&'a str>,
    /// The values of `--workers`.
    pub workers: Vec<&'a str>,
    /// The values of `--ttl`.
    pub ttl: Vec<&'a str>,
    /// Whether a word is refused wherever it stands.
    pub stray: bool,
}

impl<'a> Parts<'a> {
    /// The words after this command by what they are, in one walk over them.
    pub fn of(alloc: Global, command: &'a str, words: &'a [String]) -> Result<Parts<'a>, NoMemory>
        ensures positional { IfOk result (λ p. texts p.positional ≡ positional command.now (map string_bytes words.now)) }
        ensures workers { IfOk result (λ p. texts p.workers ≡ values workers command.now (map string_bytes words.now)) }
        ensures ttl { IfOk result (λ p. texts p.ttl ≡ values ttl command.now (map string_bytes words.now)) }
        ensures stray { IfOk result (λ p. p.stray ≡ has_stray command.now (map string_bytes words.now)) }
    {
        let mut parts = Parts {
            positional: Vec::new(alloc),
            workers: Vec::new(alloc),
            ttl: Vec::new(alloc),
            stray: false,
        };
        let mut previous = command.as_bytes();
        let mut rest = words;
        while let Some((word, more)) = before_end(rest) {
            parts.add(previous, word)?;
            previous = word.as_bytes();
            rest = more;
        }
        parts.stray = parts.stray || is_name(previous);
        add_words(&mut parts.positional, after_end(rest))?;
        Ok(parts)
    }

    /// Adds a word that stands behind another one, before the first `--`.
    fn add(&mut self, previous: &[u8], word: &'a str) -> Result<(), NoMemory>
        ensures positional { OnOk result (texts self.new.positional ≡ texts self.old.positional ++ option_to_list (positional_in (previous.now, word.now))) }
        ensures workers { OnOk result (texts self.new.workers ≡ texts self.old.workers ++ option_to_list (value_in workers (previous.now, word.now))) }
        ensures ttl { OnOk result (texts self.new.ttl ≡ texts self.old.ttl ++ option_to_list (value_in ttl (previous.now, word.now))) }
        ensures stray { OnOk result (self.new.stray ≡ (self.old.stray || is_stray (previous.now, word.now))) }
    {
        if is_stray(previous, word) {
            self.stray = true;
        }
        add_if_there(
            &mut self.workers,
            value_of(b"--workers", "--workers=", previous, word),
        )?;
        add_if_there(&mut self.ttl, value_of(b"--ttl", "--ttl=", previous, word))?;
        add_if_there(&mut self.positional, positional_of(previous, word))
    }
}

// The next word and those after it, where the words neither end nor go on with `--`.
fn before_end(words: &[String]) -> Option<(&str, &[String])>
    ensures { MatchOption result
        ((before_first is_end (map string_bytes words.now) ≡ []) × (after_first is_end (map string_bytes words.now) ≡ drop 1 (map string_bytes words.now)))
        (λ x. (map string_bytes words.now ≡ x.0.now ∷ map string_bytes x.1.now) × (is_end x.0.now ≡ false)) }
{
    let [word, more @ ..] = words else {
        return None;
    };
    if is_end(word.as_str()) {
        return None;
    }
    Some((word.as_str(), more))
}

// The words after the first one.
fn after_end(words: &[String]) -> &[String]
    ensures { map string_bytes result.now ≡ drop 1 (map string_bytes words.now) }
{
    match words {
        [] => words,
        [_, more @ ..] => more,
    }
}

fn is_end(word: &str) -> bool
    ensures { result ≡ is_end word.now }
{
    word == "--"
}

fn is(word: &[u8], text: &[u8]) -> bool
    ensures { result ≡ bytes_eq word.now text.now }
{
    word == text
}

fn is_name(word: &[u8]) -> bool
    ensures { result ≡ is_name word.now }
{
    is(word, b"--workers") || is(word, b"--ttl")
}

fn is_dashed(word: &str) -> bool
    ensures { result ≡ is_dashed word.now }
{
    match word.as_bytes() {
        [] => false,
        [first, ..] => *first == b'-',
    }
}

// What follows this beginning of a word.
fn after<'a>(beginning: &str, word: &'a str) -> Option<&'a str>
    ensures { option_copied result ≡ after beginning.now word.now }
{
    word.strip_prefix(beginning)
}

fn is_option(word: &str) -> bool
    ensures { result ≡ is_option word.now }
{
    is_name(word.as_bytes())
        || after("--workers=", word).is_some()
        || after("--ttl=", word).is_some()
}

// Whether the word begins with `-`, and is an option's value or no option.
fn is_stray(previous: &[u8], word: &str) -> bool
    ensures { result ≡ is_stray (previous.now, word.now) }
{
    is_dashed(word) && (is_name(previous) || !is_option(word))
}

// The value that the word gives the option of this name; `beginning` is the name with `=`.
fn value_of<'a>(name: &[u8], beginning: &str, previous: &[u8], word: &'a str) -> Option<&'a str>
    requires { beginning.now ≡ name.now ++ codes "=" }
    ensures { option_copied result ≡ value_in name.now (previous.now, word.now) }
{
    if !is_name(previous) {
        return after(beginning, word);
    }
    if is(previous, name) {
        return Some(word);
    }
    None
}

// The word, where it stands for itself.
fn positional_of<'a>(previous: &[u8], word: &'a str) -> Option<&'a str>
    ensures { option_copied result ≡ positional_in (previous.now, word.now) }
{
    if is_name(previous) || is_dashed(word) {
        return None;
    }
    Some(word)
}

fn add_if_there<'a>(found: &mut Vec<&'a str>, text: Option<&'a str>) -> Result<(), NoMemory>
    ensures { OnOk result (texts found.new ≡ texts found.old ++ option_to_list (option_copied text.entry)) }
{
    if let Some(text) = text {
        found.push(text)?;
    }
    Ok(())
}

fn add_words<'a>(found: &mut Vec<&'a str>, words: &'a [String]) -> Result<(), NoMemory>
    ensures { OnOk result (texts found.new ≡ texts found.old ++ map string_bytes words.now) }
{
    for word in words {
        found.push(word.as_str())?;
    }
    Ok(())
}
