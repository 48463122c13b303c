//! Words that abbreviate those of a command, and what a pager and a prompt leave in a line.
ghost use Rattle.std.specs.Prelude.{◌≡◌, ◌≤◌, length, map, nat_eq, position};
ghost use Rattle.std.specs.List.{list_any, position_or_len, starts_with};
ghost use Rattle.net_text.specs.Lines.{is_separator};
ghost use Rattle.look_alikes.specs.Words.{abbreviated, abbreviates, after_word, begins, ends_prompt, first_word, from_word, has_mark, has_prompt, is_inside, is_prompt, resembles, small};

/// Whether the first words abbreviate those of a command or write them in another case, and aren't them.
#[tactic(auto, unfolding(crate::specs::Words::resembles))]
pub(crate) fn resembles(command: &[&[u8]], line: &[u8]) -> bool
    ensures { result ≡ resembles (map (λ c. c.now) command.now) line.now }
{
    abbreviated(command, line) && !begins(command, line)
}

/// Whether the first words abbreviate those of a command.
#[tactic(auto, unfolding(crate::specs::Words::abbreviated))]
pub(crate) fn abbreviated(command: &[&[u8]], line: &[u8]) -> bool
    ensures { result ≡ abbreviated (map (λ c. c.now) command.now) line.now }
{
    match command {
        [] => true,
        [first, others @ ..] => {
            abbreviates(first_word(line), first) && abbreviated(others, after_word(line))
        }
    }
}

/// Whether the first words are those of a command.
#[tactic(auto, unfolding(crate::specs::Words::begins))]
fn begins(command: &[&[u8]], line: &[u8]) -> bool
    ensures { result ≡ begins (map (λ c. c.now) command.now) line.now }
{
    match command {
        [] => true,
        [first, others @ ..] => first_word(line) == *first && begins(others, after_word(line)),
    }
}

/// The first word; empty where there is none.
pub(crate) fn first_word(line: &[u8]) -> &[u8]
    ensures { result.now ≡ first_word line.now }
{
    let rest = from_word(line);
    let (word, _) = rest.split_at(word_length(rest));
    word
}

/// What follows the first word.
pub(crate) fn after_word(line: &[u8]) -> &[u8]
    ensures { result.now ≡ after_word line.now }
{
    let rest = from_word(line);
    let (_, others) = rest.split_at(word_length(rest));
    others
}

/// The line from its first word on.
fn from_word(line: &[u8]) -> &[u8]
    ensures { result.now ≡ from_word line.now }
{
    let (_, rest) = line.split_at(blanks(line));
    rest
}

/// How many separators stand before the first word.
fn blanks(line: &[u8]) -> usize
    ensures place { result ≡ position_or_len is_inside line.now }
    ensures bound { result ≤ length line.now }
{
    match first_inside(line) {
        Some(blanks) => blanks,
        None => line.len(),
    }
}

fn first_inside(line: &[u8]) -> Option<usize>
    ensures { result ≡ position is_inside line.now }
{
    line.iter().position(|byte| !separates(*byte))
}

/// How many bytes stand before the next separator, or all where there is none.
fn word_length(rest: &[u8]) -> usize
    ensures place { result ≡ position_or_len is_separator rest.now }
    ensures bound { result ≤ length rest.now }
{
    match first_separator(rest) {
        Some(length) => length,
        None => rest.len(),
    }
}

fn first_separator(rest: &[u8]) -> Option<usize>
    ensures { result ≡ position is_separator rest.now }
{
    rest.iter().position(|byte| separates(*byte))
}

/// Whether words end at this byte.
fn separates(byte: u8) -> bool
    ensures { result ≡ is_separator byte }
{
    byte == b' ' || byte == b'\t' || byte == b'\r'
}

/// Whether a word is a beginning of another, whatever its case.
fn abbreviates(word: &[u8], whole: &[u8]) -> bool
    ensures { result ≡ abbreviates word.now whole.now }
{
    !word.is_empty() && starts_small(word, whole)
}

/// Whether a word in small letters begins the other.
fn starts_small(word: &[u8], whole: &[u8]) -> bool
    ensures { result ≡ starts_with nat_eq whole.now (map small word.now) }
{
    match word {
        [] => true,
        [first, rest @ ..] => match whole {
            [] => false,
            [other, others @ ..] => *other == small(*first) && starts_small(rest, others),
        },
    }
}

/// A capital letter's small one, or the same byte.
fn small(byte: u8) -> u8
    ensures { result ≡ small byte }
{
    if b'A' <= byte && byte <= b'Z' {
        return byte + 32;
    }
    byte
}

/// Whether a mark stands in a text.
pub(crate) fn has_mark(mark: &[u8], text: &[u8]) -> bool
    ensures { result ≡ has_mark mark.now text.now }
{
    let mut rest = text;
    while let [_, others @ ..] = rest {
        if rest.starts_with(mark) {
            return true;
        }
        rest = others;
    }
    false
}

/// Whether the first word is a prompt.
pub(crate) fn has_prompt(line: &[u8]) -> bool
    ensures { result ≡ has_prompt line.now }
{
    is_prompt(first_word(line))
}

/// Whether the end of a prompt stands in a word, behind the name of a device.
fn is_prompt(word: &[u8]) -> bool
    ensures { result ≡ is_prompt word.now }
{
    match word {
        [] => false,
        [first, rest @ ..] => !ends_prompt(*first) && has_end(rest),
    }
}

fn has_end(rest: &[u8]) -> bool
    ensures { result ≡ list_any ends_prompt rest.now }
{
    rest.iter().any(|byte| ends_prompt(*byte))
}

fn ends_prompt(byte: u8) -> bool
    ensures { result ≡ ends_prompt byte }
{
    byte == b'#' || byte == b'>'
}
