//! The parts of a text, cut off one after the other.
ghost use Rattle.std.specs.Prelude.{◌≡◌, ◌==◌, ◌<◌, ◌+◌, length, take, drop, position};
ghost use Rattle.std.specs.Str.{bytes_eq};
ghost use Rattle.report_text.specs.Reading.{cut_at, next_word, skip_word, is_next};

/// What stands before the first separator, and what stands after it; where there is none, all and nothing.
pub(crate) fn cut(bytes: &[u8], separator: u8) -> (&[u8], &[u8])
    ensures { (result.0.now, result.1.now) ≡ cut_at separator bytes.now }
{
    match first_place(bytes, separator) {
        Some(at) => around(bytes, at),
        None => (bytes, &[]),
    }
}

// What stands before byte `at`, and what stands after it.
fn around(bytes: &[u8], at: usize) -> (&[u8], &[u8])
    requires { at < length bytes.now }
    ensures front { result.0.now ≡ take at bytes.now }
    ensures back { result.1.now ≡ drop (at + 1) bytes.now }
{
    (&bytes[..at], &bytes[at + 1..])
}

fn first_place(bytes: &[u8], separator: u8) -> Option<usize>
    ensures { result ≡ position (λ b. b == separator) bytes.now }
{
    bytes.iter().position(|b| *b == separator)
}

/// The next word, up to a blank, and what stands behind it.
pub(crate) fn next(bytes: &[u8]) -> (&[u8], &[u8])
    ensures word { result.0.now ≡ next_word bytes.now }
    ensures rest { result.1.now ≡ skip_word bytes.now }
{
    cut(bytes, b' ')
}

/// What stands behind the next word.
pub(crate) fn skip(bytes: &[u8]) -> &[u8]
    ensures { result.now ≡ skip_word bytes.now }
{
    let (_, rest) = next(bytes);
    rest
}

/// Whether the next word is this one.
pub(crate) fn is_next(word: &[u8], bytes: &[u8]) -> bool
    ensures { result ≡ is_next word.now bytes.now }
{
    let (next, _) = next(bytes);
    same(next, word)
}

/// Whether the two have the same bytes.
pub(crate) fn same(a: &[u8], b: &[u8]) -> bool
    ensures { result ≡ bytes_eq a.now b.now }
{
    a == b
}
