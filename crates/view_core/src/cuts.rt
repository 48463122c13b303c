//! The parts of a line, cut off one after the other.
ghost use Rattle.std.specs.Prelude.{◌≡◌, ◌==◌, ◌<◌, ◌+◌, length, take, drop, position};
ghost use Rattle.report_text.specs.Reading.{cut_at, next_word, skip_word};

/// The next word, up to a blank, and what stands behind it.
pub fn split_word(bytes: &[u8]) -> (&[u8], &[u8])
    ensures word { result.0.now ≡ next_word bytes.now }
    ensures rest { result.1.now ≡ skip_word bytes.now }
{
    cut(bytes)
}

// What stands before the first blank, and what stands behind it; where there is none, all and nothing.
fn cut(bytes: &[u8]) -> (&[u8], &[u8])
    ensures { (result.0.now, result.1.now) ≡ cut_at 32 bytes.now }
{
    match first_blank(bytes) {
        Some(at) => around(bytes, at),
        None => (bytes, &[]),
    }
}

// What stands before byte `at`, and what stands behind it.
fn around(bytes: &[u8], at: usize) -> (&[u8], &[u8])
    requires { at < length bytes.now }
    ensures front { result.0.now ≡ take at bytes.now }
    ensures back { result.1.now ≡ drop (at + 1) bytes.now }
{
    (&bytes[..at], &bytes[at + 1..])
}

fn first_blank(bytes: &[u8]) -> Option<usize>
    ensures { result ≡ position (λ b. b == 32) bytes.now }
{
    bytes.iter().position(|b| *b == b' ')
}
