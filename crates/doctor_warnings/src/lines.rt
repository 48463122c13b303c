//! The lines of a text as they stand.
ghost use Rattle.std.specs.Prelude.{◌≡◌, ◌-◌, ◌≤◌, ◌^◌, drop, length, max, position};
ghost use Rattle.std.specs.List.{position_or_len};
ghost use Rattle.net_text.specs.Limits.{text_limit};
ghost use Rattle.net_text.specs.Lines.{is_line_end, is_separator};
ghost use Rattle.doctor_warnings.specs.Lines.{end_of, line_at, nth_line, start_behind, trimmed};

/// A line without what separates behind its last word.
pub(crate) fn trimmed(line: &[u8]) -> &[u8]
    ensures { result.now ≡ trimmed line.now }
{
    let mut rest = line;
    while let [front @ .., last] = rest {
        if separates(*last) {
            rest = front;
        } else {
            return rest;
        }
    }
    rest
}

/// Whether words end at this byte.
fn separates(byte: u8) -> bool
    ensures { result ≡ is_separator byte }
{
    byte == b' ' || byte == b'\t' || byte == b'\r'
}

/// The line from this byte of a text on, without its end.
pub(crate) fn line_at(bytes: &[u8], at: usize) -> &[u8]
    ensures { result.now ≡ line_at bytes.now at }
{
    let rest = from(bytes, at);
    let (line, _) = rest.split_at(line_length(rest));
    line
}

/// The byte at which the line ends.
pub(crate) fn end_of(bytes: &[u8], at: usize) -> usize
    requires bytes { length bytes.now ≤ text_limit }
    requires at { at ≤ 2 ^ 40 }
    ensures value { result ≡ end_of bytes.now at }
    ensures bound { result ≤ max at (length bytes.now) }
{
    at + line_length(from(bytes, at))
}

/// The bytes from a place on.
fn from(bytes: &[u8], at: usize) -> &[u8]
    ensures value { result.now ≡ drop at bytes.now }
    ensures size { length result.now ≡ length bytes.now - at }
{
    if at <= bytes.len() {
        let (_, rest) = bytes.split_at(at);
        return rest;
    }
    &[]
}

/// How many bytes stand before the first line end, or all where there is none.
fn line_length(text: &[u8]) -> usize
    ensures place { result ≡ position_or_len is_line_end text.now }
    ensures bound { result ≤ length text.now }
{
    match first_line_end(text) {
        Some(length) => length,
        None => text.len(),
    }
}

/// Where the first line ends.
fn first_line_end(text: &[u8]) -> Option<usize>
    ensures { result ≡ position is_line_end text.now }
{
    text.iter().position(|b| *b == b'\n')
}

/// The line of a number, from 1; nothing at 0.
pub(crate) fn nth_line(bytes: &[u8], number: u32) -> &[u8]
    requires { length bytes.now ≤ text_limit }
    ensures { result.now ≡ nth_line bytes.now number }
{
    if number == 0 {
        return &[];
    }
    line_at(bytes, start_behind(bytes, number - 1))
}

/// The byte at which a line begins, so many lines behind the first one.
fn start_behind(bytes: &[u8], count: u32) -> usize
    requires { length bytes.now ≤ text_limit }
    ensures { result ≡ start_behind bytes.now count 0 }
{
    let mut start = 0;
    let mut left = count;
    while left > 0 {
        start = end_of(bytes, start) + 1;
        left -= 1;
    }
    start
}
