//! The line at which two texts differ.
ghost use Rattle.std.specs.Prelude.{◌≡◌, ◌+◌, map};
ghost use Rattle.view_core.specs.Differing.{same_lines};

/// The first line, from 1, that isn't the same in both; where one text ends before that, the line behind its last one.
pub fn first_difference(a: &[&[u8]], b: &[&[u8]]) -> u64
    ensures { result ≡ same_lines (map (λ line. line.now) a.now) (map (λ line. line.now) b.now) + 1 }
{
    let mut at = 0;
    while at < a.len() && at < b.len() {
        if a[at] != b[at] {
            return at as u64 + 1;
        }
        at += 1;
    }
    at as u64 + 1
}
