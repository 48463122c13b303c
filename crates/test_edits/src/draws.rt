//! Numbers that are drawn.

ghost use Rattle.std.specs.Prelude.{◌<◌};

/// A row of numbers in which each follows from the one before.
#[derive(Clone, Copy)]
pub(crate) struct Draws {
    state: u64,
}

impl Draws {
    pub(crate) fn of(number: u64) -> Draws {
        let state = number.wrapping_mul(0x9e37_79b9_7f4a_7c15).wrapping_add(1);
        Draws { state }
    }

    fn next(&mut self) -> u64 {
        let next = self.state.wrapping_mul(6364136223846793005);
        self.state = next.wrapping_add(1442695040888963407);
        self.state >> 33
    }

    /// One of the numbers below this one, which isn't 0.
    pub(crate) fn below(&mut self, count: u32) -> u32
        requires { 0 < count }
        ensures { result < count }
    {
        (self.next() % u64::from(count)) as u32
    }

    /// True once in so many times.
    pub(crate) fn once_in(&mut self, count: u32) -> bool
        requires { 0 < count }
    {
        self.below(count) == 0
    }
}
