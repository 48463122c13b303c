//! The ports that are drawn.
ghost use Rattle.std.specs.Prelude.{◌≡◌};
ghost use Rattle.net_gen.specs.Draws.{step, given};

// Knuth's multiplier for MMIX, and an odd increment.
const MULTIPLIER: u128 = 6364136223846793005;

const INCREMENT: u128 = 1442695040888963407;

/// The next state.
pub fn step(x: u64) -> u64
    ensures { result ≡ step x }
{
    let next = (u128::from(x) * MULTIPLIER + INCREMENT) % (1 << 64);
    next as u64
}

/// The port that a state gives, 1 to 60000.
pub fn port(x: u64) -> u16
    ensures { result ≡ given x }
{
    let port = 1 + (x >> 33) % 60000;
    port as u16
}
