//! Numbers and headers on the command line.
ghost use Rattle.std.specs.Prelude.{◌≡◌, ◌≤◌, IfSome, IfOk, map};
ghost use Rattle.std.specs.List.{slice_split};
ghost use Rattle.review_args.specs.Numbers.{number_within, is_comma, header_of, header_with, of_six};

use hdr_bits::Header;
use net_types::NoMemory;
use std::alloc::Global;

// The most digits of a number.
const MOST_DIGITS: usize = 20;

/// The number from `low` to `high` that one to twenty digits write.
pub fn number_within(word: &[u8], low: u32, high: u32) -> Option<u32>
    requires { low ≤ high }
    ensures value { result ≡ number_within low high word.now }
    ensures within { IfSome result (λ n. low ≤ n × n ≤ high) }
{
    if word.len() > MOST_DIGITS {
        return None;
    }
    ios_words::number(word, low, high)
}

/// The number below 2^64 that one to twenty digits write.
pub fn long_number(word: &str) -> Option<u64>
    ensures { result ≡ number_within 0 18446744073709551615 word.now }
{
    if word.len() > MOST_DIGITS || !ios_words::is_numeral(word.as_bytes()) {
        return None;
    }
    word.parse::<u64>().ok()
}

/// The header that six numbers with commas between write: `dst,src,proto,dport,sport,flags`, the first two dotted.
pub fn header(alloc: Global, word: &str) -> Result<Option<Header>, NoMemory>
    ensures { IfOk result (λ header. header ≡ header_of word.now) }
{
    let fields = fields(alloc, word)?;
    Ok(of_six(&fields))
}

// What stands between commas.
fn fields(alloc: Global, word: &str) -> Result<Vec<&str>, NoMemory>
    ensures { IfOk result (λ fields. map (λ f. f.now) fields.items ≡ slice_split is_comma word.now) }
{
    let fields: Vec<&str> = word.split(',').collect(alloc)?;
    Ok(fields)
}

// The header of six fields.
fn of_six(fields: &[&str]) -> Option<Header>
    ensures { result ≡ of_six (map (λ f. f.now) fields.now) }
{
    let [dst, src, proto, dport, sport, flags] = fields else {
        return None;
    };
    header_with(dst, src, proto, dport, sport, flags)
}

#[tactic(auto, unfolding(crate::specs::Numbers::header_with))]
fn header_with(
    dst: &str,
    src: &str,
    proto: &str,
    dport: &str,
    sport: &str,
    flags: &str,
) -> Option<Header>
    ensures { result ≡ header_with dst.now src.now proto.now dport.now sport.now flags.now }
{
    let dst = ios_words::address(dst.as_bytes())?;
    let src = ios_words::address(src.as_bytes())?;
    let proto = number_within(proto.as_bytes(), 0, 255)?;
    let dport = number_within(dport.as_bytes(), 0, 65535)?;
    let sport = number_within(sport.as_bytes(), 0, 65535)?;
    let flags = number_within(flags.as_bytes(), 0, 255)?;
    Some(Header {
        dst,
        src,
        proto: proto as u8,
        dport: dport as u16,
        sport: sport as u16,
        flags: flags as u8,
    })
}
