//! The words of the command line.

ghost use Rattle.std.specs.Prelude.{◌≡◌, IfOk, map, option_map, string_bytes};
ghost use Rattle.why_core.specs.Words.{traces_in, traces_of, traces_over, traces_with, why_in, why_of, why_over, why_with};

use hdr_bits::Header;
use net_types::NoMemory;
use review_args::header;
use std::alloc::Global;
use view_core::{Format, behind_format, format_of};
use view_words::is_operand;

/// Packets enter with the greatest TTL (RFC 791, 3.1): the words name none.
pub(crate) const FIRST_TTL: u8 = 255;

/// How a report is explained: all of its groups, or the first hundred, and in which format.
#[derive(Clone, Copy, Debug, PartialEq, Eq)]
pub struct Manner {
    pub all: bool,
    pub format: Format,
}

/// Two networks and a report on them, and in which manner it is explained.
#[derive(Clone, Copy)]
pub struct WhyWords<'a> {
    pub old: &'a str,
    pub new: &'a str,
    pub links: &'a str,
    pub report: &'a str,
    pub manner: Manner,
}

/// Two networks, a packet by its header and the place where it enters, and in which format its traces are shown.
#[derive(Clone, Copy)]
pub struct TracesWords<'a> {
    pub old: &'a str,
    pub new: &'a str,
    pub links: &'a str,
    pub device: &'a str,
    pub interface: &'a str,
    pub header: Header,
    pub format: Format,
}

/// `--why [--json] OLD NEW LINKS REPORT`, or `--why-all` with the same.
pub(crate) fn why_of(words: &[String]) -> Option<WhyWords<'_>>
    ensures { option_map why_in result ≡ why_of (map string_bytes words.now) }
{
    let [word, operands @ ..] = words else {
        return None;
    };
    if word.as_bytes() == b"--why".as_slice() {
        return why_with(false, operands);
    }
    if word.as_bytes() == b"--why-all".as_slice() {
        return why_with(true, operands);
    }
    None
}

fn why_with(all: bool, words: &[String]) -> Option<WhyWords<'_>>
    ensures { option_map why_in result ≡ why_with all (map string_bytes words.now) }
{
    let manner = Manner {
        all,
        format: format_of(words),
    };
    why_over(manner, behind_format(words))
}

fn why_over(manner: Manner, words: &[String]) -> Option<WhyWords<'_>>
    ensures { option_map why_in result ≡ why_over manner (map string_bytes words.now) }
{
    let [old, new, links, report] = words else {
        return None;
    };
    if is_operand(old.as_bytes())
        && is_operand(new.as_bytes())
        && is_operand(links.as_bytes())
        && is_operand(report.as_bytes())
    {
        return Some(WhyWords {
            old: old.as_str(),
            new: new.as_str(),
            links: links.as_str(),
            report: report.as_str(),
            manner,
        });
    }
    None
}

/// `--traces [--json] OLD NEW LINKS DEVICE INTERFACE HEADER`.
pub(crate) fn traces_of(
    alloc: Global,
    words: &[String],
) -> Result<Option<TracesWords<'_>>, NoMemory>
    ensures { IfOk result (λ asked. option_map traces_in asked ≡ traces_of (map string_bytes words.now)) }
{
    let [word, operands @ ..] = words else {
        return Ok(None);
    };
    if word.as_bytes() == b"--traces".as_slice() {
        return traces_with(alloc, operands);
    }
    Ok(None)
}

fn traces_with(alloc: Global, words: &[String]) -> Result<Option<TracesWords<'_>>, NoMemory>
    ensures { IfOk result (λ asked. option_map traces_in asked ≡ traces_with (map string_bytes words.now)) }
{
    traces_over(alloc, format_of(words), behind_format(words))
}

fn traces_over(
    alloc: Global,
    format: Format,
    words: &[String],
) -> Result<Option<TracesWords<'_>>, NoMemory>
    ensures { IfOk result (λ asked. option_map traces_in asked ≡ traces_over format (map string_bytes words.now)) }
{
    let [old, new, links, device, interface, header_word] = words else {
        return Ok(None);
    };
    let operands = is_operand(old.as_bytes())
        && is_operand(new.as_bytes())
        && is_operand(links.as_bytes())
        && is_operand(device.as_bytes())
        && is_operand(interface.as_bytes());
    if !operands {
        return Ok(None);
    }
    let Some(header) = header(alloc, header_word.as_str())? else {
        return Ok(None);
    };
    Ok(Some(TracesWords {
        old: old.as_str(),
        new: new.as_str(),
        links: links.as_str(),
        device: device.as_str(),
        interface: interface.as_str(),
        header,
        format,
    }))
}
