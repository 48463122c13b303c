//! The request that the words make.
ghost use Rattle.std.specs.Prelude.{◌≡◌, ◌≤◌, option_and_then, IfOk, IfSome, None, Some, Err, map, string_bytes};
ghost use Rattle.std.specs.List.{list_any};
ghost use Rattle.review_args.specs.Words.{has_stray, positional, values};
ghost use Rattle.review_args.specs.Requests.{Answers, AreWorkers, IsTtl, IsWithin, request_of, is_empty, named, option_number, workers_of, ttl_of, comparison, asking, tracing, reading, making, without};
ghost use Rattle.review_args.specs.Parts.{texts};

use crate::numbers::{header, long_number, number_within};
use crate::parts::Parts;
use crate::request::{Asking, Comparison, Job, Packet, Request, Tracing, WordsFail};
use net_types::{NoMemory, Text, Word};
use std::alloc::Global;

/// What the words of the command line, without the program's name, ask for: the job, and by how many workers.
///
/// Refused comes exactly where they are outside the usage: a command of another name, positional words that are not
/// those of the command or are empty, an option that doesn't go with it, stands twice, lacks its value or has one out
/// of range, another word that begins with `-` before the first `--`, or a number or header that is none. The numbers
/// of a request that is answered are within their bounds.
pub fn read_words(alloc: Global, words: &[String]) -> Result<Request, WordsFail>
    ensures request { IfOk result (λ r. request_of (map string_bytes words.now) ≡ Some r) }
    ensures refused { result ≡ Err WordsFail.Refused → request_of (map string_bytes words.now) ≡ None }
    ensures within { IfOk result IsWithin }
{
    read(alloc, words)
}

fn read(alloc: Global, words: &[String]) -> Result<Request, WordsFail>
    ensures asked { Answers (request_of (map string_bytes words.now)) result }
    ensures within { IfOk result IsWithin }
{
    let [name, rest @ ..] = words else {
        return Err(WordsFail::Refused);
    };
    let name = name.as_str();
    let parts = Parts::of(alloc, name, rest)?;
    if parts.stray || has_empty(&parts.positional) {
        return Err(WordsFail::Refused);
    }
    named(alloc, name, &parts)
}

fn has_empty(words: &[&str]) -> bool
    ensures { result ≡ list_any is_empty (map (λ w. w.now) words.now) }
{
    let found = any_is_empty(words);
    found
}

fn any_is_empty(words: &[&str]) -> bool
    ensures { result ≡ list_any (λ w. is_empty w.now) words.now }
{
    words.iter().any(|word| is_empty(word))
}

fn is_empty(word: &str) -> bool
    ensures { result ≡ is_empty word.now }
{
    word.is_empty()
}

// The request of a command of this name.
fn named(alloc: Global, name: &str, parts: &Parts) -> Result<Request, WordsFail>
    ensures asked { Answers (named name.now (texts parts.now.positional) (texts parts.now.workers) (texts parts.now.ttl)) result }
    ensures within { IfOk result IsWithin }
{
    if name == "compare" {
        return compare(alloc, parts);
    }
    if name == "ask" {
        return ask(alloc, parts);
    }
    if name == "trace" {
        return trace(alloc, parts);
    }
    if name == "read" {
        return read_network(alloc, parts);
    }
    if name == "gen" {
        return generate(parts);
    }
    Err(WordsFail::Refused)
}

// The number that an option gives, or its usual one.
fn option_number(values: &[&str], low: u32, high: u32, usual: u32) -> Option<u32>
    requires order { low ≤ usual × usual ≤ high }
    ensures value { result ≡ option_number low high usual (map (λ v. v.now) values.now) }
    ensures within { IfSome result (λ n. low ≤ n × n ≤ high) }
{
    match values {
        [] => Some(usual),
        [value] => number_within(value.as_bytes(), low, high),
        _ => None,
    }
}

fn workers_of(parts: &Parts) -> Option<u32>
    ensures value { result ≡ workers_of (texts parts.now.workers) }
    ensures within { IfSome result AreWorkers }
{
    option_number(&parts.workers, 1, 64, 4)
}

fn ttl_of(parts: &Parts) -> Option<u8>
    ensures value { result ≡ ttl_of (texts parts.now.ttl) }
    ensures within { IfSome result IsTtl }
{
    let ttl = option_number(&parts.ttl, 1, 255, 255)?;
    Some(ttl as u8)
}

// `compare OLD NEW LINKS [NEWLINKS]`
fn compare(alloc: Global, parts: &Parts) -> Result<Request, WordsFail>
    ensures asked { Answers (option_and_then (λ n. option_and_then (comparison (texts parts.now.positional) n) (ttl_of (texts parts.now.ttl))) (workers_of (texts parts.now.workers))) result }
    ensures within { IfOk result IsWithin }
{
    let Some(workers) = workers_of(parts) else {
        return Err(WordsFail::Refused);
    };
    let Some(ttl) = ttl_of(parts) else {
        return Err(WordsFail::Refused);
    };
    comparison(alloc, parts, workers, ttl)
}

fn comparison(alloc: Global, parts: &Parts, workers: u32, ttl: u8) -> Result<Request, WordsFail>
    requires workers { AreWorkers workers }
    requires ttl { IsTtl ttl }
    ensures asked { Answers (comparison (texts parts.now.positional) workers ttl) result }
    ensures within { IfOk result IsWithin }
{
    match parts.positional.as_slice() {
        [old, new, links] => Ok(Request {
            job: Job::Compare(Comparison {
                old: word(alloc, old)?,
                new: word(alloc, new)?,
                links: word(alloc, links)?,
                new_links: None,
                ttl,
            }),
            workers,
        }),
        [old, new, links, new_links] => Ok(Request {
            job: Job::Compare(Comparison {
                old: word(alloc, old)?,
                new: word(alloc, new)?,
                links: word(alloc, links)?,
                new_links: Some(word(alloc, new_links)?),
                ttl,
            }),
            workers,
        }),
        _ => Err(WordsFail::Refused),
    }
}

// `ask NET LINKS QUESTIONS`
fn ask(alloc: Global, parts: &Parts) -> Result<Request, WordsFail>
    ensures asked { Answers (option_and_then (λ n. option_and_then (asking (texts parts.now.positional) n) (ttl_of (texts parts.now.ttl))) (workers_of (texts parts.now.workers))) result }
    ensures within { IfOk result IsWithin }
{
    let Some(workers) = workers_of(parts) else {
        return Err(WordsFail::Refused);
    };
    let Some(ttl) = ttl_of(parts) else {
        return Err(WordsFail::Refused);
    };
    let [net, links, questions] = parts.positional.as_slice() else {
        return Err(WordsFail::Refused);
    };
    Ok(Request {
        job: Job::Ask(Asking {
            net: word(alloc, net)?,
            links: word(alloc, links)?,
            questions: word(alloc, questions)?,
            ttl,
        }),
        workers,
    })
}

// `trace NET LINKS DEVICE INTERFACE HEADER`
fn trace(alloc: Global, parts: &Parts) -> Result<Request, WordsFail>
    ensures asked { Answers (without (texts parts.now.workers) (option_and_then (tracing (texts parts.now.positional)) (ttl_of (texts parts.now.ttl)))) result }
    ensures within { IfOk result IsWithin }
{
    if !parts.workers.is_empty() {
        return Err(WordsFail::Refused);
    }
    trace_within(alloc, parts)
}

fn trace_within(alloc: Global, parts: &Parts) -> Result<Request, WordsFail>
    ensures asked { Answers (option_and_then (tracing (texts parts.now.positional)) (ttl_of (texts parts.now.ttl))) result }
    ensures within { IfOk result IsWithin }
{
    let Some(ttl) = ttl_of(parts) else {
        return Err(WordsFail::Refused);
    };
    tracing(alloc, parts, ttl)
}

fn tracing(alloc: Global, parts: &Parts, ttl: u8) -> Result<Request, WordsFail>
    requires { IsTtl ttl }
    ensures asked { Answers (tracing (texts parts.now.positional) ttl) result }
    ensures within { IfOk result IsWithin }
{
    let [net, links, device, interface, header_word] = parts.positional.as_slice() else {
        return Err(WordsFail::Refused);
    };
    let Some(header) = header(alloc, header_word)? else {
        return Err(WordsFail::Refused);
    };
    let packet = Packet {
        device: Text::copy_of(alloc, device.as_bytes())?,
        interface: Text::copy_of(alloc, interface.as_bytes())?,
        header,
    };
    Ok(Request {
        job: Job::Trace(Tracing {
            net: word(alloc, net)?,
            links: word(alloc, links)?,
            packet,
            ttl,
        }),
        workers: 1,
    })
}

// `read NET`
fn read_network(alloc: Global, parts: &Parts) -> Result<Request, WordsFail>
    ensures asked { Answers (without (texts parts.now.workers) (without (texts parts.now.ttl) (reading (texts parts.now.positional)))) result }
    ensures within { IfOk result IsWithin }
{
    if !parts.workers.is_empty() || !parts.ttl.is_empty() {
        return Err(WordsFail::Refused);
    }
    let [net] = parts.positional.as_slice() else {
        return Err(WordsFail::Refused);
    };
    Ok(Request {
        job: Job::Read {
            net: word(alloc, net)?,
        },
        workers: 1,
    })
}

// `gen NUMBER SIZE`
fn generate(parts: &Parts) -> Result<Request, WordsFail>
    ensures asked { Answers (without (texts parts.now.ttl) (option_and_then (making (texts parts.now.positional)) (workers_of (texts parts.now.workers)))) result }
    ensures within { IfOk result IsWithin }
{
    if !parts.ttl.is_empty() {
        return Err(WordsFail::Refused);
    }
    generate_by(parts)
}

fn generate_by(parts: &Parts) -> Result<Request, WordsFail>
    ensures asked { Answers (option_and_then (making (texts parts.now.positional)) (workers_of (texts parts.now.workers))) result }
    ensures within { IfOk result IsWithin }
{
    let Some(workers) = workers_of(parts) else {
        return Err(WordsFail::Refused);
    };
    making(parts, workers)
}

fn making(parts: &Parts, workers: u32) -> Result<Request, WordsFail>
    requires { AreWorkers workers }
    ensures asked { Answers (making (texts parts.now.positional) workers) result }
    ensures within { IfOk result IsWithin }
{
    let [number, size] = parts.positional.as_slice() else {
        return Err(WordsFail::Refused);
    };
    let Some(number) = long_number(number) else {
        return Err(WordsFail::Refused);
    };
    let Some(size) = number_within(size.as_bytes(), 2, 200) else {
        return Err(WordsFail::Refused);
    };
    Ok(Request {
        job: Job::Gen { number, size },
        workers,
    })
}

fn word(alloc: Global, text: &str) -> Result<Word, NoMemory>
    ensures { IfOk result (λ word. word ≡ text.now) }
{
    Ok(Word::new(String::from_str(alloc, text)?))
}
