//! The words of the command line.

ghost use Rattle.std.specs.Prelude.{◌≡◌, ◌↔◌, [], IfOk, IsErr, drop};

use net_types::NoMemory;
use std::alloc::Global;
use std::env;
use std::io::ErrorKind;
use std::rt::Env;

/// The words of the command line, without the program's name. Where they can't be read, as one isn't UTF-8, there are none: no
/// command has none.
///
/// # Errors
///
/// There was no memory.
pub fn words<R: Env + AllocGlobal>(rt: &R) -> Result<Vec<String>, NoMemory> {
    match env::args(rt) {
        Ok(given) => Ok(behind_name(given.collect(rt.alloc())?)),
        Err(error) => unread(rt.alloc(), error.kind()),
    }
}

// All words behind the first one, which is the program's name.
fn behind_name(given: Vec<String>) -> Vec<String>
    ensures { result.items ≡ drop 1 given.items }
{
    let mut words = given;
    if !words.is_empty() {
        words.remove(0);
    }
    words
}

// No words, where it isn't for want of memory that they can't be read.
fn unread(alloc: Global, kind: ErrorKind) -> Result<Vec<String>, NoMemory>
    ensures none { IfOk result (λ words. words.items ≡ []) }
    ensures cause { IsErr result ↔ (kind ≡ ErrorKind.OutOfMemory) }
{
    if kind == ErrorKind::OutOfMemory {
        return Err(NoMemory);
    }
    Ok(Vec::new(alloc))
}
