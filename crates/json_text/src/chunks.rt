//! Texts that are added in one call.
ghost use Rattle.std.specs.Prelude.{◌≡◌, ◌++◌, OnOk};
ghost use Rattle.std.specs.List.{flat_map};
ghost use Rattle.json_text.specs.Chunks.{chunk_text, count_text};

use crate::json::append_string;
use net_types::NoMemory;
use report_text::{append, append_number};

/// A part of a text.
#[derive(Clone, Copy)]
pub enum Chunk<'a> {
    Bytes(&'a [u8]),
    /// A number in decimal.
    Number(u64),
    /// A string of JSON.
    String(&'a [u8]),
}

/// Adds chunks, one after the other. Where memory runs out, a part of them may stand there.
pub fn append_chunks(out: &mut Vec<u8>, chunks: &[Chunk]) -> Result<(), NoMemory>
    ensures { OnOk result (out.new.items ≡ out.old.items ++ flat_map chunk_text chunks.now) }
{
    for chunk in chunks {
        append_chunk(out, chunk)?;
    }
    Ok(())
}

fn append_chunk(out: &mut Vec<u8>, chunk: &Chunk) -> Result<(), NoMemory>
    ensures { OnOk result (out.new.items ≡ out.old.items ++ chunk_text chunk.now) }
{
    match *chunk {
        Chunk::Bytes(bytes) => append(out, bytes),
        Chunk::Number(number) => append_number(out, number),
        Chunk::String(text) => append_string(out, text),
    }
}

/// Adds texts, likewise.
pub fn append_texts(out: &mut Vec<u8>, texts: &[&[u8]]) -> Result<(), NoMemory>
    ensures { OnOk result (out.new.items ≡ out.old.items ++ flat_map (λ text. text.now) texts.now) }
{
    for text in texts {
        append(out, text)?;
    }
    Ok(())
}

/// Adds a number behind its words, likewise.
pub fn append_count(out: &mut Vec<u8>, front: &[u8], number: u128) -> Result<(), NoMemory>
    ensures { OnOk result (out.new.items ≡ out.old.items ++ count_text front.now number) }
{
    append(out, front)?;
    append_number(out, number)
}
