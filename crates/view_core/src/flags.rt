//! TCP's flags as a person reads them.
ghost use Rattle.std.specs.Prelude.{◌≡◌, ◌++◌, map, codes, OnOk};
ghost use Rattle.std.specs.List.{flat_map, join_by, list_any};
ghost use Rattle.ios_words.specs.Names.{row_of};
ghost use Rattle.view_core.specs.FieldWords.{flag_text, pattern_flags, is_open_pattern, flags_text};

use json_text::append_texts;
use net_types::NoMemory;
use report_groups::{Flags, Pattern};
use report_text::append;

/// Flags: by the word of access lists, or by name, those that are set and behind `no` those that aren't; nothing where all are meant.
#[tactic(auto, unfolding(crate::specs::FieldWords::flags_text))]
pub(crate) fn append_flags(out: &mut Vec<u8>, flags: &Flags) -> Result<(), NoMemory>
    ensures { OnOk result (out.new.items ≡ out.old.items ++ flags_text flags.now) }
{
    match flags {
        Flags::Established => append(out, b"  established"),
        Flags::NotEstablished => append(out, b"  not established"),
        Flags::Matching(patterns) => {
            let patterns = patterns.as_slice();
            if is_any_open(patterns) {
                Ok(())
            } else {
                append(out, b"  flags")?;
                append_patterns(out, patterns)
            }
        }
    }
}

fn is_any_open(patterns: &[Pattern]) -> bool
    ensures { result ≡ list_any is_open_pattern patterns.now }
{
    patterns.iter().any(|p| is_open_pattern(p))
}

fn is_open_pattern(pattern: &Pattern) -> bool
    ensures { result ≡ is_open_pattern pattern.now }
{
    pattern.fixed == 0 && pattern.bits == 0
}

fn append_patterns(out: &mut Vec<u8>, patterns: &[Pattern]) -> Result<(), NoMemory>
    ensures { OnOk result (out.new.items ≡ out.old.items ++ join_by pattern_flags (codes ",") patterns.now) }
{
    let [first, rest @ ..] = patterns else {
        return Ok(());
    };
    append_pattern(out, first)?;
    for pattern in rest {
        append(out, b",")?;
        append_pattern(out, pattern)?;
    }
    Ok(())
}

#[tactic(auto, unfolding(crate::specs::FieldWords::pattern_flags))]
fn append_pattern(out: &mut Vec<u8>, pattern: &Pattern) -> Result<(), NoMemory>
    ensures { OnOk result (out.new.items ≡ out.old.items ++ pattern_flags pattern.now) }
{
    let names: [(&[u8], u32); 8] = [
        (b"bit7", 128),
        (b"bit6", 64),
        (b"urg", 32),
        (b"ack", 16),
        (b"psh", 8),
        (b"rst", 4),
        (b"syn", 2),
        (b"fin", 1),
    ];
    append_names(out, pattern, &names)
}

// Each flag that is fixed.
fn append_names(
    out: &mut Vec<u8>,
    pattern: &Pattern,
    names: &[(&[u8], u32)],
) -> Result<(), NoMemory>
    ensures { OnOk result (out.new.items ≡ out.old.items ++ flat_map (flag_text pattern.now) (map row_of names.now)) }
{
    for name in names {
        append_flag(out, pattern, name.0, name.1)?;
    }
    Ok(())
}

fn append_flag(out: &mut Vec<u8>, pattern: &Pattern, name: &[u8], bit: u32) -> Result<(), NoMemory>
    ensures { OnOk result (out.new.items ≡ out.old.items ++ flag_text pattern.now (name.now, bit)) }
{
    if pattern.fixed & bit == 0 {
        return Ok(());
    }
    if pattern.bits & bit == 0 {
        append_texts(out, &[b" no ", name])
    } else {
        append_texts(out, &[b" ", name])
    }
}
