//! Reports, read as they are written.
ghost use Rattle.std.specs.Prelude.{◌≡◌, ℕ, List, [], length, option_map, codes, IfOk, IfSome, ◌^◌, ◌<◌};
ghost use Rattle.std.specs.Str.{bytes_eq};
ghost use Rattle.report_text.specs.ReportText.{report_text};
ghost use Rattle.report_text.specs.FieldText.{width_of};
ghost use Rattle.report_text.specs.Reports.{AreNames, ReadsReport};
ghost use Rattle.report_text.specs.Reading.{Gives, fields_at, field_at, cube_at, cube_with, next_line, skip_line, row_at, rows_from, section_at, sections_from};

use crate::field_reader::field_of;
use crate::label_reader::{read_label, read_place};
use crate::names::Numbers;
use crate::report::report_bytes;
use crate::words::{cut, is_next, next, same, skip};
use hdr_bits::{Cube, Header};
use net_types::{List, Names, NoMemory, Row, Section};
use std::alloc::{AllocError, AllocFailed, Global};

/// Why there are no sections of a report.
#[derive(Clone, Copy, Debug, PartialEq, Eq, Drop)]
pub enum ReportFail {
    /// No sections over these names have this report.
    NotReport,
    NoMemory,
}

impl From<NoMemory> for ReportFail {
    ghost use Rattle.std.specs.Prelude.{◌≡◌};
    ghost use Rattle.report_text.specs.declared.reader.ReportFail.TheVariants as fail;

    ghost from_gives = { λ _ e. e ≡ fail.NoMemory };

    fn from(_: NoMemory) -> ReportFail {
        ReportFail::NoMemory
    }
}

impl From<AllocError> for ReportFail {
    ghost use Rattle.std.specs.Prelude.{◌≡◌};
    ghost use Rattle.report_text.specs.declared.reader.ReportFail.TheVariants as fail;

    ghost from_gives = { λ _ e. e ≡ fail.NoMemory };

    fn from(_: AllocError) -> ReportFail {
        ReportFail::NoMemory
    }
}

impl<T: Drop> From<AllocFailed<T>> for ReportFail {
    ghost use Rattle.std.specs.Prelude.{◌≡◌};
    ghost use Rattle.report_text.specs.declared.reader.ReportFail.TheVariants as fail;

    ghost from_gives = { λ _ e. e ≡ fail.NoMemory };

    fn from(_: AllocFailed<T>) -> ReportFail {
        ReportFail::NoMemory
    }
}

/// The sections whose report these bytes are, in the form of `report_bytes`, over names of which each is a word.
///
/// `NotReport` exactly where no sections have this report whose places, those in labels too, are all positions in the
/// names. A text that differs from a report in any byte is none: the counts, the order of outcomes in a label and
/// the writing of numbers are those of `report_bytes`.
///
/// The rows may stand in any order: any list of sections has a report. The time is linear in the bytes and the names.
pub fn read_report(alloc: Global, names: &Names, bytes: &[u8]) -> Result<Vec<Section>, ReportFail>
    requires { AreNames names.now.texts }
    ensures { ReadsReport (λ sections. sections.items) names.now bytes.now result }
{
    let sections = match parse(alloc, names, bytes) {
        Ok(sections) => sections,
        Err(fail) => return Err(fail),
    };
    // Whatever the reading left out shows in the print: counts, order, zeros in front, the last line.
    if !is_report(alloc, names, &sections, bytes)? {
        return Err(ReportFail::NotReport);
    }
    Ok(sections)
}

// Whether the bytes are the report of these sections.
fn is_report(
    alloc: Global,
    names: &Names,
    sections: &[Section],
    bytes: &[u8],
) -> Result<bool, NoMemory>
    ensures { IfOk result (λ is. is ≡ bytes_eq (report_text names.now sections.now) bytes.now) }
{
    let printed = report_bytes(alloc, names, sections)?;
    Ok(same(printed.as_slice(), bytes))
}

fn parse(alloc: Global, names: &Names, bytes: &[u8]) -> Result<Vec<Section>, ReportFail>
    requires { AreNames names.now.texts }
    ensures { Gives (λ sections. sections.items) result (sections_from names.now.texts (length bytes.now) [] bytes.now) }
{
    let numbers = Numbers::of(alloc, names)?;
    let sections = read_sections(alloc, &numbers, bytes)?;
    Ok(sections)
}

// Sections, as long as the next word is that of an ingress. Each has a byte, so there are at most as many as bytes.
#[tactic(auto, using(crate::proofs::Steps::sections_more, crate::proofs::Steps::sections_stop, crate::proofs::Steps::sections_done, crate::proofs::Steps::sections_out))]
fn read_sections(alloc: Global, numbers: &Numbers, bytes: &[u8]) -> Result<Vec<Section>, ReportFail>
    ensures { Gives (λ sections. sections.items) result (sections_from numbers.now (length bytes.now) [] bytes.now) }
{
    let mut sections = Vec::new(alloc);
    let mut rest = bytes;
    for _turn in 0..bytes.len() {
        if !is_next(b"ingress", rest) {
            return Ok(sections);
        }
        let (section, after) = read_section(alloc, numbers, rest)?;
        sections.push(section)?;
        rest = after;
    }
    Ok(sections)
}

#[tactic(auto, unfolding(crate::specs::Reading::section_at))]
fn read_section<'t>(
    alloc: Global,
    numbers: &Numbers,
    bytes: &'t [u8],
) -> Result<(Section, &'t [u8]), ReportFail>
    ensures { Gives (λ x. (x.0, x.1.now)) result (section_at numbers.now bytes.now) }
{
    let (line, rest) = next_line(bytes);
    let Some((place, _)) = read_place(numbers, skip(line)) else {
        return Err(ReportFail::NotReport);
    };
    let (rows, rest) = read_rows(alloc, numbers, bytes.len(), rest)?;
    let rows = List::new(rows);
    Ok((Section { place, rows }, rest))
}

// Rows, as long as the next word is the name of a cube's first field, at most `most`.
#[tactic(auto, using(crate::proofs::Steps::rows_more, crate::proofs::Steps::rows_stop, crate::proofs::Steps::rows_done, crate::proofs::Steps::rows_out))]
fn read_rows<'t>(
    alloc: Global,
    numbers: &Numbers,
    most: usize,
    bytes: &'t [u8],
) -> Result<(Vec<Row>, &'t [u8]), ReportFail>
    ensures { Gives (λ x. (x.0.items, x.1.now)) result (rows_from numbers.now most [] bytes.now) }
{
    let mut rows = Vec::new(alloc);
    let mut rest = bytes;
    for _turn in 0..most {
        if !is_next(b"dst", rest) {
            return Ok((rows, rest));
        }
        let (row, after) = read_row(alloc, numbers, rest)?;
        rows.push(row)?;
        rest = after;
    }
    Ok((rows, rest))
}

// Three lines as a row.
#[tactic(auto, unfolding(crate::specs::Reading::row_at))]
fn read_row<'t>(
    alloc: Global,
    numbers: &Numbers,
    bytes: &'t [u8],
) -> Result<(Row, &'t [u8]), ReportFail>
    ensures { Gives (λ x. (x.0, x.1.now)) result (row_at numbers.now bytes.now) }
{
    let (line, rest) = next_line(bytes);
    let Some(cube) = read_cube(line) else {
        return Err(ReportFail::NotReport);
    };
    let (line, rest) = next_line(rest);
    let old = read_label(alloc, numbers, line)?;
    let (line, rest) = next_line(rest);
    let new = read_label(alloc, numbers, line)?;
    Ok((Row { cube, old, new }, rest))
}

fn next_line(bytes: &[u8]) -> (&[u8], &[u8])
    ensures line { result.0.now ≡ next_line bytes.now }
    ensures rest { result.1.now ≡ skip_line bytes.now }
{
    cut(bytes, b'\n')
}

#[tactic(auto, unfolding(crate::specs::Reading::cube_at))]
fn read_cube(line: &[u8]) -> Option<Cube>
    ensures { result ≡ cube_at line.now }
{
    let (fixed, bits) = read_fields(line)?;
    cube_with(&fixed, &bits)
}

fn cube_with(fixed: &Header, bits: &Header) -> Option<Cube>
    ensures { result ≡ cube_with (fixed.now, bits.now) }
{
    Cube::from_masks(fixed.to_bits(), bits.to_bits())
}

// The field behind its name, and what stands behind it.
#[tactic(auto, unfolding(crate::specs::Reading::field_at))]
fn read_field_at(line: &[u8], field: u8) -> Option<((u32, u32), &[u8])>
    ensures value { option_map (λ x. (x.0, x.1.now)) result ≡ field_at field line.now }
    ensures below { IfSome result (λ x. (x.0.0 < 2 ^ width_of field) × (x.0.1 < 2 ^ width_of field)) }
{
    let (word, rest) = next(skip(line));
    let found = field_of(word, field)?;
    Some((found, rest))
}

// The fixed bits of the six fields of a line, and the digits at those.
#[tactic(auto, unfolding(crate::specs::Reading::fields_at))]
fn read_fields(line: &[u8]) -> Option<(Header, Header)>
    ensures { result ≡ fields_at line.now }
{
    let (dst, rest) = read_field_at(line, 0)?;
    let (src, rest) = read_field_at(rest, 1)?;
    let (proto, rest) = read_field_at(rest, 2)?;
    let (dport, rest) = read_field_at(rest, 3)?;
    let (sport, rest) = read_field_at(rest, 4)?;
    let (flags, _) = read_field_at(rest, 5)?;
    let fixed = Header {
        dst: dst.0,
        src: src.0,
        proto: proto.0 as u8,
        dport: dport.0 as u16,
        sport: sport.0 as u16,
        flags: flags.0 as u8,
    };
    let bits = Header {
        dst: dst.1,
        src: src.1,
        proto: proto.1 as u8,
        dport: dport.1 as u16,
        sport: sport.1 as u16,
        flags: flags.1 as u8,
    };
    Some((fixed, bits))
}
