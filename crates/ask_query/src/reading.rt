//! Reading questions.

ghost use Rattle.std.specs.Prelude.{◌≡◌, ◌≤◌, ◌<◌, ◌+◌, ◌*◌, ◌^◌, ◌++◌, ◌∷◌, [], ◌==◌, IfOk, OnOk, MatchOption, length, map, option_map, option_to_list, bit_or};
ghost use Rattle.std.specs.Str.{bytes_eq};
ghost use Rattle.net_text.specs.Limits.{text_limit};
ghost use Rattle.net_text.specs.Lines.{piece};
ghost use Rattle.report_text.specs.FieldText.{IsField};
ghost use Rattle.ask_query.specs.Fields.{place_of, shift_of};
ghost use Rattle.ask_query.specs.Refusals.{Gives};
ghost use Rattle.ask_query.specs.Reading.{begins_mark, bits_at, filter_from, free_field, interface_at, kind_of, masks_of, no_field, place_at, question_at, question_of, questions_in, questions_of, said, second_at, second_place, to_at};

use crate::devices::{DeviceIndex, PlaceIndex};
use crate::fields::{Field, field_named, field_of, is_among};
use crate::refusal::{QuestionFail, QuestionRefusal, at_word, missing};
use hdr_bits::Cube;
use net_text::{Line, Span, lines, part};
use net_types::{Network, NoMemory, Place, Question, QuestionKind, Text};
use std::alloc::Global;

/// The questions of a text of at most 16,777,216 bytes, or its refusal. Their places are found in the network by the names of
/// its devices and of their interfaces.
///
/// Lines are read by words as a configuration's are; blank lines and lines that begin with `!` are skipped, and the indentation
/// of a line means nothing. A line is `reach R I to R I FILTER`, `isolate R I to R I FILTER` or `noloop R I FILTER`, where
/// FILTER is any number of pairs of a field's name and a text of it, each field at most once. The first refused line decides; in
/// a line the words are judged from left to right.
pub fn read_questions(
    alloc: Global,
    network: &Network,
    bytes: &[u8],
) -> Result<Vec<Question>, QuestionFail>
    requires { length bytes.now ≤ text_limit }
    ensures exact { Gives (λ questions. map said questions.items) result (questions_of network.now bytes.now) }
{
    let devices = DeviceIndex::of(alloc, network)?;
    let lines = lines(alloc, bytes)?;
    read_lines(alloc, &devices, bytes, &lines)
}

// The questions of the lines.
fn read_lines(
    alloc: Global,
    devices: &DeviceIndex,
    bytes: &[u8],
    lines: &[Line],
) -> Result<Vec<Question>, QuestionFail>
    ensures { Gives (λ questions. map said questions.items) result (questions_in devices.now bytes.now lines.now) }
{
    let mut questions = Vec::new(alloc);
    for line in lines {
        let question = question_in(alloc, devices, bytes, line)?;
        add(&mut questions, question)?;
    }
    Ok(questions)
}

// The question of the line, if it has one.
fn question_in(
    alloc: Global,
    devices: &DeviceIndex,
    bytes: &[u8],
    line: &Line,
) -> Result<Option<Question>, QuestionFail>
    ensures { Gives (option_map said) result (question_at devices.now line.now.number (map (piece bytes.now) line.now.words)) }
{
    let words = texts(alloc, bytes, line.words.as_slice())?;
    read_line(alloc, devices, line.number, &words)
}

// Adds the question, if there is one.
fn add(questions: &mut Vec<Question>, question: Option<Question>) -> Result<(), NoMemory>
    ensures { OnOk result (questions.new.items ≡ questions.old.items ++ option_to_list question) }
{
    let Some(question) = question else {
        return Ok(());
    };
    questions.push(question)?;
    Ok(())
}

// The words of a line.
fn texts(alloc: Global, bytes: &[u8], spans: &[Span]) -> Result<Vec<Text>, NoMemory>
    ensures { IfOk result (λ words. words.items ≡ map (piece bytes.now) spans.now) }
{
    let mut words = Vec::with_capacity(alloc, spans.len())?;
    for span in spans {
        words.push(Text::copy_of(alloc, part(bytes, *span))?)?;
    }
    Ok(words)
}

// The question of a line, if it isn't a comment.
#[tactic(auto, unfolding(crate::specs::Reading::question_at))]
fn read_line(
    alloc: Global,
    devices: &DeviceIndex,
    line: u32,
    words: &[Text],
) -> Result<Option<Question>, QuestionFail>
    ensures { Gives (option_map said) result (question_at devices.now line words.now) }
{
    let [word, rest @ ..] = words else {
        return Ok(None);
    };
    if is_comment(word) {
        return Ok(None);
    }
    let Some(kind) = kind_of(word) else {
        return Err(at_word(alloc, QuestionRefusal::BadWord, line, word));
    };
    let question = read_question(alloc, devices, kind, line, rest)?;
    Ok(Some(question))
}

// A question of this kind.
#[tactic(auto, unfolding(crate::specs::Reading::question_of))]
fn read_question(
    alloc: Global,
    devices: &DeviceIndex,
    kind: QuestionKind,
    line: u32,
    words: &[Text],
) -> Result<Question, QuestionFail>
    ensures { Gives said result (question_of devices.now kind line words.now) }
{
    let (from, rest) = read_place(alloc, devices, line, words)?;
    let (to, rest) = read_second(alloc, devices, kind, line, rest)?;
    let filter = read_filter(alloc, line, rest)?;
    Ok(Question {
        kind,
        from,
        to,
        filter,
    })
}

// The place of which a question of this kind speaks.
#[tactic(auto, unfolding(crate::specs::Reading::second_at))]
fn read_second<'a>(
    alloc: Global,
    devices: &DeviceIndex,
    kind: QuestionKind,
    line: u32,
    words: &'a [Text],
) -> Result<(Option<Place>, &'a [Text]), QuestionFail>
    ensures { Gives (λ x. (x.0, x.1.now)) result (second_at devices.now kind line words.now) }
{
    match kind {
        QuestionKind::Reach => read_second_place(alloc, devices, line, words),
        QuestionKind::Isolate => read_second_place(alloc, devices, line, words),
        QuestionKind::NoLoop => Ok((None, words)),
    }
}

#[tactic(auto, unfolding(crate::specs::Reading::second_place))]
fn read_second_place<'a>(
    alloc: Global,
    devices: &DeviceIndex,
    line: u32,
    words: &'a [Text],
) -> Result<(Option<Place>, &'a [Text]), QuestionFail>
    ensures { Gives (λ x. (x.0, x.1.now)) result (second_place devices.now line words.now) }
{
    let rest = read_to(alloc, line, words)?;
    let (place, rest) = read_place(alloc, devices, line, rest)?;
    Ok((Some(place), rest))
}

// The word `to`.
#[tactic(auto, unfolding(crate::specs::Reading::to_at))]
fn read_to<'a>(alloc: Global, line: u32, words: &'a [Text]) -> Result<&'a [Text], QuestionFail>
    ensures { Gives (λ x. x.now) result (to_at line words.now) }
{
    let [word, rest @ ..] = words else {
        return Err(missing(alloc, line));
    };
    if !is(word, b"to") {
        return Err(at_word(alloc, QuestionRefusal::BadWord, line, word));
    }
    Ok(rest)
}

// A place of the network.
#[tactic(auto, unfolding(crate::specs::Reading::place_at))]
fn read_place<'a>(
    alloc: Global,
    devices: &DeviceIndex,
    line: u32,
    words: &'a [Text],
) -> Result<(Place, &'a [Text]), QuestionFail>
    ensures { Gives (λ x. (x.0, x.1.now)) result (place_at devices.now line words.now) }
{
    let [word, rest @ ..] = words else {
        return Err(missing(alloc, line));
    };
    let Some(device) = devices.device_called(word) else {
        return Err(at_word(alloc, QuestionRefusal::UnknownPlace, line, word));
    };
    read_interface(alloc, device, line, rest)
}

// A place of the device.
#[tactic(auto, unfolding(crate::specs::Reading::interface_at))]
fn read_interface<'a>(
    alloc: Global,
    device: &PlaceIndex,
    line: u32,
    words: &'a [Text],
) -> Result<(Place, &'a [Text]), QuestionFail>
    ensures { Gives (λ x. (x.0, x.1.now)) result (interface_at device.now line words.now) }
{
    let [word, rest @ ..] = words else {
        return Err(missing(alloc, line));
    };
    let Some(place) = device.place_called(word) else {
        return Err(at_word(alloc, QuestionRefusal::UnknownPlace, line, word));
    };
    Ok((place, rest))
}

// A filter, by pairs of a field's name and a text of it.
fn read_filter(alloc: Global, line: u32, words: &[Text]) -> Result<Cube, QuestionFail>
    ensures { Gives masks_of result (filter_from line no_field words.now) }
{
    let mut named = Vec::new(alloc);
    let mut filter = everything();
    let mut rest = words;
    while let Some((name, others)) = first(rest) {
        let field = read_name(alloc, line, &named, name)?;
        let Some((text, others)) = first(others) else {
            return Err(missing(alloc, line));
        };
        let bits = read_bits(alloc, line, field, text)?;
        filter = with_field(&filter, field, bits);
        named.push(field)?;
        rest = others;
    }
    Ok(filter)
}

// The field of this name, that isn't named yet.
fn read_name(alloc: Global, line: u32, named: &[Field], word: &Text) -> Result<Field, QuestionFail>
    ensures { Gives (λ x. x) result (free_field line named.now word.now) }
{
    let Some(field) = field_named(word.as_bytes()) else {
        return Err(at_word(alloc, QuestionRefusal::BadWord, line, word));
    };
    if is_among(named, field) {
        return Err(at_word(alloc, QuestionRefusal::BadWord, line, word));
    }
    Ok(field)
}

// Which bits of the field its text fixes, and the digits at those.
fn read_bits(
    alloc: Global,
    line: u32,
    field: Field,
    word: &Text,
) -> Result<(u32, u32), QuestionFail>
    ensures bits { Gives (λ x. x) result (bits_at line field word.now) }
    ensures field { IfOk result (λ f. IsField (place_of field) f.0 f.1) }
{
    let Some(bits) = field_of(field, word.as_bytes()) else {
        return Err(at_word(alloc, QuestionRefusal::BadWord, line, word));
    };
    Ok(bits)
}

// The cube of all headers.
fn everything() -> Cube
    ensures { masks_of result ≡ (0, 0) }
{
    Cube { fixed: 0, bits: 0 }
}

// The cube, with these bits of the field fixed too.
fn with_field(filter: &Cube, field: Field, bits: (u32, u32)) -> Cube
    requires { IsField (place_of field) bits.0 bits.1 }
    ensures { masks_of result ≡ (bit_or filter.now.fixed (bits.0 * 2 ^ shift_of field), bit_or filter.now.bits (bits.1 * 2 ^ shift_of field)) }
{
    let cube = field_cube(field, bits);
    Cube {
        fixed: filter.fixed | cube.fixed,
        bits: filter.bits | cube.bits,
    }
}

// The headers whose field has these bits.
fn field_cube(field: Field, bits: (u32, u32)) -> Cube
    requires { IsField (place_of field) bits.0 bits.1 }
    ensures { masks_of result ≡ (bits.0 * 2 ^ shift_of field, bits.1 * 2 ^ shift_of field) }
{
    let (fixed, bits) = bits;
    let weight: u128 = 1 << field.shift();
    Cube {
        fixed: u128::from(fixed) * weight,
        bits: u128::from(bits) * weight,
    }
}

// The first word, and the words after it.
fn first(words: &[Text]) -> Option<(&Text, &[Text])>
    ensures { MatchOption result (words.now ≡ []) (λ x. words.now ≡ x.0.now ∷ x.1.now) }
{
    match words {
        [] => None,
        [word, rest @ ..] => Some((word, rest)),
    }
}

// Whether the line is a comment.
fn is_comment(word: &Text) -> bool
    ensures { result ≡ begins_mark word.now }
{
    match word.as_bytes() {
        [] => false,
        [first, ..] => *first == b'!',
    }
}

fn is(word: &Text, text: &[u8]) -> bool
    ensures { result ≡ bytes_eq word.now text.now }
{
    word.as_bytes() == text
}

// The kind of question that the word names.
fn kind_of(word: &Text) -> Option<QuestionKind>
    ensures { result ≡ kind_of word.now }
{
    if is(word, b"reach") {
        return Some(QuestionKind::Reach);
    }
    if is(word, b"isolate") {
        return Some(QuestionKind::Isolate);
    }
    if is(word, b"noloop") {
        return Some(QuestionKind::NoLoop);
    }
    None
}
