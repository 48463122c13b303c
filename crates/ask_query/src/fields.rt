//! The fields of a filter, and their texts.

ghost use Rattle.std.specs.Prelude.{◌≡◌, ◌+◌, ◌≤◌, IfSome};
ghost use Rattle.std.specs.List.{list_any};
ghost use Rattle.std.specs.Str.{bytes_eq};
ghost use Rattle.report_text.specs.FieldText.{IsField, width_of};
ghost use Rattle.ask_query.specs.Fields.{field_named, field_of, place_of, same_field, shift_of};

use report_text::read_field;

/// A field of headers.
#[derive(Clone, Copy, Debug, PartialEq, Eq)]
pub enum Field {
    Dst,
    Src,
    Proto,
    Dport,
    Sport,
    Flags,
}

impl Field {
    /// Its place in a header, from 0.
    pub(crate) fn place(self) -> u8
        ensures { result ≡ place_of self }
    {
        match self {
            Field::Dst => 0,
            Field::Src => 1,
            Field::Proto => 2,
            Field::Dport => 3,
            Field::Sport => 4,
            Field::Flags => 5,
        }
    }

    /// How many of a header's 112 bits stand behind it.
    pub(crate) fn shift(self) -> u32
        ensures value { result ≡ shift_of self }
        ensures within { result + width_of (place_of self) ≤ 112 }
    {
        match self {
            Field::Dst => 80,
            Field::Src => 48,
            Field::Proto => 40,
            Field::Dport => 24,
            Field::Sport => 8,
            Field::Flags => 0,
        }
    }
}

/// The field of this name.
pub(crate) fn field_named(word: &[u8]) -> Option<Field>
    ensures { result ≡ field_named word.now }
{
    if is(word, b"dst") {
        return Some(Field::Dst);
    }
    if is(word, b"src") {
        return Some(Field::Src);
    }
    if is(word, b"proto") {
        return Some(Field::Proto);
    }
    if is(word, b"dport") {
        return Some(Field::Dport);
    }
    if is(word, b"sport") {
        return Some(Field::Sport);
    }
    if is(word, b"flags") {
        return Some(Field::Flags);
    }
    None
}

/// Whether the field is among these.
pub(crate) fn is_among(fields: &[Field], field: Field) -> bool
    ensures { result ≡ list_any (λ f. same_field f field) fields.now }
{
    fields.iter().any(|f| *f == field)
}

/// Which bits of the field its text fixes, and the digits at those; `None` exactly where the word isn't what is printed of the
/// field for any such bits.
pub(crate) fn field_of(field: Field, word: &[u8]) -> Option<(u32, u32)>
    ensures value { result ≡ field_of field word.now }
    ensures field { IfSome result (λ f. IsField (place_of field) f.0 f.1) }
{
    read_field(word, field.place())
}

fn is(word: &[u8], text: &[u8]) -> bool
    ensures { result ≡ bytes_eq word.now text.now }
{
    word == text
}
