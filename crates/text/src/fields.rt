// The fields of a line: where each stands, whether it is in the form, and its value by width.
ghost use Rattle.std.specs.Prelude.{◌≡◌};
ghost use Rattle.text.specs.Fields.{field_at, over_at, unsigned_of, signed_of, value_after, day_field_at, minute_at};

use crate::numbers_in::{after_blanks, field_end};
use crate::values_in::{Form, value_at};

// A field by its index in the record, 0 the word itself, and where it starts and ends in the text.
#[derive(Clone, Copy, PartialEq, Eq, Debug)]
pub struct Field {
    pub index: u8,
    pub start: usize,
    pub end: usize,
}

// What a field is read as, and where it ends.
#[derive(Clone, Copy, PartialEq, Eq, Debug)]
pub struct Read<T> {
    pub value: T,
    pub end: usize,
}

// The numbers of a width.
pub trait Number: Copy {
    ghost use Rattle.std.specs.Prelude.{ℤ, Option};

    ghost taken: { ℤ → Option Self };

    // None of what the width does not hold.
    fn taken(n: i64) -> Option<Self>
        ensures { result ≡ taken n };
}

impl Number for u8 {
    ghost taken = { unsigned_of 255 };

    fn taken(n: i64) -> Option<u8> {
        u8::try_from(n).ok()
    }
}

impl Number for u16 {
    ghost taken = { unsigned_of 65535 };

    fn taken(n: i64) -> Option<u16> {
        u16::try_from(n).ok()
    }
}

impl Number for u32 {
    ghost taken = { unsigned_of 4294967295 };

    fn taken(n: i64) -> Option<u32> {
        u32::try_from(n).ok()
    }
}

impl Number for i32 {
    ghost taken = { signed_of };

    fn taken(n: i64) -> Option<i32> {
        i32::try_from(n).ok()
    }
}

// The field after a place. A place is given by name and no cursor moves: where a unit ends is asked twice, from one place.
#[tactic(auto, unfolding(crate::specs::Fields::field_at))]
pub fn field_at(text: &[u8], index: u8, at: usize) -> Field
    ensures { result ≡ field_at text.now index at }
{
    let start = after_blanks(text, at);
    Field {
        index,
        start,
        end: field_end(text, start),
    }
}

// What comes after the last field, which ends at a place, is one too many.
#[tactic(auto, unfolding(crate::specs::Fields::over_at))]
pub fn over_at(text: &[u8], index: u8, at: usize) -> Result<(), Field>
    ensures { result ≡ over_at text.now index at }
{
    let field = field_at(text, index, at);
    if field.start == text.len() {
        return Ok(());
    }
    Err(field)
}

// The value of the field after a place, or the field that is not in the form.
#[tactic(auto, unfolding(crate::specs::Fields::value_after))]
fn value_after<T: Number>(text: &[u8], index: u8, at: usize, form: Form) -> Result<Read<T>, Field>
    ensures { result ≡ value_after T.taken form text.now index at }
{
    let field = field_at(text, index, at);
    let n = value_at(text, field.start, form).ok_or(field)?;
    let value = T::taken(n).ok_or(field)?;
    Ok(Read {
        value,
        end: field.end,
    })
}

pub fn number_at<T: Number>(text: &[u8], index: u8, at: usize) -> Result<Read<T>, Field>
    ensures { result ≡ value_after T.taken Form.Number text.now index at }
{
    value_after(text, index, at, Form::Number)
}

// A day, as a date or as a number.
pub fn day_at(text: &[u8], index: u8, at: usize) -> Result<Read<u16>, Field>
    ensures { result ≡ day_field_at text.now index at }
{
    value_after(text, index, at, Form::Day)
}

// A minute, as a moment or as a number.
pub fn minute_at(text: &[u8], index: u8, at: usize) -> Result<Read<u32>, Field>
    ensures { result ≡ minute_at text.now index at }
{
    value_after(text, index, at, Form::Minute)
}
