// The value of a field, by its form.
ghost use Rattle.std.specs.Prelude.{◌≡◌};
ghost use Rattle.text.specs.Dates.{value_in, whole_at};

use crate::dates_in::{day_in, minute_in};
use crate::numbers_in::{field_end, number_in};

// A number, or a day or a minute, which may be written as dates; an enum and no function that reads, since the definitions speak of forms.
#[derive(Clone, Copy, PartialEq, Eq, Debug)]
pub enum Form {
    Number,
    Day,
    Minute,
}

fn value_in(field: &[u8], form: Form) -> Option<i64>
    ensures { result ≡ value_in form field.now }
{
    match form {
        Form::Number => number_in(field),
        Form::Day => day_in(field),
        Form::Minute => minute_in(field),
    }
}

// The value of the field that starts at a place.
#[tactic(auto, using(crate::proofs::Values::values), unfolding(crate::specs::Dates::whole_at))]
pub fn value_at(text: &[u8], start: usize, form: Form) -> Option<i64>
    ensures { result ≡ whole_at form text.now start }
{
    if text.len() <= start {
        return None;
    }
    let end = field_end(text, start);
    value_in(&text[start..end], form)
}
