// Whole numbers in the text of a line.
ghost use Rattle.std.specs.Prelude.{◌≡◌, ◌+◌, length, drop};
ghost use Rattle.text.specs.Numbers.{size_of, is_blank, blanks, field_of, number_in};

use numbers::decimal::to_digit;

// The number that one digit or more make, unless it is above the largest of 32 bits: no field is larger. Not by `parse`, which takes a `+`.
#[tactic(auto, using(crate::proofs::Digits::sizes), unfolding(crate::specs::Numbers::size_of))]
pub fn size_of(digits: &[u8]) -> Option<u32>
    ensures { result ≡ size_of digits.now }
{
    if digits.is_empty() {
        return None;
    }
    let mut size: u32 = 0;
    for byte in digits {
        size = size.checked_mul(10)?.checked_add(to_digit(*byte)?)?;
    }
    Some(size)
}

pub fn is_blank(byte: u8) -> bool
    ensures { result ≡ is_blank byte }
{
    byte == b' ' || byte == b'\t'
}

// The place behind the blanks at a place. Tried: `take_while` and `count`; the proof against `length` does not close, here and below.
#[tactic(auto, using(crate::proofs::Spaces::spaces))]
pub fn after_blanks(text: &[u8], from: usize) -> usize
    ensures { result ≡ from + blanks (drop from text.now) }
{
    for at in from..text.len() {
        if !is_blank(text[at]) {
            return at;
        }
    }
    from.max(text.len())
}

// The place of the next blank, or the end of the text.
#[tactic(auto, using(crate::proofs::Spaces::words))]
pub fn field_end(text: &[u8], from: usize) -> usize
    ensures { result ≡ from + length (field_of (drop from text.now)) }
{
    for at in from..text.len() {
        if is_blank(text[at]) {
            return at;
        }
    }
    from.max(text.len())
}

// A whole field as a number.
#[tactic(auto, unfolding(crate::specs::Numbers::number_in))]
pub fn number_in(field: &[u8]) -> Option<i64>
    ensures { result ≡ number_in field.now }
{
    match field {
        [b'-', digits @ ..] => size_of(digits).map(|size| -i64::from(size)),
        _ => size_of(field).map(|size| i64::from(size)),
    }
}
