// The kinds of field of a line. A number of any length is read to its end and kept at no more than a cap, so that nothing wraps.
ghost use Rattle.std.specs.Prelude.{◌≡◌, [], ◌∷◌, ◌+◌, ◌≤◌, ◌<◌, length};
ghost use Rattle.terms.specs.declared.refusal.Why.TheVariants as W;
ghost use Rattle.terms.specs.Refusals.{reply};
ghost use Rattle.partner.specs.Form.{numeral_of, amount_of, quantity_of};
ghost use Rattle.partner.specs.Inner.{number_cap, capped, capped_amount, capped_kwh, mapped, Digits, Opens, Stops, Ended, digits_in, decimals_in, letter_by, letter_at, signed_in};

use numbers::bytes::byte;
use numbers::decimal::{digit_of, to_digit};
use terms::quantity::Direction;
use terms::refusal::{Refusal, Why};

pub const SEMICOLON: u8 = b';';

pub const COMMA: u8 = b',';

pub const LINE_FEED: u8 = b'\n';

pub const INJECTION: u8 = b'I';

pub const WITHDRAWAL: u8 = b'P';

// The digit 0. The first digit of a numeral is read by it and those behind by `digit_of`, not by `to_digit`, whose Option takes a twentieth more instructions there; tests/bench.
const ZERO: u32 = 48;

// One more than the most whole MWh of an amount, 1000.
const MWH_CAP: u32 = 1001;

// Bytes and place stay two parameters: each place is what the field before it told, so that a struct of both would be made anew at every call. `cap ≤ number_cap` stays a clause of three private functions: a type for it would hold but the caps of their three callers.

// A value that was read, and the place after the byte that ends its field.
#[derive(Clone, Copy, PartialEq, Eq, Debug)]
pub struct Held<T> {
    pub value: T,
    pub next: usize,
}

// The refusal of a field that is not in its form, at the place where it starts.
pub fn malformed(place: usize) -> Refusal
    ensures { result ≡ record { why = W.Line; place = place } }
{
    Refusal {
        why: Why::Line,
        place,
    }
}

// The digits from a place on, behind a number that is read already. A digit is a number before it is added, so that no turn waits for more than the one before: long numerals take a third less time so.
fn more_digits(s: &[u8], at: usize, first: u32, cap: u32) -> Held<u32>
    requires { (at ≤ length s.now) × ((first ≤ cap) × (cap ≤ number_cap)) }
    ensures { Digits s.now at first cap result }
{
    let mut value = first;
    for i in at..s.len() {
        let digit = digit_of(s[i]);
        if 9 < digit {
            return Held { value, next: i };
        }
        value = cap.min(value * 10 + digit);
    }
    Held {
        value,
        next: s.len(),
    }
}

// A numeral from its first digit on: a 0 in front stands alone, so that what follows it must end the field.
fn numeral_from(s: &[u8], at: usize, first: u32, cap: u32) -> Held<u32>
    requires { Opens s.now at first × ((9 ≤ cap) × (cap ≤ number_cap)) }
    ensures { Ended s.now at cap result }
{
    if first == 0 {
        return Held {
            value: 0,
            next: at + 1,
        };
    }
    more_digits(s, at + 1, first, cap)
}

// A numeral and the byte that ends it.
pub fn numeral_at(s: &[u8], at: usize, cap: u32, stop: u8) -> Result<Held<u32>, Refusal>
    requires { Stops stop × ((9 ≤ cap) × (cap ≤ number_cap)) }
    ensures { reply result ≡ mapped (capped cap) (numeral_of s.now at stop) }
{
    let first = byte(s, at);
    if !first.is_ascii_digit() {
        return Err(malformed(at));
    }
    let number = numeral_from(s, at, u32::from(first) - ZERO, cap);
    let end = number.next;
    if byte(s, end) != stop {
        return Err(malformed(at));
    }
    Ok(Held {
        value: number.value,
        next: end + 1,
    })
}

// The number of three digits, if they are digits.
#[tactic(auto, unfolding(numbers::specs::Decimal::all_digits, numbers::specs::Decimal::number_from))]
fn three_digits(first: u8, second: u8, third: u8) -> Option<u32>
    ensures { result ≡ digits_in (first ∷ second ∷ third ∷ []) }
{
    let hundreds = to_digit(first)?;
    let tens = to_digit(second)?;
    let ones = to_digit(third)?;
    Some((hundreds * 10 + tens) * 10 + ones)
}

// The number of three digits that a semicolon ends, if they are there.
fn decimals_at(s: &[u8], at: usize) -> Option<u32>
    requires { at ≤ length s.now }
    ensures { result ≡ decimals_in s.now at }
{
    if byte(s, at + 3) != SEMICOLON {
        return None;
    }
    three_digits(byte(s, at), byte(s, at + 1), byte(s, at + 2))
}

// An amount: MWh with a comma and three decimals, as kWh.
fn amount_at(s: &[u8], at: usize) -> Result<Held<u32>, Refusal>
    ensures { reply result ≡ mapped capped_amount (amount_of s.now at) }
{
    let mwh = numeral_at(s, at, MWH_CAP, COMMA)?;
    let decimals = mwh.next;
    let Some(part) = decimals_at(s, decimals) else {
        return Err(malformed(at));
    };
    Ok(Held {
        value: mwh.value * 1000 + part,
        next: decimals + 4,
    })
}

// The direction that a letter gives to an amount of this size: of zero only an injection.
fn letter_by(letter: u8, size: u32) -> Option<Direction>
    ensures { result ≡ letter_by letter size }
{
    match letter {
        INJECTION => Some(Direction::Injections),
        WITHDRAWAL if size != 0 => Some(Direction::Withdrawals),
        _ => None,
    }
}

// The letter at a place and the byte that ends its field: the direction of an amount of this size.
fn letter_at(s: &[u8], at: usize, size: u32, stop: u8) -> Option<Direction>
    requires { at ≤ length s.now }
    ensures { result ≡ letter_at s.now at size stop }
{
    if byte(s, at + 1) != stop {
        return None;
    }
    letter_by(byte(s, at), size)
}

// An amount with the sign of its direction.
fn signed(size: u32, direction: Direction) -> i32
    requires { size ≤ 1001999 }
    ensures { result ≡ signed_in direction size }
{
    let kwh = size as i32;
    match direction {
        Direction::Injections => kwh,
        Direction::Withdrawals => -kwh,
    }
}

// An amount and its letter.
pub fn quantity_at(s: &[u8], at: usize, stop: u8) -> Result<Held<i32>, Refusal>
    ensures { reply result ≡ mapped capped_kwh (quantity_of s.now at stop) }
{
    let size = amount_at(s, at)?;
    let Some(direction) = letter_at(s, size.next, size.value, stop) else {
        return Err(malformed(size.next));
    };
    Ok(Held {
        value: signed(size.value, direction),
        next: size.next + 2,
    })
}
