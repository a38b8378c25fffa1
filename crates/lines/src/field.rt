// The parts of a line: its word, a field after one space, the line feed.
// Each takes the room and its place, asks that its most bytes fit there, and gives the place behind it: so do the parts in `number` and the lines in `lines`. A struct over the lent room would have to say in every contract that it keeps the room, and no ghost field of it could say that the next part fits, since each has a length of its own.
ghost use Rattle.std.specs.Prelude.{◌≡◌, [], ◌∷◌, ◌+◌, ◌≤◌, ◌<◌, length};
ghost use Rattle.numbers.specs.Bytes.{signed32};
ghost use Rattle.numbers.specs.Decimal.{decimal};
ghost use Rattle.lines.specs.Lines.{signed_decimal, u8_field, u16_field, u32_field, u64_field, i32_field};
ghost use Rattle.lines.specs.Inner.{Lays};

use crate::number::{Few, digit_count};
use numbers::bytes::Field;
use numbers::decimal::{ZERO, lay_digits, long_count};
use numbers::signed::magnitude;

pub const SPACE: u8 = 32;

const MINUS: u8 = 45;

const LINE_FEED: u8 = 10;

// A field's most bytes: the space, a sign where the number may be negative, and the digits of the largest number of the width.
pub const U8_FIELD: usize = 1 + 3;

pub const U16_FIELD: usize = 1 + 5;

pub const I32_FIELD: usize = 1 + 1 + 10;

#[tactic(auto, unfolding(numbers::specs::Bytes::laid_at))]
pub fn lay_word(out: &mut [u8], at: usize, word: &[u8]) -> usize
    requires { at + length word.now ≤ length out.old }
    ensures { Lays out.old at word.now (length word.now) result out.new }
{
    let end = at + word.len();
    out[at..end].copy_from_slice(word);
    end
}

// A byte, and a number behind it.
fn lay_number(out: &mut [u8], at: usize, front: u8, n: u32) -> usize
    requires { at + 1 + length (decimal n) ≤ length out.old }
    ensures { Lays out.old at (front ∷ decimal n) (1 + length (decimal n)) result out.new }
{
    if n < Few::END {
        return Few { n }.lay(out, at, front);
    }
    let count = digit_count(n);
    front.lay(out, at);
    lay_digits(out, at + 1, count, u64::from(n));
    at + 1 + count
}

// Three widths, each with its own longest field in its clauses: a trait of widths would hold these lengths alone, and be no plainer.
// Nearly all of these numbers have one digit.
pub fn lay_u8_field(out: &mut [u8], at: usize, n: u8) -> usize
    requires { at + u8_field ≤ length out.old }
    ensures { Lays out.old at (32 ∷ decimal n) u8_field result out.new }
{
    if n < 10 {
        SPACE.lay(out, at);
        (ZERO + n).lay(out, at + 1);
        return at + 2;
    }
    lay_number(out, at, SPACE, u32::from(n))
}

pub fn lay_u16_field(out: &mut [u8], at: usize, n: u16) -> usize
    requires { at + u16_field ≤ length out.old }
    ensures { Lays out.old at (32 ∷ decimal n) u16_field result out.new }
{
    lay_number(out, at, SPACE, u32::from(n))
}

pub fn lay_u32_field(out: &mut [u8], at: usize, n: u32) -> usize
    requires { at + u32_field ≤ length out.old }
    ensures { Lays out.old at (32 ∷ decimal n) u32_field result out.new }
{
    lay_number(out, at, SPACE, n)
}

pub fn lay_u64_field(out: &mut [u8], at: usize, n: u64) -> usize
    requires { at + u64_field ≤ length out.old }
    ensures { Lays out.old at (32 ∷ decimal n) u64_field result out.new }
{
    let count = long_count(n);
    SPACE.lay(out, at);
    lay_digits(out, at + 1, count, n);
    at + 1 + count
}

pub fn lay_i32_field(out: &mut [u8], at: usize, z: i32) -> usize
    requires { at + i32_field ≤ length out.old }
    ensures { Lays out.old at (32 ∷ signed_decimal z) i32_field result out.new }
{
    let size = magnitude(z);
    if z < 0 {
        SPACE.lay(out, at);
        return lay_number(out, at + 1, MINUS, size);
    }
    lay_number(out, at, SPACE, size)
}

// The number that 32 bits stand for: whether its digits are few is asked before its sign, so that they are one load.
#[tactic(auto, using(crate::proofs::Pairs::few_digits))]
pub fn lay_quantity(out: &mut [u8], at: usize, bits: u32) -> usize
    requires { at + i32_field ≤ length out.old }
    ensures { Lays out.old at (32 ∷ signed_decimal (signed32 bits)) i32_field result out.new }
{
    if bits < Few::END {
        return Few { n: bits }.lay(out, at, SPACE);
    }
    lay_i32_field(out, at, bits.cast_signed())
}

// A negative number of few digits, by its size.
#[tactic(auto, using(crate::proofs::Pairs::few_digits))]
pub fn lay_below(out: &mut [u8], at: usize, size: u32) -> usize
    requires { (size < 10000) × (at + i32_field ≤ length out.old) }
    ensures { Lays out.old at (32 ∷ 45 ∷ decimal size) i32_field result out.new }
{
    SPACE.lay(out, at);
    Few { n: size }.lay(out, at + 1, MINUS)
}

pub fn lay_feed(out: &mut [u8], at: usize) -> usize
    requires { at + 1 ≤ length out.old }
    ensures { Lays out.old at (10 ∷ []) 1 result out.new }
{
    LINE_FEED.lay(out, at);
    at + 1
}
