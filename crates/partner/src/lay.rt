// The fields of a line, laid one behind another.
ghost use Rattle.std.specs.Prelude.{◌≡◌, [], ◌∷◌, ◌+◌, ◌≤◌, ◌<◌, length};
ghost use Rattle.numbers.specs.Bytes.{laid_at};
ghost use Rattle.partner.specs.Line.{numeral, three, letter, quantity_bytes, line_of};
ghost use Rattle.partner.specs.Inner.{Lays};

use crate::fields::{COMMA, INJECTION, LINE_FEED, SEMICOLON, WITHDRAWAL};
use crate::line::Line;
use numbers::bytes::Field;
use numbers::decimal::{ZERO, lay_digits, long_count};

// Room and place stay two parameters, and three bytes three stores: tried: a struct of both and copy_from_slice, a quarter more instructions for a short line; tests/bench.

// A number and the byte that ends it.
#[tactic(auto, using(crate::proofs::Lays::laying))]
fn lay_numeral(room: &mut [u8], at: usize, n: u32, stop: u8) -> usize
    requires { at + length (numeral n stop) ≤ length room.old }
    ensures { Lays room.old at (numeral n stop) result room.new }
{
    let count = long_count(u64::from(n));
    lay_digits(room, at, count, u64::from(n));
    stop.lay(room, at + count);
    at + count + 1
}

// Three digits, zeros in front too.
#[tactic(auto, using(crate::proofs::Lays::laying))]
fn lay_three(room: &mut [u8], at: usize, n: u32)
    requires { (n < 1000) × (at + 3 ≤ length room.old) }
    ensures { room.new ≡ laid_at room.old at (three n) }
{
    (ZERO + (n / 100) as u8).lay(room, at);
    (ZERO + (n / 10 % 10) as u8).lay(room, at + 1);
    (ZERO + (n % 10) as u8).lay(room, at + 2);
}

fn letter_of(z: i32) -> u8
    ensures { result ≡ letter z }
{
    if z < 0 { WITHDRAWAL } else { INJECTION }
}

// The end of an amount's field, its letter, and the end of that.
#[tactic(auto, using(crate::proofs::Lays::laying))]
fn lay_letter(room: &mut [u8], at: usize, z: i32, stop: u8)
    requires { at + 3 ≤ length room.old }
    ensures { room.new ≡ laid_at room.old at (59 ∷ letter z ∷ stop ∷ []) }
{
    SEMICOLON.lay(room, at);
    letter_of(z).lay(room, at + 1);
    stop.lay(room, at + 2);
}

// An amount, its letter, and the bytes that end both.
#[tactic(auto, using(crate::proofs::Lays::laying))]
fn lay_quantity(room: &mut [u8], at: usize, z: i32, stop: u8) -> usize
    requires { at + length (quantity_bytes z stop) ≤ length room.old }
    ensures { Lays room.old at (quantity_bytes z stop) result room.new }
{
    let size = z.unsigned_abs();
    let decimals = lay_numeral(room, at, size / 1000, COMMA);
    lay_three(room, decimals, size % 1000);
    lay_letter(room, decimals + 3, z, stop);
    decimals + 6
}

// The bytes of a line that passes its limits.
#[tactic(auto, using(crate::proofs::Lays::laying))]
pub fn lay_line(room: &mut [u8], l: Line)
    requires { length (line_of l) ≤ length room.old }
    ensures { room.new ≡ laid_at room.old 0 (line_of l) }
{
    let quarter = lay_numeral(room, 0, u32::from(l.number), SEMICOLON);
    let n = lay_numeral(room, quarter, u32::from(l.quarter), SEMICOLON);
    let step_down = lay_quantity(room, n, l.n.0, SEMICOLON);
    let step_up = lay_quantity(room, step_down, l.margins.step_down, SEMICOLON);
    lay_quantity(room, step_up, l.margins.step_up, LINE_FEED);
}
