// A line written at the front of a room.
ghost use Rattle.std.specs.Prelude.{◌≡◌, length};
ghost use Rattle.partner.specs.Line.{quantity_bytes, line_of, LineWritten};

use crate::lay::lay_line;
use crate::limits::{Places, limits};
use crate::line::Line;
use numbers::decimal::long_count;
use terms::refusal::{Refusal, Why};

// The bytes of an amount beside its whole MWh: the comma, three decimals, the letter, and the bytes that end both fields.
const BESIDE: usize = 7;

// A writer's places.
const AT_ZERO: Places = Places {
    quarter: 0,
    n: 0,
    step_down: 0,
    step_up: 0,
};

#[tactic(auto, using(crate::proofs::Lays::lengths))]
fn quantity_length(z: i32) -> usize
    ensures { result ≡ length (quantity_bytes z 59) }
{
    long_count(u64::from(z.unsigned_abs() / 1000)) + BESIDE
}

#[tactic(auto, using(crate::proofs::Lays::lengths))]
fn line_length(l: Line) -> usize
    ensures { result ≡ length (line_of l) }
{
    let front = long_count(u64::from(l.number)) + long_count(u64::from(l.quarter)) + 2;
    let n = quantity_length(l.n.0);
    let step_down = quantity_length(l.margins.step_down);
    let step_up = quantity_length(l.margins.step_up);
    front + n + step_down + step_up
}

// The limits, then the room.
pub fn write_line(l: Line, room: &mut [u8]) -> Result<usize, Refusal>
    ensures { LineWritten l room.old result room.new }
{
    limits(l, AT_ZERO)?;
    let length = line_length(l);
    if room.len() < length {
        return Err(Refusal {
            why: Why::Room,
            place: 0,
        });
    }
    lay_line(room, l);
    Ok(length)
}
