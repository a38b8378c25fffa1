// A line of the day list as `daylist --dates` shows it.
ghost use Rattle.std.specs.Prelude.{[], ◌≤◌, ltb, length};
ghost use Rattle.numbers.specs.Choice.{pick};
ghost use Rattle.shown.specs.Shown.{dated_line, longest_dated, shown_in, Fronts};

use crate::words::lay_dated;
use lines::field::lay_word;
use text::line::day_line_in;

// A DAY line's most bytes: its word, a date, the quarters and a moment, each after a space.
pub const DATED: usize = 3 + (1 + 10) + (1 + 10) + (1 + 17);

#[tactic(auto, using(numbers::proofs::Laid::laid_none))]
fn show_dated(day: u16, quarters: u8, run: u32, room: &mut [u8]) -> usize
    ensures { Fronts (pick (ltb (length room.old) longest_dated) [] (dated_line day quarters run)) room.old result room.new }
{
    if room.len() < DATED {
        return 0;
    }
    lay_dated(room, day, quarters, run)
}

#[tactic(auto, using(numbers::proofs::Laid::laid_none))]
fn show_same(line: &[u8], room: &mut [u8]) -> usize
    ensures { Fronts (pick (ltb (length room.old) (length line.now)) [] line.now) room.old result room.new }
{
    if room.len() < line.len() {
        return 0;
    }
    lay_word(room, 0, line)
}

// The line with its dates where it is the DAY line, and else as it is, at the front of a room; its length, or 0 and nothing in a room that is too small: `Fronts` tells the length of what was written, which of nothing is 0, so this is no Option.
#[tactic(auto, using(crate::proofs::Fits::fits), unfolding(crate::specs::Shown::shown_in, crate::specs::Shown::shown_line))]
pub fn show(line: &[u8], room: &mut [u8]) -> usize
    ensures shown { Fronts (shown_in line.now room.old) room.old result room.new }
    ensures within { result ≤ length room.new }
{
    match day_line_in(line) {
        Some(told) => show_dated(told.day, told.quarters, told.run, room),
        None => show_same(line, room),
    }
}
