// A refusal named in one line: BRP, zone, quarter and unit where they are at hand, the field, the value read and what it was held against.
ghost use Rattle.naming.specs.Words.{Names};

use crate::words::lay_line;
use day::value::Day;
use finding::named::name_values;
use terms::refusal::Refusal;

// A number's most bytes behind a space.
const NUMBER: usize = 1 + 10;

const COUNT: usize = 1 + 20;

const KEY: usize = 3 + NUMBER + (6 + NUMBER) + (9 + NUMBER);

const SUBJECT: usize = KEY + (15 + COUNT);

const HELD: usize = 5 + NUMBER + (7 + NUMBER) + 20;

const FINDING: usize = 14 + (1 + NUMBER) + HELD;

// The line's most bytes: plants, a colon and a space, what was found, and the line feed.
pub const LINE: usize = SUBJECT + 2 + FINDING + 1;

// The line of a refusal of bytes that were offered to a day, at the front of a room; its length, or 0 and nothing in a room that is too small for the longest: `Names` tells how long what was written is, which of nothing is 0, so this is no Option.
#[tactic(auto, using(numbers::proofs::Laid::laid_none))]
pub fn name(day: Day, s: &[u8], r: Refusal, room: &mut [u8]) -> usize
    ensures { Names day s.now r room.old result room.new }
{
    if room.len() < LINE {
        return 0;
    }
    lay_line(room, name_values(day, s, r))
}
