// The C call, which `desk_c` exports: a block is checked as the first of its day.
#![tactic(auto)]

ghost use Rattle.std.specs.Prelude.{◌≡◌, ◌≤◌, pos, neg_ℤ, length, IfOk};
ghost use Rattle.terms.specs.Refusals.{number_of, reply};
ghost use Rattle.records.specs.Longest.{longest_result};
ghost use Rattle.blocks.specs.Blocks.{block_result};
ghost use Rattle.day.specs.Others.{lengths_of};
ghost use Rattle.day.specs.Offers.{room_after};
ghost use Rattle.desk.specs.Desk.{call_of, Checks};

use day::offer::Lengths;
use day::value::Day;
use records::day::read_day;
use terms::refusal::Refusal;

// The day bytes are judged first, and then the block by the table, as the first of the day that they open.
#[tactic(auto, unfolding(crate::specs::Desk::call_of, day::specs::Offers::room_after, terms::specs::Reply::next))]
fn check(day: &[u8], block: &[u8], room: &mut [u8]) -> Result<Lengths, Refusal>
    ensures reply { reply result ≡ lengths_of (call_of day.now block.now (length room.old)) }
    ensures room { room.new ≡ room_after (call_of day.now block.now (length room.old)) (block_result block.now) room.old }
    ensures short { IfOk result (λ n. n.written ≤ longest_result) }
{
    let record = read_day(day)?;
    let mut first = Day::opened(record);
    first.offer_block(block, room)
}

// Minus the refusal number; C gets no place.
fn minus(r: Refusal) -> i32
    ensures { result ≡ neg_ℤ (pos (number_of r.why)) }
{
    -i32::from(r.why.number())
}

// The day bytes and one block with room for its result: the written length, or minus the refusal number.
pub fn flehwella_check(day: &[u8], block: &[u8], room: &mut [u8]) -> i32
    ensures { Checks day.now block.now room.old result room.new }
{
    match check(day, block, room) {
        Ok(lengths) => lengths.written as i32,
        Err(r) => minus(r),
    }
}
