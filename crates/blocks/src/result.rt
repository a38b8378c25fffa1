// The units of a block are checked, then the room; then the block is judged and its result written.
ghost use Rattle.std.specs.Prelude.{◌≡◌};
ghost use Rattle.numbers.specs.Bytes.{laid_at};
ghost use Rattle.records.specs.Layouts.{group_at};
ghost use Rattle.blocks.specs.Blocks.{block_result};
ghost use Rattle.decode.specs.Inner.{Begun};
ghost use Rattle.blocks.specs.Inner.{Ready, Taking};

use crate::check::{Block, units_asked};
use crate::columns::UnitColumns;
use crate::lay::lay_group_result;
use decode::units_into;
use group::band::direction;
use group::judge::{Group, steps_all, summed};
use records::day::DayRecord;
use records::group::GroupRecord;
use terms::quantity::Position;
use terms::refusal::{Refusal, Why};

// The steps of a block that passed, by way of the columns that were read and two that are lent, and its result. Steps 2 and 3 read the margins for the last time, so n2 and n3 take their places.
// The columns stay parameters: a method that lends two fields of one struct at once was tried, and the borrow checker does not cover it.
fn write_passed(
    s: &[u8],
    p: Position,
    room: &mut [u8],
    class: &[u8],
    why: &mut [u32],
    n0: &[i32],
    n1: &mut [i32],
    losses: &mut [u32],
    step_down: &mut [i32],
    step_up: &mut [i32],
)
    requires { Ready s.now p.0 class.now why.old n0.now n1.old losses.old step_down.old step_up.old room.old }
    ensures { room.new ≡ laid_at room.old 0 (block_result s.now) }
{
    let group = Group {
        p,
        n0,
        step_down,
        step_up,
        class,
    };
    let cut = group.cut_all(n1, losses);
    let d = direction(cut.e);
    let s3 = steps_all(d, n0, n1, losses, step_up, step_down, why);
    let columns = UnitColumns {
        why,
        n0,
        n1,
        n2: step_up,
        n3: step_down,
    };
    columns.lay(s, room);
    lay_group_result(room, s, summed(p, cut, s3));
}

// The units of a block whose group record passed, and then 12; its result is written at the front of the room. Its columns take 1,600 bytes of stack.
pub fn take_units(
    s: &[u8],
    group: GroupRecord,
    day: DayRecord,
    room: &mut [u8],
) -> Result<Block, Refusal>
    requires { Begun s.now × (group ≡ group_at s.now 0) }
    ensures { Taking s.now group day room.old result room.new }
{
    let n = usize::from(group.count);
    // Arrays of 64, since there is no heap and no block has more units.
    let mut class = [0; 64];
    let mut taken = [0; 64];
    let mut n0 = [0; 64];
    let mut n1 = [0; 64];
    let mut losses = [0; 64];
    let mut step_down = [0; 64];
    let mut step_up = [0; 64];
    let read = units_into(
        s,
        group.judged_by(day),
        &mut class[..n],
        &mut taken[..n],
        &mut n0[..n],
        &mut step_down[..n],
        &mut step_up[..n],
    );
    let Some(read) = read else {
        return units_asked(s, group, day);
    };
    let block = Block::of(group, read.end);
    if room.len() < block.written {
        return Err(Refusal {
            why: Why::Room,
            place: 0,
        });
    }
    write_passed(
        s,
        read.p,
        room,
        &class[..n],
        &mut taken[..n],
        &n0[..n],
        &mut n1[..n],
        &mut losses[..n],
        &mut step_down[..n],
        &mut step_up[..n],
    );
    Ok(block)
}
