// The writer of a block: one group record and its units, given as columns.
ghost use Rattle.std.specs.Prelude.{◌≡◌, length};
ghost use Rattle.terms.specs.Refusals.{reply};
ghost use Rattle.records.specs.Layouts.{group_with};
ghost use Rattle.writers.specs.Columns.{columns};
ghost use Rattle.writers.specs.Units.{listed};
ghost use Rattle.writers.specs.Writing.{group_checks, write_block_of, BlockWritten};

use crate::lay::lay_group;
use crate::refuse::refused;
use crate::units::Units;
use records::day::DayRecord;
use records::group::GroupRecord;
use terms::refusal::{Refusal, Why};

// The group's own fields, in their order, with the columns' count of units for its own.
#[tactic(auto, unfolding(terms::specs::Reply::need, crate::specs::Writing::group_checks))]
fn check_group(group: GroupRecord, units: usize) -> Result<usize, Refusal>
    ensures { reply result ≡ group_checks group units }
{
    if DayRecord::AUTUMN <= group.quarter {
        return refused(Why::Quarter);
    }
    if !GroupRecord::permits(units) {
        return refused(Why::UnitCount);
    }
    Ok(units)
}

// What is left to refuse of a block of level columns, in the writer's order; its length where it passes.
fn check_block(group: GroupRecord, units: Units<'_>, room: usize) -> Result<usize, Refusal>
    ensures { reply result ≡ write_block_of group (listed units.entry) room }
{
    check_group(group, units.count())?;
    let bytes = units.check()?;
    if room < bytes {
        return refused(Why::Room);
    }
    Ok(bytes)
}

// A block in the room's first bytes, or the first refusal in the writer's order, a unit's at its index.
// The columns are parameters, since C hands them over so (`write_block` of the ways in); they are one value from the first test on.
pub fn write_block(
    brp: u16,
    zone: u8,
    quarter: u8,
    made: u32,
    number: &[u16],
    class: &[u8],
    coincide: &[u8],
    nominated: &[u8],
    n: &[i32],
    pc: &[i32],
    step_down: &[i32],
    step_up: &[i32],
    margins_made: &[u32],
    kind: &[u8],
    lower: &[i32],
    upper: &[i32],
    room: &mut [u8],
) -> Result<usize, Refusal>
    ensures { BlockWritten (group_with brp zone quarter (length number.now) made) (columns number.now class.now coincide.now nominated.now n.now pc.now step_down.now step_up.now margins_made.now kind.now lower.now upper.now) room.old result room.new }
{
    let units = Units::level(
        number,
        class,
        coincide,
        nominated,
        n,
        pc,
        step_down,
        step_up,
        margins_made,
        kind,
        lower,
        upper,
    )?;
    let group = GroupRecord::new(brp, zone, quarter, 0, made);
    let bytes = check_block(group, units, room.len())?;
    lay_group(
        room,
        0,
        GroupRecord::new(brp, zone, quarter, units.count() as u8, made),
    );
    units.lay(room);
    Ok(bytes)
}
