// The units of a block are checked: the first refusal, or what would be used and written.
ghost use Rattle.std.specs.Prelude.{◌≡◌};
ghost use Rattle.terms.specs.Refusals.{reply};
ghost use Rattle.records.specs.Layouts.{group_at};
ghost use Rattle.blocks.specs.Checking.{block_of, block_units_of};
ghost use Rattle.decode.specs.Inner.{Begun};

use decode::units_into;
use records::day::DayRecord;
use records::group::GroupRecord;
use records::group_result::GroupResult;
use records::key::Key;
use records::unit_result::UnitResult;
use records::units::units_from;
use terms::refusal::Refusal;

// A block that passed: its key and how many units it has, the bytes it takes up and those of its result.
#[derive(Clone, Copy, PartialEq, Eq, Debug)]
pub struct Block {
    pub key: Key,
    pub count: u8,
    pub used: usize,
    pub written: usize,
}

impl Block {
    pub fn of(group: GroupRecord, used: usize) -> Block
        ensures { result ≡ block_of group used }
    {
        Block {
            key: Key {
                brp: group.brp,
                zone: group.zone,
                quarter: group.quarter,
            },
            count: group.count,
            used,
            written: GroupResult::LEN + UnitResult::LEN * usize::from(group.count),
        }
    }
}

// A block by its units, asked one after another for each field: what is wrong is looked for only once something is.
#[tactic(auto, unfolding(crate::specs::Checking::block_units_of, terms::specs::Reply::next))]
pub fn units_asked(s: &[u8], group: GroupRecord, day: DayRecord) -> Result<Block, Refusal>
    ensures { reply result ≡ block_units_of s.now group day }
{
    let end = units_from(
        s,
        GroupRecord::LEN,
        usize::from(group.count),
        group.judged_by(day),
    )?;
    Ok(Block::of(group, end))
}

// The units of a block, checked, with columns that are lent to that alone.
pub fn units_checked(s: &[u8], group: GroupRecord, day: DayRecord) -> Result<Block, Refusal>
    requires { Begun s.now × (group ≡ group_at s.now 0) }
    ensures { reply result ≡ block_units_of s.now group day }
{
    let n = usize::from(group.count);
    // Arrays of 64, since there is no heap and no block has more units.
    let mut class = [0; 64];
    let mut taken = [0; 64];
    let mut n0 = [0; 64];
    let mut step_down = [0; 64];
    let mut step_up = [0; 64];
    let by = group.judged_by(day);
    let read = units_into(
        s,
        by,
        &mut class[..n],
        &mut taken[..n],
        &mut n0[..n],
        &mut step_down[..n],
        &mut step_up[..n],
    );
    match read {
        Some(read) => Ok(Block::of(group, read.end)),
        None => units_asked(s, group, day),
    }
}
