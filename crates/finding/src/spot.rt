// Where a place lies: in a unit record of a block, or, as in none, in the front record.
ghost use Rattle.std.specs.Prelude.{◌≡◌};
ghost use Rattle.finding.specs.Inner.{Spotted};
ghost use Rattle.finding.specs.Spots.{group_whole};

use records::group::GroupRecord;
use records::units::unit_length;
use walk::table::role_of;

// A unit record: its index, its place, and the place of the one before; the first has none before it, and tells its own.
#[derive(Clone, Copy, PartialEq, Eq, Debug)]
pub struct UnitSpot {
    pub index: usize,
    pub at: usize,
    pub before: usize,
}

// Whether a group record lies whole in front.
pub fn is_group(s: &[u8]) -> bool
    ensures { result ≡ group_whole s.now }
{
    GroupRecord::LEN <= s.len() && role_of(s[0]).is_block()
}

pub fn spot_of(s: &[u8], place: usize) -> Option<UnitSpot>
    ensures { Spotted s.now place result }
{
    if !is_group(s) || place < GroupRecord::LEN {
        return None;
    }
    let mut before = GroupRecord::LEN;
    let mut at = GroupRecord::LEN;
    for index in 0..usize::from(s[GroupRecord::COUNT]) {
        let end = at + unit_length(s, at);
        if place < end {
            return Some(UnitSpot { index, at, before });
        }
        before = at;
        at = end;
    }
    None
}
