// The result of a block, laid unit by unit from its columns.
ghost use Rattle.std.specs.Prelude.{◌≡◌, ◌≤◌, length};
ghost use Rattle.numbers.specs.Bytes.{laid_at};
ghost use Rattle.records.specs.Layouts.{group_length, group_at, group_result_length, group_result_bytes, unit_result_bytes};
ghost use Rattle.blocks.specs.Blocks.{group_result};
ghost use Rattle.blocks.specs.Laid.{unit_laid, units_laid, sums_bytes};
ghost use Rattle.blocks.specs.Inner.{UnitLaying, Laying};

use crate::columns::UnitColumns;
use group::judge::Sums;
use numbers::bytes::Field;
use records::group::GroupRecord;
use records::group_result::GroupResult;
use records::unit::UnitRecord;
use records::unit_result::UnitResult;
use writers::lay::{lay_head, lay_three};

impl UnitColumns<'_> {
    // The result of the unit of an index, whose record begins at a place, at a place of the room. Six parameters: the three that the loop counts on, and the slices they are places of.
    #[tactic(auto, using(numbers::proofs::Laid::laying), unfolding(records::specs::Layouts::unit_result_bytes, records::specs::Layouts::behind, records::specs::Layouts::unit_at, writers::specs::Results::result_from))]
    fn lay_unit(&self, i: usize, s: &[u8], here: usize, room: &mut [u8], to: usize)
        requires { UnitLaying i (length self.now.n0.now) s.now here room.old to }
        ensures { room.new ≡ laid_at room.old to (unit_result_bytes (unit_laid s.now here self.now i)) }
    {
        let number = u16::read(s, here + UnitRecord::NUMBER);
        lay_head(room, to, UnitResult::KIND, number);
        (self.why[i] as u8).lay(room, to + UnitResult::REASON);
        self.n0[i].lay(room, to + UnitResult::N0);
        self.n1[i].lay(room, to + UnitResult::N0 + 4);
        self.n2[i].lay(room, to + UnitResult::N0 + 8);
        self.n3[i].lay(room, to + UnitResult::N0 + 12);
    }

    // The results of the units one after another: of the 03h that come, and then of an 04h, as long as units are left. So each record's length is known, and no place waits for a byte of the record before.
    pub fn lay(&self, s: &[u8], room: &mut [u8])
        requires { Laying s.now (length self.now.n0.now) room.old }
        ensures { room.new ≡ laid_at room.old group_result_length (units_laid s.now self.now) }
    {
        let mut here = GroupRecord::LEN;
        let mut to = GroupResult::LEN;
        let mut i = 0;
        // Two loops by one index: a `for` that asks each record for its end was tried, and takes 7 of 100 more time at 64 units.
        while i < self.n0.len() {
            while i < self.n0.len() && s[here] == UnitRecord::KIND {
                self.lay_unit(i, s, here, room, to);
                here += UnitRecord::LEN;
                to += UnitResult::LEN;
                i += 1;
            }
            if self.n0.len() <= i {
                return;
            }
            self.lay_unit(i, s, here, room, to);
            here += UnitRecord::INTERVAL_LEN;
            to += UnitResult::LEN;
            i += 1;
        }
    }
}

// P, S1 to S3 and the balance, in their place.
#[tactic(auto, using(numbers::proofs::Laid::laying))]
fn lay_sums(room: &mut [u8], sums: Sums)
    requires { group_result_length ≤ length room.old }
    ensures { room.new ≡ laid_at room.old 7 (sums_bytes sums) }
{
    sums.p.0.lay(room, GroupResult::P);
    sums.s1.0.lay(room, GroupResult::P + 4);
    sums.s2.0.lay(room, GroupResult::P + 8);
    sums.s3.0.lay(room, GroupResult::P + 12);
    sums.balance.0.lay(room, GroupResult::BALANCE);
}

// The group's result; its key and count are the block's own.
pub fn lay_group_result(room: &mut [u8], s: &[u8], sums: Sums)
    requires { (group_length ≤ length s.now) × (group_result_length ≤ length room.old) }
    ensures { room.new ≡ laid_at room.old 0 (group_result_bytes (group_result (group_at s.now 0) sums)) }
{
    let brp = u16::read(s, GroupRecord::BRP);
    let zone = s[GroupRecord::ZONE];
    let quarter = s[GroupRecord::QUARTER];
    lay_head(room, 0, GroupResult::KIND, brp);
    lay_three(room, GroupResult::ZONE, zone, quarter, sums.verdict);
    s[GroupRecord::COUNT].lay(room, GroupResult::COUNT);
    lay_sums(room, sums);
}
