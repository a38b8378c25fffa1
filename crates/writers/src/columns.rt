// The units of a block, unit by unit: below here each is one value.
ghost use Rattle.std.specs.Prelude.{◌≡◌, ◌==◌, ◌<◌, ◌≤◌, false, length, MatchResult};
ghost use Rattle.std.specs.List.{list_all};
ghost use Rattle.numbers.specs.Bytes.{laid_at};
ghost use Rattle.terms.specs.Refusals.{reply};
ghost use Rattle.terms.specs.Checks.{most_units};
ghost use Rattle.records.specs.Layouts.{group_length};
ghost use Rattle.writers.specs.Columns.{columns, row_of, count, even};
ghost use Rattle.writers.specs.Units.{listed};
ghost use Rattle.writers.specs.Writing.{block_length, units_checked, units_bytes};

use crate::lay::lay_unit;
use crate::units::Units;
use records::faults::faults;
use records::group::GroupRecord;
use records::unit::UnitRecord;
use terms::quantity::{Nomination, Position};
use terms::refusal::{Refusal, Why};

// Whether the lengths of the other columns are that of the first. `group` asks it of its own columns too: one call of std, which a function for both would be no plainer than.
fn are_same(number: usize, others: &[usize]) -> bool
    ensures { result ≡ list_all (λ len. len == number) others.now }
{
    others.iter().all(|len| *len == number)
}

impl<'a> Units<'a> {
    // Columns of one length: 15 for any others.
    pub fn level(
        number: &'a [u16],
        class: &'a [u8],
        coincide: &'a [u8],
        nominated: &'a [u8],
        n: &'a [i32],
        pc: &'a [i32],
        step_down: &'a [i32],
        step_up: &'a [i32],
        made: &'a [u32],
        kind: &'a [u8],
        lower: &'a [i32],
        upper: &'a [i32],
    ) -> Result<Units<'a>, Refusal>
        ensures { MatchResult result (λ u. listed u ≡ columns number.now class.now coincide.now nominated.now n.now pc.now step_down.now step_up.now made.now kind.now lower.now upper.now) (λ r. (r ≡ record { why = Why.Columns; place = 0 }) × (even (columns number.now class.now coincide.now nominated.now n.now pc.now step_down.now step_up.now made.now kind.now lower.now upper.now) ≡ false)) }
    {
        let others = [
            class.len(),
            coincide.len(),
            nominated.len(),
            n.len(),
            pc.len(),
            step_down.len(),
            step_up.len(),
            made.len(),
            kind.len(),
            lower.len(),
            upper.len(),
        ];
        if !are_same(number.len(), &others) {
            return Err(Refusal {
                why: Why::Columns,
                place: 0,
            });
        }
        Ok(Units {
            number,
            class,
            coincide,
            nominated,
            n,
            pc,
            step_down,
            step_up,
            made,
            kind,
            lower,
            upper,
        })
    }

    // How many there are.
    pub fn count(self) -> usize
        ensures { result ≡ count (listed self.entry) }
    {
        self.number.len()
    }

    // The unit of an index.
    #[tactic(auto, unfolding(crate::specs::Columns::row_of))]
    pub fn row(self, i: usize) -> UnitRecord
        requires { i < length self.number.now }
        ensures { result ≡ row_of (listed self.entry) i }
    {
        UnitRecord {
            number: self.number[i],
            class: self.class[i],
            coincide: self.coincide[i],
            nominated: self.nominated[i],
            n: Nomination(self.n[i]),
            pc: Position(self.pc[i]),
            step_down: self.step_down[i],
            step_up: self.step_up[i],
            made: self.made[i],
            kind: self.kind[i],
            lower: self.lower[i],
            upper: self.upper[i],
        }
    }

    // Their records, one after another behind a group record.
    pub fn lay(self, room: &mut [u8])
        requires { block_length (listed self) ≤ length room.old }
        ensures { room.new ≡ laid_at room.old group_length (units_bytes (listed self.entry) (count (listed self.entry))) }
    {
        let mut here = GroupRecord::LEN;
        for i in 0..self.count() {
            let u = self.row(i);
            lay_unit(room, here, u);
            here += u.length();
        }
    }

    // The faults of the units, the first at its unit's index; where their records end, if there is none.
    pub fn check(self) -> Result<usize, Refusal>
        requires { length self.number.now ≤ most_units }
        ensures { reply result ≡ units_checked (listed self.entry) }
    {
        let mut floor = 0;
        let mut end = GroupRecord::LEN;
        for i in 0..self.count() {
            let u = self.row(i);
            // By map_err and `?` it was tried: the loop's proof does not close, since it has to split the mapped answer.
            if let Err(fault) = faults(u, floor) {
                return Err(fault.at(i));
            }
            floor = u32::from(u.number) + 1;
            end += u.length();
        }
        Ok(end)
    }
}
