// The lines of the day list. Each takes the room and its place, asks that its most bytes fit there, and gives the place behind it, as said in `field`.
ghost use Rattle.std.specs.Prelude.{◌≡◌, [], ◌∷◌, ◌+◌, ◌*◌, ◌≤◌, length};
ghost use Rattle.numbers.specs.Decimal.{decimal};
ghost use Rattle.records.specs.Layouts.{group_result_length, group_result_at, unit_result_length, unit_result_at};
ghost use Rattle.terms.specs.Checks.{most_units};
ghost use Rattle.writers.specs.Results.{result_length};
ghost use Rattle.writers.specs.Runs.{run};
ghost use Rattle.lines.specs.Lines.{spaced, day_line, group_line, unit_line, unit_line_at, end_line, refused_line, result_lines, i32_field, longest_day_line, longest_end_line, longest_refused_line, longest_group_front, longest_group_line, longest_unit_line, longest_lines};
ghost use Rattle.lines.specs.Inner.{Lays, Readable, same_from, four_from, four_times};

use crate::field::{
    I32_FIELD, SPACE, U8_FIELD, U16_FIELD, lay_below, lay_feed, lay_i32_field, lay_quantity,
    lay_u8_field, lay_u16_field, lay_u32_field, lay_u64_field, lay_word,
};
use crate::number::Few;
use numbers::bytes::Field;
use records::day::DayRecord;
use records::group_result::GroupResult;
use records::unit_result::UnitResult;

// A line's most bytes: its word, its fields, and the line feed.
pub const GROUP_LINE: usize = 5 + U16_FIELD + U8_FIELD * 4 + I32_FIELD * 5 + 1;

pub const UNIT_LINE: usize = 4 + U16_FIELD + U8_FIELD + I32_FIELD * 4 + 1;

// The bytes of four quantities.
const FOUR: usize = 4 * 4;

// 2 ^ 32 does not fit 32 bits, and so the number before it stands for it.
const ALL_BITS: u32 = 4294967295;

#[tactic(auto, using(crate::proofs::Parts::laying), unfolding(crate::specs::Lines::day_line, crate::specs::Lines::line, crate::specs::Lines::spaced))]
pub fn lay_day_line(out: &mut [u8], at: usize, d: DayRecord) -> usize
    requires { at + longest_day_line ≤ length out.old }
    ensures { Lays out.old at (day_line d) longest_day_line result out.new }
{
    let word = lay_word(out, at, b"DAY");
    let day = lay_u16_field(out, word, d.day);
    let quarters = lay_u8_field(out, day, d.quarters);
    let run = lay_u32_field(out, quarters, d.run);
    lay_feed(out, run)
}

#[tactic(auto, using(crate::proofs::Parts::laying), unfolding(crate::specs::Lines::end_line, crate::specs::Lines::line, crate::specs::Lines::spaced))]
pub fn lay_end_line(out: &mut [u8], at: usize, groups: u32) -> usize
    requires { at + longest_end_line ≤ length out.old }
    ensures { Lays out.old at (end_line groups) longest_end_line result out.new }
{
    let word = lay_word(out, at, b"END");
    let counted = lay_u32_field(out, word, groups);
    lay_feed(out, counted)
}

// The number of a refusal, and no `Why`: the line holds a number, and its clause, `refused_line`, speaks of one.
#[tactic(auto, using(crate::proofs::Parts::laying), unfolding(crate::specs::Lines::refused_line, crate::specs::Lines::line, crate::specs::Lines::spaced))]
pub fn lay_refused_line(out: &mut [u8], at: usize, number: u8, place: u64) -> usize
    requires { at + longest_refused_line ≤ length out.old }
    ensures { Lays out.old at (refused_line number place) longest_refused_line result out.new }
{
    let word = lay_word(out, at, b"REFUSED");
    let numbered = lay_u8_field(out, word, number);
    let placed = lay_u64_field(out, numbered, place);
    lay_feed(out, placed)
}

// GROUP and the fields before the quantities.
#[tactic(auto, using(crate::proofs::Parts::laying), unfolding(crate::specs::Lines::spaced, records::specs::Layouts::group_result_at))]
fn lay_group_front(out: &mut [u8], at: usize, res: &[u8]) -> usize
    requires { (group_result_length ≤ length res.now) × (at + longest_group_front ≤ length out.old) }
    ensures { Lays out.old at (spaced (71 ∷ 82 ∷ 79 ∷ 85 ∷ 80 ∷ []) (decimal (group_result_at res.now 0).brp ∷ decimal (group_result_at res.now 0).zone ∷ decimal (group_result_at res.now 0).quarter ∷ decimal (group_result_at res.now 0).verdict ∷ decimal (group_result_at res.now 0).count ∷ [])) longest_group_front result out.new }
{
    let brp = u16::read(res, GroupResult::BRP);
    let word = lay_word(out, at, b"GROUP");
    let party = lay_u16_field(out, word, brp);
    let zone = lay_u8_field(out, party, res[GroupResult::ZONE]);
    let quarter = lay_u8_field(out, zone, res[GroupResult::QUARTER]);
    let verdict = lay_u8_field(out, quarter, res[GroupResult::VERDICT]);
    lay_u8_field(out, verdict, res[GroupResult::COUNT])
}

// One number four times: the compiler works its digits out once.
#[tactic(auto, using(crate::proofs::Pairs::few_digits))]
fn lay_four(out: &mut [u8], at: usize, number: Few) -> usize
    requires { at + i32_field * 4 ≤ length out.old }
    ensures { Lays out.old at (four_times (decimal number.n)) (i32_field * 4) result out.new }
{
    let a = number.lay(out, at, SPACE);
    let b = number.lay(out, a, SPACE);
    let c = number.lay(out, b, SPACE);
    number.lay(out, c, SPACE)
}

// The same of a negative number, by its size.
#[tactic(auto, using(crate::proofs::Parts::laying), unfolding(crate::specs::Lines::spaced))]
fn lay_four_below(out: &mut [u8], at: usize, size: Few) -> usize
    requires { at + i32_field * 4 ≤ length out.old }
    ensures { Lays out.old at (four_times (45 ∷ decimal size.n)) (i32_field * 4) result out.new }
{
    let a = lay_below(out, at, size.n);
    let b = lay_below(out, a, size.n);
    let c = lay_below(out, b, size.n);
    lay_below(out, c, size.n)
}

// Four quantities of a result, which stand one after another from a place on.
fn quantities_at(res: &[u8], from: usize) -> &[u8; FOUR]
    requires { from + 16 ≤ length res.now }
    ensures { four_from result.now 0 ≡ four_from res.now from }
{
    res[from..from + FOUR].as_array().unwrap()
}

// Each of them.
#[tactic(auto, using(crate::proofs::Parts::laying), unfolding(crate::specs::Lines::spaced))]
fn lay_each(out: &mut [u8], at: usize, four: &[u8; FOUR]) -> usize
    requires { at + i32_field * 4 ≤ length out.old }
    ensures { Lays out.old at (four_from four.now 0) (i32_field * 4) result out.new }
{
    let a = lay_quantity(out, at, u32::read(four, 0));
    let b = lay_quantity(out, a, u32::read(four, 4));
    let c = lay_quantity(out, b, u32::read(four, 8));
    lay_quantity(out, c, u32::read(four, 12))
}

// Whether the next three have the bits of the first.
fn is_same(four: &[u8; FOUR], first: u32) -> bool
    ensures { result ≡ same_from four.now 0 first }
{
    u32::read(four, 4) == first && u32::read(four, 8) == first && u32::read(four, 12) == first
}

// Four quantities of a unit: where it was not changed they are one number.
// The sums of a group are not, and go by lay_each: called from one place alone, this becomes part of the loop over units.
fn lay_quantities(out: &mut [u8], at: usize, four: &[u8; FOUR]) -> usize
    requires { at + i32_field * 4 ≤ length out.old }
    ensures { Lays out.old at (four_from four.now 0) (i32_field * 4) result out.new }
{
    let first = u32::read(four, 0);
    if is_same(four, first) {
        if first < Few::END {
            return lay_four(out, at, Few { n: first });
        }
        if ALL_BITS - Few::END + 1 < first {
            let n = ALL_BITS - first + 1;
            return lay_four_below(out, at, Few { n });
        }
    }
    lay_each(out, at, four)
}

fn lay_group_line(out: &mut [u8], at: usize, res: &[u8]) -> usize
    requires { (group_result_length ≤ length res.now) × (at + longest_group_line ≤ length out.old) }
    ensures { Lays out.old at (group_line (group_result_at res.now 0)) longest_group_line result out.new }
{
    let balance = i32::read(res, GroupResult::BALANCE);
    let front = lay_group_front(out, at, res);
    let sums = lay_each(out, front, quantities_at(res, GroupResult::P));
    let balanced = lay_i32_field(out, sums, balance);
    lay_feed(out, balanced)
}

fn lay_unit_line(out: &mut [u8], at: usize, res: &[u8], from: usize) -> usize
    requires { (from + unit_result_length ≤ length res.now) × (at + longest_unit_line ≤ length out.old) }
    ensures { Lays out.old at (unit_line (unit_result_at res.now from)) longest_unit_line result out.new }
{
    let number = u16::read(res, from + UnitResult::NUMBER);
    let word = lay_word(out, at, b"UNIT");
    let numbered = lay_u16_field(out, word, number);
    let reason = lay_u8_field(out, numbered, res[from + UnitResult::REASON]);
    let steps = lay_quantities(out, reason, quantities_at(res, from + UnitResult::N0));
    lay_feed(out, steps)
}

// A line for each of so many units.
fn lay_unit_lines(out: &mut [u8], at: usize, res: &[u8], count: usize) -> usize
    requires { (count ≤ most_units) × ((result_length count ≤ length res.now) × (at + longest_unit_line * count ≤ length out.old)) }
    ensures { Lays out.old at (run (unit_line_at res.now) count) (longest_unit_line * count) result out.new }
{
    let mut here = at;
    for i in 0..count {
        let from = GroupResult::LEN + UnitResult::LEN * i;
        here = lay_unit_line(out, here, res, from);
    }
    here
}

// The lines of a block's result: that of its group, and one for each unit.
pub fn lay_result_lines(out: &mut [u8], at: usize, res: &[u8]) -> usize
    requires { Readable res.now × (at + longest_lines ≤ length out.old) }
    ensures { Lays out.old at (result_lines res.now) longest_lines result out.new }
{
    let units = lay_group_line(out, at, res);
    lay_unit_lines(out, units, res, usize::from(res[GroupResult::COUNT]))
}
