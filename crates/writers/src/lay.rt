// Each record, stored at a place of a room. Room and place stay two parameters, as in `lines`: a struct over the lent room would have to say in every contract that it keeps the room, and these are on the way of every block.
ghost use Rattle.std.specs.Prelude.{◌≡◌, [], ◌∷◌, ◌+◌, ◌≤◌, length};
ghost use Rattle.numbers.specs.Bytes.{bytes16, laid_at};
ghost use Rattle.records.specs.Layouts.{day_bytes, day_length_of, group_length, group_bytes, unit_length, length_of, unit_bytes, end_length, end_bytes};
ghost use Rattle.writers.specs.Inner.{head_length, three_length, four_length, quantities, body_bytes};

use numbers::bytes::Field;
use records::day::DayRecord;
use records::end::EndRecord;
use records::group::GroupRecord;
use records::unit::UnitRecord;

// The kind, and the number of 16 bits that five of the six records begin with.
#[tactic(auto, using(numbers::proofs::Laid::laying))]
pub fn lay_head(room: &mut [u8], at: usize, kind: u8, first: u16)
    requires { at + head_length ≤ length room.old }
    ensures { room.new ≡ laid_at room.old at (kind ∷ bytes16 first) }
{
    kind.lay(room, at);
    first.lay(room, at + 1);
}

// Three fields of a byte each.
#[tactic(auto, using(numbers::proofs::Laid::laying))]
pub fn lay_three(room: &mut [u8], at: usize, a: u8, b: u8, c: u8)
    requires { at + three_length ≤ length room.old }
    ensures { room.new ≡ laid_at room.old at (a ∷ b ∷ c ∷ []) }
{
    a.lay(room, at);
    b.lay(room, at + 1);
    c.lay(room, at + 2);
}

// Four fields of signed kWh.
#[tactic(auto, using(numbers::proofs::Laid::laying), unfolding(crate::specs::Inner::quantities))]
fn lay_four(room: &mut [u8], at: usize, a: i32, b: i32, c: i32, d: i32)
    requires { at + four_length ≤ length room.old }
    ensures { room.new ≡ laid_at room.old at (quantities a b c d) }
{
    a.lay(room, at);
    b.lay(room, at + 4);
    c.lay(room, at + 8);
    d.lay(room, at + 12);
}

#[tactic(auto, using(numbers::proofs::Laid::laying), unfolding(records::specs::Layouts::day_bytes, records::specs::Layouts::behind))]
pub fn lay_day(room: &mut [u8], at: usize, d: DayRecord)
    requires { at + day_length_of d ≤ length room.old }
    ensures { room.new ≡ laid_at room.old at (day_bytes d) }
{
    lay_head(room, at, DayRecord::KIND, d.day);
    d.quarters.lay(room, at + DayRecord::QUARTERS);
    d.run.lay(room, at + DayRecord::RUN);
    d.position_limit.lay(room, at + DayRecord::POSITION_LIMIT);
    d.margin_limit.lay(room, at + DayRecord::MARGIN_LIMIT);
}

pub fn lay_group(room: &mut [u8], at: usize, g: GroupRecord)
    requires { at + group_length ≤ length room.old }
    ensures { room.new ≡ laid_at room.old at (group_bytes g) }
{
    lay_head(room, at, GroupRecord::KIND, g.brp);
    lay_three(room, at + GroupRecord::ZONE, g.zone, g.quarter, g.count);
    g.made.lay(room, at + GroupRecord::MADE);
}

// The body of a unit record, which both kinds have.
#[tactic(auto, using(numbers::proofs::Laid::laying), unfolding(crate::specs::Inner::body_bytes, crate::specs::Inner::quantities))]
fn lay_body(room: &mut [u8], at: usize, u: UnitRecord)
    requires { at + unit_length ≤ length room.old }
    ensures { room.new ≡ laid_at room.old at (body_bytes u) }
{
    let n = u.n;
    let pc = u.pc;
    lay_head(room, at, u.kind, u.number);
    lay_three(
        room,
        at + UnitRecord::CLASS,
        u.class,
        u.coincide,
        u.nominated,
    );
    lay_four(room, at + UnitRecord::N, n.0, pc.0, u.step_down, u.step_up);
    u.made.lay(room, at + UnitRecord::MADE);
}

pub fn lay_unit(room: &mut [u8], at: usize, u: UnitRecord)
    requires { at + length_of u ≤ length room.old }
    ensures { room.new ≡ laid_at room.old at (unit_bytes u) }
{
    lay_body(room, at, u);
    if u.kind == UnitRecord::INTERVAL_KIND {
        u.lower.lay(room, at + UnitRecord::LOWER);
        u.upper.lay(room, at + UnitRecord::UPPER);
    }
}

#[tactic(auto, using(numbers::proofs::Laid::laying), unfolding(records::specs::Layouts::end_bytes, records::specs::Layouts::behind))]
pub fn lay_end(room: &mut [u8], at: usize, e: EndRecord)
    requires { at + end_length ≤ length room.old }
    ensures { room.new ≡ laid_at room.old at (end_bytes e) }
{
    EndRecord::KIND.lay(room, at);
    e.groups.lay(room, at + EndRecord::GROUPS);
}
