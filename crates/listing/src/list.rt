// One step of the day list: the next record or block of the input is offered to the day, and its lines are written.
ghost use Rattle.std.specs.Prelude.{◌≡◌, not, ◌&&◌, [], length, ◌==◌};
ghost use Rattle.numbers.specs.Choice.{pick};
ghost use Rattle.terms.specs.Refusals.{number_of, refusal};
ghost use Rattle.day.specs.Outcome.{step_with};
ghost use Rattle.day.specs.Offers.{offer_of};
ghost use Rattle.records.specs.Longest.{longest_result};
ghost use Rattle.walk.specs.declared.table.Role.TheVariants.{Block};
ghost use Rattle.lines.specs.Lines.{longest_lines};
ghost use Rattle.lines.specs.Inner.{Lays, Readable};
ghost use Rattle.listing.specs.declared.list.Listed.TheVariants.{Refused};
ghost use Rattle.listing.specs.Listing.{waits, outcome, accepted_lines, list_taken, list_refused, list_offered, must_wait, over, list_of, Lists};

use day::offer::Lengths;
use day::value::Day;
use lines::lines::{
    GROUP_LINE, UNIT_LINE, lay_day_line, lay_end_line, lay_refused_line, lay_result_lines,
};
use records::group::GroupRecord;
use records::group_result::GroupResult;
use records::unit_result::UnitResult;
use terms::refusal::{Refusal, Why};
use walk::table::{Role, role_of};

// The day so far, and how many bytes of the input were listed.
#[derive(Clone, Copy, PartialEq, Eq, Debug)]
pub struct Listing {
    pub day: Day,
    pub place: u64,
}

impl Listing {
    // The most bytes of a block's result, and those of its lines.
    pub const RESULT: usize = GroupResult::LEN + UnitResult::LEN * GroupRecord::UNITS;

    pub const LINES: usize = GROUP_LINE + UNIT_LINE * GroupRecord::UNITS;
}

// What was accepted: how many bytes of the input it has, how many its lines have, and the list after it.
#[derive(Clone, Copy, PartialEq, Eq, Debug)]
pub struct Part {
    pub used: usize,
    pub written: usize,
    pub listing: Listing,
}

// What was refused: the refusal, whose place counts from what was offered, its place in the input, and how many bytes its line has.
#[derive(Clone, Copy, PartialEq, Eq, Debug)]
pub struct Stop {
    pub refusal: Refusal,
    pub place: u64,
    pub written: usize,
}

// Five answers of one rank: no caller hands a refusal on, so a Result around the other four would be asked for in two steps in place of one match.
#[derive(Clone, Copy, PartialEq, Eq, Debug)]
pub enum Listed {
    Taken(Part),
    // The list stops.
    Refused(Stop),
    // What is at hand is only cut short: more of the input is wanted.
    Waits,
    // More room is wanted.
    Full,
    // The day is closed and nothing is left.
    Done,
}

fn is_done(day: Day, s: &[u8], ended: bool) -> bool
    ensures { result ≡ (ended && over day s.now) }
{
    ended && s.len() == 0 && day.state.is_closed()
}

fn must_wait(why: Why, ended: bool) -> bool
    ensures { result ≡ (not ended && number_of why == 1) }
{
    !ended && why.number() == 1
}

// The lines of what was accepted, by what it is to the day.
#[tactic(auto, unfolding(crate::specs::Listing::accepted_lines))]
fn lay_accepted(room: &mut [u8; Listing::LINES], role: Role, day: Day, res: &[u8]) -> usize
    requires { role ≡ Block → Readable res.now }
    ensures { Lays room.old 0 (accepted_lines role day res.now) longest_lines result room.new }
{
    // Three writers of three kinds of value: no plainer as closures.
    match role {
        Role::Opens => lay_day_line(room, 0, day.record),
        Role::Block => lay_result_lines(room, 0, res),
        Role::Closes => lay_end_line(room, 0, day.groups),
    }
}

// Six parameters, since what an offer left, what it was made of and the room come together here alone.
#[tactic(auto, unfolding(crate::specs::Listing::list_taken))]
fn list_taken(
    place: u64,
    n: Lengths,
    day: Day,
    role: Role,
    res: &[u8],
    room: &mut [u8; Listing::LINES],
) -> Listed
    requires { role ≡ Block → Readable res.now }
    ensures { Lists (list_taken place (step_with n day) role res.now) room.old result room.new }
{
    let written = lay_accepted(room, role, day, res);
    let after = place.wrapping_add(n.used as u64);
    Listed::Taken(Part {
        used: n.used,
        written,
        listing: Listing { day, place: after },
    })
}

#[tactic(auto, unfolding(crate::specs::Listing::list_refused))]
fn lay_stop(place: u64, r: Refusal, room: &mut [u8; Listing::LINES]) -> Stop
    ensures { Lists (list_refused place (number_of r.why) r.place) room.old (Refused result) room.new }
{
    let why = r.why;
    let at = place.wrapping_add(r.place as u64);
    let written = lay_refused_line(room, 0, why.number(), at);
    Stop {
        refusal: r,
        place: at,
        written,
    }
}

#[tactic(auto, using(numbers::proofs::Laid::laid_none))]
fn list_refused(place: u64, r: Refusal, ended: bool, room: &mut [u8; Listing::LINES]) -> Listed
    ensures { Lists (pick (must_wait (refusal r) ended) (outcome waits []) (list_refused place (number_of r.why) r.place)) room.old result room.new }
{
    if must_wait(r.why, ended) {
        return Listed::Waits;
    }
    Listed::Refused(lay_stop(place, r, room))
}

// The step, by way of room for a result.
fn list_offer(l: Listing, s: &[u8], ended: bool, room: &mut [u8; Listing::LINES]) -> Listed
    ensures { Lists (list_offered l.place s.now ended (offer_of l.day s.now longest_result)) room.old result room.new }
{
    let mut result = [0; Listing::RESULT];
    let mut day = l.day;
    match day.offer(s, &mut result) {
        Ok(n) => list_taken(l.place, n, day, role_of(s[0]), &result, room),
        Err(r) => list_refused(l.place, r, ended, room),
    }
}

// One step: s are the bytes of the input that are at hand from the listing's place on, and none will come after them where it has ended.
pub fn list_next(l: Listing, s: &[u8], ended: bool, room: &mut [u8]) -> Listed
    ensures { Lists (list_of l s.now ended (length room.old)) room.old result room.new }
{
    let Some(front) = room.first_chunk_mut::<{ Listing::LINES }>() else {
        return Listed::Full;
    };
    if is_done(l.day, s, ended) {
        return Listed::Done;
    }
    list_offer(l, s, ended, front)
}
