// The making of a day, line by line: each record lies in the room as soon as its line is read, and a block is whole with its last unit.
ghost use Rattle.std.specs.Prelude.{◌≡◌, ◌+◌, ◌^◌, ◌<◌, leb};
ghost use Rattle.terms.specs.Refusals.{reply};
ghost use Rattle.records.specs.Layouts.{length_of};
ghost use Rattle.records.specs.Reading.{value_faults};
ghost use Rattle.making.specs.Spot.{fault_spot};
ghost use Rattle.making.specs.Making.{by, told, written_made, day_turn, end_turn, open_found, group_turn, found_of, whole_made, made_by_unit, unit_turn, unit_next, is_due, is_over, may_come, came_of, line_turn, turn_of, Turns};

use crate::spot::Spot;
use records::day::DayRecord;
use records::end::EndRecord;
use records::faults::faults;
use records::group::GroupRecord;
use records::unit::UnitRecord;
use terms::refusal::{Fault, Refusal, Why};
use text::line::Line;
use writers::lay::{lay_group, lay_unit};
use writers::single::{write_day, write_end};

// The number of a refusal (docs/TEXT.md): the paper's, or 0 where the line is not in the form; the line's number in the text; and what of it.
// A number and no `Why`: `Making::turn` answers for any number that its state holds (docs/CONTRACTS.md), and a narrower type would ask more of
// its callers.
#[derive(Clone, Copy, PartialEq, Eq, Debug)]
pub struct Refused {
    pub number: u8,
    pub line: u64,
    pub spot: Spot,
}

impl Refused {
    fn by(why: Why, line: u64, spot: Spot) -> Refused
        ensures { result ≡ by why line spot }
    {
        Refused {
            number: why.number(),
            line,
            spot,
        }
    }

    // Of a line that is not in the form.
    fn formless(line: u64, spot: Spot) -> Refused
        ensures { result ≡ record { number = 0; line = line; spot = spot } }
    {
        Refused {
            number: 0,
            line,
            spot,
        }
    }
}

// A block whose units are due: how many, where in the room the next one lies, the least number that it may have, and the first refusal, which is told when all lines of the block are read.
#[derive(Clone, Copy, PartialEq, Eq, Debug)]
pub struct Block {
    pub left: u8,
    pub here: usize,
    pub floor: u32,
    pub found: Option<Refused>,
}

// What is due: a DAY, a GROUP or an END, a UNIT, nothing.
#[derive(Clone, Copy, PartialEq, Eq, Debug)]
pub enum Making {
    Opening,
    Between,
    Within(Block),
    Over,
}

// What is due after a line, and how many bytes of the room are the record or the block that is whole with it.
#[derive(Clone, Copy, PartialEq, Eq, Debug)]
pub struct Made {
    pub next: Making,
    pub whole: Option<usize>,
}

// The field of a unit's fault, by its index in the line, docs/TEXT.md; no unit of a text has the faults of kind, of a 03h's ends and of age.
fn fault_spot(u: UnitRecord, fault: Fault) -> Spot
    ensures { result ≡ fault_spot u fault }
{
    match fault {
        Fault::Kind => Spot::Value(UnitRecord::KIND, 0, 0),
        Fault::Number => Spot::Value(UnitRecord::KIND, 1, i32::from(u.number)),
        Fault::Class => Spot::Value(UnitRecord::KIND, 2, i32::from(u.class)),
        Fault::Coincide => Spot::Value(UnitRecord::KIND, 3, i32::from(u.coincide)),
        Fault::Nominated => Spot::Value(UnitRecord::KIND, 4, i32::from(u.nominated)),
        Fault::NotNominated => Spot::Value(UnitRecord::KIND, 5, u.n.0),
        Fault::N => Spot::Value(UnitRecord::KIND, 5, u.n.0),
        Fault::Pc => Spot::Value(UnitRecord::KIND, 6, u.pc.0),
        Fault::StepDown => Spot::Value(UnitRecord::KIND, 7, u.step_down),
        Fault::StepUp => Spot::Value(UnitRecord::KIND, 8, u.step_up),
        Fault::Lower => Spot::Value(UnitRecord::KIND, 10, u.lower),
        Fault::Upper => Spot::Value(UnitRecord::KIND, 11, u.upper),
        Fault::Crossed => Spot::Value(UnitRecord::KIND, 7, u.step_down),
        Fault::EndsCrossed => Spot::Value(UnitRecord::KIND, 10, u.lower),
        Fault::NotFull => Spot::Value(UnitRecord::KIND, 10, 0),
        Fault::WorkingCrossed => Spot::Value(UnitRecord::KIND, 10, u.lower),
        Fault::Ahead | Fault::Age => Spot::Value(UnitRecord::KIND, 9, 0),
    }
}

// A single record, as its writer answers.
fn written(a: Result<usize, Refusal>, next: Making, line: u64, spot: Spot) -> Result<Made, Refused>
    ensures { told result ≡ written_made (reply a) next line spot }
{
    let bytes = a.map_err(|r| Refused::by(r.why, line, spot))?;
    Ok(Made {
        next,
        whole: Some(bytes),
    })
}

fn has_room(room: usize, at: usize, bytes: usize) -> bool
    ensures { result ≡ leb (at + bytes) room }
{
    bytes <= room && at <= room - bytes
}

#[tactic(auto, unfolding(crate::specs::Making::day_turn))]
fn day(d: DayRecord, line: u64, room: &mut [u8]) -> Result<Made, Refused>
    ensures { Turns (day_turn d line room.old) result room.new }
{
    let a = write_day(d, room);
    let quarters = Spot::Value(DayRecord::KIND, 2, i32::from(d.quarters));
    written(a, Making::Between, line, quarters)
}

#[tactic(auto, unfolding(crate::specs::Making::end_turn))]
fn end(e: EndRecord, line: u64, room: &mut [u8]) -> Result<Made, Refused>
    ensures { Turns (end_turn e line room.old) result room.new }
{
    let a = write_end(e.groups, room);
    written(a, Making::Over, line, Spot::Nowhere)
}

// 4 is told later.
fn open_found(g: GroupRecord, line: u64) -> Option<Refused>
    ensures { result ≡ open_found g line }
{
    if DayRecord::AUTUMN <= g.quarter {
        let quarter = Spot::Value(GroupRecord::KIND, 3, i32::from(g.quarter));
        return Some(Refused::by(Why::Quarter, line, quarter));
    }
    None
}

// 5 is told at once.
#[tactic(auto, unfolding(crate::specs::Making::group_turn))]
fn group(g: GroupRecord, line: u64, room: &mut [u8]) -> Result<Made, Refused>
    ensures { Turns (group_turn g line room.old) result room.new }
{
    if !GroupRecord::permits(usize::from(g.count)) {
        let count = Spot::Value(GroupRecord::KIND, 4, i32::from(g.count));
        return Err(Refused::by(Why::UnitCount, line, count));
    }
    if room.len() < GroupRecord::LEN {
        return Err(Refused::by(Why::Room, line, Spot::Nowhere));
    }
    lay_group(room, 0, g);
    let next = Making::Within(Block {
        left: g.count,
        here: GroupRecord::LEN,
        floor: 0,
        found: open_found(g, line),
    });
    Ok(Made { next, whole: None })
}

// The first that is found stays.
fn found_in(found: Option<Refused>, u: UnitRecord, floor: u32, line: u64) -> Option<Refused>
    ensures { result ≡ found_of found (value_faults u floor) u line }
{
    if found.is_some() {
        return found;
    }
    let Err(fault) = faults(u, floor) else {
        return None;
    };
    Some(Refused::by(Why::from(fault), line, fault_spot(u, fault)))
}

// A block of which all lines are read.
fn whole(found: Option<Refused>, bytes: usize) -> Result<Made, Refused>
    ensures { told result ≡ whole_made found bytes }
{
    match found {
        Some(refused) => Err(refused),
        None => Ok(Made {
            next: Making::Between,
            whole: Some(bytes),
        }),
    }
}

// A block with one unit more.
#[tactic(auto, unfolding(crate::specs::Making::made_by_unit))]
fn made_by_unit(b: Block, u: UnitRecord, found: Option<Refused>) -> Result<Made, Refused>
    requires { b.here + length_of u < 2 ^ 64 }
    ensures { told result ≡ made_by_unit b u found }
{
    let length = u.length();
    let here = b.here + length;
    if b.left <= 1 {
        return whole(found, here);
    }
    let next = Making::Within(Block {
        left: b.left - 1,
        here,
        floor: u32::from(u.number) + 1,
        found,
    });
    Ok(Made { next, whole: None })
}

#[tactic(auto, unfolding(crate::specs::Making::unit_turn))]
fn unit(b: Block, u: UnitRecord, line: u64, room: &mut [u8]) -> Result<Made, Refused>
    ensures { Turns (unit_turn b u line room.old) result room.new }
{
    let length = u.length();
    if !has_room(room.len(), b.here, length) {
        return Err(Refused::by(Why::Room, line, Spot::Nowhere));
    }
    lay_unit(room, b.here, u);
    made_by_unit(b, u, found_in(b.found, u, b.floor, line))
}

// A unit where one is due.
fn unit_next(m: Making, u: UnitRecord, line: u64, room: &mut [u8]) -> Result<Made, Refused>
    ensures { Turns (unit_next m u line room.old) result room.new }
{
    let Making::Within(b) = m else {
        return Err(Refused::by(Why::Kind, line, Spot::Came(UnitRecord::KIND)));
    };
    unit(b, u, line, room)
}

// The word of a line that may not come.
fn came(l: Line) -> Spot
    ensures { result ≡ came_of l }
{
    match l {
        Line::Day(_) => Spot::Came(DayRecord::KIND),
        Line::Group(_) => Spot::Came(GroupRecord::KIND),
        Line::Unit(_) => Spot::Came(UnitRecord::KIND),
        Line::End(_) => Spot::Came(EndRecord::KIND),
        Line::Passed | Line::TooLong => Spot::Nowhere,
        Line::Not(kind, field) => Spot::Word(kind, field),
    }
}

impl Making {
    pub fn new() -> Making
        ensures { result ≡ Making.Opening }
    {
        Making::Opening
    }

    // Whether a record may come, by the number of its kind, which may be any.
    fn is_due(self, kind: u8) -> bool
        ensures { result ≡ is_due self kind }
    {
        match self {
            Making::Opening => kind == DayRecord::KIND,
            Making::Between => kind == GroupRecord::KIND || kind == EndRecord::KIND,
            Making::Within(_) => kind == UnitRecord::KIND,
            Making::Over => false,
        }
    }

    // Whether the text may end here.
    pub fn is_over(self) -> bool
        ensures { result ≡ is_over self }
    {
        matches!(self, Making::Over)
    }

    // Whether a line may come.
    fn may_come(self, l: Line) -> bool
        ensures { result ≡ may_come self l }
    {
        match l {
            Line::Day(_) => self.is_due(DayRecord::KIND),
            Line::Group(_) => self.is_due(GroupRecord::KIND),
            Line::Unit(_) => self.is_due(UnitRecord::KIND),
            Line::End(_) => self.is_due(EndRecord::KIND),
            Line::Passed => true,
            Line::TooLong => !self.is_over(),
            Line::Not(kind, _) => self.is_due(kind),
        }
    }

    // What a line makes that may come: 0 where it is not in the form.
    fn made(self, l: Line, line: u64, room: &mut [u8]) -> Result<Made, Refused>
        ensures { Turns (line_turn self l line room.old) result room.new }
    {
        match l {
            Line::Day(d) => day(d, line, room),
            Line::Group(g) => group(g, line, room),
            Line::Unit(u) => unit_next(self, u, line, room),
            Line::End(e) => end(e, line, room),
            Line::Passed => Ok(Made {
                next: self,
                whole: None,
            }),
            Line::TooLong => Err(Refused::formless(line, Spot::Nowhere)),
            Line::Not(kind, field) => Err(Refused::formless(line, Spot::Word(kind, field))),
        }
    }

    // The next line and its number, with the room where its block lies.
    #[tactic(auto, unfolding(crate::specs::Making::turn_of))]
    pub fn turn(self, l: Line, line: u64, room: &mut [u8]) -> Result<Made, Refused>
        ensures { Turns (turn_of self l line room.old) result room.new }
    {
        if !self.may_come(l) {
            return Err(Refused::by(Why::Kind, line, came(l)));
        }
        self.made(l, line, room)
    }
}
