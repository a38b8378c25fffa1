// What a refusal names: the plant, the field, the value read there, and what it was held against.
ghost use Rattle.std.specs.Prelude.{◌≡◌, ◌≤◌};
ghost use Rattle.records.specs.Layouts.{group_at};
ghost use Rattle.records.specs.Reading.{key_of};
ghost use Rattle.finding.specs.Near.{Near};
ghost use Rattle.finding.specs.Naming.{unit_field_at, unit_value_at, value_in, role_subject, kind_subject, front_subject, unit_subject, flag_held, age_held, told_of};
ghost use Rattle.finding.specs.Naming.{number_finding, flag_finding, range_finding, least_finding, most_finding, crossed_finding, working_finding, positions_finding, margins_finding, finding_of, named_of};

use crate::record::Record;
use crate::spot::{UnitSpot, is_group, spot_of};
use day::value::Day;
use numbers::bytes::byte;
use records::day::DayRecord;
use records::end::EndRecord;
use records::group::GroupRecord;
use records::key::Key;
use records::unit::{UnitRecord, is_unit};
use terms::refusal::{Refusal, Why};
use walk::table::{Role, State};

// The record that a refusal speaks of, or the plants.
#[derive(Clone, Copy, PartialEq, Eq, Debug)]
pub enum Subject {
    Record,
    Day,
    // A group record that is not there whole.
    Group,
    End,
    Block(Key),
    // A unit by its number.
    Unit(Key, u16),
    // A unit by its index, where its number is not at hand.
    UnitAt(Key, usize),
}

#[derive(Clone, Copy, PartialEq, Eq, Debug)]
pub enum UnitField {
    Number,
    Class,
    Coincide,
    Nominated,
    N,
    Pc,
    StepDown,
    StepUp,
    Made,
    Lower,
    Upper,
}

#[derive(Clone, Copy, PartialEq, Eq, Debug)]
pub enum Field {
    Kind,
    Quarters,
    Quarter,
    UnitCount,
    PositionsMade,
    Groups,
    Unit(UnitField),
}

#[derive(Clone, Copy, PartialEq, Eq, Debug)]
pub enum Value {
    Plain(u32),
    Signed(i32),
}

// What a value was held against.
#[derive(Clone, Copy, PartialEq, Eq, Debug)]
pub enum Held {
    NotPermitted,
    Quarters,
    Below(u8),
    UnitCount,
    Above(u16),
    Flag,
    NotNominated,
    Range,
    // Another field of the unit, and its value.
    AtLeast(UnitField, Value),
    AtMost(UnitField, Value),
    // Run minute, limit and age.
    Old(u32, u16, u32),
    // Run minute and limit: it was made after the run.
    Ahead(u32, u16),
    Accepted(u32),
}

#[derive(Clone, Copy, PartialEq, Eq, Debug)]
pub struct Told {
    pub field: Field,
    pub value: Value,
    pub held: Held,
}

#[derive(Clone, Copy, PartialEq, Eq, Debug)]
pub enum Finding {
    // So many bytes are at hand.
    CutShort(usize),
    Told(Told),
    NotAfter(Option<Key>),
    Room,
    // No offer gives it.
    OtherCall,
}

#[derive(Clone, Copy, PartialEq, Eq, Debug)]
pub struct Named {
    pub subject: Subject,
    pub finding: Finding,
}

#[tactic(auto, unfolding(records::specs::Layouts::group_at))]
fn key_of(s: &[u8]) -> Key
    ensures { result ≡ key_of (group_at s.now 0) }
{
    let group = Record { s, at: 0 };
    Key {
        brp: group.half(GroupRecord::BRP),
        zone: group.byte(GroupRecord::ZONE),
        quarter: group.byte(GroupRecord::QUARTER),
    }
}

impl From<Role> for Subject {
    ghost from_gives = { λ role subject. subject ≡ role_subject role };

    fn from(role: Role) -> Subject {
        match role {
            Role::Opens => Subject::Day,
            Role::Block => Subject::Group,
            Role::Closes => Subject::End,
        }
    }
}

// By what it is to the day in a state that takes it.
fn kind_subject(kind: u8) -> Subject
    ensures { result ≡ kind_subject kind }
{
    match State::Fresh.coming(kind).or(State::Open.coming(kind)) {
        Some(entry) => Subject::from(entry.role),
        None => Subject::Record,
    }
}

fn front_subject(s: &[u8]) -> Subject
    ensures { result ≡ front_subject s.now }
{
    if is_group(s) {
        Subject::Block(key_of(s))
    } else {
        kind_subject(byte(s, 0))
    }
}

// By its number where that is at hand, else by its index.
fn unit_subject(s: &[u8], spot: UnitSpot) -> Subject
    requires { Near spot.at × Near spot.before }
    ensures { result ≡ unit_subject s.now spot }
{
    let key = key_of(s);
    let unit = Record { s, at: spot.at };
    if unit.at + UnitRecord::CLASS <= s.len() && is_unit(unit.byte(0)) {
        Subject::Unit(key, unit.half(UnitRecord::NUMBER))
    } else {
        Subject::UnitAt(key, spot.index)
    }
}

impl UnitField {
    // The unit's field in which a place of its record lies.
    #[tactic(auto, unfolding(crate::specs::Naming::unit_field_at))]
    fn at(offset: usize) -> UnitField
        ensures { result ≡ unit_field_at offset }
    {
        match offset {
            ..UnitRecord::CLASS => UnitField::Number,
            ..UnitRecord::COINCIDE => UnitField::Class,
            ..UnitRecord::NOMINATED => UnitField::Coincide,
            ..UnitRecord::N => UnitField::Nominated,
            ..UnitRecord::PC => UnitField::N,
            ..UnitRecord::STEP_DOWN => UnitField::Pc,
            ..UnitRecord::STEP_UP => UnitField::StepDown,
            ..UnitRecord::MADE => UnitField::StepUp,
            ..UnitRecord::LOWER => UnitField::Made,
            ..UnitRecord::UPPER => UnitField::Lower,
            _ => UnitField::Upper,
        }
    }
}

// A flag is 0 or 1, and N of a unit that is not nominated is 0.
fn flag_held(offset: usize) -> Held
    ensures { result ≡ flag_held offset }
{
    if offset < UnitRecord::N {
        Held::Flag
    } else {
        Held::NotNominated
    }
}

fn age_held(run: u32, made: u32, limit: u16) -> Held
    ensures { result ≡ age_held run made limit }
{
    if made <= run {
        Held::Old(run, limit, run - made)
    } else {
        Held::Ahead(run, limit)
    }
}

impl<'a> Record<'a> {
    fn unit_value(&self, field: UnitField) -> Value
        ensures { result ≡ unit_value_at self.now.s.now self.now.at field }
    {
        match field {
            UnitField::Number => Value::Plain(u32::from(self.half(UnitRecord::NUMBER))),
            UnitField::Class => Value::Plain(u32::from(self.byte(UnitRecord::CLASS))),
            UnitField::Coincide => Value::Plain(u32::from(self.byte(UnitRecord::COINCIDE))),
            UnitField::Nominated => Value::Plain(u32::from(self.byte(UnitRecord::NOMINATED))),
            UnitField::N => Value::Signed(self.signed(UnitRecord::N)),
            UnitField::Pc => Value::Signed(self.signed(UnitRecord::PC)),
            UnitField::StepDown => Value::Signed(self.signed(UnitRecord::STEP_DOWN)),
            UnitField::StepUp => Value::Signed(self.signed(UnitRecord::STEP_UP)),
            UnitField::Made => Value::Plain(self.word(UnitRecord::MADE)),
            UnitField::Lower => Value::Signed(self.signed(UnitRecord::LOWER)),
            UnitField::Upper => Value::Signed(self.signed(UnitRecord::UPPER)),
        }
    }

    fn value(&self, field: Field) -> Value
        ensures { result ≡ value_in self.now.s.now self.now.at field }
    {
        match field {
            Field::Kind => Value::Plain(u32::from(self.byte(0))),
            Field::Quarters => Value::Plain(u32::from(self.byte(DayRecord::QUARTERS))),
            Field::Quarter => Value::Plain(u32::from(self.byte(GroupRecord::QUARTER))),
            Field::UnitCount => Value::Plain(u32::from(self.byte(GroupRecord::COUNT))),
            Field::PositionsMade => Value::Plain(self.word(GroupRecord::MADE)),
            Field::Groups => Value::Plain(self.word(EndRecord::GROUPS)),
            Field::Unit(f) => self.unit_value(f),
        }
    }

    fn tell(&self, field: Field, held: Held) -> Finding
        ensures { result ≡ told_of self.now.s.now self.now.at field held }
    {
        Finding::Told(Told {
            field,
            value: self.value(field),
            held,
        })
    }

    // 6: the number of the unit before.
    fn number_finding(&self, before: usize) -> Finding
        requires { Near before }
        ensures { result ≡ number_finding self.now.s.now self.now.at before }
    {
        let before = Record {
            s: self.s,
            at: before,
        };
        let number = before.half(UnitRecord::NUMBER);
        self.tell(Field::Unit(UnitField::Number), Held::Above(number))
    }

    // 7: by the place in the record.
    fn flag_finding(&self, offset: usize) -> Finding
        ensures { result ≡ flag_finding self.now.s.now self.now.at offset }
    {
        self.tell(Field::Unit(UnitField::at(offset)), flag_held(offset))
    }

    // 8: by the place in the record.
    fn range_finding(&self, offset: usize) -> Finding
        ensures { result ≡ range_finding self.now.s.now self.now.at offset }
    {
        self.tell(Field::Unit(UnitField::at(offset)), Held::Range)
    }

    // A field that lies below another. It and the next are of two lines each: one for both would choose by a flag, or take the way to hold a value as a closure with a contract of its own.
    fn least_finding(&self, field: UnitField, other: UnitField) -> Finding
        ensures { result ≡ least_finding self.now.s.now self.now.at field other }
    {
        let value = self.unit_value(other);
        self.tell(Field::Unit(field), Held::AtLeast(other, value))
    }

    // A field that lies above another.
    fn most_finding(&self, field: UnitField, other: UnitField) -> Finding
        ensures { result ≡ most_finding self.now.s.now self.now.at field other }
    {
        let value = self.unit_value(other);
        self.tell(Field::Unit(field), Held::AtMost(other, value))
    }

    // 9: the pair of margins or that of ends, by the place in the record.
    fn crossed_finding(&self, offset: usize) -> Finding
        ensures { result ≡ crossed_finding self.now.s.now self.now.at offset }
    {
        if offset < UnitRecord::MADE {
            self.least_finding(UnitField::StepUp, UnitField::StepDown)
        } else {
            self.least_finding(UnitField::Upper, UnitField::Lower)
        }
    }

    // 19: the interval lies above the margins, or below them.
    fn working_finding(&self) -> Finding
        ensures { result ≡ working_finding self.now.s.now self.now.at }
    {
        if self.signed(UnitRecord::LOWER) <= self.signed(UnitRecord::STEP_UP) {
            self.least_finding(UnitField::Upper, UnitField::StepDown)
        } else {
            self.most_finding(UnitField::Lower, UnitField::StepUp)
        }
    }

    // 10: against the limit of positions.
    fn positions_finding(&self, d: DayRecord) -> Finding
        ensures { result ≡ positions_finding self.now.s.now self.now.at d }
    {
        let made = self.word(GroupRecord::MADE);
        self.tell(
            Field::PositionsMade,
            age_held(d.run, made, d.position_limit),
        )
    }

    // 11: against the limit of margins.
    fn margins_finding(&self, d: DayRecord) -> Finding
        ensures { result ≡ margins_finding self.now.s.now self.now.at d }
    {
        let made = self.word(UnitRecord::MADE);
        self.tell(
            Field::Unit(UnitField::Made),
            age_held(d.run, made, d.margin_limit),
        )
    }

    // One row for each number.
    #[tactic(auto, unfolding(crate::specs::Naming::finding_of))]
    fn finding(&self, before: usize, day: Day, r: Refusal) -> Finding
        requires { Near before × (self.now.at ≤ r.place) }
        ensures { result ≡ finding_of day self.now.s.now r.why r.place self.now.at before }
    {
        let offset = r.place - self.at;
        match r.why {
            Why::CutShort => Finding::CutShort(r.place),
            Why::Kind => self.tell(Field::Kind, Held::NotPermitted),
            Why::Quarters => self.tell(Field::Quarters, Held::Quarters),
            Why::Quarter => self.tell(Field::Quarter, Held::Below(day.record.quarters)),
            Why::UnitCount => self.tell(Field::UnitCount, Held::UnitCount),
            Why::UnitNumber => self.number_finding(before),
            Why::Flag => self.flag_finding(offset),
            Why::Range => self.range_finding(offset),
            Why::Crossed => self.crossed_finding(offset),
            Why::PositionAge | Why::PositionAhead => self.positions_finding(day.record),
            Why::MarginAge | Why::MarginAhead => self.margins_finding(day.record),
            Why::Room => Finding::Room,
            Why::BlockOrder => Finding::NotAfter(day.last),
            Why::EndCount => self.tell(Field::Groups, Held::Accepted(day.groups)),
            Why::Columns | Why::Line => Finding::OtherCall,
            Why::WorkingCrossed => self.working_finding(),
        }
    }
}

// What a refusal of bytes that were offered to a day names.
#[tactic(auto, unfolding(crate::specs::Naming::named_of))]
pub fn name_values(day: Day, s: &[u8], r: Refusal) -> Named
    ensures { result ≡ named_of day s.now r }
{
    match spot_of(s, r.place) {
        None => Named {
            subject: front_subject(s),
            finding: Record { s, at: 0 }.finding(0, day, r),
        },
        Some(unit) => Named {
            subject: unit_subject(s, unit),
            finding: Record { s, at: unit.at }.finding(unit.before, day, r),
        },
    }
}
