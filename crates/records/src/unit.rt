// The unit record: 03h, and 04h with an interval of its own.
ghost use Rattle.std.specs.Prelude.{◌≡◌, ◌+◌, ◌≤◌, length};
ghost use Rattle.records.specs.Layouts.{unit_length, interval_length, is_unit, unit_with, with_ends, body_at, interval_at, unit_at, length_of, margins_of};
ghost use Rattle.records.specs.Reading.{fault_place, unit_end};

use numbers::bytes::Field;
use terms::quantity::{Margins, Nomination, Position};
use terms::refusal::Fault;

#[derive(Clone, Copy, PartialEq, Eq, Debug)]
pub struct UnitRecord {
    pub number: u16,
    pub class: u8,
    pub coincide: u8,
    pub nominated: u8,
    pub n: Nomination,
    pub pc: Position,
    pub step_down: i32,
    pub step_up: i32,
    pub made: u32,
    // Marks and kind are bytes as they lie: of each other value a refusal is promised (`mark_faults`, `value_faults`).
    pub kind: u8,
    pub lower: i32,
    pub upper: i32,
}

impl UnitRecord {
    pub const KIND: u8 = 3;

    pub const LEN: usize = 26;

    // An 04h, which has an interval of its own behind the body of a 03h.
    pub const INTERVAL_KIND: u8 = 4;

    pub const INTERVAL_LEN: usize = 34;

    pub const NUMBER: usize = 1;

    pub const CLASS: usize = 3;

    pub const COINCIDE: usize = 4;

    pub const NOMINATED: usize = 5;

    pub const N: usize = 6;

    pub const PC: usize = 10;

    pub const STEP_DOWN: usize = 14;

    pub const STEP_UP: usize = 18;

    pub const MADE: usize = 22;

    pub const LOWER: usize = 26;

    pub const UPPER: usize = 30;

    // N, PC, the margins and the ends lie from -LIMIT to LIMIT, which are the ends of a 03h.
    pub const LIMIT: i32 = Nomination::LIMIT;

    // A 03h of these values: a public constructor, whose contract names them all.
    pub fn new(
        number: u16,
        class: u8,
        coincide: u8,
        nominated: u8,
        n: Nomination,
        pc: Position,
        step_down: i32,
        step_up: i32,
        made: u32,
    ) -> UnitRecord
        ensures { result ≡ unit_with number class coincide nominated n.0 pc.0 step_down step_up made }
    {
        UnitRecord {
            number,
            class,
            coincide,
            nominated,
            n,
            pc,
            step_down,
            step_up,
            made,
            kind: UnitRecord::KIND,
            lower: -UnitRecord::LIMIT,
            upper: UnitRecord::LIMIT,
        }
    }

    // The same values with a kind and two ends.
    pub fn with_ends(self, kind: u8, lower: i32, upper: i32) -> UnitRecord
        ensures { result ≡ with_ends self kind lower upper }
    {
        UnitRecord {
            kind,
            lower,
            upper,
            ..self
        }
    }

    // How many bytes its record has.
    pub fn length(self) -> usize
        ensures { result ≡ length_of self }
    {
        if self.kind == UnitRecord::INTERVAL_KIND {
            return UnitRecord::INTERVAL_LEN;
        }
        UnitRecord::LEN
    }

    // The working margins: those of a 03h, and of an 04h the narrower of margins and interval.
    pub fn margins(self) -> Margins
        ensures { result ≡ margins_of self }
    {
        if self.kind == UnitRecord::INTERVAL_KIND {
            return Margins {
                step_down: self.step_down.max(self.lower),
                step_up: self.step_up.min(self.upper),
            };
        }
        Margins {
            step_down: self.step_down,
            step_up: self.step_up,
        }
    }

    // The place of what is at fault.
    pub fn place_of(fault: Fault) -> usize
        ensures { result ≡ fault_place fault }
    {
        match fault {
            Fault::Kind => 0,
            Fault::Number => UnitRecord::NUMBER,
            Fault::Class => UnitRecord::CLASS,
            Fault::Coincide => UnitRecord::COINCIDE,
            Fault::Nominated => UnitRecord::NOMINATED,
            Fault::NotNominated => UnitRecord::N,
            Fault::N => UnitRecord::N,
            Fault::Pc => UnitRecord::PC,
            Fault::StepDown => UnitRecord::STEP_DOWN,
            Fault::StepUp => UnitRecord::STEP_UP,
            Fault::Lower => UnitRecord::LOWER,
            Fault::Upper => UnitRecord::UPPER,
            Fault::Crossed => UnitRecord::STEP_UP,
            Fault::EndsCrossed => UnitRecord::UPPER,
            Fault::NotFull => UnitRecord::UPPER,
            Fault::WorkingCrossed => UnitRecord::LOWER,
            Fault::Ahead => UnitRecord::MADE,
            Fault::Age => UnitRecord::MADE,
        }
    }
}

// Whether a record of this kind is a unit's.
pub fn is_unit(kind: u8) -> bool
    ensures { result ≡ is_unit kind }
{
    kind == UnitRecord::KIND || kind == UnitRecord::INTERVAL_KIND
}

// The body of a unit record, which is all of a 03h.
pub fn body_fields(s: &[u8], at: usize) -> UnitRecord
    requires { at + unit_length ≤ length s.now }
    ensures { result ≡ body_at s.now at }
{
    let number = u16::read(s, at + UnitRecord::NUMBER);
    let class = s[at + UnitRecord::CLASS];
    let coincide = s[at + UnitRecord::COINCIDE];
    let nominated = s[at + UnitRecord::NOMINATED];
    let n = Nomination(i32::read(s, at + UnitRecord::N));
    let pc = Position(i32::read(s, at + UnitRecord::PC));
    let step_down = i32::read(s, at + UnitRecord::STEP_DOWN);
    let step_up = i32::read(s, at + UnitRecord::STEP_UP);
    let made = u32::read(s, at + UnitRecord::MADE);
    UnitRecord::new(
        number, class, coincide, nominated, n, pc, step_down, step_up, made,
    )
}

// The fields of an 04h: the body, and its ends.
pub fn interval_fields(s: &[u8], at: usize) -> UnitRecord
    requires { at + interval_length ≤ length s.now }
    ensures { result ≡ interval_at s.now at }
{
    let lower = i32::read(s, at + UnitRecord::LOWER);
    let upper = i32::read(s, at + UnitRecord::UPPER);
    body_fields(s, at).with_ends(UnitRecord::INTERVAL_KIND, lower, upper)
}

// The fields of a unit record that is there whole.
pub fn unit_fields(s: &[u8], at: usize) -> UnitRecord
    requires { unit_end s.now at ≤ length s.now }
    ensures { result ≡ unit_at s.now at }
{
    if s[at] == UnitRecord::INTERVAL_KIND {
        return interval_fields(s, at);
    }
    body_fields(s, at)
}

// Where the unit record that begins at a place, and is there whole, ends.
pub fn unit_end(s: &[u8], at: usize) -> usize
    requires { unit_end s.now at ≤ length s.now }
    ensures { result ≡ unit_end s.now at }
{
    if s[at] == UnitRecord::INTERVAL_KIND {
        return at + UnitRecord::INTERVAL_LEN;
    }
    at + UnitRecord::LEN
}
