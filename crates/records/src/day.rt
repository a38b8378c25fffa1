// The day record, 01h.
ghost use Rattle.std.specs.Prelude.{◌≡◌, ◌≤◌, length};
ghost use Rattle.terms.specs.Refusals.{reply};
ghost use Rattle.terms.specs.Reply.{is, need};
ghost use Rattle.records.specs.Layouts.{day_length, day_quarters, day_with, day_at, day_length_of};
ghost use Rattle.records.specs.Reading.{permitted, day_end, day_fields_of, day_of};

use crate::head::head;
use numbers::bytes::Field;
use terms::refusal::{Refusal, Why};

#[derive(Clone, Copy, PartialEq, Eq, Debug)]
pub struct DayRecord {
    pub day: u16,
    pub quarters: u8,
    pub run: u32,
    pub position_limit: u16,
    pub margin_limit: u16,
}

impl DayRecord {
    pub const KIND: u8 = 1;

    pub const LEN: usize = 12;

    pub const DAY: usize = 1;

    pub const QUARTERS: usize = 3;

    pub const RUN: usize = 4;

    pub const POSITION_LIMIT: usize = 8;

    pub const MARGIN_LIMIT: usize = 10;

    // The quarters of a day on which the clocks go forward, of a plain one, and of one on which they go back.
    pub const SPRING: u8 = 92;

    pub const PLAIN: u8 = 96;

    pub const AUTUMN: u8 = 100;

    pub fn new(
        day: u16,
        quarters: u8,
        run: u32,
        position_limit: u16,
        margin_limit: u16,
    ) -> DayRecord
        ensures { result ≡ day_with day quarters run position_limit margin_limit }
    {
        DayRecord {
            day,
            quarters,
            run,
            position_limit,
            margin_limit,
        }
    }

    // How many bytes its record has.
    pub fn length(self) -> usize
        ensures { result ≡ day_length_of self }
    {
        DayRecord::LEN
    }

    // Whether a day can have so many quarters.
    pub fn permits(quarters: u8) -> bool
        ensures { result ≡ permitted quarters }
    {
        matches!(
            quarters,
            DayRecord::SPRING | DayRecord::PLAIN | DayRecord::AUTUMN
        )
    }
}

// The quarters, if a day can have so many. That the record is there stands in a clause: a type that held it would serve this function alone, since `day_fields` is public and keeps its own.
#[tactic(auto, unfolding(terms::specs::Reply::need, crate::specs::Layouts::day_at))]
fn quarters_at(s: &[u8]) -> Result<u8, Refusal>
    requires { day_length ≤ length s.now }
    ensures { reply result ≡ need (permitted (day_at s.now 0).quarters) 3 day_quarters.place (is (day_at s.now 0).quarters) }
{
    let quarters = s[DayRecord::QUARTERS];
    if DayRecord::permits(quarters) {
        return Ok(quarters);
    }
    Err(Refusal {
        why: Why::Quarters,
        place: DayRecord::QUARTERS,
    })
}

// The fields of a day record that is there whole.
#[tactic(auto, unfolding(terms::specs::Reply::need, crate::specs::Layouts::day_at, crate::specs::Reading::day_fields_of))]
pub fn day_fields(s: &[u8]) -> Result<DayRecord, Refusal>
    requires { day_end s.now ≤ length s.now }
    ensures { reply result ≡ day_fields_of s.now }
{
    let quarters = quarters_at(s);
    let Ok(quarters) = quarters else {
        return Err(quarters.unwrap_err());
    };
    let day = u16::read(s, DayRecord::DAY);
    let run = u32::read(s, DayRecord::RUN);
    let position_limit = u16::read(s, DayRecord::POSITION_LIMIT);
    let margin_limit = u16::read(s, DayRecord::MARGIN_LIMIT);
    Ok(DayRecord::new(day, quarters, run, position_limit, margin_limit))
}

// The day record at the front of the bytes.
#[tactic(auto, unfolding(terms::specs::Reply::need, terms::specs::Reply::next, crate::specs::Reading::head_of, crate::specs::Reading::day_of))]
pub fn read_day(s: &[u8]) -> Result<DayRecord, Refusal>
    ensures { reply result ≡ day_of s.now }
{
    head(s, 0, DayRecord::KIND, DayRecord::LEN)?;
    day_fields(s)
}
