// The group record, 02h.
ghost use Rattle.std.specs.Prelude.{◌≡◌, ◌≤◌, ltb, length};
ghost use Rattle.terms.specs.Reply.{is, need};
ghost use Rattle.terms.specs.Refusals.{number_of, reply};
ghost use Rattle.terms.specs.Checks.{unit_count};
ghost use Rattle.records.specs.Layouts.{group_length, group_brp, group_quarter, group_count, group_made, group_with, group_at};
ghost use Rattle.records.specs.Reading.{aged, position_why, follows, key_of, judged_by, group_fields_of, group_of};

use crate::age::{is_aged, position_why};
use crate::day::DayRecord;
use crate::head::head;
use crate::key::Key;
use crate::unit::UnitRecord;
use numbers::bytes::Field;
use terms::check::is_count;
use terms::refusal::{Refusal, Why};

#[derive(Clone, Copy, PartialEq, Eq, Debug)]
pub struct GroupRecord {
    pub brp: u16,
    pub zone: u8,
    pub quarter: u8,
    pub count: u8,
    pub made: u32,
}

impl GroupRecord {
    pub const KIND: u8 = 2;

    pub const LEN: usize = 10;

    pub const BRP: usize = 1;

    pub const ZONE: usize = 3;

    pub const QUARTER: usize = 4;

    pub const COUNT: usize = 5;

    pub const MADE: usize = 6;

    // A group has 1 to UNITS units.
    pub const UNITS: usize = terms::check::UNITS;

    // No block is longer.
    pub const LONGEST_BLOCK: usize = GroupRecord::LEN
        + UnitRecord::INTERVAL_LEN * GroupRecord::UNITS;

    pub fn new(brp: u16, zone: u8, quarter: u8, count: u8, made: u32) -> GroupRecord
        ensures { result ≡ group_with brp zone quarter count made }
    {
        GroupRecord {
            brp,
            zone,
            quarter,
            count,
            made,
        }
    }

    // Whether a group can have so many units.
    pub fn permits(count: usize) -> bool
        ensures { result ≡ unit_count count }
    {
        is_count(count)
    }

    // The day record that the group's units are judged by: the day's own.
    pub fn judged_by(self, day: DayRecord) -> DayRecord
        ensures { result ≡ judged_by self day }
    {
        day
    }
}

// A group record that is there whole, at the front of the bytes.
#[derive(Clone, Copy)]
struct Whole<'a> {
    s: &'a [u8],
    ghost there: { group_length ≤ length s.now },
}

impl<'a> Whole<'a> {
    #[tactic(auto, unfolding(terms::specs::Reply::need, crate::specs::Layouts::group_at))]
    fn quarter(&self, quarters: u8) -> Result<u8, Refusal>
        ensures { reply result ≡ need (ltb (group_at self.now.s.now 0).quarter quarters) 4 group_quarter.place (is (group_at self.now.s.now 0).quarter) }
    {
        let quarter = self.s[GroupRecord::QUARTER];
        if quarter < quarters {
            return Ok(quarter);
        }
        Err(Refusal {
            why: Why::Quarter,
            place: GroupRecord::QUARTER,
        })
    }

    #[tactic(auto, unfolding(terms::specs::Reply::need, crate::specs::Layouts::group_at))]
    fn count(&self) -> Result<u8, Refusal>
        ensures { reply result ≡ need (unit_count (group_at self.now.s.now 0).count) 5 group_count.place (is (group_at self.now.s.now 0).count) }
    {
        let count = self.s[GroupRecord::COUNT];
        if GroupRecord::permits(usize::from(count)) {
            return Ok(count);
        }
        Err(Refusal {
            why: Why::UnitCount,
            place: GroupRecord::COUNT,
        })
    }

    #[tactic(auto, unfolding(terms::specs::Reply::need, crate::specs::Layouts::group_at))]
    fn key(&self, last: Option<Key>) -> Result<Key, Refusal>
        ensures { reply result ≡ need (follows last (key_of (group_at self.now.s.now 0))) 13 group_brp.place (is (key_of (group_at self.now.s.now 0))) }
    {
        let key = Key {
            brp: u16::read(self.s, GroupRecord::BRP),
            zone: self.s[GroupRecord::ZONE],
            quarter: self.s[GroupRecord::QUARTER],
        };
        if key.follows(last) {
            return Ok(key);
        }
        Err(Refusal {
            why: Why::BlockOrder,
            place: GroupRecord::BRP,
        })
    }

    #[tactic(auto, unfolding(terms::specs::Reply::need, crate::specs::Layouts::group_at))]
    fn made(&self, run: u32, limit: u16) -> Result<u32, Refusal>
        ensures { reply result ≡ need (aged run (group_at self.now.s.now 0).made limit) (number_of (position_why run (group_at self.now.s.now 0).made)) group_made.place (is (group_at self.now.s.now 0).made) }
    {
        let made = u32::read(self.s, GroupRecord::MADE);
        if is_aged(run, made, limit) {
            return Ok(made);
        }
        Err(Refusal {
            why: position_why(run, made),
            place: GroupRecord::MADE,
        })
    }
}

// The fields of a group record that is there whole, as the next one of a day. Each field's answer is read by `let .. else`, which hands its refusal and place up, here and in `day` and `end`: docs/DECISIONS.md, "A field's answer is a `Result`".
#[tactic(auto, unfolding(terms::specs::Reply::need, crate::specs::Layouts::group_at, crate::specs::Reading::group_fields_of))]
pub fn group_fields(s: &[u8], day: DayRecord, last: Option<Key>) -> Result<GroupRecord, Refusal>
    requires { group_length ≤ length s.now }
    ensures { reply result ≡ group_fields_of s.now day last }
{
    let group = Whole { s };
    let quarter = group.quarter(day.quarters);
    let Ok(quarter) = quarter else {
        return Err(quarter.unwrap_err());
    };
    let count = group.count();
    let Ok(count) = count else {
        return Err(count.unwrap_err());
    };
    let key = group.key(last);
    let Ok(key) = key else {
        return Err(key.unwrap_err());
    };
    let made = group.made(day.run, day.position_limit);
    let Ok(made) = made else {
        return Err(made.unwrap_err());
    };
    Ok(GroupRecord::new(key.brp, key.zone, quarter, count, made))
}

// The group record at the front of the bytes.
#[tactic(auto, unfolding(terms::specs::Reply::need, terms::specs::Reply::next, crate::specs::Reading::head_of, crate::specs::Reading::group_of))]
pub fn read_group(s: &[u8], day: DayRecord, last: Option<Key>) -> Result<GroupRecord, Refusal>
    ensures { reply result ≡ group_of s.now day last }
{
    head(s, 0, GroupRecord::KIND, GroupRecord::LEN)?;
    group_fields(s, day, last)
}
