// The units of a block, read one after another from lent bytes: a slice and the place of the next.
ghost use Rattle.std.specs.Prelude.{◌≡◌, ◌≤◌, length};
ghost use Rattle.terms.specs.Refusals.{reply};
ghost use Rattle.records.specs.Inner.{is_plain, is_interval, is_whole};
ghost use Rattle.records.specs.Layouts.{unit_at, length_of};
ghost use Rattle.records.specs.Reading.{kind_due, unit_head_of, unit_end, unit_fields_of, unit_of, units_of};

use crate::day::DayRecord;
use crate::faults::unit_faults;
use crate::head::{head, is_there};
use crate::unit::{UnitRecord, unit_end, unit_fields};
use terms::refusal::Refusal;

// Whether a 03h begins at a place, and lies there whole.
pub fn is_plain(s: &[u8], at: usize) -> bool
    ensures { result ≡ is_plain s.now at }
{
    is_there(s, at, UnitRecord::KIND, UnitRecord::LEN)
}

// Whether an 04h does.
pub fn is_interval(s: &[u8], at: usize) -> bool
    ensures { result ≡ is_interval s.now at }
{
    is_there(s, at, UnitRecord::INTERVAL_KIND, UnitRecord::INTERVAL_LEN)
}

// Whether a unit record of either kind does.
fn is_whole(s: &[u8], at: usize) -> bool
    ensures { result ≡ is_whole s.now at }
{
    is_plain(s, at) || is_interval(s, at)
}

// The kind of unit record that is due at a place: 04h where one begins there, and else 03h.
fn kind_due(s: &[u8], at: usize) -> u8
    ensures { result ≡ kind_due s.now at }
{
    if s.len() <= at {
        return UnitRecord::KIND;
    }
    if s[at] == UnitRecord::INTERVAL_KIND {
        return UnitRecord::INTERVAL_KIND;
    }
    UnitRecord::KIND
}

// How many bytes the unit record has that begins at a place, be they there or not.
pub fn unit_length(s: &[u8], at: usize) -> usize
    ensures { result ≡ length_of (unit_at s.now at) }
{
    if kind_due(s, at) == UnitRecord::INTERVAL_KIND {
        return UnitRecord::INTERVAL_LEN;
    }
    UnitRecord::LEN
}

// Where the unit record that is to begin at a place ends: 1 if nothing is there, 2, 1. Whether it lies there whole is one look, and what is wrong is asked only where it does not.
pub fn unit_head(s: &[u8], at: usize) -> Result<usize, Refusal>
    ensures { reply result ≡ unit_head_of s.now at }
{
    if is_whole(s, at) {
        return Ok(unit_end(s, at));
    }
    head(s, at, kind_due(s, at), unit_length(s, at))
}

// A unit record that is there whole, judged by the day. That it is there stands in a clause: a type that held it would serve this function alone, since `unit_fields` and `unit_end` are public and keep theirs.
#[tactic(auto, unfolding(terms::specs::Refusals::passed, crate::specs::Reading::unit_fields_of))]
fn unit_judged(s: &[u8], at: usize, floor: u32, day: DayRecord) -> Result<UnitRecord, Refusal>
    requires { unit_end s.now at ≤ length s.now }
    ensures { reply result ≡ unit_fields_of s.now at floor day }
{
    let u = unit_fields(s, at);
    match unit_faults(u, floor, day) {
        Ok(()) => Ok(u),
        Err(fault) => Err(fault.at(at + UnitRecord::place_of(fault))),
    }
}

// The unit record at a place: its number is at least the floor, its margins are no older than the day allows.
#[tactic(auto, unfolding(terms::specs::Reply::need, terms::specs::Reply::next, crate::specs::Reading::head_of, crate::specs::Reading::unit_of))]
pub fn unit_at(s: &[u8], at: usize, floor: u32, day: DayRecord) -> Result<UnitRecord, Refusal>
    ensures { reply result ≡ unit_of s.now at floor day }
{
    unit_head(s, at)?;
    unit_judged(s, at, floor, day)
}

// So many units from a place on: the first refusal, or where they end.
pub fn units_from(s: &[u8], at: usize, count: usize, day: DayRecord) -> Result<usize, Refusal>
    ensures { reply result ≡ units_of s.now at 0 day count }
{
    let mut floor: u32 = 0;
    let mut here = at;
    for _ in 0..count {
        let u = unit_at(s, here, floor, day)?;
        floor = u32::from(u.number) + 1;
        here += u.length();
    }
    Ok(here)
}
