// Days and minutes in the text of a line, as dates or as numbers.
ghost use Rattle.std.specs.Prelude.{◌≡◌, ◌≤◌, length};
ghost use Rattle.text.specs.Dates.{is_part, part_of, has_date, date_spelled, has_time, moment_in, day_in, minute_in};

use crate::numbers_in::{number_in, size_of};
use calendar::date::{Date, day_of};
use calendar::moment::{Moment, minute_of};

// The lengths of 2026-01-14 and of 2026-01-14T13:20Z.
const DATE: usize = 10;

const MOMENT: usize = 17;

// Whether digits stand from a place up to another.
fn is_part(s: &[u8], from: usize, to: usize) -> bool
    requires { (from ≤ to) × (to ≤ length s.now) }
    ensures { result ≡ is_part s.now from to }
{
    size_of(&s[from..to]).is_some()
}

// The number that they make.
fn part_of(s: &[u8], from: usize, to: usize) -> u32
    requires { (from ≤ to) × (to ≤ length s.now) }
    ensures { result ≡ part_of s.now from to }
{
    size_of(&s[from..to]).unwrap_or(0)
}

#[tactic(auto, unfolding(crate::specs::Dates::has_date))]
fn has_date(s: &[u8]) -> bool
    requires { 10 ≤ length s.now }
    ensures { result ≡ has_date s.now }
{
    is_part(s, 0, 4) && s[4] == b'-' && is_part(s, 5, 7) && s[7] == b'-' && is_part(s, 8, 10)
}

#[tactic(auto, unfolding(crate::specs::Dates::date_spelled))]
fn date_in(s: &[u8]) -> Date
    requires { 10 ≤ length s.now }
    ensures { result ≡ date_spelled s.now }
{
    let year = part_of(s, 0, 4);
    let month = part_of(s, 5, 7);
    let day = part_of(s, 8, 10);
    Date { year, month, day }
}

#[tactic(auto, unfolding(crate::specs::Dates::has_time))]
fn has_time(s: &[u8]) -> bool
    requires { 17 ≤ length s.now }
    ensures { result ≡ has_time s.now }
{
    s[10] == b'T' && is_part(s, 11, 13) && s[13] == b':' && is_part(s, 14, 16) && s[16] == b'Z'
}

#[tactic(auto, unfolding(crate::specs::Dates::moment_in))]
fn moment_in(s: &[u8]) -> Moment
    requires { 17 ≤ length s.now }
    ensures { result ≡ moment_in s.now }
{
    let date = date_in(s);
    let hour = part_of(s, 11, 13);
    let minute = part_of(s, 14, 16);
    Moment { date, hour, minute }
}

// A date or a number.
#[tactic(auto, unfolding(crate::specs::Dates::day_in))]
pub fn day_in(s: &[u8]) -> Option<i64>
    ensures { result ≡ day_in s.now }
{
    if s.len() == DATE && has_date(s) {
        return day_of(date_in(s)).map(|n| i64::from(n));
    }
    number_in(s)
}

// A moment or a number.
#[tactic(auto, unfolding(crate::specs::Dates::minute_in))]
pub fn minute_in(s: &[u8]) -> Option<i64>
    ensures { result ≡ minute_in s.now }
{
    if s.len() == MOMENT && has_date(s) && has_time(s) {
        return minute_of(moment_in(s)).map(|n| i64::from(n));
    }
    number_in(s)
}
