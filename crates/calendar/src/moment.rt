// A moment, in UTC, and its minute number, the minutes before it.
ghost use Rattle.std.specs.Prelude.{◌≡◌, ◌≤◌};
ghost use Rattle.calendar.specs.Calendar.{is_moment, minute_of, moment_of, shown_of, last_minute};

use crate::date::Date;
use crate::days::{date_at, is_date, number_of};

// The minutes of a day.
const DAY: u32 = 1440;

// 9999-12-31T23:59Z.
const LAST: u32 = 4207593599;

#[derive(Clone, Copy, PartialEq, Eq, PartialOrd, Ord, Debug)]
pub struct Moment {
    pub date: Date,
    pub hour: u32,
    pub minute: u32,
}

#[tactic(auto, unfolding(crate::specs::Calendar::is_moment))]
fn is_moment(m: Moment) -> bool
    ensures { result ≡ is_moment m }
{
    is_date(m.date) && m.hour < 24 && m.minute < 60
}

// The number of a moment; none of what is no moment from 2000-01-01T00:00Z to 9999-12-31T23:59Z.
#[tactic(auto, using(crate::proofs::Valid::dates), unfolding(crate::specs::Calendar::minute_of, crate::specs::Calendar::minute_number))]
pub fn minute_of(m: Moment) -> Option<u32>
    ensures { result ≡ minute_of m }
{
    if !is_moment(m) {
        return None;
    }
    Some(number_of(m.date) * DAY + (m.hour * 60 + m.minute))
}

#[tactic(auto, unfolding(crate::specs::Calendar::moment_of))]
fn moment_at(n: u32) -> Moment
    requires { n ≤ last_minute }
    ensures { result ≡ moment_of n }
{
    Moment {
        date: date_at(n / DAY),
        hour: n % DAY / 60,
        minute: n % 60,
    }
}

// A minute as a moment, up to the last one; none of what is later.
#[tactic(auto, unfolding(crate::specs::Calendar::shown_of))]
pub fn moment_of(n: u32) -> Option<Moment>
    ensures { result ≡ shown_of n }
{
    if LAST < n {
        return None;
    }
    Some(moment_at(n))
}
