// A date and its day number, the days before it from 2000-01-01 on.
ghost use Rattle.std.specs.Prelude.{◌≡◌};
ghost use Rattle.calendar.specs.Calendar.{day_of, date_of};

use crate::days::{date_at, is_date, number_of};

#[derive(Clone, Copy, PartialEq, Eq, PartialOrd, Ord, Debug)]
pub struct Date {
    pub year: u32,
    pub month: u32,
    pub day: u32,
}

// The number of a date from 2000-01-01 to 9999-12-31; none of what is no such date.
#[tactic(auto, unfolding(crate::specs::Calendar::day_of))]
pub fn day_of(d: Date) -> Option<u32>
    ensures { result ≡ day_of d }
{
    if !is_date(d) {
        return None;
    }
    Some(number_of(d))
}

// The date of a delivery day.
pub fn date_of(n: u16) -> Date
    ensures { result ≡ date_of n }
{
    date_at(u32::from(n))
}
