// Leap years, and the lengths of years and months.
ghost use Rattle.std.specs.Prelude.{◌≡◌};
ghost use Rattle.calendar.specs.Calendar.{is_leap, days_of_year, days_of_month};

#[tactic(auto, unfolding(crate::specs::Calendar::is_leap))]
pub fn is_leap(year: u32) -> bool
    ensures { result ≡ is_leap year }
{
    year % 400 == 0 || year % 100 != 0 && year % 4 == 0
}

#[tactic(auto, unfolding(crate::specs::Calendar::days_of_year))]
pub fn days_of_year(year: u32) -> u32
    ensures { result ≡ days_of_year year }
{
    if is_leap(year) { 366 } else { 365 }
}

// A match and no table of lengths: it has an answer for every month, and February's goes by the year.
#[tactic(auto, unfolding(crate::specs::Calendar::days_of_month, crate::specs::Calendar::has_thirty))]
pub fn days_of_month(year: u32, month: u32) -> u32
    ensures { result ≡ days_of_month year month }
{
    match month {
        2 => if is_leap(year) { 29 } else { 28 },
        4 | 6 | 9 | 11 => 30,
        _ => 31,
    }
}
