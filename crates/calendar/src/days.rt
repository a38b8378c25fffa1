// Day numbers and dates: the years and months that are over, and the days since.
ghost use Rattle.std.specs.Prelude.{◌≡◌, true, ◌+◌, ◌≤◌, ◌<◌};
ghost use Rattle.calendar.specs.Calendar.{days_of_years, days_of_months, days_of_year, is_date, day_number, years_by, months_by, date_in, date_of};

use crate::date::Date;
use crate::months::{days_of_month, days_of_year};

const FIRST_YEAR: u32 = 2000;

const LAST_YEAR: u32 = 9999;

// Years and months each have a sum and a search of their own: one function over what gives a length would be no plainer, since each has its own first one and its own bound.

#[tactic(auto, using(crate::proofs::Lengths::spans))]
fn days_of_years(years: u32) -> u32
    requires { years < 8000 }
    ensures { (result ≡ days_of_years years) × (result ≤ 2928000) }
{
    let mut days = 0;
    for k in 0..years {
        days += days_of_year(FIRST_YEAR + k);
    }
    days
}

#[tactic(auto, using(crate::proofs::Lengths::spans))]
fn days_of_months(year: u32, months: u32) -> u32
    requires { months < 12 }
    ensures { (result ≡ days_of_months year months) × (result ≤ 341) }
{
    let mut days = 0;
    for k in 0..months {
        days += days_of_month(year, k + 1);
    }
    days
}

#[tactic(auto, unfolding(crate::specs::Calendar::is_date))]
pub fn is_date(d: Date) -> bool
    ensures { result ≡ is_date d }
{
    (FIRST_YEAR..=LAST_YEAR).contains(&d.year)
        && (1..=12).contains(&d.month)
        && (1..=days_of_month(d.year, d.month)).contains(&d.day)
}

// The days before a date.
#[tactic(auto, using(crate::proofs::Valid::dates), unfolding(crate::specs::Calendar::day_number))]
pub fn number_of(d: Date) -> u32
    requires { is_date d ≡ true }
    ensures { (result ≡ day_number d) × (result < 2921940) }
{
    days_of_years(d.year - FIRST_YEAR) + days_of_months(d.year, d.month - 1) + (d.day - 1)
}

// The years that are over by a day.
#[tactic(auto, using(crate::proofs::Lengths::spans, crate::proofs::Trips::years_over))]
fn years_by(n: u32) -> u32
    requires { n < 2921940 }
    ensures { (result ≡ years_by n) × (days_of_years result ≤ n) × (n < days_of_years (result + 1)) × (result < 8000) }
{
    let mut next = 0;
    for years in 0..=LAST_YEAR - FIRST_YEAR {
        next += days_of_year(FIRST_YEAR + years);
        if n < next {
            return years;
        }
    }
    unreachable!()
}

// The months of a year that are over by a day of it.
#[tactic(auto, using(crate::proofs::Lengths::spans, crate::proofs::Trips::months_over))]
fn months_by(year: u32, n: u32) -> u32
    requires { n < days_of_year year }
    ensures { (result ≡ months_by year n) × (days_of_months year result ≤ n) × (result < 12) }
{
    let mut next = 0;
    for months in 0..12 {
        next += days_of_month(year, months + 1);
        if n < next {
            return months;
        }
    }
    unreachable!()
}

#[tactic(auto, using(crate::proofs::Lengths::spans), unfolding(crate::specs::Calendar::date_in))]
fn date_in(year: u32, n: u32) -> Date
    requires { n < days_of_year year }
    ensures { result ≡ date_in year n }
{
    let months = months_by(year, n);
    Date {
        year,
        month: months + 1,
        day: n - days_of_months(year, months) + 1,
    }
}

// The date of a day up to 9999-12-31.
#[tactic(auto, using(crate::proofs::Lengths::spans), unfolding(crate::specs::Calendar::date_of))]
pub fn date_at(n: u32) -> Date
    requires { n < 2921940 }
    ensures { result ≡ date_of n }
{
    let years = years_by(n);
    date_in(FIRST_YEAR + years, n - days_of_years(years))
}
