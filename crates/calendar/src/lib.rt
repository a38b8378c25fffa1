// The Gregorian calendar from 2000-01-01 to 9999-12-31: dates and day numbers, moments and minute numbers.
// Own days and not those of jiff: what is promised is the day numbers of specs/ (`day_of`, `date_of`), which jiff's contracts do not state.
#![tactic(auto)]

pub mod date;
mod days;
pub mod moment;
mod months;
