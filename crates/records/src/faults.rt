// What a unit's values can have wrong; the first fault is told.
ghost use Rattle.std.specs.Prelude.{◌≡◌, ◌||◌, ◌≤◌, eqb, pos};
ghost use Rattle.numbers.specs.Choice.{eq_z};
ghost use Rattle.terms.specs.Refusals.{check};
ghost use Rattle.terms.specs.declared.refusal.Fault.TheVariants.{NotNominated};
ghost use Rattle.records.specs.Reading.{mark_faults, value_faults, unit_faults};
ghost use Rattle.records.specs.Inner.{is_pair, ends_pass, marks_pass};

use crate::age::{is_aged, margin_fault};
use crate::day::DayRecord;
use crate::quantities::quantities;
use crate::unit::{UnitRecord, is_unit};
use terms::check::{class, flag, position};
use terms::quantity::Nomination;
use terms::refusal::Fault;

// N is 0 when not nominated. One product in place of two tests: which units are nominated cannot be guessed, and a wrong guess costs more than the rest of the check.
#[tactic(auto, unfolding(terms::specs::Refusals::check))]
fn nomination(nominated: u8, n: Nomination) -> Result<(), Fault>
    requires { nominated ≤ 1 }
    ensures { result ≡ check (eqb nominated 1 || eq_z n.0 (pos 0)) NotNominated (Ok tt) }
{
    if n.0 == n.0 * i32::from(nominated) {
        return Ok(());
    }
    Err(Fault::NotNominated)
}

// A number not below the floor, then class, coincide, nominated and N.
#[tactic(auto, unfolding(terms::specs::Refusals::check, crate::specs::Reading::mark_faults))]
fn marks(u: UnitRecord, floor: u32) -> Result<(), Fault>
    ensures { result ≡ mark_faults u floor }
{
    if u32::from(u.number) < floor {
        return Err(Fault::Number);
    }
    class(u.class)?;
    flag(u.coincide, Fault::Coincide)?;
    flag(u.nominated, Fault::Nominated)?;
    nomination(u.nominated, u.n)
}

// All but the age: what the block writer asks too.
#[tactic(auto, unfolding(terms::specs::Refusals::check, crate::specs::Reading::also, crate::specs::Reading::value_faults))]
pub fn faults(u: UnitRecord, floor: u32) -> Result<(), Fault>
    ensures { result ≡ value_faults u floor }
{
    if !is_unit(u.kind) {
        return Err(Fault::Kind);
    }
    marks(u, floor)?;
    quantities(u)
}

// The same, and then the margins' age, by the day.
#[tactic(auto, unfolding(terms::specs::Refusals::check, crate::specs::Reading::also, crate::specs::Reading::unit_faults))]
pub fn unit_faults(u: UnitRecord, floor: u32, day: DayRecord) -> Result<(), Fault>
    ensures { result ≡ unit_faults u floor day }
{
    faults(u, floor)?;
    if is_aged(day.run, u.made, day.margin_limit) {
        return Ok(());
    }
    Err(margin_fault(day.run, u.made))
}

// Whether two margins, or two ends, lie in their ranges and do not cross.
fn is_pair(low: i32, high: i32) -> bool
    ensures { result ≡ is_pair low high }
{
    -UnitRecord::LIMIT <= low && low <= high && high <= UnitRecord::LIMIT
}

// Whether the margins and the ends of an 04h do; of a 03h nothing is asked, whose margins are the working ones.
fn ends_pass(u: UnitRecord) -> bool
    ensures { result ≡ ends_pass u }
{
    u.kind != UnitRecord::INTERVAL_KIND
        || is_pair(u.step_down, u.step_up) && is_pair(u.lower, u.upper)
}

// Whether a unit passes in all but the range of N and its working margins, which are asked of all units at once.
#[tactic(auto, unfolding(terms::specs::Refusals::check, crate::specs::Inner::is_fine, crate::specs::Inner::marks_pass))]
pub fn marks_pass(u: UnitRecord, floor: u32, day: DayRecord) -> bool
    ensures { result ≡ marks_pass u floor day }
{
    let Ok(()) = marks(u, floor) else {
        return false;
    };
    let Ok(()) = position(u.pc.0) else {
        return false;
    };
    is_aged(day.run, u.made, day.margin_limit) && ends_pass(u)
}
