// The checks of a unit's fields, shared by every way in that takes a unit.
ghost use Rattle.std.specs.Prelude.{◌≡◌};
ghost use Rattle.std.specs.Int.Signed.{le_z};
ghost use Rattle.terms.specs.Quantities.{known_class};
ghost use Rattle.terms.specs.Refusals.{check};
ghost use Rattle.terms.specs.Checks.{in_range, is_flag, unit_count, margin_checks, amount_checks};
ghost use Rattle.terms.specs.declared.refusal.Fault.TheVariants.{Class, Pc};

use crate::quantity::{Margins, Nomination, Position, is_class};
use crate::refusal::Fault;

// A group has 1 to UNITS units.
pub const UNITS: usize = 64;

// Whether a group can have so many units.
pub fn is_count(units: usize) -> bool
    ensures { result ≡ unit_count units }
{
    (1..=UNITS).contains(&units)
}

// The fault, unless the test holds.
#[tactic(auto, unfolding(crate::specs::Refusals::check))]
pub fn check(holds: bool, fault: Fault) -> Result<(), Fault>
    ensures { result ≡ check holds fault (Ok tt) }
{
    if holds { Ok(()) } else { Err(fault) }
}

// A nomination, a margin or an interval's end in its range.
#[tactic(auto, unfolding(crate::specs::Refusals::check))]
pub fn nomination(n: i32, fault: Fault) -> Result<(), Fault>
    ensures { result ≡ check (in_range n) fault (Ok tt) }
{
    check(-Nomination::LIMIT <= n && n <= Nomination::LIMIT, fault)
}

// A position in its range.
pub fn position(pc: i32) -> Result<(), Fault>
    ensures { result ≡ check (in_range pc) Pc (Ok tt) }
{
    nomination(pc, Fault::Pc)
}

// A class that a unit can have.
pub fn class(class: u8) -> Result<(), Fault>
    ensures { result ≡ check (known_class class) Class (Ok tt) }
{
    check(is_class(class), Fault::Class)
}

// A byte that is 0 or 1.
pub fn flag(b: u8, fault: Fault) -> Result<(), Fault>
    ensures { result ≡ check (is_flag b) fault (Ok tt) }
{
    check(b <= 1, fault)
}

// Two margins, or two ends, that do not cross.
pub fn ordered(low: i32, high: i32, fault: Fault) -> Result<(), Fault>
    ensures { result ≡ check (le_z low high) fault (Ok tt) }
{
    check(low <= high, fault)
}

// Its margins: 8 for each, then 9.
#[tactic(auto, unfolding(crate::specs::Refusals::check, crate::specs::Checks::margin_checks))]
fn margins(m: Margins) -> Result<(), Fault>
    ensures { result ≡ margin_checks m }
{
    nomination(m.step_down, Fault::StepDown)?;
    nomination(m.step_up, Fault::StepUp)?;
    ordered(m.step_down, m.step_up, Fault::Crossed)
}

// The quantities of a unit given as columns: 8 for each in turn, then 9.
#[tactic(auto, unfolding(crate::specs::Refusals::check, crate::specs::Checks::amount_checks))]
pub fn amounts(n: Nomination, pc: Position, m: Margins) -> Result<(), Fault>
    ensures { result ≡ amount_checks n.0 pc.0 m }
{
    nomination(n.0, Fault::N)?;
    position(pc.0)?;
    margins(m)
}
