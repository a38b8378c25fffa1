// A unit's quantities: 8 for each in turn, then 9, then 19.
ghost use Rattle.std.specs.Prelude.{◌≡◌};
ghost use Rattle.records.specs.Inner.{pair_faults, working_faults};
ghost use Rattle.records.specs.Reading.{range_faults, ends_fit, order_faults, quantity_faults};

use crate::unit::UnitRecord;
use terms::check::{check, nomination, ordered, position};
use terms::refusal::Fault;

// Each in its range.
fn ranges(u: UnitRecord) -> Result<(), Fault>
    ensures { result ≡ range_faults u }
{
    nomination(u.n.0, Fault::N)?;
    position(u.pc.0)?;
    nomination(u.step_down, Fault::StepDown)?;
    nomination(u.step_up, Fault::StepUp)?;
    nomination(u.lower, Fault::Lower)?;
    nomination(u.upper, Fault::Upper)
}

// A 03h has the full ends.
fn ends_fit(u: UnitRecord) -> bool
    ensures { result ≡ ends_fit u }
{
    u.kind == UnitRecord::INTERVAL_KIND
        || u.lower == -UnitRecord::LIMIT && u.upper == UnitRecord::LIMIT
}

// Margins, and ends, that do not cross.
#[tactic(auto, unfolding(terms::specs::Refusals::check, crate::specs::Inner::pair_faults))]
fn pairs(u: UnitRecord) -> Result<(), Fault>
    ensures { result ≡ pair_faults u }
{
    ordered(u.step_down, u.step_up, Fault::Crossed)?;
    ordered(u.lower, u.upper, Fault::EndsCrossed)
}

// Ends that the kind may have, and working margins that do not cross.
#[tactic(auto, unfolding(terms::specs::Refusals::check, crate::specs::Inner::working_faults))]
fn working(u: UnitRecord) -> Result<(), Fault>
    ensures { result ≡ working_faults u }
{
    check(ends_fit(u), Fault::NotFull)?;
    let m = u.margins();
    ordered(m.step_down, m.step_up, Fault::WorkingCrossed)
}

// Nothing that crosses.
#[tactic(auto, unfolding(crate::specs::Reading::also), using(crate::proofs::Checks::order_parts))]
fn orders(u: UnitRecord) -> Result<(), Fault>
    ensures { result ≡ order_faults u }
{
    pairs(u)?;
    working(u)
}

#[tactic(auto, unfolding(crate::specs::Reading::also, crate::specs::Reading::quantity_faults))]
pub fn quantities(u: UnitRecord) -> Result<(), Fault>
    ensures { result ≡ quantity_faults u }
{
    ranges(u)?;
    orders(u)
}
