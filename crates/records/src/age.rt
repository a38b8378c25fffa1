// Ages of positions and margins.
ghost use Rattle.std.specs.Prelude.{◌≡◌};
ghost use Rattle.records.specs.Reading.{aged, made_after, position_why, margin_fault};

use terms::refusal::{Fault, Why};

// Whether what was made at one minute has an age of 0 up to the limit at the run's.
pub fn is_aged(run: u32, made: u32, limit: u16) -> bool
    ensures { result ≡ aged run made limit }
{
    made <= run && run - made <= u32::from(limit)
}

// Whether a minute lies after the run's: asked only of what is not aged.
pub fn made_after(run: u32, made: u32) -> bool
    ensures { result ≡ made_after run made }
{
    run < made
}

// Why positions that are not aged are refused: they were made after the run, or else they are stale.
pub fn position_why(run: u32, made: u32) -> Why
    ensures { result ≡ position_why run made }
{
    if made_after(run, made) {
        return Why::PositionAhead;
    }
    Why::PositionAge
}

// The fault of margins that are not aged. It has the shape of the function above, and answers what a unit does: one function of both would need a parameter for each answer.
pub fn margin_fault(run: u32, made: u32) -> Fault
    ensures { result ≡ margin_fault run made }
{
    if made_after(run, made) {
        return Fault::Ahead;
    }
    Fault::Age
}
