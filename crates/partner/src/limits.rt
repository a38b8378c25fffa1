// The limits of a line's values, for the reader and the writer.
ghost use Rattle.std.specs.Prelude.{◌≡◌};
ghost use Rattle.terms.specs.Reply.{is, need};
ghost use Rattle.terms.specs.Refusals.{number_of, reply};
ghost use Rattle.terms.specs.Checks.{in_range};
ghost use Rattle.partner.specs.Line.{within};
ghost use Rattle.partner.specs.Inner.{margins_within};

use crate::line::Line;
use records::day::DayRecord;
use terms::check::nomination;
use terms::quantity::Margins;
use terms::refusal::{Fault, Refusal, Why};

// The place of each value that has a limit: where its field starts in a line that is read, an amount's own and not its letter's.
#[derive(Clone, Copy, PartialEq, Eq, Debug)]
pub struct Places {
    pub quarter: usize,
    pub n: usize,
    pub step_down: usize,
    pub step_up: usize,
}

// A limit that has to hold, told at its place.
#[tactic(auto, unfolding(terms::specs::Reply::need))]
fn need(holds: bool, why: Why, place: usize) -> Result<(), Refusal>
    ensures { reply result ≡ need holds (number_of why) place (is tt) }
{
    if holds {
        Ok(())
    } else {
        Err(Refusal { why, place })
    }
}

// Whether a nomination or a margin is in its range.
#[tactic(auto, unfolding(terms::specs::Refusals::check))]
fn is_in_range(z: i32) -> bool
    ensures { result ≡ in_range z }
{
    nomination(z, Fault::N).is_ok()
}

// The limits of the margins: each by itself, and then in their order.
#[tactic(auto, unfolding(terms::specs::Reply::need, crate::specs::Inner::margins_within))]
fn margins_within(m: Margins, at: Places) -> Result<(), Refusal>
    ensures { reply result ≡ margins_within m at }
{
    need(is_in_range(m.step_down), Why::Range, at.step_down)?;
    need(is_in_range(m.step_up), Why::Range, at.step_up)?;
    need(m.step_down <= m.step_up, Why::Crossed, at.step_up)
}

// The first limit that is passed, at its place.
#[tactic(auto, unfolding(terms::specs::Reply::need, crate::specs::Inner::margins_within, crate::specs::Line::within))]
pub fn limits(l: Line, at: Places) -> Result<(), Refusal>
    ensures { reply result ≡ within l at (is tt) }
{
    need(l.quarter < DayRecord::AUTUMN, Why::Quarter, at.quarter)?;
    need(is_in_range(l.n.0), Why::Range, at.n)?;
    margins_within(l.margins, at)
}
