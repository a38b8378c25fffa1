// The head of what is offered to a day, and of what is to be a block.
ghost use Rattle.std.specs.Prelude.{◌≡◌, ◌≤◌};
ghost use Rattle.terms.specs.Refusals.{reply};
ghost use Rattle.day.specs.Checking.{due_of, block_head_for};
ghost use Rattle.day.specs.Offers.{head_for};

use crate::value::Day;
use terms::refusal::{Refusal, Why};
use walk::table::{Head, State, block_head, head_in};

// The state by which the table says what may come: 1 where nothing is offered, and 2 of a day that no run of calls gives.
#[tactic(auto, unfolding(crate::specs::Checking::due_of, terms::specs::Reply::need))]
fn due(day: Day, s: &[u8]) -> Result<State, Refusal>
    ensures { reply result ≡ due_of day s.now }
{
    if s.is_empty() {
        return Err(Refusal {
            why: Why::CutShort,
            place: 0,
        });
    }
    if !day.is_possible() {
        return Err(Refusal {
            why: Why::Kind,
            place: 0,
        });
    }
    Ok(day.state)
}

// The head of what is offered, by the table.
#[tactic(auto, unfolding(crate::specs::Checking::due_of, crate::specs::Offers::head_for, terms::specs::Reply::need))]
pub fn head_for(day: Day, s: &[u8]) -> Result<Head, Refusal>
    ensures reply { reply result ≡ head_for day s.now }
    ensures groups { day.groups ≤ 4294967295 }
{
    head_in(s, 0, due(day, s)?)
}

// The head of what is to be a block: any other record is 2.
#[tactic(auto, unfolding(crate::specs::Checking::due_of, crate::specs::Checking::block_head_for, terms::specs::Reply::need))]
pub fn block_head_for(day: Day, s: &[u8]) -> Result<Head, Refusal>
    ensures reply { reply result ≡ block_head_for day s.now }
    ensures groups { day.groups ≤ 4294967295 }
{
    block_head(s, 0, due(day, s)?)
}
