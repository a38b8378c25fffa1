// A block is checked for a day, with no room: the first refusal, or what would be used and written.
ghost use Rattle.std.specs.Prelude.{◌≡◌, ◌≤◌, length};
ghost use Rattle.terms.specs.Refusals.{reply};
ghost use Rattle.records.specs.Layouts.{group_length};
ghost use Rattle.day.specs.Checking.{block_fields_of, check_of};

use crate::head::block_head_for;
use crate::value::Day;
use blocks::check::{Block, units_checked};
use records::group::group_fields;
use terms::refusal::Refusal;

// The fields of a group record that is there whole, and then its units.
#[tactic(auto, unfolding(crate::specs::Checking::block_fields_of, terms::specs::Reply::next))]
fn block_fields(day: Day, s: &[u8]) -> Result<Block, Refusal>
    requires { group_length ≤ length s.now }
    ensures { reply result ≡ block_fields_of day s.now }
{
    let group = group_fields(s, day.record, day.last)?;
    units_checked(s, group, day.record)
}

impl Day {
    // Whether a block may come, as the next one of the day.
    #[tactic(auto, unfolding(crate::specs::Checking::check_of, terms::specs::Reply::next))]
    pub fn check_block(self, s: &[u8]) -> Result<Block, Refusal>
        ensures { reply result ≡ check_of self s.now }
    {
        block_head_for(self, s)?;
        block_fields(self, s)
    }
}
