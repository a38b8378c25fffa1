// The walk by slice and place, over which the walker's methods are thin: the next record's extent.
ghost use Rattle.std.specs.Prelude.{◌≡◌, true, ◌+◌, ◌≤◌, length};
ghost use Rattle.terms.specs.Refusals.{reply};
ghost use Rattle.records.specs.Layouts.{group_length};
ghost use Rattle.walk.specs.Table.{is_block};
ghost use Rattle.walk.specs.Walk.{heads_of, block_end_of, whole_of, record_of, step_of};

use crate::table::{Head, State, head_in};
use records::group::GroupRecord;
use records::units::unit_head;
use terms::refusal::{Refusal, Why};

// Where a record or a whole block lies, and the state after it.
#[derive(Clone, Copy, PartialEq, Eq, Debug)]
pub struct Extent {
    pub start: usize,
    pub end: usize,
    pub after: State,
}

// Where so many units from a place on end: 2 and 1 of each.
#[tactic(auto, using(crate::proofs::UnitHeads::heads_more, crate::proofs::UnitHeads::heads_none), unfolding(terms::specs::Reply::next))]
fn unit_heads(s: &[u8], at: usize, count: u8) -> Result<usize, Refusal>
    ensures { reply result ≡ heads_of s.now at count }
{
    let mut here = at;
    for _ in 0..count {
        here = unit_head(s, here)?;
    }
    Ok(here)
}

// Hints from here to `next`: a walker takes it in a loop, and a reply that stays in registers saves a sixth of a walk.
// Where the block ends whose group record is there whole: of the fields only 5, then the units.
#[tactic(auto, unfolding(crate::specs::Walk::block_end_of, records::specs::Layouts::group_at, terms::specs::Reply::need))]
#[inline(always)]
fn block_end(s: &[u8], at: usize) -> Result<usize, Refusal>
    requires { at + group_length ≤ length s.now }
    ensures { reply result ≡ block_end_of s.now at }
{
    let place = at + GroupRecord::COUNT;
    let count = s[place];
    if !GroupRecord::permits(usize::from(count)) {
        return Err(Refusal {
            why: Why::UnitCount,
            place,
        });
    }
    unit_heads(s, at + GroupRecord::LEN, count)
}

// Where a record ends whose head was read: a block takes its units along.
#[tactic(auto, unfolding(crate::specs::Walk::whole_of))]
#[inline(always)]
fn whole(s: &[u8], at: usize, head: Head) -> Result<usize, Refusal>
    requires { is_block head.role ≡ true → at + group_length ≤ length s.now }
    ensures { reply result ≡ whole_of s.now at head }
{
    if head.role.is_block() {
        return block_end(s, at);
    }
    Ok(head.end)
}

#[tactic(auto, unfolding(crate::specs::Walk::record_of, terms::specs::Reply::next))]
#[inline(always)]
fn record_at(s: &[u8], state: State, at: usize) -> Result<Option<Extent>, Refusal>
    ensures { reply result ≡ record_of s.now state at }
{
    let head = head_in(s, at, state)?;
    let end = whole(s, at, head)?;
    Ok(Some(Extent {
        start: at,
        end,
        after: head.role.state_after(),
    }))
}

// The next record from a place on, a whole block as one; none where the day is closed and nothing is left.
#[tactic(auto, unfolding(crate::specs::Walk::step_of, crate::specs::Walk::record_of, crate::specs::Table::head_in, terms::specs::Reply::next, terms::specs::Reply::need))]
#[inline(always)]
pub fn next(s: &[u8], state: State, place: usize) -> Result<Option<Extent>, Refusal>
    ensures { reply result ≡ step_of s.now state place }
{
    let n = s.len();
    if place < n {
        return record_at(s, state, place);
    }
    if state.is_closed() {
        return Ok(None);
    }
    Err(Refusal {
        why: Why::CutShort,
        place: n,
    })
}
