// A record or block is offered to a day: refused, or taken, with what it leaves.
ghost use Rattle.std.specs.Prelude.{◌≡◌, ◌≤◌, ◌<◌, length};
ghost use Rattle.terms.specs.Refusals.{reply};
ghost use Rattle.records.specs.Layouts.{group_length, end_length};
ghost use Rattle.records.specs.Reading.{day_end};
ghost use Rattle.blocks.specs.Blocks.{block_result};
ghost use Rattle.day.specs.Outcome.{outcome};
ghost use Rattle.day.specs.Offers.{day_taken, block_taken, end_taken, Gave, Offering, Offers, OffersBlock};

use crate::head::{block_head_for, head_for};
use crate::value::Day;
use blocks::result::take_units;
use records::day::day_fields;
use records::end::end_fields;
use records::group::group_fields;
use terms::refusal::Refusal;
use walk::table::Role;

// What an accepted offer leaves beside the day: how many bytes were used, and how many written.
#[derive(Clone, Copy, PartialEq, Eq, Debug)]
pub struct Lengths {
    pub used: usize,
    pub written: usize,
}

impl Day {
    // A day record that is there whole and ends at a place opens the day.
    #[tactic(auto, unfolding(crate::specs::Offers::day_taken, crate::specs::Offers::day_after, terms::specs::Reply::next))]
    fn open(&mut self, s: &[u8], end: usize) -> Result<Lengths, Refusal>
        requires { day_end s.now ≤ length s.now }
        ensures { Gave (day_taken s.now end) self.old (outcome result self.new) }
    {
        let record = day_fields(s)?;
        *self = Day::opened(record);
        Ok(Lengths {
            used: end,
            written: 0,
        })
    }

    // A block whose head came: its group record, then its units and the room; its result is written, and the block is counted.
    #[tactic(auto, unfolding(crate::specs::Offers::block_taken, crate::specs::Checking::block_fields_of, crate::specs::Offers::day_after, crate::specs::Offers::room_after, terms::specs::Reply::next))]
    fn take_block(&mut self, s: &[u8], room: &mut [u8]) -> Result<Lengths, Refusal>
        requires { (group_length ≤ length s.now) × (self.old.groups < 4294967295) }
        ensures { Offering (block_taken self.old s.now (length room.old)) (block_result s.now) self.old room.old (outcome result self.new) room.new }
    {
        let group = group_fields(s, self.record, self.last)?;
        let block = take_units(s, group, self.record, room)?;
        *self = self.counted(block.key);
        Ok(Lengths {
            used: block.used,
            written: block.written,
        })
    }

    // An end record that is there whole and ends at a place closes the day.
    #[tactic(auto, unfolding(crate::specs::Offers::end_taken, crate::specs::Offers::day_after, terms::specs::Reply::next))]
    fn close(&mut self, s: &[u8], end: usize) -> Result<Lengths, Refusal>
        requires { end_length ≤ length s.now }
        ensures { Gave (end_taken self.old s.now end) self.old (outcome result self.new) }
    {
        end_fields(s, self.groups)?;
        *self = self.closed();
        Ok(Lengths {
            used: end,
            written: 0,
        })
    }

    // One record or block, offered to the day; bytes after it are not read. A refusal leaves the day and the room as they were.
    #[tactic(auto, unfolding(crate::specs::Offers::offer_of, crate::specs::Offers::day_after, crate::specs::Offers::room_after, terms::specs::Reply::next))]
    pub fn offer(&mut self, s: &[u8], room: &mut [u8]) -> Result<Lengths, Refusal>
        ensures { Offers self.old s.now room.old (outcome result self.new) room.new }
    {
        let head = head_for(*self, s)?;
        // Three steps that need three things: no plainer as closures.
        match head.role {
            Role::Opens => self.open(s, head.end),
            Role::Block => self.take_block(s, room),
            Role::Closes => self.close(s, head.end),
        }
    }

    // One block, offered to a day that takes a block next; any other record is 2.
    #[tactic(auto, unfolding(crate::specs::Offers::block_offer_of, crate::specs::Offers::day_after, crate::specs::Offers::room_after, terms::specs::Reply::next))]
    pub fn offer_block(&mut self, s: &[u8], room: &mut [u8]) -> Result<Lengths, Refusal>
        ensures { OffersBlock self.old s.now room.old (outcome result self.new) room.new }
    {
        block_head_for(*self, s)?;
        self.take_block(s, room)
    }
}
