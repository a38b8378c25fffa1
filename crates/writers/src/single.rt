// The writers of a single record.
ghost use Rattle.writers.specs.Writing.{DayWritten, EndWritten};

use crate::lay::{lay_day, lay_end};
use crate::refuse::refused;
use records::day::DayRecord;
use records::end::EndRecord;
use terms::refusal::{Refusal, Why};

// A day record in the room's first bytes, where its quarters and the room pass.
pub fn write_day(d: DayRecord, room: &mut [u8]) -> Result<usize, Refusal>
    ensures { DayWritten d room.old result room.new }
{
    if !DayRecord::permits(d.quarters) {
        return refused(Why::Quarters);
    }
    let len = d.length();
    if room.len() < len {
        return refused(Why::Room);
    }
    lay_day(room, 0, d);
    Ok(len)
}

// An end record in the room's first bytes, with any count of groups: 12.
pub fn write_end(groups: u32, room: &mut [u8]) -> Result<usize, Refusal>
    ensures { EndWritten (record { groups = groups }) room.old result room.new }
{
    if room.len() < EndRecord::LEN {
        return refused(Why::Room);
    }
    lay_end(room, 0, EndRecord::new(groups));
    Ok(EndRecord::LEN)
}
