// The C call of libflehwella: `desk`'s, under the name of the header.
#![tactic(auto)]

ghost use Rattle.desk.specs.Desk.{Checks};

// The day bytes and one block with room for its result: the written length, or minus the refusal number.
#[unsafe(no_mangle)]
pub extern "C" fn flehwella_check(day: &[u8], block: &[u8], room: &mut [u8]) -> i32
    ensures { Checks day.now block.now room.old result room.new }
{
    desk::flehwella_check(day, block, room)
}
