// The line of a refusal, which names the plant.
ghost use Rattle.std.specs.Prelude.{◌≡◌, length};
ghost use Rattle.naming.specs.Words.{Names};
ghost use Rattle.daylist.specs.Inner.{Places};
ghost use Rattle.daylist.specs.Works.{hand_of};
ghost use Rattle.daylist.specs.Saying.{CameTo};

use crate::work::{ROOM, Work};
use naming::name::name;
use terms::refusal::Refusal;

// The refusal that ended the run is named from the list's day and the bytes at hand, which stand as they were when these were refused.
pub fn plant_line(w: Work, r: Refusal, input: &[u8; ROOM], line: &mut [u8]) -> usize
    requires { CameTo w r × Places w }
    ensures { Names w.listing.day (hand_of w input.now) r line.old result line.new }
{
    name(w.listing.day, &input[w.from..w.end], r, line)
}
