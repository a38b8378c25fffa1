// The program behind `daylist --dates`: the first line of standard input, with dates where it is the DAY line. It reads no byte behind the
// line feed, so that the rest of the list goes past it.
#![tactic(auto)]

ghost use Rattle.std.specs.Prelude.{◌≤◌, length};

use shown::show::show;
use std::io;

const LINE_FEED: u8 = 10;

// No line of the list is as long; of one that is longer, this much is taken.
const LONGEST: usize = 255;

// Reads up to the line feed, and gives how many bytes there are with it. Nothing is behind an input that has ended or cannot be read.
fn read_line<R: io::Read>(reader: &mut R, line: &mut [u8]) -> usize
    ensures { result ≤ length line.new }
{
    for at in 0..line.len() {
        let Ok(1..) = reader.read(&mut line[at..at + 1]) else {
            return at;
        };
        if line[at] == LINE_FEED {
            return at + 1;
        }
    }
    line.len()
}

// The length of a line without its line feed.
fn bare_length(line: &[u8]) -> usize
    ensures { result ≤ length line.now }
{
    line.len() - usize::from(line.ends_with(&[LINE_FEED]))
}

// A line that has no line feed has nothing behind what is shown. Each of the two is written whatever became of the other.
fn write_shown<W: io::Write>(writer: &mut W, line: &[u8], room: &mut [u8]) {
    let (bare, feed) = line.split_at(bare_length(line));
    let length = show(bare, room);
    let _ = writer.write_all(&room[..length]);
    let _ = writer.write_all(feed);
}

fn main(rt: HostRuntime) {
    let mut line = [0; LONGEST];
    let mut room = [0; LONGEST];
    let length = read_line(&mut rt.stdin(), &mut line);
    write_shown(&mut rt.stdout(), &line[..length], &mut room);
}
