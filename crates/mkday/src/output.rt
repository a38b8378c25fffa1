// What is made, written many records and blocks at a time.
ghost use Rattle.std.specs.Prelude.{◌≤◌};

use crate::ROOM;
use crate::stop::Stop;
use making::making::Making;
use records::group::GroupRecord;
use std::io;
use text::line::Line;

// The room for what is made, and how many of its bytes wait to be written.
#[derive(Drop)]
pub struct Output<W: io::Write> {
    writer: W,
    room: [u8; ROOM],
    full: usize,
    ghost within: { full ≤ 65536 },
}

impl<W: io::Write> Output<W> {
    pub fn new(writer: W) -> Output<W> {
        Output {
            writer,
            room: [0; ROOM],
            full: 0,
        }
    }

    // What a line makes, behind the bytes that wait.
    pub fn turn(&mut self, making: Making, line: Line, number: u64) -> Result<Making, Stop> {
        let made = making.turn(line, number, &mut self.room[self.full..]);
        let made = made.map_err(Stop::Refused)?;
        if let Some(bytes) = made.whole {
            self.keep(bytes).map_err(Stop::of_output)?;
        }
        Ok(made.next)
    }

    // A record or a block was made: it waits with those before it as long as the longest block fits behind them.
    fn keep(&mut self, bytes: usize) -> io::Result<()> {
        self.full += bytes.min(ROOM - self.full);
        if ROOM - self.full < GroupRecord::LONGEST_BLOCK {
            self.flush()?;
        }
        Ok(())
    }

    // Writes what waits. Nothing waits then, even where it could not be written.
    pub fn flush(&mut self) -> io::Result<()> {
        let full = self.full;
        self.full = 0;
        self.writer.write_all(&self.room[..full])
    }
}
