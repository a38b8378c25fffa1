// The lines of standard input, one at a time.
ghost use Rattle.std.specs.Prelude.{◌≤◌, length, IfOk, IfSome};

use crate::ROOM;
use std::io;
use text::line::{LONGEST, MARK};

const LINE_FEED: u8 = 10;

// The room for a line: one that fills it is too long, or its comment is cut.
pub const LINE: usize = MARK + LONGEST + 1;

// What is read, a chunk at a time: where the next byte and the end of the chunk lie, and the lines so far.
#[derive(Drop)]
pub struct Input<R: io::Read> {
    reader: R,
    chunk: [u8; ROOM],
    at: usize,
    end: usize,
    lines: u64,
    ghost within: { end ≤ 65536 },
}

impl<R: io::Read> Input<R> {
    pub fn new(reader: R) -> Input<R> {
        Input {
            reader,
            chunk: [0; ROOM],
            at: 0,
            end: 0,
            lines: 0,
        }
    }

    // The number of the line at hand.
    pub fn lines(&self) -> u64 {
        self.lines
    }

    // The next byte, none where the input is over.
    fn next_byte(&mut self) -> io::Result<Option<u8>> {
        if self.end <= self.at {
            self.end = self.reader.read(&mut self.chunk)?;
            self.at = 0;
            if self.end == 0 {
                return Ok(None);
            }
        }
        let byte = self.chunk[self.at];
        self.at += 1;
        Ok(Some(byte))
    }

    // The length of the next line, none where the input is over: a last line may have no line feed. Bytes past the room are left out. Nothing says that
    // the input ends, so the bytes are counted down from a number that no run uses up.
    pub fn next_line(&mut self, line: &mut [u8]) -> io::Result<Option<usize>>
        ensures within { IfOk result (λ read. IfSome read (λ n. n ≤ length line.new)) }
    {
        let mut length = 0;
        for _ in 0..u64::MAX {
            match self.next_byte()? {
                Some(byte) if byte != LINE_FEED => {
                    if length < line.len() {
                        line[length] = byte;
                        length += 1;
                    }
                }
                None if length == 0 => return Ok(None),
                _ => {
                    self.lines = self.lines.wrapping_add(1);
                    return Ok(Some(length));
                }
            }
        }
        Err(io::Error::from(io::ErrorKind::TimedOut))
    }
}
