// The lines of a day, each handed on to its making.
use crate::input::Input;
use crate::output::Output;
use crate::stop::Stop;
use making::making::{Making, Refused};
use making::spot::Spot;
use std::io;
use terms::refusal::Why;
use text::line::line_in;

// How a text ends: 1 at the line after the last, unless it may end there.
fn ending(making: Making, lines: u64) -> Result<(), Stop> {
    if making.is_over() {
        return Ok(());
    }
    Err(Stop::Refused(Refused {
        number: Why::CutShort.number(),
        line: lines.wrapping_add(1),
        spot: Spot::Nowhere,
    }))
}

// All lines, one by one; they are counted down, as the bytes of a line.
fn make_all<R: io::Read, W: io::Write>(
    input: &mut Input<R>,
    output: &mut Output<W>,
    line: &mut [u8],
) -> Result<(), Stop> {
    let mut making = Making::new();
    for _ in 0..u64::MAX {
        let read = input.next_line(line).map_err(|_| Stop::Unread)?;
        let lines = input.lines();
        let Some(length) = read else {
            return ending(making, lines);
        };
        making = output.turn(making, line_in(&line[..length], lines), lines)?;
    }
    Err(Stop::Unread)
}

// The whole text. What waits is written however it ends, and only then is it told.
pub fn make<R: io::Read, W: io::Write>(
    input: &mut Input<R>,
    output: &mut Output<W>,
    line: &mut [u8],
) -> Result<(), Stop> {
    let made = make_all(input, output, line);
    output.flush().map_err(Stop::of_output)?;
    made
}
