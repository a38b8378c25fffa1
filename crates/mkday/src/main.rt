// Makes the house records of a day from its text, as docs/TEXT.md says.
#![tactic(auto)]

mod input;
mod output;
mod stop;
mod told;
mod turns;

use crate::input::{Input, LINE};
use crate::output::Output;
use std::process::ExitCode;

// The bytes that are read at once, and those that wait to be written.
const ROOM: usize = 65536;

fn main(rt: HostRuntime) -> ExitCode {
    let mut input = Input::new(rt.stdin());
    let mut output = Output::new(rt.stdout());
    let mut line = [0; LINE];
    let made = turns::make(&mut input, &mut output, &mut line);
    let Err(stop) = made else {
        return ExitCode::SUCCESS;
    };
    stop.tell(&mut rt.stderr(), &line);
    stop.status()
}
