// The day list: a day from standard input, its lines to standard output, in constant memory; what keeps the list from being whole, to standard error.
#![tactic(auto)]

ghost use Rattle.std.specs.Prelude.{◌≡◌, true};
ghost use Rattle.terms.specs.Refusals.{number_of};
ghost use Rattle.daylist.specs.Inner.{Places};
ghost use Rattle.daylist.specs.declared.work.Run.TheVariants.{Refused};
ghost use Rattle.daylist.specs.Works.{is_going, TookTurn};
ghost use Rattle.daylist.specs.Saying.{Ended, CameTo};

mod plant;
mod watched;
mod work;

use listing::list::{Listed, list_next};
use naming::name::LINE;
use plant::plant_line;
use std::io;
use std::process::ExitCode;
use terms::refusal::Refusal;
use watched::Watched;
use work::{ROOM, Run, Work};

// The status of a run whose list nobody reads: what a shell gives for a program that SIGPIPE ended.
const AS_BY_SIGPIPE: u8 = 141;

// One step of the list; where it waits, what it holds is written and more is read.
fn turn<R: io::Read, W: io::Write>(
    reader: &mut R,
    writer: &mut W,
    w: Work,
    input: &mut [u8; ROOM],
    output: &mut [u8; ROOM],
) -> Work
    requires { Places w × (is_going w.run ≡ true) }
    ensures { TookTurn w input.old output.old result input.new output.new × Places result }
{
    match list_next(
        w.listing,
        &input[w.from..w.end],
        w.ended,
        &mut output[w.full..],
    ) {
        Listed::Taken(part) => w.advanced(part),
        Listed::Refused(stop) => w.refused(stop),
        Listed::Waits => w.waited(reader, writer, input, output),
        Listed::Full => w.flushed(writer, output),
        Listed::Done => w.stopped(Run::Whole, 0),
    }
}

// Nothing says that the input ends, so the turns are counted to a number that no run uses up.
fn all_turns<R: io::Read, W: io::Write>(
    reader: &mut R,
    writer: &mut W,
    input: &mut [u8; ROOM],
    output: &mut [u8; ROOM],
) -> Work
    ensures { Ended result input.new × Places result }
{
    let mut w = Work::fresh();
    for _ in 0..u64::MAX {
        if !w.run.is_going() {
            break;
        }
        w = turn(reader, writer, w, input, output);
    }
    w.flushed(writer, output)
}

// A run that ended: what it kept at last, and its input buffer then. The ghost field holds that there is such a run, and not the run itself, which has all that was read and written and is no bare fact.
#[derive(Clone, Copy)]
struct Ending<'a> {
    work: Work,
    input: &'a [u8; ROOM],
    ghost ended: { ∥ Ended work input.now ∥₁ },
    ghost places: { Places work },
}

impl Ending<'_> {
    // The line of the refusal, which names the plant.
    fn say_plant<W: io::Write>(&self, err: &mut W, r: Refusal) -> io::Result<()>
        requires { CameTo self.now.work r }
    {
        let mut line = [0; LINE];
        let n = plant_line(self.work, r, self.input, &mut line);
        let _ = err.write_all(b"daylist: ");
        err.write_all(&line[..n])
    }

    // The number stands beside the refusal, so that a clause says which number is written: what `write!` writes no contract tells.
    fn say_refused<W: io::Write>(
        &self,
        err: &mut W,
        r: Refusal,
        number: u8,
        place: u64,
    ) -> io::Result<()>
        requires { (self.now.work.run ≡ Refused r place) × (number ≡ number_of r.why) }
    {
        let _ = write!(err, "daylist: refused {number} at {place}\n");
        self.say_plant(err, r)
    }

    // A list that is not whole is said to be so; where the turns were used up it is the input that did not end.
    fn say<W: io::Write>(&self, err: &mut W) -> io::Result<()> {
        match self.work.run {
            Run::Whole => Ok(()),
            Run::Refused(r, place) => self.say_refused(err, r, r.why.number(), place),
            Run::Going | Run::InputFailed => {
                err.write_all(b"daylist: standard input cannot be read\n")
            }
            Run::OutputFailed => err.write_all(b"daylist: standard output cannot be written\n"),
        }
    }
}

// Of a list that nobody reads any more nothing is said. Words that cannot be said change nothing.
fn main(rt: HostRuntime) -> ExitCode {
    let mut input = [0; ROOM];
    let mut output = [0; ROOM];
    let mut list = Watched::new(rt.stdout());
    let work = all_turns(&mut rt.stdin(), &mut list, &mut input, &mut output);
    if list.is_unread() {
        return ExitCode::from(AS_BY_SIGPIPE);
    }
    let ending = Ending {
        work,
        input: &input,
    };
    let _ = ending.say(&mut rt.stderr());
    ExitCode::SUCCESS
}
