// What the program keeps between two steps of the list.
ghost use Rattle.std.specs.Prelude.{◌≡◌, ◌+◌, ◌-◌, ◌≤◌, ◌<◌, length, true, pos, negsuc, IfOk, MatchResult};
ghost use Rattle.daylist.specs.Inner.{Places};
ghost use Rattle.daylist.specs.declared.work.Run.TheVariants.{Refused};
ghost use Rattle.daylist.specs.Works.{fresh_work, is_going, held_of, advanced_by, stopped_by, wrote_by, WroteOut, read_by, Read, Refilled, Waited};

use day::value::Day;
use listing::list::{Listing, Part, Stop};
use std::io;
use terms::refusal::Refusal;

// The bytes of either buffer.
pub const ROOM: usize = 65536;

// How far the run is: it goes on, the list is whole, or what ended it.
#[derive(Clone, Copy, PartialEq, Eq, Debug)]
pub enum Run {
    Going,
    Whole,
    // The refusal, and its place in the input.
    Refused(Refusal, u64),
    InputFailed,
    OutputFailed,
}

impl Run {
    pub fn is_going(self) -> bool
        ensures { result ≡ is_going self }
    {
        matches!(self, Run::Going)
    }
}

// The list so far; the bytes at hand lie from `from` to `end` of the input buffer, the first `full` bytes of the output buffer wait to be written. The buffers stay beside it: the definitions of a run (`TookTurn`, `Refilled`) tell apart what becomes of it and of each buffer, and build a Work, so that its places lie in the buffers is a clause (`Places`) and no ghost field.
#[derive(Clone, Copy)]
pub struct Work {
    pub listing: Listing,
    pub from: usize,
    pub end: usize,
    pub full: usize,
    pub ended: bool,
    pub run: Run,
}

impl Work {
    pub fn fresh() -> Work
        ensures { result ≡ fresh_work }
    {
        Work {
            listing: Listing {
                day: Day::fresh(),
                place: 0,
            },
            from: 0,
            end: 0,
            full: 0,
            ended: false,
            run: Run::Going,
        }
    }

    // A record or block was listed.
    pub fn advanced(self, part: Part) -> Work
        requires { Places self × ((self.from + part.used ≤ self.end) × (self.full + part.written ≤ 65536)) }
        ensures { (result ≡ advanced_by self part) × Places result }
    {
        Work {
            listing: part.listing,
            from: self.from + part.used,
            full: self.full + part.written,
            ..self
        }
    }

    // The run comes to this, with so many bytes of a last line.
    pub fn stopped(self, run: Run, n: usize) -> Work
        requires { Places self × (self.full + n ≤ 65536) }
        ensures { (result ≡ stopped_by self run n) × Places result }
    {
        Work {
            full: self.full + n,
            run,
            ..self
        }
    }

    // A record or block was refused.
    pub fn refused(self, stop: Stop) -> Work
        requires { Places self × (self.full + stop.written ≤ 65536) }
        ensures { (result ≡ stopped_by self (Refused stop.refusal stop.place) stop.written) × Places result }
    {
        self.stopped(Run::Refused(stop.refusal, stop.place), stop.written)
    }

    // The lines that wait.
    fn held(self, output: &[u8; ROOM]) -> &[u8]
        requires { Places self }
        ensures { result.now ≡ held_of self output.now }
    {
        &output[..self.full]
    }

    // The lines that wait were handed over: a run whose lines are not taken ends, whatever it came to. `WroteOut` does not tell which it was, so this stands by itself.
    fn wrote(self, taken: bool) -> Work
        requires { Places self }
        ensures { (result ≡ wrote_by self taken) × Places result }
    {
        let run = if taken { self.run } else { Run::OutputFailed };
        Work {
            full: 0,
            run,
            ..self
        }
    }

    // The lines that wait are written.
    pub fn flushed<W: io::Write>(self, writer: &mut W, output: &[u8; ROOM]) -> Work
        requires { Places self }
        ensures { WroteOut self result × Places result }
    {
        let taken = writer.write_all(self.held(output)).is_ok();
        self.wrote(taken)
    }

    // What a read answered: so many bytes came, none where the input has ended; one that fails is no end of the input. `Read` does not tell which it was, so this stands by itself.
    fn read_gave(self, from: usize, end: usize, got: io::Result<usize>) -> Work
        requires { Places self × ((from ≤ end) × IfOk got (λ n. end + n ≤ 65536)) }
        ensures { MatchResult got (λ n. result ≡ read_by self from end (pos n)) (λ _. result ≡ read_by self from end (negsuc 0)) × Places result }
    {
        match got {
            Ok(n) => Work {
                from,
                end: end + n,
                ended: n == 0,
                ..self
            },
            Err(_) => self.stopped(Run::InputFailed, 0),
        }
    }

    // More is read into the room behind the bytes at hand, which lie at these places.
    fn read_more<R: io::Read>(
        self,
        reader: &mut R,
        from: usize,
        end: usize,
        free: &mut [u8],
    ) -> Work
        requires { Places self × ((from ≤ end) × ((end + length free.old ≡ 65536) × (0 < length free.old))) }
        ensures { Read self from end free.new result × Places result }
    {
        let got = reader.read(free);
        self.read_gave(from, end, got)
    }

    // More of the input is read, behind the bytes at hand, which are moved to the front where there is no room behind them.
    fn refilled<R: io::Read>(self, reader: &mut R, input: &mut [u8; ROOM]) -> Work
        requires { Places self × (self.end - self.from < 65536) }
        ensures { Refilled self input.old result input.new × Places result }
    {
        let end = self.end;
        if end < ROOM {
            return self.read_more(reader, self.from, end, &mut input[end..]);
        }
        let n = end - self.from;
        input.copy_within(self.from..end, 0);
        self.read_more(reader, 0, n, &mut input[n..])
    }

    // The list waits: first what it wrote is handed on, and then more is read.
    pub fn waited<R: io::Read, W: io::Write>(
        self,
        reader: &mut R,
        writer: &mut W,
        input: &mut [u8; ROOM],
        output: &[u8; ROOM],
    ) -> Work
        requires { Places self × ((is_going self.run ≡ true) × (self.end - self.from < 65536)) }
        ensures { Waited self input.old result input.new × Places result }
    {
        let flushed = self.flushed(writer, output);
        if flushed.run.is_going() {
            flushed.refilled(reader, input)
        } else {
            flushed
        }
    }
}
