// Answers as numbers: a refusal's number, or 0 where the call was accepted, and then the refusal's place, or what the call gives back.
ghost use Rattle.ways.specs.Telling.{Told};

use blocks::check::Block;
use day::offer::Lengths;
use group::judge::Sums;
use partner::line::LineRead;
use terms::refusal::Refusal;
use walk::step::Extent;

// What stands in the place of a refusal's number where a walk is done.
const DONE: u64 = 255;

// A signed number is told by its 32 bits.
fn bits(x: i32) -> u64 {
    u64::from(x.cast_unsigned())
}

fn refused(r: Refusal) -> [u64; 7]
    ensures { Told result }
{
    [u64::from(r.why.number()), r.place as u64, 0, 0, 0, 0, 0]
}

fn lengths(used: usize, written: usize) -> [u64; 7]
    ensures { Told result }
{
    [0, used as u64, written as u64, 0, 0, 0, 0]
}

// What a call gives back, as numbers.
pub trait Numbers {
    fn numbers(self) -> [u64; 7]
        ensures { Told result };
}

// How many bytes were written.
impl Numbers for usize {
    fn numbers(self) -> [u64; 7] {
        lengths(self, 0)
    }
}

impl Numbers for Lengths {
    fn numbers(self) -> [u64; 7] {
        lengths(self.used, self.written)
    }
}

impl Numbers for Block {
    fn numbers(self) -> [u64; 7] {
        lengths(self.used, self.written)
    }
}

impl Numbers for Sums {
    fn numbers(self) -> [u64; 7] {
        [
            0,
            u64::from(self.verdict),
            bits(self.p.0),
            bits(self.s1.0),
            bits(self.s2.0),
            bits(self.s3.0),
            bits(self.balance.0),
        ]
    }
}

// Where a record lies, or that a walk is done.
impl Numbers for Option<Extent> {
    fn numbers(self) -> [u64; 7] {
        match self {
            Some(e) => [0, e.start as u64, e.end as u64, e.after as u64, 0, 0, 0],
            None => [DONE, 0, 0, 0, 0, 0, 0],
        }
    }
}

impl Numbers for LineRead {
    fn numbers(self) -> [u64; 7] {
        [
            0,
            self.used as u64,
            u64::from(self.line.number),
            u64::from(self.line.quarter),
            bits(self.line.n.0),
            bits(self.line.margins.step_down),
            bits(self.line.margins.step_up),
        ]
    }
}

pub fn told_by<T: Numbers>(reply: Result<T, Refusal>) -> [u64; 7]
    ensures { Told result }
{
    match reply {
        Ok(x) => x.numbers(),
        Err(r) => refused(r),
    }
}
