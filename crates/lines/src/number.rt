// Numbers in decimal, laid at a place of a room. Each part takes the room and its place, asks that it fits there, and gives the place behind it, as said in `field`.
ghost use Rattle.std.specs.Prelude.{◌≡◌, [], ◌∷◌, ◌+◌, ◌/◌, ◌%◌, ◌≤◌, ◌<◌, length};
ghost use Rattle.numbers.specs.Bytes.{laid_at};
ghost use Rattle.numbers.specs.Decimal.{digit, decimal};
ghost use Rattle.lines.specs.Inner.{Lays};

use crate::table::PAIRS;
use numbers::bytes::Field;

fn lay_pair(out: &mut [u8], at: usize, k: u32)
    requires { (k < 100) × (at + 2 ≤ length out.old) }
    ensures { out.new ≡ laid_at out.old at (digit (k / 10) ∷ digit (k % 10) ∷ []) }
{
    let pair = PAIRS[k as usize];
    ((pair % 256) as u8).lay(out, at);
    ((pair / 256) as u8).lay(out, at + 1);
}

// A number of few digits: no more than two pairs of them.
#[derive(Clone, Copy)]
pub struct Few {
    pub n: u32,
    ghost few: { n < 10000 },
}

impl Few {
    // Where a number has more digits.
    pub const END: u32 = 10000;

    // The hundredth of it.
    fn hundredth(self) -> u32
        ensures { result ≡ self.n / 100 }
    {
        self.n * 5243 / 524288
    }

    // How many digits it has, without a branch: that cannot be foretold. `as` and not `usize::from`, which makes each bit a call and is no plainer.
    fn digits(self) -> usize
        ensures { result ≡ length (decimal self.n) }
    {
        1 + (9 < self.n) as usize + (99 < self.n) as usize + (999 < self.n) as usize
    }

    // A byte and the digits behind it. Zeros in front of the digits are laid too, and the last two digits and the byte over them.
    pub fn lay(self, out: &mut [u8], at: usize, front: u8) -> usize
        requires { at + 1 + length (decimal self.n) ≤ length out.old }
        ensures { Lays out.old at (front ∷ decimal self.n) (1 + length (decimal self.n)) result out.new }
    {
        let high = self.hundredth();
        let low = self.n - high * 100;
        let count = self.digits();
        lay_pair(out, at + (999 < self.n) as usize, high);
        lay_pair(out, at + count - 1, low);
        front.lay(out, at);
        at + 1 + count
    }
}

// How many digits a number of 32 bits has that is not below 10 ^ 4: by comparisons, as they are told apart by size, with no division.
pub fn digit_count(n: u32) -> usize
    requires { 10000 ≤ n }
    ensures { result ≡ length (decimal n) }
{
    if n < 100000 {
        return 5;
    }
    if n < 1000000 {
        return 6;
    }
    if n < 10000000 {
        return 7;
    }
    if n < 100000000 {
        return 8;
    }
    if n < 1000000000 {
        return 9;
    }
    10
}
