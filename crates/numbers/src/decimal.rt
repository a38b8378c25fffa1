// Numbers in decimal: a digit read, and all digits of a number laid at a place of a room.
ghost use Rattle.std.specs.Prelude.{◌≡◌, ◌+◌, ◌≤◌, length};
ghost use Rattle.numbers.specs.Bytes.{laid_at};
ghost use Rattle.numbers.specs.Decimal.{digit_in, to_digit, decimal};

use crate::bytes::Field;

// The digit 0, in ASCII.
pub const ZERO: u8 = 48;

// The number of a digit; of any other byte a number above 9, so that one comparison tells both. No Option: it is a public function that cannot fail (docs/CONTRACTS.md); `to_digit` stands beside it.
pub fn digit_of(byte: u8) -> u32
    ensures { result ≡ digit_in byte }
{
    u32::from(byte).wrapping_sub(u32::from(ZERO))
}

// The number of a digit, 0 to 9 in ASCII; of any other byte none.
#[inline]
pub fn to_digit(byte: u8) -> Option<u32>
    ensures { result ≡ to_digit byte }
{
    if byte.is_ascii_digit() {
        Some(u32::from(byte - ZERO))
    } else {
        None
    }
}

// How many digits a number of 64 bits has.
// Tried: checked_ilog10; a line of short numbers takes half as much again to be written; tests/bench.
pub fn long_count(n: u64) -> usize
    ensures { result ≡ length (decimal n) }
{
    let mut count = 1;
    let mut rest = n;
    while 10 <= rest {
        rest /= 10;
        count += 1;
    }
    count
}

// All digits of a number, the last one first; its caller counted them.
// Tried: itoa::write_digits, and a `for` over the places in reverse; a line of short numbers takes a tenth more to be written; tests/bench.
pub fn lay_digits(out: &mut [u8], at: usize, count: usize, n: u64)
    requires { (count ≡ length (decimal n)) × (at + count ≤ length out.old) }
    ensures { out.new ≡ laid_at out.old at (decimal n) }
{
    let mut last = at + count - 1;
    let mut rest = n;
    while 10 <= rest {
        (ZERO + (rest % 10) as u8).lay(out, last);
        rest /= 10;
        last -= 1;
    }
    (ZERO + rest as u8).lay(out, last);
}
