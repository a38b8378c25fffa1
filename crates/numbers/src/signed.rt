// Signed numbers: their size, and the sum of a column.
ghost use Rattle.std.specs.Prelude.{◌≡◌, ◌≤◌, length, unsigned_abs};
ghost use Rattle.numbers.specs.Column.{AllWithin};
ghost use Rattle.numbers.specs.Sum.{sum_z};

// The size of a number, its sign left off.
pub fn magnitude(z: i32) -> u32
    ensures { result ≡ unsigned_abs z }
{
    z.unsigned_abs()
}

// The sum of a group's column.
pub fn sum(s: &[i32]) -> i32
    requires { (length s.now ≤ 64) × AllWithin 1000000 s.now }
    ensures { result ≡ sum_z s.now }
{
    let mut total = 0;
    for z in s {
        total += *z;
    }
    total
}
