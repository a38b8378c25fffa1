// Columns written entry by entry: the loop stands here once, and its caller says what each entry becomes.
ghost use Rattle.std.specs.Prelude.{◌≡◌, ◌<◌, ◌≤◌, ℕ, ℤ, IfSome, IsSomeAnd, length, slice_get};
ghost use Rattle.numbers.specs.Column.{at};
ghost use Rattle.numbers.specs.Range.{Within};
ghost use Rattle.numbers.specs.Sum.{sum_z};

// Each entry becomes what f says of its place and of what it was.
#[inline]
pub fn update<T: Copy, F: Fn(usize, T) -> T>(xs: &mut [T], f: F)
    requires { (i : ℕ) → IfSome (slice_get xs.old i) (λ x. F.pre f i x) }
    ensures { (i : ℕ) → IfSome (slice_get xs.old i) (λ x. IsSomeAnd (slice_get xs.new i) (λ y. F.post f i x y)) }
{
    for (i, x) in xs.iter_mut().enumerate() {
        *x = f(i, *x);
    }
}

// Each entry of a group's column becomes what f says of its place, and their sum comes back.
#[inline]
pub fn fill_summed<F: Fn(usize) -> i32>(out: &mut [i32], f: F) -> i32
    requires few { length out.old ≤ 64 }
    requires callable { (i : ℕ) → i < length out.old → F.pre f i }
    requires small { (i : ℕ) (z : ℤ) → i < length out.old → F.post f i z → Within 1000000 z }
    ensures sum { result ≡ sum_z out.new }
    ensures entries { (i : ℕ) → i < length out.old → F.post f i (at out.new i) }
{
    let mut total = 0;
    for (i, x) in out.iter_mut().enumerate() {
        let z = f(i);
        *x = z;
        total += z;
    }
    total
}
