// What the units' nominations are in one direction.
ghost use Rattle.std.specs.Prelude.{◌≡◌, ◌≤◌, ◌<◌, length};
ghost use Rattle.numbers.specs.Column.{at, AllWithin};
ghost use Rattle.terms.specs.Quantities.{size_in};

use terms::quantity::Direction;

// The size of each unit in the direction d, as its n1 tells it, in kWh; what ran the other way has 0.
#[derive(Clone, Copy)]
pub struct Sizes<'a> {
    pub d: Direction,
    pub n1: &'a [i32],
    ghost few: { length n1.now ≤ 64 },
    ghost small: { AllWithin 1000000 n1.now },
}

impl<'a> Sizes<'a> {
    pub fn at(&self, i: usize) -> u32
        requires { i < length self.now.n1.now }
        ensures { (result ≡ size_in self.now.d (at self.now.n1.now i)) × (result ≤ 1000000) }
    {
        self.d.size(self.n1[i])
    }
}
