// The band for the sum of a group, what lies beyond it, and the verdict.
ghost use Rattle.std.specs.Prelude.{◌≡◌, ◌≤◌};
ghost use Rattle.numbers.specs.Range.{Within};
ghost use Rattle.group.specs.Steps.{band_of, excess_of, is_outside, direction_of, cut_verdict, verdict_of, balance_of};

use terms::quantity::{Direction, Nomination, Position};

#[derive(Clone, Copy)]
pub struct Band {
    pub low: i32,
    pub high: i32,
}

impl Band {
    // From the smaller of 0 and -P to the larger. The range of P stands in the clause: a Position read from bytes has none yet, and a `Group` would ask for columns too.
    #[tactic(auto, unfolding(crate::specs::Steps::band_of))]
    pub fn of(p: Position) -> Band
        requires { Within 64000000 p.0 }
        ensures { result ≡ band_of p.0 }
    {
        let sold = p.nominated();
        let end = sold.0;
        Band {
            low: end.min(0),
            high: end.max(0),
        }
    }

    // How far a sum lies beyond the band, below zero where it lies under it.
    #[tactic(auto, unfolding(crate::specs::Steps::excess_of))]
    pub fn excess(self, s: i32) -> i32
        requires { Within 64000000 self.low × (Within 64000000 self.high × Within 64000000 s) }
        ensures { result ≡ excess_of self s }
    {
        if self.high < s {
            return s - self.high;
        }
        if s < self.low {
            return s - self.low;
        }
        0
    }

    pub fn outside(self, s: i32) -> bool
        ensures { result ≡ is_outside self s }
    {
        self.high < s || s < self.low
    }
}

// What is cut for an excess.
pub fn direction(e: i32) -> Direction
    ensures { result ≡ direction_of e }
{
    if e < 0 {
        return Direction::Withdrawals;
    }
    Direction::Injections
}

// 1 where injections are cut, 2 where withdrawals are. By two tests: a match of `cmp` was tried, and its branches are guessed wrong; tests/bench.
fn cut_verdict(e: i32) -> u8
    ensures { (result ≡ cut_verdict e) × (result ≤ 2) }
{
    if 0 < e {
        return 1;
    }
    if e < 0 {
        return 2;
    }
    0
}

#[tactic(auto, unfolding(crate::specs::Steps::verdict_of))]
pub fn verdict(b: Band, e: i32, s3: i32) -> u8
    ensures { result ≡ verdict_of b e s3 }
{
    let cut = cut_verdict(e);
    if b.outside(s3) {
        return cut + 4;
    }
    cut
}

// What the balance unit takes, positive for injection. The ranges stand in the clause, as in `Band::of`.
pub fn balance(p: Position, s3: Nomination) -> Nomination
    requires { Within 64000000 p.0 × Within 64000000 s3.0 }
    ensures { result.0 ≡ balance_of p.0 s3.0 }
{
    let sold = p.nominated();
    let left = s3.0;
    Nomination(sold.0 - left)
}
