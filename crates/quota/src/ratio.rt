// A ratio of kWh and the exact shares that it gives, whose rounding stands in the type.
ghost use Rattle.std.specs.Prelude.{◌≡◌, ◌*◌, ◌/◌, ◌%◌, ◌≤◌, ◌<◌};
ghost use Rattle.quota.specs.Rate.{IsRate};

// C kWh of T, which is more, and what each kWh bears of them: C / T in parts of which a kWh has ONE, 2³², rounded down.
#[derive(Clone, Copy)]
pub struct Ratio {
    pub c: u32,
    pub t: u32,
    each: u32,
    ghost rate: { IsRate c t each },
}

// An exact share C·n / T: its whole part and its remainder.
#[derive(Clone, Copy)]
pub struct Share {
    pub whole: u32,
    pub rest: u32,
}

impl Ratio {
    const ONE: u64 = 4294967296;

    // `as` and not `u64::from`, here and in `share`: that makes each operand a call whose result the proofs of the products would have to read, and is no plainer.
    pub fn of(c: u32, t: u32) -> Ratio
        requires { (c < t) × (t ≤ 64000000) }
        ensures { (result.c ≡ c) × (result.t ≡ t) }
    {
        Ratio {
            c,
            t,
            each: ((c as u64) * Ratio::ONE / (t as u64)) as u32,
        }
    }

    // The share of a unit of size n. What its kWh bear comes to its whole part or one less, so that no unit's share needs a division.
    pub fn share(self, n: u32) -> Share
        requires { n ≤ 1000000 }
        ensures { (result.whole ≡ self.c * n / self.t) × (result.rest ≡ self.c * n % self.t) }
    {
        let near = ((self.each as u64) * (n as u64) / Ratio::ONE) as u32;
        let rest = ((self.c as u64) * (n as u64) - (near as u64) * (self.t as u64)) as u32;
        if rest < self.t {
            Share { whole: near, rest }
        } else {
            Share {
                whole: near + 1,
                rest: rest - self.t,
            }
        }
    }
}
