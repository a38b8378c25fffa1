// A group given as columns is judged: refused, or its three steps, sums, verdict and balance.
ghost use Rattle.std.specs.Prelude.{◌≡◌, ◌-ℤ◌, length};
ghost use Rattle.group.specs.Group.{step1_all, step3_all, reasons_all};
ghost use Rattle.numbers.specs.Range.{Within};
ghost use Rattle.numbers.specs.Sum.{sum_z};
ghost use Rattle.terms.specs.Refusals.{reply};
ghost use Rattle.group.specs.Columns.{as_group, sums_by, lengths, Judges};
ghost use Rattle.group.specs.Inner.{Aligned, left_by, Lost, zeros, Judged, CutOff, Written, Explained};

use crate::band::{Band, balance, direction, verdict};
use crate::check::units;
use crate::cut::losses_all;
use crate::unit::{nearer, reason, step1, step3};
use numbers::each::fill_summed;
use numbers::signed::sum;
use terms::check::is_count;
use terms::quantity::{Direction, Margins, Nomination, Position};
use terms::refusal::{Refusal, Why};

// What comes back of an accepted group.
#[derive(Clone, Copy)]
pub struct Sums {
    // A number, as the byte of a result record and the call in C tell it.
    pub verdict: u8,
    pub p: Position,
    pub s1: Nomination,
    pub s2: Nomination,
    pub s3: Nomination,
    pub balance: Nomination,
}

// What step 1 leaves of a group: its band, S1 and the excess of S1.
#[derive(Clone, Copy)]
pub struct Cut {
    pub band: Band,
    pub s1: i32,
    pub e: i32,
}

// A group of position p that is not refused, as columns.
#[derive(Clone, Copy)]
pub struct Group<'a> {
    pub p: Position,
    pub n0: &'a [i32],
    pub step_down: &'a [i32],
    pub step_up: &'a [i32],
    pub class: &'a [u8],
    ghost judged: { Judged p.0 n0.now step_down.now step_up.now class.now },
}

impl<'a> Group<'a> {
    // Step 1 of every unit, and S1.
    fn step1_all(&self, n1: &mut [i32]) -> i32
        requires { length n1.old ≡ length self.now.n0.now }
        ensures { (result ≡ sum_z (step1_all self.now.n0.now self.now.step_down.now self.now.step_up.now))
            × (n1.new ≡ step1_all self.now.n0.now self.now.step_down.now self.now.step_up.now) }
    {
        fill_summed(
            n1,
            |i| step1(
                self.n0[i],
                Margins {
                    step_down: self.step_down[i],
                    step_up: self.step_up[i],
                },
            ),
        )
    }

    // Step 1, and what each unit loses in step 2, in a column of zeros.
    pub fn cut_all(&self, n1: &mut [i32], losses: &mut [u32]) -> Cut
        requires { (length n1.old ≡ length self.now.n0.now) × (losses.old ≡ zeros (length self.now.n0.now)) }
        ensures { CutOff self.now.p.0 self.now.n0.now self.now.step_down.now self.now.step_up.now self.now.class.now result n1.new losses.new }
    {
        let band = Band::of(self.p);
        let s1 = self.step1_all(n1);
        let e = band.excess(s1);
        losses_all(e, n1, self.class, losses);
        Cut { band, s1, e }
    }

    // The three steps, by way of lent columns of zeros for what each unit loses and for its reason. The margins are only lent to be read, so n2 and n3 begin as copies of them.
    // Written columns stay parameters, and their lengths clauses: each method of a struct that lends them would have to say in their place that it keeps every loan.
    fn judged_through(
        &self,
        n1: &mut [i32],
        n2: &mut [i32],
        n3: &mut [i32],
        losses: &mut [u32],
        why: &mut [u32],
    ) -> Sums
        requires n1_len { length n1.old ≡ length self.now.n0.now }
        requires n2_len { (length n2.old ≡ length self.now.n0.now) × (length n3.old ≡ length self.now.n0.now) }
        requires losses_value { (losses.old ≡ zeros (length self.now.n0.now)) × (why.old ≡ zeros (length self.now.n0.now)) }
        ensures { Written self.now.p.0 self.now.n0.now self.now.step_down.now self.now.step_up.now self.now.class.now result n1.new n2.new n3.new }
    {
        let cut = self.cut_all(n1, losses);
        copy(self.step_down, n3);
        copy(self.step_up, n2);
        let d = direction(cut.e);
        let s3 = steps_all(d, self.n0, n1, losses, n2, n3, why);
        summed(self.p, cut, s3)
    }

    // The same with columns of its own; the reasons are not asked for.
    fn judged(&self, n1: &mut [i32], n2: &mut [i32], n3: &mut [i32]) -> Sums
        requires n1_len { length n1.old ≡ length self.now.n0.now }
        requires n2_len { (length n2.old ≡ length self.now.n0.now) × (length n3.old ≡ length self.now.n0.now) }
        ensures { Written self.now.p.0 self.now.n0.now self.now.step_down.now self.now.step_up.now self.now.class.now result n1.new n2.new n3.new }
    {
        let n = self.n0.len();
        let mut losses = [0u32; 64];
        let mut why = [0u32; 64];
        self.judged_through(n1, n2, n3, &mut losses[..n], &mut why[..n])
    }
}

// A column as another has it. Entry by entry and not by copy_from_slice, which is a memmove from outside that the library does without.
fn copy(from: &[i32], to: &mut [i32])
    requires { length to.old ≡ length from.now }
    ensures { to.new ≡ from.now }
{
    for i in 0..from.len() {
        to[i] = from[i];
    }
}

// Steps 2 and 3 of every unit, and S3; and its reason. Step 2 brings a unit nearer to zero by what it loses. Its step-up margin gives way to n2, its step-down margin to n3, and whether its nomination is implicit, by 1 or 0, to its reason. Slices side by side, since each is lent for itself: of some callers from a group, of some from the columns of a block.
pub fn steps_all(
    d: Direction,
    n0: &[i32],
    n1: &[i32],
    losses: &[u32],
    second: &mut [i32],
    third: &mut [i32],
    why: &mut [u32],
) -> i32
    requires lost { Lost n1.now losses.now }
    requires aligned { Aligned (left_by d n1.now losses.now) third.old second.old third.old × Explained why.old n0.now n1.now (left_by d n1.now losses.now) third.old second.old }
    ensures { (second.new ≡ left_by d n1.now losses.now)
        × (result ≡ sum_z (step3_all second.new third.old second.old))
        × (third.new ≡ step3_all second.new third.old second.old)
        × (why.new ≡ reasons_all why.old n0.now n1.now second.new third.new third.old second.old) }
{
    let mut s3 = 0;
    for (i, up) in second.iter_mut().enumerate() {
        let m = Margins {
            step_down: third[i],
            step_up: *up,
        };
        let left = nearer(d, n1[i], losses[i]);
        let n3 = step3(left, m);
        *up = left;
        third[i] = n3;
        s3 += n3;
        why[i] = reason(why[i], n0[i], n1[i], left, n3, m);
    }
    s3
}

// Verdict and balance beside the sums. Step 2 takes what the excess is, so S2 is the rest of S1. The ranges stand in the clause, here and in `band`: a Position read from bytes has none yet, and a method of `Group` would ask for columns that passed where P's range is enough.
pub fn summed(p: Position, cut: Cut, s3: i32) -> Sums
    requires { Within 64000000 p.0 × (Within 64000000 cut.s1 × (Within 128000000 cut.e × Within 64000000 s3)) }
    ensures { result ≡ sums_by p.0 cut.band cut.s1 cut.e (cut.s1 -ℤ cut.e) s3 }
{
    let band = cut.band;
    Sums {
        verdict: verdict(band, cut.e, s3),
        p,
        s1: Nomination(cut.s1),
        s2: Nomination(cut.s1 - cut.e),
        s3: Nomination(s3),
        balance: balance(p, Nomination(s3)),
    }
}

// Whether the lengths of the other columns are that of the first.
#[tactic(auto, unfolding(crate::specs::Columns::lengths))]
fn one_length(n: usize, others: &[usize]) -> bool
    ensures { result ≡ lengths n others.now }
{
    others.iter().all(|len| *len == n)
}

// The group as columns is judged; n1, n2 and n3 are written where it is accepted. Slices side by side, as the call in C lends the columns.
pub fn judge(
    n0: &[i32],
    pc: &[i32],
    step_down: &[i32],
    step_up: &[i32],
    class: &[u8],
    n1: &mut [i32],
    n2: &mut [i32],
    n3: &mut [i32],
) -> Result<Sums, Refusal>
    ensures { Judges (as_group n0.now pc.now step_down.now step_up.now class.now) n1.old n2.old n3.old (reply result) n1.new n2.new n3.new }
{
    let n = n0.len();
    let others = [
        pc.len(),
        step_down.len(),
        step_up.len(),
        class.len(),
        n1.len(),
        n2.len(),
        n3.len(),
    ];
    if !one_length(n, &others) {
        return Err(Refusal {
            why: Why::Columns,
            place: 0,
        });
    }
    if !is_count(n) {
        return Err(Refusal {
            why: Why::UnitCount,
            place: 0,
        });
    }
    units(n0, pc, step_down, step_up, class)?;
    let p = Position(sum(pc));
    let group = Group {
        p,
        n0,
        step_down,
        step_up,
        class,
    };
    Ok(group.judged(n1, n2, n3))
}
