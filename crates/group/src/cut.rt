// Step 2: the excess is cut pro quota, from the units that are not enabled first.
ghost use Rattle.std.specs.Prelude.{◌≡◌, true, ℕ, length, get_or};
ghost use Rattle.numbers.specs.Column.{column, at};
ghost use Rattle.numbers.specs.Sum.{sum};
ghost use Rattle.group.specs.Group.{size_of, sizes_of};
ghost use Rattle.group.specs.Inner.{loss_of, losses_of, zeros, Classed, SharedOut, Bearable};

use crate::band::direction;
use numbers::each::update;
use terms::quantity::{Direction, Standing};

// The size of a unit that stands so in the direction, 0 of any other.
#[tactic(auto, unfolding(crate::specs::Group::size_of))]
fn size_of(d: Direction, k: Standing, class: u8, n1: i32) -> u32
    ensures { result ≡ size_of d k class n1 }
{
    if k.holds(class) {
        return d.size(n1);
    }
    0
}

// What a unit loses where those not enabled lose all: all of it, or its cut where it is enabled.
#[tactic(auto, unfolding(crate::specs::Inner::loss_of))]
fn loss(d: Direction, class: u8, n1: i32, cut: u32) -> u32
    ensures { result ≡ loss_of d true class n1 cut }
{
    let k = Standing::NotEnabled;
    if k.holds(class) {
        return d.size(n1);
    }
    cut
}

// What is shared out pro quota: c kWh over the units that stand so and have t kWh. Where the enabled bear a part, those not enabled lose all.
#[derive(Clone, Copy)]
struct Shared {
    bearers: Standing,
    t: u32,
    c: u32,
}

// The units after step 1, as a cut in the direction d finds them.
#[derive(Clone, Copy)]
struct Side<'a> {
    d: Direction,
    n1: &'a [i32],
    class: &'a [u8],
    ghost classed: { Classed n1.now class.now },
}

impl<'a> Side<'a> {
    // The sizes of the units that stand so, and their total. A written column stays a parameter and its length a clause, here and below, as in `judge`.
    fn sizes_into(&self, k: Standing, sizes: &mut [u32]) -> u32
        requires { length sizes.old ≡ length self.now.n1.now }
        ensures { (result ≡ sum (sizes_of self.now.d k self.now.n1.now self.now.class.now)) × (sizes.new ≡ sizes_of self.now.d k self.now.n1.now self.now.class.now) }
    {
        // A copy, so that the loop does not read it from memory at each turn.
        let side = *self;
        let mut t = 0;
        for (i, room) in sizes.iter_mut().enumerate() {
            let size = size_of(side.d, k, side.class[i], side.n1[i]);
            *room = size;
            t += size;
        }
        t
    }

    // The units that bear a part of c kWh have their sizes told; all others have 0.
    fn share_out(&self, c: u32, sizes: &mut [u32]) -> Shared
        requires { length sizes.old ≡ length self.now.n1.now }
        ensures { SharedOut self.now.d c self.now.n1.now self.now.class.now result.bearers result.t result.c sizes.new }
    {
        let t = self.sizes_into(Standing::NotEnabled, sizes);
        if c < t {
            return Shared {
                bearers: Standing::NotEnabled,
                t,
                c,
            };
        }
        let rest = self.sizes_into(Standing::Enabled, sizes);
        Shared {
            bearers: Standing::Enabled,
            t: rest,
            c: c - t,
        }
    }

    // The units not enabled lose all, beside the cuts of the enabled.
    fn lose_all(&self, losses: &mut [u32])
        requires { length losses.old ≡ length self.now.n1.now }
        ensures { losses.new ≡ column (length self.now.n1.now) (λ (i : ℕ). loss_of self.now.d true (get_or self.now.class.now i 0) (at self.now.n1.now i) (get_or losses.old i 0)) }
    {
        let side = *self;
        update(
            losses,
            |i, cut| loss(side.d, side.class[i], side.n1[i], cut),
        );
    }
}

// What each unit loses for the excess e of S1, in a lent column. Slices side by side: the caller has n1 as a column that it wrote, and the class among the group's.
fn losses_into(e: i32, n1: &[i32], class: &[u8], losses: &mut [u32])
    requires bearable { Bearable e n1.now class.now }
    requires losses_len { length losses.old ≡ length n1.now }
    ensures { losses.new ≡ losses_of e n1.now class.now }
{
    let d = direction(e);
    let side = Side { d, n1, class };
    let shared = side.share_out(e.unsigned_abs(), losses);
    quota::cut(losses, shared.t, shared.c, d, n1);
    if let Standing::Enabled = shared.bearers {
        side.lose_all(losses);
    }
}

// What each unit loses for the excess e of S1, in a column of zeros; without an excess they stay. Slices side by side, as in losses_into.
pub fn losses_all(e: i32, n1: &[i32], class: &[u8], losses: &mut [u32])
    requires { Bearable e n1.now class.now × (losses.old ≡ zeros (length n1.now)) }
    ensures { losses.new ≡ losses_of e n1.now class.now }
{
    if e != 0 {
        losses_into(e, n1, class, losses);
    }
}
