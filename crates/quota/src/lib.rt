// The pro-quota cut: one cut shared over the units of a class, in whole kWh.
#![tactic(auto)]

ghost use Rattle.std.specs.Prelude.{◌≡◌, ℕ, ◌+◌, ◌*◌, ◌/◌, ◌%◌, ◌≤◌, ◌<◌, length, get_or};
ghost use Rattle.numbers.specs.Column.{column, at, AllWithin};
ghost use Rattle.quota.specs.Quota.{still, cuts_of};
ghost use Rattle.quota.specs.Inner.{Asked, Own, Sharing, Marked, mark_by, marks_of, above, Spans, Narrowed, Parted, Tie, remark_by, remarks_of, Parts, dealt_at};

mod ratio;
mod sizes;

use crate::ratio::{Ratio, Share};
use crate::sizes::Sizes;
use numbers::each::update;
use terms::quantity::Direction;

// A mark is a number and no enum: it stands in the column of sizes that the caller lends, and one comparison orders marks of all kinds.
// No whole part is above TOP, and every mark of a remainder is, up to TIED.
const TOP: u32 = 1048576;

// Marks of units that are told apart by size and place lie above it, up to WON, the mark of units that come before them.
const TIED: u32 = 1073741824;

const WON: u32 = 2147483648;

// What stands for a unit of this share: its remainder, above TOP, where it has one, else its whole part.
#[tactic(auto, unfolding(crate::specs::Inner::mark_by))]
fn mark_of(share: Share) -> u32
    requires { share.rest ≤ 64000000 }
    ensures { result ≡ mark_by share.whole share.rest }
{
    if 0 < share.rest {
        return TOP + share.rest;
    }
    share.whole
}

// Each size gives way to its unit's mark; the kWh that the whole parts leave to cut come back.
fn marks_into(sizes: &mut [u32], ratio: Ratio) -> u32
    requires { Sharing sizes.old ratio }
    ensures { (result ≡ still sizes.old ratio.c) × (sizes.new ≡ marks_of sizes.old ratio.c) }
{
    let mut left = ratio.c;
    for size in sizes.iter_mut() {
        let share = ratio.share(*size);
        left -= share.whole;
        *size = mark_of(share);
    }
    left
}

// Marks up to low are not dealt a kWh, and marks above high are; where the two are one number, just so many are above it as kWh are left.
#[derive(Clone, Copy)]
struct Span {
    low: u32,
    high: u32,
}

// What a span is searched in: marks, lent to be read, and the kWh left for them.
#[derive(Clone, Copy)]
struct Search<'a> {
    marks: &'a [u32],
    left: u32,
    ghost few: { length marks.now ≤ 64 },
}

impl<'a> Search<'a> {
    // How many of the marks are above x.
    fn above(&self, x: u32) -> u32
        ensures { result ≡ above self.now.marks.now x }
    {
        let mut r = 0;
        for mark in self.marks {
            r += u32::from(x < *mark);
        }
        r
    }

    // The span without x inside it: what lies above x is counted, and an end moves there, or both.
    fn narrowed(&self, span: Span, x: u32) -> Span
        requires { Spans self.now.marks.now self.now.left span.low span.high }
        ensures { Narrowed self.now.marks.now self.now.left span.low span.high x result.low result.high }
    {
        if x <= span.low || span.high <= x {
            return span;
        }
        let a = self.above(x);
        if a < self.left {
            return Span {
                low: span.low,
                high: x,
            };
        }
        if self.left < a {
            return Span {
                low: x,
                high: span.high,
            };
        }
        Span { low: x, high: x }
    }

    // The span without a mark inside it: each that lies there is tried, until both ends are one number.
    fn parted(&self, wide: Span) -> Span
        requires { Spans self.now.marks.now self.now.left wide.low wide.high }
        ensures { Parted self.now.marks.now self.now.left wide.low result.low result.high }
    {
        let mut span = wide;
        for x in self.marks {
            if span.high <= span.low {
                break;
            }
            span = self.narrowed(span, *x);
        }
        span
    }
}

// The mark of unit i, of size n, where the units are told apart that share a mark: a mark below it stays, and one above it has won.
#[tactic(auto, unfolding(crate::specs::Inner::remark_by))]
fn remark(shared: u32, mark: u32, n: u32, i: usize) -> u32
    requires { (n ≤ 1000000) × (i < 64) }
    ensures { result ≡ remark_by shared mark n i }
{
    if mark < shared {
        return mark;
    }
    if shared < mark {
        return WON;
    }
    TIED + n * 64 + (64 - i as u32)
}

// Each mark gives way to one that tells the units apart which share a mark. Marks that are written stay a parameter, and that each unit has one a clause, here and below: each method of a struct that lends them would have to say in its place that it keeps the loan.
fn remark_all(marks: &mut [u32], shared: u32, units: &Sizes<'_>)
    requires { length marks.old ≡ length units.now.n1.now }
    ensures { marks.new ≡ remarks_of shared units.now.d units.now.n1.now marks.old }
{
    let units = *units;
    update(marks, |i, mark| remark(shared, mark, units.at(i), i));
}

// The number of `bound`, where units that share a mark have to be told apart. Two marks are tried first, which are right at once where all units share the mark and their sizes rise from unit to unit, or fall or are equal.
fn untied(marks: &mut [u32], left: u32, shared: u32, units: &Sizes<'_>) -> u32
    requires { Marked marks.old left × Tie marks.old left shared × (length marks.old ≡ length units.now.n1.now) }
    ensures { Parts marks.old left units.now.d units.now.n1.now marks.new result }
{
    remark_all(marks, shared, units);
    let wide = Span {
        low: TIED,
        high: WON,
    };
    let search = Search { marks, left };
    let tried = search.narrowed(wide, marks[marks.len() - 1 - left as usize]);
    let next = search.narrowed(tried, marks[left as usize]);
    search.parted(next).low
}

// A number above which are just the marks of the units that are dealt a kWh. First the middle is tried, and the mark that is right at once where remainders fall from unit to unit. Where no mark lies between the ends, and they are two, the upper one is a mark that more units share than there are kWh for.
fn bound(marks: &mut [u32], left: u32, t: u32, units: &Sizes<'_>) -> u32
    requires { Marked marks.old left × (t ≤ 64000000) × (length marks.old ≡ length units.now.n1.now) }
    ensures { Parts marks.old left units.now.d units.now.n1.now marks.new result }
{
    let wide = Span {
        low: TOP,
        high: TIED,
    };
    let search = Search { marks, left };
    let tried = search.narrowed(wide, TOP + t / 2);
    let next = search.narrowed(tried, marks[left as usize]);
    let span = search.parted(next);
    if span.low == span.high {
        return span.low;
    }
    untied(marks, left, span.high, units)
}

// What a unit loses: its mark where that is a whole part, else its whole part, worked out again, and a kWh more where the mark is above x. The share comes before the test, so that the loop has no branch.
#[tactic(auto, unfolding(crate::specs::Inner::dealt_at))]
fn dealt_to(ratio: Ratio, x: u32, units: &Sizes<'_>, i: usize, mark: u32) -> u32
    requires { i < length units.now.n1.now }
    ensures { result ≡ dealt_at units.now.d ratio.t ratio.c x (at units.now.n1.now i) mark }
{
    let share = ratio.share(units.at(i));
    if mark <= TOP {
        return mark;
    }
    share.whole + u32::from(x < mark)
}

// Each mark gives way to its unit's cut.
fn deal(ratio: Ratio, x: u32, units: &Sizes<'_>, cuts: &mut [u32])
    requires { length cuts.old ≡ length units.now.n1.now }
    ensures { cuts.new ≡ column (length cuts.old) (λ (i : ℕ). dealt_at units.now.d ratio.t ratio.c x (at units.now.n1.now i) (get_or cuts.old i 0)) }
{
    // A copy, so that the loop does not read it from memory at each turn.
    let units = *units;
    update(cuts, |i, mark| dealt_to(ratio, x, &units, i, mark));
}

// The pro-quota cut of c kWh over the sizes, whose total is t: each size gives way to its unit's cut, by way of its mark. What a size was is then told by n1 in the direction d, and no column beside them is needed. Where all is cut, the sizes are the cuts.
pub fn cut(sizes: &mut [u32], t: u32, c: u32, d: Direction, n1: &[i32])
    requires { Asked sizes.old t c × Own d n1.now sizes.old × AllWithin 1000000 n1.now }
    ensures { sizes.new ≡ cuts_of sizes.old c }
{
    if c == t {
        return;
    }
    let ratio = Ratio::of(c, t);
    let left = marks_into(sizes, ratio);
    if left == 0 {
        return;
    }
    let units = Sizes { d, n1 };
    let x = bound(sizes, left, t, &units);
    deal(ratio, x, &units, sizes);
}
