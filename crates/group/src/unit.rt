// The steps of one unit.
ghost use Rattle.std.specs.Prelude.{◌≡◌, ◌≤◌, not};
ghost use Rattle.numbers.specs.Choice.{pick, eq_z};
ghost use Rattle.numbers.specs.Range.{Within};
ghost use Rattle.group.specs.Steps.{step1_of, nearer_by, step3_of, zero_outside, reason_of};

use terms::quantity::{Direction, Margins};

// Step 1. Both ends are worked out before the choice, so that a loop over units becomes vectors. One function of the choice, for this and step 3, was tried: the `returns` of both stays open then, and here the check finds it.
pub fn step1(n0: i32, m: Margins) -> i32
    ensures { result ≡ step1_of n0 m }
{
    let above = n0.min(m.step_up);
    let below = n0.max(m.step_down);
    let side = if n0 < 0 { below } else { above };
    if n0 == 0 { n0 } else { side }
}

// Step 2, once the unit's cut is known.
pub fn nearer(d: Direction, n1: i32, cut: u32) -> i32
    requires { Within 1000000 n1 × (cut ≤ 1000000) }
    ensures { result ≡ nearer_by d n1 cut }
{
    let kwh = cut as i32;
    match d {
        Direction::Injections => n1 - kwh,
        Direction::Withdrawals => n1 + kwh,
    }
}

// Step 3, with its choice as step 1 has it.
pub fn step3(n2: i32, m: Margins) -> i32
    ensures { result ≡ step3_of n2 m }
{
    let above = n2.max(m.step_down);
    let below = n2.min(m.step_up);
    let side = if n2 < 0 { below } else { above };
    if n2 == 0 { n2 } else { side }
}

// What a reason adds to the sum where it holds. Reasons have 32 bits, as the quantities beside them have, so that a loop over units becomes vectors.
fn weight(holds: bool, w: u32) -> u32
    ensures { (result ≡ pick holds w 0) × (result ≤ w) }
{
    if holds { w } else { 0 }
}

fn differ(a: i32, b: i32) -> bool
    ensures { result ≡ not (eq_z a b) }
{
    a != b
}

// Whether a unit at zero lies outside its margins.
fn zero_outside(n3: i32, m: Margins) -> bool
    ensures { result ≡ zero_outside n3 m }
{
    n3 == 0 && (0 < m.step_down || m.step_up < 0)
}

// A unit's reason; taken is 1 where its nomination is implicit, and else 0.
pub fn reason(taken: u32, n0: i32, n1: i32, n2: i32, n3: i32, m: Margins) -> u32
    requires { taken ≤ 1 }
    ensures { result ≡ reason_of taken n0 n1 n2 n3 m }
{
    let first = taken + weight(differ(n1, n0), 2);
    let second = weight(differ(n2, n1), 4) + weight(differ(n3, n2), 8);
    first + second + weight(zero_outside(n3, m), 16)
}
