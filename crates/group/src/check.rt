// The checks of a group's columns: each unit's class, ranges and margins, and the first unit that fails one.
ghost use Rattle.std.specs.Prelude.{◌≡◌, not, ◌≤◌, length};
ghost use Rattle.std.specs.Int.Signed.{le_z};
ghost use Rattle.numbers.specs.Sum.{bit};
ghost use Rattle.terms.specs.Checks.{in_range};
ghost use Rattle.terms.specs.Refusals.{reply, first_fault};
ghost use Rattle.group.specs.Columns.{as_group, unit_check, unit_checks};
ghost use Rattle.group.specs.Accepted.{Level};
ghost use Rattle.group.specs.Inner.{faults_of, amounts_pass, Beside};

use terms::check::{amounts, flag};
use terms::quantity::{Margins, Nomination, Position};
use terms::refusal::{Fault, Refusal};

// A unit given as columns: 7 for a class other than 0 and 1, 8, 9.
#[tactic(auto, unfolding(crate::specs::Columns::unit_check, terms::specs::Refusals::check))]
fn unit(of_class: u8, n0: Nomination, pc: Position, m: Margins) -> Result<(), Fault>
    ensures { result ≡ unit_check of_class n0.0 pc.0 m }
{
    flag(of_class, Fault::Class)?;
    amounts(n0, pc, m)
}

// The count of the units, or the first that fails a check. Slices side by side, as the call in C lends the columns.
pub fn units(
    n0: &[i32],
    pc: &[i32],
    step_down: &[i32],
    step_up: &[i32],
    class: &[u8],
) -> Result<usize, Refusal>
    requires { Level (as_group n0.now pc.now step_down.now step_up.now class.now) }
    ensures { reply result ≡ first_fault (unit_checks (as_group n0.now pc.now step_down.now step_up.now class.now)) 0 (length n0.now) }
{
    for i in 0..n0.len() {
        let m = Margins {
            step_down: step_down[i],
            step_up: step_up[i],
        };
        // By map_err and `?` it was tried: the loop's proof does not close, since it has to split the mapped answer.
        if let Err(fault) = unit(class[i], Nomination(n0[i]), Position(pc[i]), m) {
            return Err(fault.at(i));
        }
    }
    Ok(n0.len())
}

// 1 for a quantity outside its range.
fn beyond(z: i32) -> u32
    ensures { (result ≡ bit (not (in_range z))) × (result ≤ 1) }
{
    u32::from(z < -Nomination::LIMIT || Nomination::LIMIT < z)
}

// 1 for margins that cross.
fn crossed(m: Margins) -> u32
    ensures { (result ≡ bit (not (le_z m.step_down m.step_up))) × (result ≤ 1) }
{
    u32::from(m.step_up < m.step_down)
}

// How many of the checks of a unit's nomination and margins fail.
fn faults(n0: i32, m: Margins) -> u32
    ensures { (result ≡ faults_of n0 m) × (result ≤ 4) }
{
    beyond(n0) + beyond(m.step_down) + beyond(m.step_up) + crossed(m)
}

// Whether nominations and margins pass, asked of all units without a branch, so that the loop becomes vectors: a sum of faults and no `all`, which is four times as slow. Slices side by side, as a block has its columns.
pub fn amounts_pass(n0: &[i32], step_down: &[i32], step_up: &[i32]) -> bool
    requires { Beside n0.now step_down.now step_up.now }
    ensures { result ≡ amounts_pass n0.now step_down.now step_up.now }
{
    let mut failed = 0;
    for (i, n) in n0.iter().enumerate() {
        let m = Margins {
            step_down: step_down[i],
            step_up: step_up[i],
        };
        failed += faults(*n, m);
    }
    failed == 0
}
