// The units of a block, checked and read into columns.
#![tactic(auto)]

ghost use Rattle.std.specs.Prelude.{◌≤◌, ◌<◌, length};
ghost use Rattle.terms.specs.Checks.{most_units};
ghost use Rattle.decode.specs.Inner.{Begun, UnitOn, UnitRoom, TakenIn, ReadTo, UnitsRead, UnitsPassed};
ghost use Rattle.decode.specs.Block.{block_count};

use group::check::amounts_pass;
use records::day::DayRecord;
use records::faults::marks_pass;
use records::group::GroupRecord;
use records::unit::{UnitRecord, body_fields, interval_fields};
use records::units::{is_interval, is_plain};
use terms::quantity::{Position, considered, is_implicit};

// A reading of units that all passed in what they were asked: P and where they end.
#[derive(Clone, Copy)]
pub struct Reading {
    pub p: Position,
    pub end: usize,
}

// The unit record at a place, where one lies there whole.
fn unit_on(s: &[u8], here: usize) -> Option<UnitRecord>
    ensures { UnitOn s.now here result }
{
    if is_plain(s, here) {
        return Some(body_fields(s, here));
    }
    if is_interval(s, here) {
        return Some(interval_fields(s, here));
    }
    None
}

// The columns stay parameters of what fills them: each method of a struct that lends them would have to say in their place that it keeps every loan.
// Whether a unit passes in all but the range of N and its working margins; if so, its entry of each column: class, n0, working margins, and whether its nomination is implicit, by 1 or 0.
fn take_in(
    u: UnitRecord,
    floor: u32,
    day: DayRecord,
    class: &mut [u8],
    taken: &mut [u32],
    n0: &mut [i32],
    step_down: &mut [i32],
    step_up: &mut [i32],
    i: usize,
) -> bool
    requires { UnitRoom (length n0.old) class.old taken.old n0.old step_down.old step_up.old × ((i < length n0.old) × (length n0.old ≤ most_units)) }
    ensures { TakenIn u floor day i result class.old taken.old n0.old step_down.old step_up.old class.new taken.new n0.new step_down.new step_up.new }
{
    if !marks_pass(u, floor, day) {
        return false;
    }
    let implicit = is_implicit(u.class, u.nominated, u.coincide);
    let start = considered(implicit, u.n, u.pc);
    let margins = u.margins();
    let n = start.0;
    let down = margins.step_down;
    let up = margins.step_up;
    // The margins first, for speed: nothing waits for them.
    step_down[i] = down;
    step_up[i] = up;
    class[i] = u.class;
    taken[i] = u32::from(implicit);
    n0[i] = n;
    true
}

// The units from one on, of either kind, as long as units are left.
fn read_on(
    s: &[u8],
    day: DayRecord,
    class: &mut [u8],
    taken: &mut [u32],
    n0: &mut [i32],
    step_down: &mut [i32],
    step_up: &mut [i32],
    from: usize,
    least: u32,
    p: i32,
    first: usize,
) -> Option<Reading>
    requires { ReadTo s.now day class.old taken.old n0.old step_down.old step_up.old from least p first }
    ensures { UnitsRead s.now day result class.new taken.new n0.new step_down.new step_up.new }
{
    let mut floor = least;
    let mut here = from;
    let mut sold = p;
    for i in first..n0.len() {
        let u = unit_on(s, here)?;
        if !take_in(u, floor, day, class, taken, n0, step_down, step_up, i) {
            return None;
        }
        sold += u.pc.0;
        floor = u32::from(u.number) + 1;
        here += u.length();
    }
    Some(Reading {
        p: Position(sold),
        end: here,
    })
}

// The units, each taken in, and P. Blocks of 03h alone are most of a day: they are read by a loop that knows nothing of ends, and what comes behind them apart from it.
fn read_into(
    s: &[u8],
    day: DayRecord,
    class: &mut [u8],
    taken: &mut [u32],
    n0: &mut [i32],
    step_down: &mut [i32],
    step_up: &mut [i32],
) -> Option<Reading>
    requires { Begun s.now × UnitRoom (block_count s.now) class.old taken.old n0.old step_down.old step_up.old }
    ensures { UnitsRead s.now day result class.new taken.new n0.new step_down.new step_up.new }
{
    let mut floor: u32 = 0;
    let mut here = GroupRecord::LEN;
    let mut p: i32 = 0;
    for i in 0..n0.len() {
        if !is_plain(s, here) {
            return read_on(
                s, day, class, taken, n0, step_down, step_up, here, floor, p, i,
            );
        }
        let u = body_fields(s, here);
        if !take_in(u, floor, day, class, taken, n0, step_down, step_up, i) {
            return None;
        }
        p += u.pc.0;
        floor = u32::from(u.number) + 1;
        here += UnitRecord::LEN;
    }
    Some(Reading {
        p: Position(p),
        end: here,
    })
}

// The units of a block, read, and then a look at all nominations and margins; None where a unit breaks the reading off.
pub fn units_into(
    s: &[u8],
    day: DayRecord,
    class: &mut [u8],
    taken: &mut [u32],
    n0: &mut [i32],
    step_down: &mut [i32],
    step_up: &mut [i32],
) -> Option<Reading>
    requires { Begun s.now × UnitRoom (block_count s.now) class.old taken.old n0.old step_down.old step_up.old }
    ensures { UnitsPassed s.now day result class.new taken.new n0.new step_down.new step_up.new }
{
    let read = read_into(s, day, class, taken, n0, step_down, step_up)?;
    if amounts_pass(n0, step_down, step_up) {
        return Some(read);
    }
    None
}
