// The calls of the library as a test in C reaches them (docs/PROBE.md): plain numbers go in, and what a call gives back is told in lent ones.
#![tactic(auto)]

ghost use Rattle.ways.specs.Telling.{Told};

mod telling;

use day::value::Day;
use group::judge::judge;
use partner::line::Line;
use partner::read::read_line;
use partner::write::write_line;
use records::day::DayRecord;
use records::key::Key;
use telling::told_by;
use terms::quantity::{Margins, Nomination};
use walk::step::next;
use walk::table::State;
use walk::walker::walk_at;
use writers::block::write_block;
use writers::single::{write_day, write_end};

// Numbers, since a test in C hands them in.
fn state_of(number: u32) -> State {
    match number {
        0 => State::Fresh,
        1 => State::Open,
        _ => State::Closed,
    }
}

// Cut short, here and below, and no TryFrom: the day value of a test in C holds each number in a field of this width, and a call has no answer for one that is larger.
fn byte(x: u32) -> u8 {
    (x % 256) as u8
}

fn half(x: u32) -> u16 {
    (x % 65536) as u16
}

// Functions and no `From`, since an array of numbers and a day are both types of other crates.
// A day value as eleven numbers, in the order of docs/PROBE.md; where there is no block yet the key is not read, and comes back as zero.
fn day_of(day: [u32; 11]) -> Day {
    let key = Key {
        brp: half(day[8]),
        zone: byte(day[9]),
        quarter: byte(day[10]),
    };
    Day {
        state: state_of(day[0]),
        record: DayRecord::new(
            half(day[1]),
            byte(day[2]),
            day[3],
            half(day[4]),
            half(day[5]),
        ),
        groups: day[6],
        last: if day[7] == 0 { None } else { Some(key) },
    }
}

fn numbers_of(d: Day) -> [u32; 11] {
    let key = d.last.unwrap_or(Key {
        brp: 0,
        zone: 0,
        quarter: 0,
    });
    [
        d.state as u32,
        u32::from(d.record.day),
        u32::from(d.record.quarters),
        d.record.run,
        u32::from(d.record.position_limit),
        u32::from(d.record.margin_limit),
        d.groups,
        u32::from(d.last.is_some()),
        u32::from(key.brp),
        u32::from(key.zone),
        u32::from(key.quarter),
    ]
}

#[unsafe(no_mangle)]
pub extern "C" fn ways_judge(
    n0: &[i32],
    pc: &[i32],
    step_down: &[i32],
    step_up: &[i32],
    class: &[u8],
    n1: &mut [i32],
    n2: &mut [i32],
    n3: &mut [i32],
    told: &mut [u64; 7],
)
    ensures { Told told.new }
{
    *told = told_by(judge(n0, pc, step_down, step_up, class, n1, n2, n3));
}

// The day's numbers become those of the day after the call.
#[unsafe(no_mangle)]
pub extern "C" fn ways_offer(
    day: &mut [u32; 11],
    bytes: &[u8],
    room: &mut [u8],
    told: &mut [u64; 7],
)
    ensures { Told told.new }
{
    let mut d = day_of(*day);
    *told = told_by(d.offer(bytes, room));
    *day = numbers_of(d);
}

#[unsafe(no_mangle)]
pub extern "C" fn ways_check_block(day: &[u32; 11], bytes: &[u8], told: &mut [u64; 7])
    ensures { Told told.new }
{
    *told = told_by(day_of(*day).check_block(bytes));
}

#[unsafe(no_mangle)]
pub extern "C" fn ways_write_day(
    day: u16,
    quarters: u8,
    run: u32,
    position_limit: u16,
    margin_limit: u16,
    room: &mut [u8],
    told: &mut [u64; 7],
)
    ensures { Told told.new }
{
    let d = DayRecord::new(day, quarters, run, position_limit, margin_limit);
    *told = told_by(write_day(d, room));
}

#[unsafe(no_mangle)]
pub extern "C" fn ways_write_block(
    brp: u16,
    zone: u8,
    quarter: u8,
    made: u32,
    number: &[u16],
    class: &[u8],
    coincide: &[u8],
    nominated: &[u8],
    n: &[i32],
    pc: &[i32],
    step_down: &[i32],
    step_up: &[i32],
    margins_made: &[u32],
    kind: &[u8],
    lower: &[i32],
    upper: &[i32],
    room: &mut [u8],
    told: &mut [u64; 7],
)
    ensures { Told told.new }
{
    *told = told_by(write_block(
        brp,
        zone,
        quarter,
        made,
        number,
        class,
        coincide,
        nominated,
        n,
        pc,
        step_down,
        step_up,
        margins_made,
        kind,
        lower,
        upper,
        room,
    ));
}

#[unsafe(no_mangle)]
pub extern "C" fn ways_write_end(groups: u32, room: &mut [u8], told: &mut [u64; 7])
    ensures { Told told.new }
{
    *told = told_by(write_end(groups, room));
}

#[unsafe(no_mangle)]
pub extern "C" fn ways_next(bytes: &[u8], state: u32, place: usize, told: &mut [u64; 7])
    ensures { Told told.new }
{
    *told = told_by(next(bytes, state_of(state), place));
}

// What a walker opened on the bytes replies after so many steps.
#[unsafe(no_mangle)]
pub extern "C" fn ways_walk_at(bytes: &[u8], steps: usize, told: &mut [u64; 7])
    ensures { Told told.new }
{
    *told = told_by(walk_at(bytes, steps));
}

#[unsafe(no_mangle)]
pub extern "C" fn ways_read_line(bytes: &[u8], told: &mut [u64; 7])
    ensures { Told told.new }
{
    *told = told_by(read_line(bytes));
}

fn line_of(number: u16, quarter: u8, n: i32, step_down: i32, step_up: i32) -> Line {
    Line {
        number,
        quarter,
        n: Nomination(n),
        margins: Margins { step_down, step_up },
    }
}

#[unsafe(no_mangle)]
pub extern "C" fn ways_write_line(
    number: u16,
    quarter: u8,
    n: i32,
    step_down: i32,
    step_up: i32,
    room: &mut [u8],
    told: &mut [u64; 7],
)
    ensures { Told told.new }
{
    let line = line_of(number, quarter, n, step_down, step_up);
    *told = told_by(write_line(line, room));
}
