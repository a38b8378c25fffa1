// What a line is: its word, and the record that its fields make.
ghost use Rattle.std.specs.Prelude.{◌≡◌, true, ◌&&◌, ◌≤◌, eqb, length};
ghost use Rattle.text.specs.Line.{same, ended, day_line_of, group_line_of, interval_of, ends_of, unit_line_of, end_line_of, fields_of, record_of, uncommented, bare_length, bare_of, mark_length, line_of, listed_fields, listed_of};

pub use crate::fields::Field;
use crate::fields::{day_at, field_at, minute_at, number_at, over_at};
use crate::numbers_in::is_blank;
use records::day::DayRecord;
use records::end::EndRecord;
use records::group::GroupRecord;
use records::unit::UnitRecord;
use terms::quantity::{Nomination, Position};

// The most bytes of a line in front of its comment.
pub const LONGEST: usize = 255;

// The length of the byte order mark.
pub const MARK: usize = 3;

const CARRIAGE_RETURN: u8 = 13;

// The kind of a word that no record has.
const NO_KIND: u8 = 0;

// One enum, and no Result of a line that is in the form: of one that is not it is asked too whether it may come, and that is told first.
#[derive(Clone, Copy)]
pub enum Line {
    Day(DayRecord),
    Group(GroupRecord),
    Unit(UnitRecord),
    End(EndRecord),
    // Empty, or a comment.
    Passed,
    // Not in the form: above the most bytes; or a field is wrong after the word of a record of this kind, 0 where it is no record's.
    TooLong,
    // A number and no enum of kinds: `Making::turn` answers for any number (docs/CONTRACTS.md), and a narrower type would ask more of its callers.
    Not(u8, Field),
}

// What the DAY line of the day list tells.
#[derive(Clone, Copy, PartialEq, Eq, Debug)]
pub struct Listed {
    pub day: u16,
    pub quarters: u8,
    // In minutes from 2000-01-01T00:00Z on.
    pub run: u32,
}

#[tactic(auto, using(crate::proofs::Same::same_all))]
fn is_same(a: &[u8], b: &[u8]) -> bool
    ensures { result ≡ same a.now b.now }
{
    a == b
}

// The record of a kind, unless a field is wrong.
fn ended(kind: u8, read: Result<Line, Field>) -> Line
    ensures { result ≡ ended kind read }
{
    match read {
        Ok(line) => line,
        Err(field) => Line::Not(kind, field),
    }
}

// Each field starts where the one before it ends, and after the last stands nothing.
#[tactic(auto, unfolding(crate::specs::Line::day_line_of))]
fn day_in(text: &[u8], word: usize) -> Result<Line, Field>
    ensures { result ≡ day_line_of text.now word }
{
    let day = day_at(text, 1, word)?;
    let quarters = number_at(text, 2, day.end)?;
    let run = minute_at(text, 3, quarters.end)?;
    let position_limit = number_at(text, 4, run.end)?;
    let margin_limit = number_at(text, 5, position_limit.end)?;
    over_at(text, 6, margin_limit.end)?;
    Ok(Line::Day(DayRecord::new(
        day.value,
        quarters.value,
        run.value,
        position_limit.value,
        margin_limit.value,
    )))
}

#[tactic(auto, unfolding(crate::specs::Line::group_line_of))]
fn group_in(text: &[u8], word: usize) -> Result<Line, Field>
    ensures { result ≡ group_line_of text.now word }
{
    let brp = number_at(text, 1, word)?;
    let zone = number_at(text, 2, brp.end)?;
    let quarter = number_at(text, 3, zone.end)?;
    let count = number_at(text, 4, quarter.end)?;
    let made = minute_at(text, 5, count.end)?;
    over_at(text, 6, made.end)?;
    Ok(Line::Group(GroupRecord::new(
        brp.value,
        zone.value,
        quarter.value,
        count.value,
        made.value,
    )))
}

// The ends of a unit after whose nine values something stands.
#[tactic(auto, unfolding(crate::specs::Line::interval_of))]
fn interval_in(text: &[u8], made: usize, u: UnitRecord) -> Result<Line, Field>
    ensures { result ≡ interval_of text.now made u }
{
    let lower = number_at(text, 10, made)?;
    let upper = number_at(text, 11, lower.end)?;
    over_at(text, 12, upper.end)?;
    Ok(Line::Unit(u.with_ends(UnitRecord::INTERVAL_KIND, lower.value, upper.value)))
}

// The nine values of a unit are a 03h where nothing stands after them; else two ends follow, and they are an 04h.
#[tactic(auto, unfolding(crate::specs::Line::ends_of))]
fn ends_in(text: &[u8], made: usize, u: UnitRecord) -> Result<Line, Field>
    ensures { result ≡ ends_of text.now made u }
{
    if over_at(text, 10, made).is_ok() {
        return Ok(Line::Unit(u));
    }
    interval_in(text, made, u)
}

#[tactic(auto, unfolding(crate::specs::Line::unit_line_of))]
fn unit_in(text: &[u8], word: usize) -> Result<Line, Field>
    ensures { result ≡ unit_line_of text.now word }
{
    let number = number_at(text, 1, word)?;
    let class = number_at(text, 2, number.end)?;
    let coincide = number_at(text, 3, class.end)?;
    let nominated = number_at(text, 4, coincide.end)?;
    let n = number_at(text, 5, nominated.end)?;
    let pc = number_at(text, 6, n.end)?;
    let step_down = number_at(text, 7, pc.end)?;
    let step_up = number_at(text, 8, step_down.end)?;
    let made = minute_at(text, 9, step_up.end)?;
    let u = UnitRecord::new(
        number.value,
        class.value,
        coincide.value,
        nominated.value,
        Nomination(n.value),
        Position(pc.value),
        step_down.value,
        step_up.value,
        made.value,
    );
    ends_in(text, made.end, u)
}

#[tactic(auto, unfolding(crate::specs::Line::end_line_of))]
fn end_in(text: &[u8], word: usize) -> Result<Line, Field>
    ensures { result ≡ end_line_of text.now word }
{
    let groups = number_at(text, 1, word)?;
    over_at(text, 2, groups.end)?;
    Ok(Line::End(EndRecord::new(groups.value)))
}

// The record that a word begins.
#[tactic(auto, unfolding(crate::specs::Line::fields_of))]
fn fields_in(name: &[u8], text: &[u8], word: Field) -> Line
    ensures { result ≡ fields_of name.now text.now word }
{
    if is_same(name, b"UNIT") {
        return ended(UnitRecord::KIND, unit_in(text, word.end));
    }
    if is_same(name, b"GROUP") {
        return ended(GroupRecord::KIND, group_in(text, word.end));
    }
    if is_same(name, b"DAY") {
        return ended(DayRecord::KIND, day_in(text, word.end));
    }
    if is_same(name, b"END") {
        return ended(EndRecord::KIND, end_in(text, word.end));
    }
    Line::Not(NO_KIND, word)
}

// A word, and then the fields of its record.
#[tactic(auto, using(crate::proofs::Spaces::stands), unfolding(crate::specs::Line::record_of))]
fn record_in(text: &[u8]) -> Line
    ensures { result ≡ record_of text.now }
{
    let word = field_at(text, 0, 0);
    if word.start == text.len() {
        return Line::Passed;
    }
    fields_in(&text[word.start..word.end], text, word)
}

// Whether a comment begins: at the front or after a blank.
fn is_comment(fresh: bool, byte: u8) -> bool
    ensures { result ≡ fresh && eqb byte 35 }
{
    fresh && byte == b'#'
}

// The length of a line in front of its comment.
#[tactic(auto, using(crate::proofs::Comments::comments))]
fn uncommented_length(line: &[u8]) -> usize
    ensures { result ≡ length (uncommented true line.now) }
{
    let mut fresh = true;
    for (i, byte) in line.iter().enumerate() {
        if is_comment(fresh, *byte) {
            return i;
        }
        fresh = is_blank(*byte);
    }
    line.len()
}

// The length of a line without the carriage return that it may end in.
fn bare_length(line: &[u8]) -> usize
    ensures { (result ≡ bare_length line.now) × (result ≤ length line.now) }
{
    match line {
        [front @ .., CARRIAGE_RETURN] => front.len(),
        _ => line.len(),
    }
}

// A line without its comment.
#[tactic(auto, unfolding(crate::specs::Line::bare_of))]
fn bare_in(text: &[u8]) -> Line
    ensures { result ≡ bare_of text.now }
{
    if LONGEST < text.len() {
        return Line::TooLong;
    }
    let end = bare_length(text);
    record_in(&text[..end])
}

// The length of the byte order mark, which may stand at the front of the text alone.
pub fn mark_length(line: &[u8], number: u64) -> usize
    ensures { (result ≡ mark_length line.now number) × (result ≤ length line.now) }
{
    if number != 1 {
        return 0;
    }
    if line.starts_with(b"\xEF\xBB\xBF") {
        return MARK;
    }
    0
}

// A line without the mark in front of it.
#[tactic(auto, using(crate::proofs::Comments::comments))]
fn unmarked_in(line: &[u8]) -> Line
    ensures { result ≡ bare_of (uncommented true line.now) }
{
    let end = uncommented_length(line);
    bare_in(&line[..end])
}

// What a line is, by its bytes without the line feed that ends it, and its number.
#[tactic(auto, unfolding(crate::specs::Line::line_of))]
pub fn line_in(line: &[u8], number: u64) -> Line
    ensures { result ≡ line_of line.now number }
{
    let from = mark_length(line, number);
    unmarked_in(&line[from..])
}

// The fields of the list's DAY line.
#[tactic(auto, unfolding(crate::specs::Line::listed_fields))]
fn listed_fields(text: &[u8], word: usize) -> Result<Listed, Field>
    ensures { result ≡ listed_fields text.now word }
{
    let day = day_at(text, 1, word)?;
    let quarters = number_at(text, 2, day.end)?;
    let run = minute_at(text, 3, quarters.end)?;
    over_at(text, 4, run.end)?;
    Ok(Listed {
        day: day.value,
        quarters: quarters.value,
        run: run.value,
    })
}

// What the DAY line of the day list tells, by its bytes without the line feed that ends it; none of another line.
#[tactic(auto, using(crate::proofs::Spaces::stands), unfolding(crate::specs::Line::listed_of))]
pub fn day_line_in(text: &[u8]) -> Option<Listed>
    ensures { result ≡ listed_of text.now }
{
    let word = field_at(text, 0, 0);
    if !is_same(&text[word.start..word.end], b"DAY") {
        return None;
    }
    listed_fields(text, word.end).ok()
}
