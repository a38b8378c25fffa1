// What a refusal says: its number and its line, and on the line after them a sentence for a person.
use making::making::Refused;
use making::spot::{LONGEST_SHOWN, Spot, show};
use records::day::DayRecord;
use records::group::GroupRecord;
use records::unit::UnitRecord;
use std::io;
use terms::refusal::Why;
use text::line::{Field, mark_length};

const DAY_FORM: &str = "a whole number from 0 to 65535 or a date such as 2026-01-14";

const MINUTE_FORM: &str =
    "a whole number from 0 to 4294967295 or a moment such as 2026-01-14T13:20Z";

const U8_FORM: &str = "a whole number from 0 to 255";

const U16_FORM: &str = "a whole number from 0 to 65535";

const U32_FORM: &str = "a whole number from 0 to 4294967295";

const I32_FORM: &str = "a whole number from -2147483648 to 2147483647";

// A record's word, and then its fields as docs/TEXT.md has them, each by its name and by what it has to be.
static DAY: [(&str, &str); 6] = [
    ("DAY", ""),
    ("day", DAY_FORM),
    ("quarters", U8_FORM),
    ("run minute", MINUTE_FORM),
    ("position age limit", U16_FORM),
    ("margin age limit", U16_FORM),
];

static GROUP: [(&str, &str); 6] = [
    ("GROUP", ""),
    ("BRP", U16_FORM),
    ("zone", U8_FORM),
    ("quarter", U8_FORM),
    ("unit count", U8_FORM),
    ("positions made", MINUTE_FORM),
];

static UNIT: [(&str, &str); 12] = [
    ("UNIT", ""),
    ("number", U16_FORM),
    ("class", U8_FORM),
    ("coincide", U8_FORM),
    ("nominated", U8_FORM),
    ("N", I32_FORM),
    ("PC", I32_FORM),
    ("M-", I32_FORM),
    ("M+", I32_FORM),
    ("margins made", MINUTE_FORM),
    ("lower end", I32_FORM),
    ("upper end", I32_FORM),
];

static END: [(&str, &str); 2] = [("END", ""), ("groups", U32_FORM)];

static BEHIND: (&str, &str) = ("after the last field", "a field of the line");

// The words of a record by its kind, a number as `Spot` holds it. Of a word that no record has nothing is asked here: it may not come.
fn words_of(kind: u8) -> &'static [(&'static str, &'static str)] {
    match kind {
        DayRecord::KIND => &DAY,
        GroupRecord::KIND => &GROUP,
        UnitRecord::KIND => &UNIT,
        _ => &END,
    }
}

// A field by its index in the line: its name, and what it has to be.
fn field(kind: u8, index: u8) -> (&'static str, &'static str) {
    *words_of(kind).get(usize::from(index)).unwrap_or(&BEHIND)
}

// What is wrong, by the refusal's number (docs/TEXT.md), as `Refused` holds it: with the line or the text, where no field is told, or with a value.
fn reason(number: u8) -> &'static str {
    match number {
        0 => "longer than 255 bytes in front of its comment",
        1 => "the text stops early",
        2 => "nothing may come here",
        3 => "not 92, 96 or 100",
        4 => "above 99",
        5 => "not from 1 to 64",
        6 => "not above the number before it",
        7 => "neither 0 nor 1",
        8 => "not from -1000000 to 1000000",
        9 => "above M+",
        _ => "refused",
    }
}

// What is wrong with a value. N, the fifth field of a unit, is told by 7 though it is no flag, and the lower end, the tenth, by 9 of the ends.
fn wrong(number: u8, index: u8) -> &'static str {
    match (number, index) {
        (7, 5) => "not 0 though not nominated",
        (9, 10) => "above the upper end",
        (19, _) => "of an interval that leaves no room between the margins",
        _ => reason(number),
    }
}

// Each part of what is said is tried, whatever became of the one before; words that cannot be said change nothing.
pub fn say<W: io::Write>(err: &mut W, words: &str) {
    let _ = err.write_all(words.as_bytes());
}

// A field's word as a person can read it.
fn say_word<W: io::Write>(err: &mut W, text: &[u8], found: Field) {
    let end = found.end.min(text.len());
    let start = found.start.min(end);
    let mut room = [0; LONGEST_SHOWN];
    let count = show(&text[start..end], &mut room);
    let _ = err.write_all(&room[..count]);
}

// A word that no record has.
fn say_stranger<W: io::Write>(err: &mut W, text: &[u8], found: Field) {
    say(err, ": ");
    say_word(err, text, found);
    say(err, " may not come here");
}

fn say_came<W: io::Write>(err: &mut W, name: &str) {
    say(err, ": ");
    say(err, name);
    say(err, " may not come here");
}

// A field that is not in the form.
fn say_field<W: io::Write>(err: &mut W, (name, form): (&str, &str), text: &[u8], found: Field) {
    say(err, ", ");
    say(err, name);
    if found.end <= found.start {
        say(err, ": missing");
        return;
    }
    say(err, ": ");
    say_word(err, text, found);
    say(err, " is not ");
    say(err, form);
}

// A value that the writers refuse.
fn say_value<W: io::Write>(err: &mut W, name: &str, value: i32, wrong: &str) {
    say(err, ", ");
    say(err, name);
    say(err, ": ");
    // The sign and the size are two writes: where standard error takes a part of what is said, it is the part that it always took.
    if value < 0 {
        say(err, "-");
    }
    let size = value.unsigned_abs();
    let _ = write!(err, "{size}");
    say(err, " is ");
    say(err, wrong);
}

// What is wrong where no field is told.
fn say_reason<W: io::Write>(err: &mut W, reason: &str) {
    say(err, ": ");
    say(err, reason);
}

fn say_spot<W: io::Write>(err: &mut W, refused: Refused, text: &[u8]) {
    let number = refused.number;
    match refused.spot {
        Spot::Nowhere => say_reason(err, reason(number)),
        Spot::Came(kind) => say_came(err, field(kind, 0).0),
        Spot::Word(0, found) => say_stranger(err, text, found),
        Spot::Word(kind, _) if number == Why::Kind.number() => say_came(err, field(kind, 0).0),
        Spot::Word(kind, found) => say_field(err, field(kind, found.index), text, found),
        Spot::Value(kind, index, value) => {
            say_value(err, field(kind, index).0, value, wrong(number, index));
        }
    }
}

// The number and the line, for a program to read; then the line, the field by its name, and what is wrong with it. A word stands behind the mark
// that may stand in front of the line.
pub fn tell_refusal<W: io::Write>(err: &mut W, refused: Refused, line: &[u8]) {
    let number = refused.number;
    let at = refused.line;
    say(err, "REFUSED ");
    let _ = write!(err, "{number}");
    say(err, " ");
    let _ = write!(err, "{at}");
    say(err, "\nmkday: line ");
    let _ = write!(err, "{at}");
    say_spot(err, refused, &line[mark_length(line, at)..]);
    say(err, "\n");
}
