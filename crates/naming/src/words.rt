// A refusal's words, laid part by part at a place of a room. Each part gives the place behind it, as the parts of `lines` do, of which all are made: a struct of room and place would be taken apart at each.
ghost use Rattle.std.specs.Prelude.{◌∷◌, ◌+◌, ◌≤◌, length};
ghost use Rattle.numbers.specs.Decimal.{decimal};
ghost use Rattle.lines.specs.Lines.{signed_decimal, i32_field, u32_field, u64_field};
ghost use Rattle.lines.specs.Inner.{Lays};
ghost use Rattle.naming.specs.Words.{numbered, key_words, subject_words, value_words, against_words, age_words, held_words, told_words, last_words, finding_words, name_line};
ghost use Rattle.naming.specs.Words.{longest_key, longest_subject, longest_name, longest_value, longest_age, longest_held, longest_finding, longest_line};

use crate::fields::{field_name, unit_field_name};
use finding::named::{Finding, Held, Named, Subject, Told, UnitField, Value};
use lines::field::{lay_feed, lay_i32_field, lay_u32_field, lay_u64_field, lay_word};
use records::key::Key;

// Two widths, each with its own longest field in its clauses: by 64 bits alone the longest line would grow, and a trait of widths would hold these two lengths alone.
#[tactic(auto, using(crate::proofs::Laying::laying))]
fn lay_numbered(out: &mut [u8], at: usize, word: &[u8], n: u32) -> usize
    requires { at + length word.now + u32_field ≤ length out.old }
    ensures { Lays out.old at (numbered word.now n) (length word.now + u32_field) result out.new }
{
    let behind = lay_word(out, at, word);
    lay_u32_field(out, behind, n)
}

#[tactic(auto, using(crate::proofs::Laying::laying))]
fn lay_counted(out: &mut [u8], at: usize, word: &[u8], n: usize) -> usize
    requires { at + length word.now + u64_field ≤ length out.old }
    ensures { Lays out.old at (numbered word.now n) (length word.now + u64_field) result out.new }
{
    let behind = lay_word(out, at, word);
    // No `From` makes 64 bits of a `usize`.
    lay_u64_field(out, behind, n as u64)
}

#[tactic(auto, using(crate::proofs::Laying::laying), unfolding(crate::specs::Words::key_words))]
fn lay_key(out: &mut [u8], at: usize, k: Key) -> usize
    requires { at + longest_key ≤ length out.old }
    ensures { Lays out.old at (key_words k) longest_key result out.new }
{
    let brp = lay_numbered(out, at, b"BRP", u32::from(k.brp));
    let zone = lay_numbered(out, brp, b", zone", u32::from(k.zone));
    lay_numbered(out, zone, b", quarter", u32::from(k.quarter))
}

#[tactic(auto, using(crate::proofs::Laying::laying), unfolding(crate::specs::Words::subject_words))]
fn lay_subject(out: &mut [u8], at: usize, subject: Subject) -> usize
    requires { at + longest_subject ≤ length out.old }
    ensures { Lays out.old at (subject_words subject) longest_subject result out.new }
{
    match subject {
        Subject::Record => lay_word(out, at, b"record"),
        Subject::Day => lay_word(out, at, b"day record"),
        Subject::Group => lay_word(out, at, b"group record"),
        Subject::End => lay_word(out, at, b"end record"),
        Subject::Block(k) => lay_key(out, at, k),
        Subject::Unit(k, number) => {
            let key = lay_key(out, at, k);
            lay_numbered(out, key, b", unit", u32::from(number))
        }
        Subject::UnitAt(k, index) => {
            let key = lay_key(out, at, k);
            lay_counted(out, key, b", unit at index", index)
        }
    }
}

#[tactic(auto, using(crate::proofs::Laying::laying), unfolding(crate::specs::Words::value_words))]
fn lay_value(out: &mut [u8], at: usize, value: Value) -> usize
    requires { at + longest_value ≤ length out.old }
    ensures { Lays out.old at (value_words value) longest_value result out.new }
{
    match value {
        Value::Plain(n) => lay_u32_field(out, at, n),
        Value::Signed(z) => lay_i32_field(out, at, z),
    }
}

// A word, the field that it was held against, and its value.
#[tactic(auto, using(crate::proofs::Laying::laying), unfolding(crate::specs::Words::against_words))]
fn lay_against(out: &mut [u8], at: usize, word: &[u8], f: UnitField, v: Value) -> usize
    requires { at + length word.now + longest_name + longest_value ≤ length out.old }
    ensures { Lays out.old at (against_words word.now f v) (length word.now + longest_name + longest_value) result out.new }
{
    let behind = lay_word(out, at, word);
    let field = lay_word(out, behind, unit_field_name(f));
    lay_value(out, field, v)
}

#[tactic(auto, using(crate::proofs::Laying::laying), unfolding(crate::specs::Words::age_words))]
fn lay_age(out: &mut [u8], at: usize, run: u32, limit: u16) -> usize
    requires { at + longest_age ≤ length out.old }
    ensures { Lays out.old at (age_words run limit) longest_age result out.new }
{
    let minute = lay_numbered(out, at, b", run", run);
    lay_numbered(out, minute, b", limit", u32::from(limit))
}

#[tactic(auto, using(crate::proofs::Laying::laying), unfolding(crate::specs::Words::held_words))]
fn lay_held(out: &mut [u8], at: usize, held: Held) -> usize
    requires { at + longest_held ≤ length out.old }
    ensures { Lays out.old at (held_words held) longest_held result out.new }
{
    match held {
        Held::NotPermitted => lay_word(out, at, b", not permitted"),
        Held::Quarters => lay_word(out, at, b", one of 92, 96, 100"),
        Held::Below(n) => lay_numbered(out, at, b", below", u32::from(n)),
        Held::UnitCount => lay_word(out, at, b", from 1 to 64"),
        Held::Above(n) => lay_numbered(out, at, b", above", u32::from(n)),
        Held::Flag => lay_word(out, at, b", one of 0, 1"),
        Held::NotNominated => lay_word(out, at, b", 0 where not nominated"),
        Held::Range => lay_word(out, at, b", from -1000000 to 1000000"),
        Held::AtLeast(f, v) => lay_against(out, at, b", at least ", f, v),
        Held::AtMost(f, v) => lay_against(out, at, b", at most ", f, v),
        Held::Old(run, limit, age) => {
            let minutes = lay_age(out, at, run, limit);
            lay_numbered(out, minutes, b", age", age)
        }
        Held::Ahead(run, limit) => {
            let minutes = lay_age(out, at, run, limit);
            lay_word(out, minutes, b", made after the run")
        }
        Held::Accepted(n) => lay_numbered(out, at, b", accepted", n),
    }
}

#[tactic(auto, using(crate::proofs::Laying::laying), unfolding(crate::specs::Words::told_words))]
fn lay_told(out: &mut [u8], at: usize, t: Told) -> usize
    requires { at + longest_finding ≤ length out.old }
    ensures { Lays out.old at (told_words t) longest_finding result out.new }
{
    let field = lay_word(out, at, field_name(t.field));
    let value = lay_value(out, field, t.value);
    lay_held(out, value, t.held)
}

#[tactic(auto, using(crate::proofs::Laying::laying), unfolding(crate::specs::Words::last_words))]
fn lay_last(out: &mut [u8], at: usize, last: Option<Key>) -> usize
    requires { at + longest_finding ≤ length out.old }
    ensures { Lays out.old at (last_words last) longest_finding result out.new }
{
    match last {
        None => lay_word(out, at, b"not after the block before"),
        Some(k) => {
            let after = lay_word(out, at, b"not after ");
            lay_key(out, after, k)
        }
    }
}

#[tactic(auto, using(crate::proofs::Laying::laying), unfolding(crate::specs::Words::finding_words))]
fn lay_finding(out: &mut [u8], at: usize, finding: Finding) -> usize
    requires { at + longest_finding ≤ length out.old }
    ensures { Lays out.old at (finding_words finding) longest_finding result out.new }
{
    match finding {
        Finding::CutShort(n) => lay_counted(out, at, b"cut short, bytes at hand", n),
        Finding::Told(t) => lay_told(out, at, t),
        Finding::NotAfter(last) => lay_last(out, at, last),
        Finding::Room => lay_word(out, at, b"room too small"),
        Finding::OtherCall => lay_word(out, at, b"a refusal of another call"),
    }
}

#[tactic(auto, using(crate::proofs::Laying::laying), unfolding(crate::specs::Words::name_line))]
pub fn lay_line(out: &mut [u8], n: Named) -> usize
    requires { longest_line ≤ length out.old }
    ensures { Lays out.old 0 (name_line n) longest_line result out.new }
{
    let subject = lay_subject(out, 0, n.subject);
    let colon = lay_word(out, subject, b": ");
    let finding = lay_finding(out, colon, n.finding);
    lay_feed(out, finding)
}
