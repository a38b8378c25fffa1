// Dates and moments in digits, and the DAY line that they stand in, laid part by part at a place of a room.
ghost use Rattle.std.specs.Prelude.{◌≡◌, ◌∷◌, ◌+◌, ◌≤◌, ◌<◌, length};
ghost use Rattle.lines.specs.Inner.{Lays};
ghost use Rattle.shown.specs.Inner.{Few, FewMoment};
ghost use Rattle.shown.specs.Shown.{two_digits, date_word, moment_word, minute_shown, dated_line, longest_dated};

use calendar::date::{Date, date_of};
use calendar::moment::{Moment, moment_of};
use lines::field::{SPACE, lay_u32_field, lay_word};
use numbers::bytes::Field;
use numbers::decimal::ZERO;

fn two_digits(n: u32) -> [u8; 2]
    requires { n < 100 }
    ensures { result ≡ two_digits n }
{
    [ZERO + (n / 10) as u8, ZERO + (n % 10) as u8]
}

#[tactic(auto, unfolding(crate::specs::Shown::date_word))]
fn date_word(d: Date) -> [u8; 10]
    requires { Few d }
    ensures { result ≡ date_word d }
{
    let mut word = *b"0000-00-00";
    word[..2].copy_from_slice(&two_digits(d.year / 100));
    word[2..4].copy_from_slice(&two_digits(d.year % 100));
    word[5..7].copy_from_slice(&two_digits(d.month));
    word[8..].copy_from_slice(&two_digits(d.day));
    word
}

#[tactic(auto, unfolding(crate::specs::Shown::moment_word, crate::specs::Shown::date_word))]
fn moment_word(m: Moment) -> [u8; 17]
    requires { FewMoment m }
    ensures { result ≡ moment_word m }
{
    let mut word = *b"0000-00-00T00:00Z";
    word[..10].copy_from_slice(&date_word(m.date));
    word[11..13].copy_from_slice(&two_digits(m.hour));
    word[14..16].copy_from_slice(&two_digits(m.minute));
    word
}

// A word after one space. The room and the place go beside each other, as `Lays` of lines speaks of them.
#[tactic(auto, using(lines::proofs::Parts::laying))]
fn lay_field(out: &mut [u8], at: usize, word: &[u8]) -> usize
    requires { at + 1 + length word.now ≤ length out.old }
    ensures { Lays out.old at (32 ∷ word.now) (1 + length word.now) result out.new }
{
    SPACE.lay(out, at);
    lay_word(out, at + 1, word)
}

fn lay_minute(out: &mut [u8], at: usize, minute: u32) -> usize
    requires { at + 18 ≤ length out.old }
    ensures { Lays out.old at (32 ∷ minute_shown minute) 18 result out.new }
{
    match moment_of(minute) {
        Some(m) => lay_field(out, at, &moment_word(m)),
        None => lay_u32_field(out, at, minute),
    }
}

pub fn lay_dated(out: &mut [u8], day: u16, quarters: u8, run: u32) -> usize
    requires { longest_dated ≤ length out.old }
    ensures { Lays out.old 0 (dated_line day quarters run) longest_dated result out.new }
{
    let word = lay_word(out, 0, b"DAY");
    let date = lay_field(out, word, &date_word(date_of(day)));
    let counted = lay_u32_field(out, date, u32::from(quarters));
    lay_minute(out, counted, run)
}
