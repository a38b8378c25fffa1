// The eight fields of a line, judged for their form: the first that is wrong ends the reading.
ghost use Rattle.std.specs.Prelude.{◌≡◌};
ghost use Rattle.terms.specs.Refusals.{reply};
ghost use Rattle.partner.specs.Form.{unit_number_of, form_of};
ghost use Rattle.partner.specs.Inner.{capped_form, mapped, quantities_behind};

use crate::fields::{Held, LINE_FEED, SEMICOLON, malformed, numeral_at, quantity_at};
use records::day::DayRecord;
use terms::refusal::Refusal;

// The largest number of a unit.
const LARGEST: u32 = 65535;

// The values of the fields, with the place after each; what is too large is told by its cap.
#[derive(Clone, Copy, PartialEq, Eq, Debug)]
pub struct Form {
    pub number: Held<u32>,
    pub quarter: Held<u32>,
    pub n: Held<i32>,
    pub step_down: Held<i32>,
    pub step_up: Held<i32>,
}

fn unit_number(s: &[u8]) -> Result<Held<u32>, Refusal>
    ensures { reply result ≡ unit_number_of s.now }
{
    let number = numeral_at(s, 0, LARGEST + 1, SEMICOLON)?;
    if LARGEST < number.value {
        return Err(malformed(0));
    }
    Ok(number)
}

// A line's three quantities, behind its two numbers.
#[tactic(auto, unfolding(terms::specs::Reply::next, crate::specs::Inner::quantities_behind))]
fn quantities_behind(s: &[u8], number: Held<u32>, quarter: Held<u32>) -> Result<Form, Refusal>
    ensures { reply result ≡ quantities_behind s.now number quarter }
{
    let n = quantity_at(s, quarter.next, SEMICOLON)?;
    let step_down = quantity_at(s, n.next, SEMICOLON)?;
    let step_up = quantity_at(s, step_down.next, LINE_FEED)?;
    Ok(Form {
        number,
        quarter,
        n,
        step_down,
        step_up,
    })
}

#[tactic(auto, unfolding(terms::specs::Reply::next), using(crate::proofs::Forms::forming))]
pub fn form_of(s: &[u8]) -> Result<Form, Refusal>
    ensures { reply result ≡ mapped capped_form (form_of s.now) }
{
    let number = unit_number(s)?;
    let quarter = numeral_at(s, number.next, u32::from(DayRecord::AUTUMN), SEMICOLON)?;
    quantities_behind(s, number, quarter)
}
