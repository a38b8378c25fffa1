// The line at the front of some bytes.
ghost use Rattle.std.specs.Prelude.{◌≡◌, ◌≤◌};
ghost use Rattle.terms.specs.Refusals.{reply};
ghost use Rattle.partner.specs.Line.{line_in, starts_in, read_of};
ghost use Rattle.partner.specs.Inner.{line_by};

use crate::form::{Form, form_of};
use crate::limits::{Places, limits};
use crate::line::{Line, LineRead};
use terms::quantity::{Margins, Nomination};
use terms::refusal::Refusal;

// No From: it cannot ask that the numbers fit, and TryFrom would test what the form has told.
fn line_in(f: Form) -> Line
    requires { (f.number.value ≤ 65535) × (f.quarter.value ≤ 255) }
    ensures { result ≡ line_in f }
{
    Line {
        number: f.number.value as u16,
        quarter: f.quarter.value as u8,
        n: Nomination(f.n.value),
        margins: Margins {
            step_down: f.step_down.value,
            step_up: f.step_up.value,
        },
    }
}

impl From<Form> for Places {
    ghost from_gives = { λ f at. at ≡ starts_in f };

    fn from(f: Form) -> Places {
        Places {
            quarter: f.number.next,
            n: f.quarter.next,
            step_down: f.n.next,
            step_up: f.step_down.next,
        }
    }
}

// A line whose fields are in their form, by its limits.
#[tactic(auto, unfolding(crate::specs::Inner::line_by), using(crate::proofs::Bounds::deciding))]
fn line_by(f: Form) -> Result<LineRead, Refusal>
    requires { (f.number.value ≤ 65535) × (f.quarter.value ≤ 255) }
    ensures { reply result ≡ line_by f }
{
    let line = line_in(f);
    limits(line, Places::from(f))?;
    Ok(LineRead {
        line,
        used: f.step_up.next,
    })
}

// Bytes after its line feed are not read.
pub fn read_line(s: &[u8]) -> Result<LineRead, Refusal>
    ensures { reply result ≡ read_of s.now }
{
    let form = form_of(s)?;
    line_by(form)
}
