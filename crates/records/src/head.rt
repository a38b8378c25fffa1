// The head of a record: whether one of a kind begins at a place, and lies there whole.
ghost use Rattle.std.specs.Prelude.{◌≡◌, ◌<◌};
ghost use Rattle.terms.specs.Refusals.{reply};
ghost use Rattle.records.specs.Inner.{is_there};
ghost use Rattle.records.specs.Reading.{head_of};

use terms::refusal::{Refusal, Why};

// Whether one of a kind and a length begins at a place, and lies there whole. Three tests apart: joined by `&&`, two of them become flags, and a walk over units takes more time.
pub fn is_there(s: &[u8], at: usize, kind: u8, len: usize) -> bool
    requires { 0 < len }
    ensures { result ≡ is_there s.now at kind len }
{
    let n = s.len();
    if n < len {
        return false;
    }
    if n - len < at {
        return false;
    }
    s[at] == kind
}

// Where the record ends: 1 if nothing is there, 2, 1. A kind is the byte that lies there, which may be any.
#[tactic(auto, unfolding(terms::specs::Reply::need, crate::specs::Reading::head_of))]
pub fn head(s: &[u8], at: usize, kind: u8, len: usize) -> Result<usize, Refusal>
    ensures { reply result ≡ head_of s.now at kind len }
{
    let n = s.len();
    if n <= at {
        return Err(Refusal {
            why: Why::CutShort,
            place: n,
        });
    }
    if s[at] != kind {
        return Err(Refusal {
            why: Why::Kind,
            place: at,
        });
    }
    if n - at < len {
        return Err(Refusal {
            why: Why::CutShort,
            place: n,
        });
    }
    Ok(at + len)
}
