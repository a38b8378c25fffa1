// The end record, 0Fh.
ghost use Rattle.std.specs.Prelude.{◌≡◌, ◌≤◌, eqb, length};
ghost use Rattle.terms.specs.Refusals.{reply};
ghost use Rattle.terms.specs.Reply.{is, need};
ghost use Rattle.records.specs.Layouts.{end_length, end_groups, end_at};
ghost use Rattle.records.specs.Reading.{end_fields_of, end_of};

use crate::head::head;
use numbers::bytes::Field;
use terms::refusal::{Refusal, Why};

#[derive(Clone, Copy, PartialEq, Eq, Debug)]
pub struct EndRecord {
    pub groups: u32,
}

impl EndRecord {
    pub const KIND: u8 = 15;

    pub const LEN: usize = 5;

    pub const GROUPS: usize = 1;

    pub fn new(groups: u32) -> EndRecord
        ensures { result ≡ record { groups = groups } }
    {
        EndRecord { groups }
    }
}

// The groups, if as many were accepted. That the record is there stands in a clause: a type that held it would serve this function alone, since `end_fields` is public and keeps its own.
#[tactic(auto, unfolding(terms::specs::Reply::need, crate::specs::Layouts::end_at))]
fn groups_at(s: &[u8], accepted: u32) -> Result<u32, Refusal>
    requires { end_length ≤ length s.now }
    ensures { reply result ≡ need (eqb (end_at s.now 0).groups accepted) 14 end_groups.place (is (end_at s.now 0).groups) }
{
    let groups = u32::read(s, EndRecord::GROUPS);
    if groups == accepted {
        return Ok(groups);
    }
    Err(Refusal {
        why: Why::EndCount,
        place: EndRecord::GROUPS,
    })
}

// The fields of an end record that is there whole, after so many groups accepted.
#[tactic(auto, unfolding(terms::specs::Reply::need, crate::specs::Layouts::end_at, crate::specs::Reading::end_fields_of))]
pub fn end_fields(s: &[u8], accepted: u32) -> Result<EndRecord, Refusal>
    requires { end_length ≤ length s.now }
    ensures { reply result ≡ end_fields_of s.now accepted }
{
    let groups = groups_at(s, accepted);
    let Ok(groups) = groups else {
        return Err(groups.unwrap_err());
    };
    Ok(EndRecord::new(groups))
}

// The end record at the front of the bytes.
#[tactic(auto, unfolding(terms::specs::Reply::need, terms::specs::Reply::next, crate::specs::Reading::head_of, crate::specs::Reading::end_of))]
pub fn read_end(s: &[u8], accepted: u32) -> Result<EndRecord, Refusal>
    ensures { reply result ≡ end_of s.now accepted }
{
    head(s, 0, EndRecord::KIND, EndRecord::LEN)?;
    end_fields(s, accepted)
}
