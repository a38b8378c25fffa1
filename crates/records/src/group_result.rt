// The group result record, 11h.
ghost use Rattle.std.specs.Prelude.{◌≡◌};

use terms::quantity::{Nomination, Position};

#[derive(Clone, Copy, PartialEq, Eq, Debug)]
pub struct GroupResult {
    pub brp: u16,
    pub zone: u8,
    pub quarter: u8,
    // The byte of the record, as `verdict_of` sums it.
    pub verdict: u8,
    pub count: u8,
    pub p: Position,
    pub s1: Nomination,
    pub s2: Nomination,
    pub s3: Nomination,
    pub balance: Nomination,
}

impl GroupResult {
    pub const KIND: u8 = 17;

    pub const LEN: usize = 27;

    pub const BRP: usize = 1;

    pub const ZONE: usize = 3;

    pub const QUARTER: usize = 4;

    pub const VERDICT: usize = 5;

    pub const COUNT: usize = 6;

    pub const P: usize = 7;

    pub const BALANCE: usize = 23;

    pub fn new(
        brp: u16,
        zone: u8,
        quarter: u8,
        verdict: u8,
        count: u8,
        p: Position,
        s1: Nomination,
        s2: Nomination,
        s3: Nomination,
        balance: Nomination,
    ) -> GroupResult
        ensures { result ≡ record { brp = brp; zone = zone; quarter = quarter; verdict = verdict; count = count; p = p; s1 = s1; s2 = s2; s3 = s3; balance = balance } }
    {
        GroupResult {
            brp,
            zone,
            quarter,
            verdict,
            count,
            p,
            s1,
            s2,
            s3,
            balance,
        }
    }
}
