// The unit result record, 12h.
ghost use Rattle.std.specs.Prelude.{◌≡◌};

use terms::quantity::Nomination;

#[derive(Clone, Copy, PartialEq, Eq, Debug)]
pub struct UnitResult {
    pub number: u16,
    // The byte of the record, as `reason_of` sums it.
    pub reason: u8,
    pub n0: Nomination,
    pub n1: Nomination,
    pub n2: Nomination,
    pub n3: Nomination,
}

impl UnitResult {
    pub const KIND: u8 = 18;

    pub const LEN: usize = 20;

    pub const NUMBER: usize = 1;

    pub const REASON: usize = 3;

    pub const N0: usize = 4;

    pub fn new(
        number: u16,
        reason: u8,
        n0: Nomination,
        n1: Nomination,
        n2: Nomination,
        n3: Nomination,
    ) -> UnitResult
        ensures { result ≡ record { number = number; reason = reason; n0 = n0; n1 = n1; n2 = n2; n3 = n3 } }
    {
        UnitResult {
            number,
            reason,
            n0,
            n1,
            n2,
            n3,
        }
    }
}
