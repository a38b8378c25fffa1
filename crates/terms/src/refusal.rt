// Refusals: why, and where.
ghost use Rattle.std.specs.Prelude.{◌≡◌};
ghost use Rattle.terms.specs.Refusals.{number_of, no_refusal, refusal_of, why_of, refused_at};

// The reasons for a refusal, each with its number.
#[derive(Clone, Copy, PartialEq, Eq, Debug)]
pub enum Why {
    CutShort = 1,
    Kind = 2,
    Quarters = 3,
    Quarter = 4,
    UnitCount = 5,
    UnitNumber = 6,
    Flag = 7,
    Range = 8,
    Crossed = 9,
    PositionAge = 10,
    MarginAge = 11,
    Room = 12,
    BlockOrder = 13,
    EndCount = 14,
    Columns = 15,
    PositionAhead = 17,
    MarginAhead = 18,
    WorkingCrossed = 19,
    Line = 20,
}

impl Why {
    pub fn number(self) -> u8
        ensures { result ≡ number_of self }
    {
        self as u8
    }
}

#[derive(Clone, Copy, PartialEq, Eq, Debug)]
pub struct Refusal {
    pub why: Why,
    pub place: usize,
}

// What is handed out in place of the refusal of an answer that is none. No Option: it is a public function that cannot fail (docs/CONTRACTS.md), as `refusal_of` is.
pub fn no_refusal() -> Refusal
    ensures { result ≡ no_refusal }
{
    Refusal {
        why: Why::Kind,
        place: 0,
    }
}

// The refusal of an answer that is one, whatever it answers else; of any other `no_refusal`.
pub fn refusal_of<A>(answer: &Result<A, Refusal>) -> Refusal
    ensures { result ≡ refusal_of answer.now }
{
    match answer {
        Ok(_) => no_refusal(),
        Err(r) => *r,
    }
}

// What can be wrong with a unit, field by field.
#[derive(Clone, Copy, PartialEq, Eq, Debug)]
pub enum Fault {
    // A kind that no unit record has; only the block writer meets it.
    Kind,
    Number,
    Class,
    Coincide,
    Nominated,
    NotNominated,
    N,
    Pc,
    StepDown,
    StepUp,
    Lower,
    Upper,
    Crossed,
    EndsCrossed,
    // A 03h whose ends are not the full ones; only the block writer meets it.
    NotFull,
    WorkingCrossed,
    Ahead,
    Age,
}

impl From<Fault> for Why {
    ghost from_gives = { λ fault why. why ≡ why_of fault };

    fn from(fault: Fault) -> Why {
        match fault {
            Fault::Kind => Why::Kind,
            Fault::Number => Why::UnitNumber,
            Fault::Class | Fault::Coincide | Fault::Nominated | Fault::NotNominated => Why::Flag,
            Fault::N | Fault::Pc | Fault::StepDown | Fault::StepUp | Fault::Lower | Fault::Upper =>
                Why::Range,
            Fault::Crossed | Fault::EndsCrossed | Fault::NotFull => Why::Crossed,
            Fault::WorkingCrossed => Why::WorkingCrossed,
            Fault::Ahead => Why::MarginAhead,
            Fault::Age => Why::MarginAge,
        }
    }
}

impl Fault {
    // The refusal of a unit that has it, at a place of the caller's counting: a byte or a unit's index.
    pub fn at(self, place: usize) -> Refusal
        ensures { result ≡ refused_at place self }
    {
        Refusal {
            why: Why::from(self),
            place,
        }
    }
}
