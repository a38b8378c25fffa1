// Quantities with their signs, and what a class byte says.
ghost use Rattle.std.specs.Prelude.{◌≡◌, true, ◌≤◌, neg_ℤ};
ghost use Rattle.numbers.specs.Choice.{pick};
ghost use Rattle.numbers.specs.Range.{Within};
ghost use Rattle.terms.specs.Quantities.{standing, known_class, size_in, implicit};

// Whole kWh, negative for a sale, positive for a purchase.
#[derive(Clone, Copy, PartialEq, Eq, PartialOrd, Ord, Debug)]
pub struct Position(pub i32);

// Whole kWh, positive for an injection, negative for a withdrawal.
#[derive(Clone, Copy, PartialEq, Eq, PartialOrd, Ord, Debug)]
pub struct Nomination(pub i32);

// A unit's step-down and step-up margin, M- and M+, by which the steps work: whole kWh with a nomination's sign.
#[derive(Clone, Copy, PartialEq, Eq, Debug)]
pub struct Margins {
    pub step_down: i32,
    pub step_up: i32,
}

impl Nomination {
    // A nomination of a unit, and each of its margins, lies from -LIMIT to LIMIT.
    pub const LIMIT: i32 = 1000000;
}

impl Position {
    // A position of a unit lies from -LIMIT to LIMIT, as its nomination.
    pub const LIMIT: i32 = Nomination::LIMIT;

    // The one place where a position becomes a nomination: a sale of 500 matches a nomination of +500. No `From`, which could not ask that the sign can turn.
    pub fn nominated(self) -> Nomination
        requires { Within 64000000 self.0 }
        ensures { result.0 ≡ neg_ℤ self.0 }
    {
        Nomination(-self.0)
    }
}

// How a unit stands to the Integrated Scheduling Process.
#[derive(Clone, Copy, PartialEq, Eq, Debug)]
pub enum Standing {
    NotEnabled,
    Enabled,
}

impl Standing {
    // Whether a unit of this class stands so: class 0 is not enabled, class 1 is.
    pub fn holds(self, class: u8) -> bool
        ensures { result ≡ standing self class }
    {
        match self {
            Standing::NotEnabled => class == 0,
            Standing::Enabled => class == 1,
        }
    }
}

// Whether a unit can be of this class.
pub fn is_class(class: u8) -> bool
    ensures { result ≡ known_class class }
{
    class <= 1
}

// What step 2 cuts.
#[derive(Clone, Copy, PartialEq, Eq, Debug)]
pub enum Direction {
    Injections,
    Withdrawals,
}

impl Direction {
    // The size of a nomination in the direction, 0 where it runs the other way.
    pub fn size(self, n: i32) -> u32
        ensures { result ≡ size_in self n }
    {
        match self {
            Direction::Injections if 0 < n => n.unsigned_abs(),
            Direction::Withdrawals if n < 0 => n.unsigned_abs(),
            _ => 0,
        }
    }
}

// Whether a nomination is implicit, and taken: not nominated, and either not enabled (class 0) or BRP and BSP coincide. Of three flags one comparison tells it, so that a loop over units has no branch.
pub fn is_implicit(class: u8, nominated: u8, coincide: u8) -> bool
    requires { (known_class class ≡ true) × ((nominated ≤ 1) × (coincide ≤ 1)) }
    ensures { result ≡ implicit class nominated coincide }
{
    2 * nominated + class <= coincide
}

// The nomination that the steps start from: what was sold where it is implicit, and else N, which is 0 where not nominated.
pub fn considered(implicit: bool, n: Nomination, pc: Position) -> Nomination
    requires { Within 1000000 pc.0 }
    ensures { result.0 ≡ pick implicit (neg_ℤ pc.0) n.0 }
{
    if implicit {
        return pc.nominated();
    }
    n
}
