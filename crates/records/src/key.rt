// What blocks are ordered by.
ghost use Rattle.std.specs.Prelude.{◌≡◌};
ghost use Rattle.records.specs.Reading.{below, follows};

// A BRP, a zone and a quarter, in whose order blocks come.
#[derive(Clone, Copy, PartialEq, Eq, PartialOrd, Ord, Debug)]
pub struct Key {
    pub brp: u16,
    pub zone: u8,
    pub quarter: u8,
}

impl Key {
    // Whether it lies strictly below another.
    pub fn is_below(self, other: Key) -> bool
        ensures { result ≡ below self other }
    {
        self < other
    }

    // Whether a block of this key may come after the last one accepted, where there is one.
    pub fn follows(self, last: Option<Key>) -> bool
        ensures { result ≡ follows last self }
    {
        match last {
            None => true,
            Some(last) => last.is_below(self),
        }
    }
}
