// The day value, which goes in with each call and comes back.
ghost use Rattle.std.specs.Prelude.{◌≡◌, ◌<◌};
ghost use Rattle.day.specs.Days.{fresh, opened, counted, closed, could_be_open, possible};

use records::day::DayRecord;
use records::key::Key;
use walk::table::State;

// No invariant stands here: a day that no run of calls gives may be offered to as well, and is promised a refusal, 2.
#[derive(Clone, Copy, PartialEq, Eq, Debug)]
pub struct Day {
    pub state: State,
    pub record: DayRecord,
    pub groups: u32,
    pub last: Option<Key>,
}

impl Day {
    // No run of calls accepts so many groups.
    pub const MOST: u32 = 4294967295;

    // A day to which nothing was offered yet.
    pub fn fresh() -> Day
        ensures { result ≡ fresh }
    {
        Day {
            state: State::Fresh,
            record: DayRecord::new(0, 0, 0, 0, 0),
            groups: 0,
            last: None,
        }
    }

    // The day that a day record opens.
    pub fn opened(record: DayRecord) -> Day
        ensures { result ≡ opened «record» }
    {
        Day {
            state: State::Open,
            record,
            groups: 0,
            last: None,
        }
    }

    // The day with one block more.
    pub fn counted(self, key: Key) -> Day
        requires { self.groups < 4294967295 }
        ensures { result ≡ counted self key }
    {
        Day {
            groups: self.groups + 1,
            last: Some(key),
            ..self
        }
    }

    // The day that an end record closes.
    pub fn closed(self) -> Day
        ensures { result ≡ closed self }
    {
        Day {
            state: State::Closed,
            ..self
        }
    }

    // Whether a run of calls can leave what it holds to an open day.
    fn could_be_open(self) -> bool
        ensures { result ≡ could_be_open self }
    {
        self.groups != Day::MOST && DayRecord::permits(self.record.quarters)
    }

    // Whether a run of calls can give it; of a fresh or a closed day only the state is looked at.
    pub fn is_possible(self) -> bool
        ensures { result ≡ possible self }
    {
        match self.state {
            State::Fresh => true,
            State::Open => self.could_be_open(),
            State::Closed => true,
        }
    }
}
