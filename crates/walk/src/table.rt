// One table gives, for each state and kind, whether the record may come, what it is to the day, and how long it is.
ghost use Rattle.std.specs.Prelude.{◌≡◌, ◌<◌};
ghost use Rattle.terms.specs.Refusals.{reply};
ghost use Rattle.walk.specs.Table.{table, role_of, is_block, state_after, is_closed, head_in, block_head_in, head_by};

use records::day::DayRecord;
use records::end::EndRecord;
use records::group::GroupRecord;
use terms::refusal::{Refusal, Why};

#[derive(Clone, Copy, PartialEq, Eq, Debug)]
pub enum State {
    Fresh,
    Open,
    Closed,
}

// What a record is to a day.
#[derive(Clone, Copy, PartialEq, Eq, Debug)]
pub enum Role {
    Opens,
    Block,
    Closes,
}

// A record that may come: what it is to the day, and its length with the byte of kind; of a block, that of its group record.
#[derive(Clone, Copy, PartialEq, Eq, Debug)]
pub struct Entry {
    pub role: Role,
    pub len: usize,
}

const NONE: Option<Entry> = None;

const DAY: Option<Entry> = Some(Entry {
    role: Role::Opens,
    len: DayRecord::LEN,
});

const GROUP: Option<Entry> = Some(Entry {
    role: Role::Block,
    len: GroupRecord::LEN,
});

const END: Option<Entry> = Some(Entry {
    role: Role::Closes,
    len: EndRecord::LEN,
});

// A row for each state, and a column for each kind; no record of a kind past them may come. A `const` would be laid out anew at each look.
static TABLE: [[Option<Entry>; 16]; 3] = [
    [
        NONE, DAY, NONE, NONE, NONE, NONE, NONE, NONE, NONE, NONE, NONE, NONE, NONE, NONE, NONE,
        NONE,
    ],
    [
        NONE, NONE, GROUP, NONE, NONE, NONE, NONE, NONE, NONE, NONE, NONE, NONE, NONE, NONE, NONE,
        END,
    ],
    [NONE; 16],
];

// What a record of a kind that some state takes is to the day. Of any other kind it says nothing, and no caller reads more of that than that it is no block.
// No Option: it is a public function that cannot fail, and the theorems on what is taken speak of its definition. By two tests, since a refused call takes a fifth more instructions where the table is asked; tests/bench.
pub fn role_of(kind: u8) -> Role
    ensures { result ≡ role_of kind }
{
    if kind == DayRecord::KIND {
        return Role::Opens;
    }
    if kind == GroupRecord::KIND {
        return Role::Block;
    }
    Role::Closes
}

impl Role {
    pub fn is_block(self) -> bool
        ensures { result ≡ is_block self }
    {
        self == Role::Block
    }

    // The state of a day after such a record.
    pub fn state_after(self) -> State
        ensures { result ≡ state_after self }
    {
        match self {
            Role::Opens => State::Open,
            Role::Block => State::Open,
            Role::Closes => State::Closed,
        }
    }
}

impl State {
    pub fn is_closed(self) -> bool
        ensures { result ≡ is_closed self }
    {
        self == State::Closed
    }

    // The record of this kind that comes now, if it may. A kind is the byte that lies there, which may be any.
    pub fn coming(self, kind: u8) -> Option<Entry>
        ensures { result ≡ table self kind }
    {
        if kind < 16 {
            TABLE[self as usize][usize::from(kind)]
        } else {
            None
        }
    }
}

// What a record whose head was read is to the day, and where the record ends.
#[derive(Clone, Copy, PartialEq, Eq, Debug)]
pub struct Head {
    pub role: Role,
    pub end: usize,
}

// The head of a record that may come and begins within the bytes: 1.
#[tactic(auto, unfolding(terms::specs::Reply::need))]
fn head_by(entry: Entry, at: usize, n: usize) -> Result<Head, Refusal>
    requires { at < n }
    ensures { reply result ≡ head_by entry at n }
{
    if n - at < entry.len {
        return Err(Refusal {
            why: Why::CutShort,
            place: n,
        });
    }
    Ok(Head {
        role: entry.role,
        end: at + entry.len,
    })
}

// The head of the record that comes at a place: 1 if nothing is there, 2, 1. By slice and place, as the walk is; a day asks at 0.
#[tactic(auto, unfolding(crate::specs::Table::head_in, terms::specs::Reply::need))]
pub fn head_in(s: &[u8], at: usize, state: State) -> Result<Head, Refusal>
    ensures { reply result ≡ head_in s.now at state }
{
    let n = s.len();
    if n <= at {
        return Err(Refusal {
            why: Why::CutShort,
            place: n,
        });
    }
    match state.coming(s[at]) {
        Some(entry) => head_by(entry, at, n),
        None => Err(Refusal {
            why: Why::Kind,
            place: at,
        }),
    }
}

// The head of the block that comes at a place: 1 if nothing is there, 2 for any other record, 1. By slice and place, as above.
#[tactic(auto, unfolding(crate::specs::Table::block_head_in, crate::specs::Table::head_in, terms::specs::Reply::need))]
pub fn block_head(s: &[u8], at: usize, state: State) -> Result<Head, Refusal>
    ensures { reply result ≡ block_head_in s.now at state }
{
    let n = s.len();
    if n <= at {
        return Err(Refusal {
            why: Why::CutShort,
            place: n,
        });
    }
    if !role_of(s[at]).is_block() {
        return Err(Refusal {
            why: Why::Kind,
            place: at,
        });
    }
    head_in(s, at, state)
}
