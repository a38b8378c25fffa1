// A record where it stands, read by the layouts: a byte past the end counts as 0, as in the layouts.
ghost use Rattle.std.specs.Prelude.{◌≡◌, ◌+◌, ◌≤◌};
ghost use Rattle.numbers.specs.Bytes.{byte_at, be16, be32, signed32};
ghost use Rattle.finding.specs.Near.{Near};

use numbers::bytes::byte;

// What was offered, and the place in it where the record begins.
#[derive(Clone, Copy)]
pub struct Record<'a> {
    pub s: &'a [u8],
    pub at: usize,
    ghost near: { Near at },
}

impl<'a> Record<'a> {
    pub fn byte(&self, offset: usize) -> u8
        requires { Near offset }
        ensures { result ≡ byte_at self.now.s.now (self.now.at + offset) }
    {
        byte(self.s, self.at + offset)
    }

    #[tactic(auto, unfolding(numbers::specs::Bytes::be16))]
    pub fn half(&self, offset: usize) -> u16
        requires { Near offset }
        ensures { result ≡ be16 self.now.s.now (self.now.at + offset) }
    {
        u16::from_be_bytes([self.byte(offset), byte(self.s, self.at + offset + 1)])
    }

    #[tactic(auto, unfolding(numbers::specs::Bytes::be16, numbers::specs::Bytes::be32))]
    pub fn word(&self, offset: usize) -> u32
        requires { Near offset }
        ensures { result ≡ be32 self.now.s.now (self.now.at + offset) }
    {
        let at = self.at + offset;
        u32::from_be_bytes([
            byte(self.s, at),
            byte(self.s, at + 1),
            byte(self.s, at + 2),
            byte(self.s, at + 3),
        ])
    }

    pub fn signed(&self, offset: usize) -> i32
        requires { Near offset }
        ensures { result ≡ signed32 (be32 self.now.s.now (self.now.at + offset)) }
    {
        self.word(offset).cast_signed()
    }
}
