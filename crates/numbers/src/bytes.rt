// Numbers with the most significant byte first, read and laid at a place of lent bytes: a slice and a place stay two parameters: each contract speaks of the bytes and the place apart, and a struct lent as &mut would have to say at each step that it keeps the room's name.
ghost use Rattle.std.specs.Prelude.{◌≡◌, ℕ, ◌+◌, ◌^◌, ◌<◌, ◌≤◌, List, [], ◌∷◌, length, take, drop, refl, FitsSigned};
ghost use Rattle.std.specs.Int.{w32};
ghost use Rattle.numbers.specs.Bytes.{byte_at, be16, be32, bytes16, bytes32, signed32, bits32, laid_at, Bytes};
ghost use Rattle.numbers.specs.Fields.{length_bytes16, length_bytes32, back8, back16, back32, back_signed, again8, again16, again32, again_signed};

// The byte at a place, 0 past the end.
pub fn byte(s: &[u8], at: usize) -> u8
    ensures { result ≡ byte_at s.now at }
{
    s.get(at).copied().unwrap_or(0)
}

// A field of a record: a number of so many bytes.
pub trait Field: Copy {
    // How many bytes it has.
    const LEN: usize;

    ghost LEN: { ℕ };

    // The number that the bytes at a place make, and the bytes of a number.
    ghost value_at: { List ℕ → ℕ → Self };

    ghost bytes_of: { Self → List ℕ };

    // What each number of the type meets.
    ghost fits: { Self → Type 0 };

    fn read(s: &[u8], at: usize) -> Self
        requires { at + LEN ≤ length s.now }
        ensures { result ≡ value_at s.now at };

    fn lay(self, room: &mut [u8], at: usize)
        requires { at + LEN ≤ length room.old }
        ensures { room.new ≡ laid_at room.old at (bytes_of self) };

    ghost length_of_bytes: { (x : Self) → length (bytes_of x) ≡ LEN };

    // What was laid is read back.
    ghost reads_back: { (x : Self) (l : List ℕ) (at : ℕ) → fits x → at + LEN ≤ length l → value_at (laid_at l at (bytes_of x)) at ≡ x };

    // What was read is laid as the same bytes.
    ghost bytes_back: { (s : List ℕ) (at : ℕ) → Bytes s → at + LEN ≤ length s → bytes_of (value_at s at) ≡ take LEN (drop at s) };
}

impl Field for u8 {
    const LEN: usize = 1;

    ghost LEN = { 1 };

    ghost value_at = { byte_at };

    ghost bytes_of = { λ x. x ∷ [] };

    ghost fits = { λ x. x < 2 ^ 8 };

    ghost length_of_bytes = { λ x. refl };

    ghost reads_back = { back8 };

    ghost bytes_back = { again8 };

    fn read(s: &[u8], at: usize) -> u8 {
        s[at]
    }

    #[tactic(auto, unfolding(crate::specs::Bytes::laid_at))]
    fn lay(self, room: &mut [u8], at: usize) {
        room[at] = self;
    }
}

impl Field for u16 {
    const LEN: usize = 2;

    ghost LEN = { 2 };

    ghost value_at = { be16 };

    ghost bytes_of = { bytes16 };

    ghost fits = { λ x. x < 2 ^ 16 };

    ghost length_of_bytes = { length_bytes16 };

    ghost reads_back = { back16 };

    ghost bytes_back = { again16 };

    #[tactic(auto, unfolding(crate::specs::Bytes::be16))]
    fn read(s: &[u8], at: usize) -> u16 {
        u16::from_be_bytes([s[at], s[at + 1]])
    }

    #[tactic(auto, unfolding(crate::specs::Bytes::laid_at, crate::specs::Bytes::bytes16))]
    fn lay(self, room: &mut [u8], at: usize) {
        room[at..at + 2].copy_from_slice(&self.to_be_bytes());
    }
}

impl Field for u32 {
    const LEN: usize = 4;

    ghost LEN = { 4 };

    ghost value_at = { be32 };

    ghost bytes_of = { bytes32 };

    ghost fits = { λ x. x < 2 ^ 32 };

    ghost length_of_bytes = { length_bytes32 };

    ghost reads_back = { back32 };

    ghost bytes_back = { again32 };

    #[tactic(auto, unfolding(crate::specs::Bytes::be32, crate::specs::Bytes::be16))]
    fn read(s: &[u8], at: usize) -> u32 {
        u32::from_be_bytes([s[at], s[at + 1], s[at + 2], s[at + 3]])
    }

    #[tactic(auto, unfolding(crate::specs::Bytes::laid_at, crate::specs::Bytes::bytes32, crate::specs::Bytes::bytes16))]
    fn lay(self, room: &mut [u8], at: usize) {
        room[at..at + 4].copy_from_slice(&self.to_be_bytes());
    }
}

impl Field for i32 {
    const LEN: usize = 4;

    ghost LEN = { 4 };

    ghost value_at = { λ s at. signed32 (be32 s at) };

    ghost bytes_of = { λ z. bytes32 (bits32 z) };

    ghost fits = { λ z. FitsSigned w32 z };

    ghost length_of_bytes = { λ z. length_bytes32 (bits32 z) };

    ghost reads_back = { back_signed };

    ghost bytes_back = { again_signed };

    fn read(s: &[u8], at: usize) -> i32 {
        u32::read(s, at).cast_signed()
    }

    fn lay(self, room: &mut [u8], at: usize) {
        self.cast_unsigned().lay(room, at);
    }
}
