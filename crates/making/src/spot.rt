// What of a line was refused: the field by its index, and the word or the value there.
ghost use Rattle.std.specs.Prelude.{◌≡◌};
ghost use Rattle.making.specs.Spot.{shown_byte, Shows};

use text::line::Field;

// The most bytes of a word that are shown.
pub const LONGEST_SHOWN: usize = 40;

// Kinds are numbers, of which the state of `Making::turn` holds any, as `Refused` says.
#[derive(Clone, Copy, PartialEq, Eq, Debug)]
pub enum Spot {
    // No field: the whole line, or the end of the text.
    Nowhere,
    // The word of a record of this kind, which may not come.
    Came(u8),
    // A field that is not in the form, of a record of this kind, 0 where its word is no record's: the number that `Line::Not` holds.
    Word(u8, Field),
    // A value that the writers refuse, of a record of this kind: the index of its field, and the value.
    Value(u8, u8, i32),
}

fn shown(byte: u8) -> u8
    ensures { result ≡ shown_byte byte }
{
    match byte {
        32..=126 => byte,
        _ => b'?',
    }
}

// A word as a person can read it, at the front of the room.
pub fn show(word: &[u8], room: &mut [u8]) -> usize
    ensures { Shows word.now room.old result room.new }
{
    let count = LONGEST_SHOWN.min(word.len()).min(room.len());
    for i in 0..count {
        room[i] = shown(word[i]);
    }
    count
}
