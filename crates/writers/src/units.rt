// A block's units as twelve columns, one for each field of the unit record, kind and ends last.
ghost use Rattle.writers.specs.Columns.{columns};
ghost use Rattle.writers.specs.Inner.{Level};

// Columns of one length: entry i of each is of the unit of index i.
#[derive(Clone, Copy)]
pub struct Units<'a> {
    pub number: &'a [u16],
    pub class: &'a [u8],
    pub coincide: &'a [u8],
    pub nominated: &'a [u8],
    pub n: &'a [i32],
    pub pc: &'a [i32],
    pub step_down: &'a [i32],
    pub step_up: &'a [i32],
    pub made: &'a [u32],
    pub kind: &'a [u8],
    pub lower: &'a [i32],
    pub upper: &'a [i32],
    ghost level: { Level (columns number.now class.now coincide.now nominated.now n.now pc.now step_down.now step_up.now made.now kind.now lower.now upper.now) },
}
