// What a line of a partner's export says.
use terms::quantity::{Margins, Nomination};

// One unit in one quarter: its nomination and its margins, in whole kWh.
#[derive(Clone, Copy, PartialEq, Eq, Debug)]
pub struct Line {
    pub number: u16,
    pub quarter: u8,
    pub n: Nomination,
    pub margins: Margins,
}

// A line that was read, and how many bytes it has, its line feed too.
#[derive(Clone, Copy, PartialEq, Eq, Debug)]
pub struct LineRead {
    pub line: Line,
    pub used: usize,
}
