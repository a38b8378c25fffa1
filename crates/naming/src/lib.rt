// A refusal in words: one line of the plant, the field, the value read there, and what it was held against.
#![tactic(auto)]

mod fields;
pub mod name;
mod words;
