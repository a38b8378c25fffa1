// What a refusal names: the plant, the field, the value read there, and what it was held against.
#![tactic(auto)]

pub mod named;
mod record;
mod spot;
