// What the programs read: their input in pieces, and its lines, one byte at a time.
#![tactic(auto)]

pub mod fields;
pub mod lines;
pub mod stream;
