// The lines that the program prints, into bytes that the caller lends.
#![tactic(auto)]

pub mod lines;
mod writer;

// Every text has room in so many bytes: 16, and 33 for each of 16 bridges, with ten digits for every number.
pub const LONGEST: usize = 544;
