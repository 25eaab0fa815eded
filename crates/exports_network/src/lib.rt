// What Rust and C may call of layer 3 and of the plan's reader: the public calls, each reply as its number in the table of refusals.
#![tactic(auto)]

mod benches;
pub mod lists;
pub mod network;
pub mod reading;
pub mod slices;
