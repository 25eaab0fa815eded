// Sizes by which a plan is carried out.
use text::LONGEST;

// The longest plan, in bytes; neither its events nor its bytes are more.
pub const LONGEST_PLAN: usize = 61440;

pub(crate) const MOST_COUNTED: u32 = LONGEST_PLAN as u32;

// The answers of one list, and the most bytes that are printed for one of their numbers.
pub(crate) const ANSWERS: usize = 2048;

pub(crate) const BYTES_FOR_A_NUMBER: usize = 15;

// So many bytes have room for what a list of the most answers prints, and for the longest text behind it.
pub const OUT_BYTES: usize = LONGEST + ANSWERS * BYTES_FOR_A_NUMBER;
