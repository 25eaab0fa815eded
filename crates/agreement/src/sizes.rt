// Sizes of what is lent to layer 2.
// A table of limits: a row for each end.
pub const LIMITS: usize = 1024;

// The ends of 32 links.
pub const ENDS: usize = 64;

// The received view of an end that has received none.
pub const NO_VIEW: u8 = 255;

// The last agreement number, and how many there are.
pub const LAST_NUMBER: u16 = 65535;

pub const NUMBERS: u32 = 65536;
