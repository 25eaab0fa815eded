// Sizes of what is handed to layer 3; the limit tables are as layer 2 has them.

// A view's costs: a number for each of 32 links.
pub const COST_ROW: usize = 32;

// A row for each of 32 views.
pub const COSTS: usize = 1024;

// A message in flight: link, direction, view, number and discarded number.
pub const MESSAGE: usize = 5;

// The most that are in flight, and the numbers of these.
pub const MOST_MESSAGES: usize = 64;

pub const MESSAGES: usize = 320;

// A report: a distance and a link for each of 16 bridges.
pub const REPORT: usize = 32;

// The most events of a list that is read from a plan.
pub const MOST_EVENTS: usize = 2048;

// A block of 256 distances for each of 32 views.
pub(crate) const TABLES: usize = 8192;
