// How much a network may have (docs/PROTOCOL.md), and the number that stands for none.

pub const LEAST_BRIDGES: usize = 2;

pub const MOST_BRIDGES: usize = 16;

pub const MOST_LINKS: usize = 32;

pub const MOST_VIEWS: usize = 32;

// The most that a link may cost.
pub const MAX_COST: u32 = 16777215;

// No path, no limit, no port, and no link named.
pub const NONE: u32 = 4294967295;

// A row of a table of distances, or of limits: a number for each of 16 bridges.
pub const ROW: usize = 16;

// A view's distances: 16 rows.
pub const TABLE: usize = 256;
