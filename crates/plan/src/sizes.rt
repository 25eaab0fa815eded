// Sizes of a plan's fields, and of a list of its events.
use bench::sizes::MOST_EVENTS;

// A field's header: one byte of tag, two of length.
pub(crate) const HEADER_BYTES: usize = 3;

// A link's cost in a view.
pub(crate) const COST_BYTES: usize = 4;

// Where each event of a list ends, and a 0 for where the first one begins.
pub const EVENT_ENDS: usize = MOST_EVENTS + 1;
