// The plan file's reader: what stands at the head of the bytes that are left, given how far the plan has come.
#![tactic(auto)]

use bench::Event;

pub mod events;
pub mod fields;
mod header;
pub mod sizes;
mod tags;
mod values;

// How far a plan has come. Stage 0: nothing read; 1: the bridge count; 2: a view; 3: an event. A caller may hand in any number as the
// stage, of which `read_field` promises a refusal where no plan leads to it; so it is no enum.
#[derive(Clone, Copy)]
pub struct Progress {
    pub stage: usize,
    pub bridges: usize,
    pub links: usize,
    pub views: usize,
}

// A setup or an event. A view's costs stand in the plan after the field's header.
#[derive(Clone, Copy)]
pub enum Field {
    Bridges(u8),
    Link(u8, u8),
    View,
    Event(Event),
}
