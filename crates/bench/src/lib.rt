// Layer 3: the network bench, with messages in flight. A caller keeps a `Bench` and lends it with the buffers beside it: costs (view t,
// link l at 32 t + l), two limit tables (a row of 16 for each end), and the messages (five numbers for each). The views' distances
// follow from the costs: a call computes those that it uses.
#![tactic(auto)]

ghost use Rattle.std.specs.Prelude.{◌≡◌, ℕ, List};
ghost use Rattle.bench.specs.State.{lent_state, state_of};

use agreement::{EndRecord, Limits, LimitsMut};
use distances::{Graph, Refusal};

pub mod answers;
pub mod batches;
pub mod changes;
mod deliveries;
mod initial;
pub mod messages;
mod ports;
mod queue;
mod ready;
mod refusals;
pub mod sizes;
mod tables;
mod updates;

// Link l joins ends[2 l] and ends[2 l + 1]; `messages` is how many are in flight; `view` and `number` are each bridge's view and agreement
// number; `records` and `down` are each end's record and whether it is down.
// The messages stand in a lent buffer with their count here: the C interface lends them so, and nothing is allocated.
#[derive(Clone, Copy)]
pub struct Bench {
    pub bridges: usize,
    pub links: usize,
    pub views: usize,
    pub messages: usize,
    pub ends: [u8; 64],
    pub view: [u8; 16],
    pub number: [u16; 16],
    pub records: [EndRecord; 64],
    pub down: [bool; 64],
}

impl Bench {
    pub(crate) fn graph(&self) -> Graph<'_>
        ensures bridges { result.bridges ≡ self.now.bridges }
        ensures links { result.links ≡ self.now.links }
        ensures ends { result.ends.now ≡ self.now.ends }
    {
        Graph {
            bridges: self.bridges,
            links: self.links,
            ends: &self.ends,
        }
    }
}

// A network as a call that asks is lent it.
#[derive(Clone, Copy)]
pub struct Lent<'a> {
    pub bench: &'a Bench,
    pub costs: &'a [u32],
    pub limits: Limits<'a>,
}

// And as one is that changes it.
#[derive(Drop)]
pub struct LentMut<'a, 'l> {
    pub bench: &'a mut Bench,
    pub costs: &'a [u32],
    pub limits: &'a mut LimitsMut<'l>,
}

impl LentMut<'_, '_> {
    // The same network, to be read.
    pub fn shared(&self) -> Lent<'_>
        ensures { (messages : List ℕ) → lent_state result messages ≡ state_of self.now messages }
    {
        Lent {
            bench: self.bench,
            costs: self.costs,
            limits: self.limits.shared(),
        }
    }
}

// An event of a plan is one call, with its numbers.
#[derive(Clone, Copy)]
pub enum Event {
    Update(u8, u8),
    Send(u8, u8),
    Deliver(u8),
    Repeat(u8),
    Lose(u8),
    Cut(u8, u8),
    Restore(u8, u8),
    Report(u8),
    Path(u8, u8),
}

// The path of a frame: it is delivered after so many hops, or it stops at a bridge after so many.
#[derive(Clone, Copy)]
pub enum Path {
    Delivered(usize),
    Stops(usize, usize),
}

// Why a list of events ended: all were made; the next one is refused, or the list itself is; the next one's answer has no room.
// No Result, which would be no plainer: to end before the last event is no failure of the call, and what was made stays made.
#[derive(Clone, Copy)]
pub enum Disposition {
    Complete,
    Refused(Refusal),
    Full,
}

// After a list of events: how many were made, and how many numbers they answered with.
#[derive(Clone, Copy)]
pub struct BatchResult {
    pub disposition: Disposition,
    pub made: usize,
    pub answered: usize,
}
