// A plan carried out, field by field and its events in lists: what a field says is done, and the lines that it prints are written.
#![tactic(auto)]

ghost use Rattle.std.specs.Prelude.{◌≡◌};

use agreement::LimitsMut;
use bench::Bench;
use distances::Refusal;
use messages::Message;

mod events;
pub mod fills;
mod lists;
mod setup;
pub mod sizes;
pub mod steps;
mod stops;

// How far a plan has come: its stage as the reader counts it, the events carried out, the offset of the next field.
#[derive(Clone, Copy)]
pub struct Runner {
    pub bench: Bench,
    pub stage: usize,
    pub events: u32,
    pub offset: u32,
}

// What a run is lent beside the bytes to be printed: a row of costs for each view, the limit tables, the messages in flight.
#[derive(Drop)]
pub struct Memory<'a> {
    pub costs: &'a mut [u32],
    pub limits: LimitsMut<'a>,
    pub messages: &'a mut [Message],
}

// After a step or several: the bytes of the plan that were used, those that are to be printed, and how the plan ended: properly, or by a
// refusal; None while it goes on.
#[derive(Clone, Copy)]
pub struct StepResult {
    pub used: usize,
    pub written: usize,
    pub end: Option<Result<(), Refusal>>,
}

impl StepResult {
    // The plan goes on.
    pub(crate) fn going(used: usize, written: usize) -> StepResult
        ensures { result ≡ record { used = used; written = written; end = None } }
    {
        StepResult {
            used,
            written,
            end: None,
        }
    }
}
