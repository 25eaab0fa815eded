// Events that are carried out in a list: whether they can be, the room that their lines have, and the lines.
ghost use Rattle.std.specs.Prelude.{◌≡◌, ◌&&◌, ◌+◌, ◌≤◌, length, drop};
ghost use Rattle.agreement.specs.Call.{SameTables};
ghost use Rattle.bench.specs.Batches.{answer_sizes, ending_of, batch_outcome, batch_of};
ghost use Rattle.bench.specs.State.{state};
ghost use Rattle.messages.specs.Slices.{flight};
ghost use Rattle.text.specs.Writing.{Put};
ghost use Rattle.runner.specs.Buffers.{buffers_of, buffers_long};
ghost use Rattle.runner.specs.Steps.{outcome_on};
ghost use Rattle.runner.specs.Fills.{list_fits, answer_room};
ghost use Rattle.runner.specs.Lists.{texts_of, ResultFits, batch_step};

use crate::events::{event_text, has_text};
use crate::sizes::{ANSWERS, BYTES_FOR_A_NUMBER, LONGEST_PLAN};
use crate::steps::buffers_long;
use crate::stops::last_line;
use crate::{Memory, Runner, StepResult};
use agreement::LimitsMut;
use bench::batches::refusal_in;
use bench::sizes::MOST_EVENTS;
use bench::{BatchResult, Bench, Event, LentMut};
use messages::Message;
use plan::events::Events;
use text::LONGEST;

// Does a list of events from here on stay in range, and is what is lent long enough?
#[tactic(auto, unfolding(crate::specs::Fills::list_fits))]
pub(crate) fn may_list(r: &Runner, rest: &[u8], memory: &Memory, out: &[u8]) -> bool
    ensures { result ≡ (list_fits r.now (length rest.now) && buffers_long (buffers_of memory.now out.now)) }
{
    r.stage == 3
        && r.events as usize + MOST_EVENTS <= LONGEST_PLAN
        && r.offset as usize + rest.len() <= LONGEST_PLAN
        && buffers_long(memory, out)
}

// So many numbers that what their events print has room, 15 bytes for each, and the longest text behind it.
pub(crate) fn answer_room(bytes: usize) -> usize
    requires { 544 ≤ bytes }
    ensures { result ≡ answer_room bytes }
{
    ANSWERS.min((bytes - LONGEST) / BYTES_FOR_A_NUMBER)
}

// Makes a list of events. The costs are lent as `&mut` though nothing is written there: the borrow checker does not cover a `&` to one field
// of a caller's memory beside a `&mut` to another.
pub(crate) fn make(
    bench: &mut Bench,
    costs: &mut [u32],
    limits: &mut LimitsMut,
    messages: &mut [Message],
    events: &[Event],
    answers: &mut [u32],
) -> BatchResult
    ensures made { batch_outcome result.made result.answered (ending_of result.disposition) (state bench.new costs.new limits.new.sent.now limits.new.held.now (flight messages.new)) answers.new ≡ batch_of (state bench.old costs.old limits.old.sent.now limits.old.held.now (flight messages.old)) events.now answers.old }
    ensures costs { costs.new ≡ costs.old }
    ensures same { SameTables limits.old limits.new }
    ensures behind { drop 64 messages.new ≡ drop 64 messages.old }
{
    let net = &mut LentMut {
        bench,
        costs,
        limits,
    };
    messages::batches::run(net, messages, events, answers)
}

// The lines of events that were made, one behind the other.
fn put_texts(bridges: usize, events: &[Event], answers: &[u32], out: &mut [u8]) -> usize
    requires bridges_bound { (bridges ≤ 16) × (answer_sizes bridges events.now ≤ length answers.now) }
    requires room { length (texts_of bridges events.now answers.now) + 544 ≤ length out.old }
    ensures { Put out.old 0 (texts_of bridges events.now answers.now) out.new result }
{
    let mut end = 0;
    let mut at = 0;
    for event in events {
        let past = at + bench::batches::answer_size(bridges as u8, *event);
        if has_text(*event) {
            end += event_text(bridges, *event, &answers[at..past], &mut out[end..]);
        }
        at = past;
    }
    end
}

// The events that were made, with their lines, and the refusal of the next one if it was refused.
pub(crate) fn batch_step(
    r: &mut Runner,
    bridges: usize,
    batch: &BatchResult,
    read: &Events,
    answers: &[u32],
    out: &mut [u8],
) -> StepResult
    requires { ResultFits bridges r.old batch.now read.now answers.now (length out.old) }
    ensures { outcome_on result r.new out.new ≡ batch_step bridges r.old batch.now read.now answers.now out.old }
{
    let made = batch.made;
    let written = put_texts(bridges, &read.list()[..made], answers, out);
    let used = read.bytes_of(made);
    r.stage = 3;
    r.events += made as u32;
    r.offset += used as u32;
    match refusal_in(batch.disposition) {
        None => StepResult::going(used, written),
        Some(refusal) => {
            let last = last_line(&mut out[written..], Err(refusal), r);
            StepResult {
                used,
                written: written + last,
                end: Some(Err(refusal)),
            }
        }
    }
}
