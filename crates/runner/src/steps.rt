// The public calls: a runner before the first field, and one step of a plan.
ghost use Rattle.std.specs.Prelude.{◌≡◌, ◌&&◌, [], ◌≤◌, ◌+◌, length, replicate, leb};
ghost use Rattle.messages.specs.Slices.{numbers_in};
ghost use Rattle.distances.specs.Refusal.{reply_number};
ghost use Rattle.runner.specs.Buffers.{buffers, buffers_of, buffers_long, progress_of, SameMemory};
ghost use Rattle.runner.specs.Steps.{outcome_of, outcome_on, last_step, last_text, field_step, ViewFits, field_fits, runner_in_range, step_of};
ghost use Rattle.runner.specs.Plans.{first_runner};

use crate::events::event_text;
use crate::lists::make;
use crate::sizes::MOST_COUNTED;
use crate::stops::last_line;
use crate::{Memory, Runner, StepResult, setup};
use agreement::sizes::{ENDS, LIMITS};
use bench::batches::refusal_in;
use bench::sizes::{COSTS, MOST_MESSAGES, REPORT};
use bench::{Bench, Event};
use distances::Refusal;
use distances::sizes::MOST_BRIDGES;
use messages::Message;
use plan::{Field, Progress};
use text::LONGEST;

// Before the first field.
pub fn first() -> Runner
    ensures { result ≡ first_runner }
{
    let bench = Bench {
        bridges: 0,
        links: 0,
        views: 0,
        messages: 0,
        ends: [0; ENDS],
        view: [0; MOST_BRIDGES],
        number: [1; MOST_BRIDGES],
        records: [agreement::calls::fresh_record(); ENDS],
        down: [false; ENDS],
    };
    Runner {
        bench,
        stage: 0,
        events: 0,
        offset: 0,
    }
}

// No message in flight.
pub fn first_messages() -> [Message; MOST_MESSAGES]
    ensures { numbers_in result ≡ replicate 320 0 }
{
    messages::batches::no_messages()
}

// Is all that is lent as long as a run needs?
#[tactic(auto, unfolding(crate::specs::Buffers::buffers_long))]
pub(crate) fn buffers_long(memory: &Memory, out: &[u8]) -> bool
    ensures { result ≡ buffers_long (buffers_of memory.now out.now) }
{
    COSTS <= memory.costs.len()
        && LIMITS <= memory.limits.sent.len()
        && LIMITS <= memory.limits.held.len()
        && MOST_MESSAGES <= memory.messages.len()
        && LONGEST <= out.len()
}

// Are a runner's counts in range, and what is lent long enough?
#[tactic(auto, unfolding(crate::specs::Steps::runner_in_range))]
fn may_step(r: &Runner, memory: &Memory, out: &[u8]) -> bool
    ensures { result ≡ (runner_in_range r.now && buffers_long (buffers_of memory.now out.now)) }
{
    r.events <= MOST_COUNTED && r.offset <= MOST_COUNTED && buffers_long(memory, out)
}

// The plan ends here.
fn ended(r: &Runner, end: Result<(), Refusal>, out: &mut [u8]) -> StepResult
    requires { 544 ≤ length out.old }
    ensures { outcome_on result r.now out.new ≡ last_step (reply_number end) (last_text (reply_number end) r.now.events r.now.offset) r.now (buffers [] [] [] [] out.old) }
{
    StepResult {
        used: 0,
        written: last_line(out, end, r),
        end: Some(end),
    }
}

// The plan goes on after a setup.
fn set_up(r: &mut Runner, stage: usize, used: usize) -> StepResult
    requires { (r.old.offset ≤ 61440) × (used ≤ 65538) }
    ensures runner { r.new ≡ record r.old { stage = stage; offset = r.old.offset + used } }
    ensures going { result ≡ record { used = used; written = 0; end = None } }
{
    r.stage = stage;
    r.offset += used as u32;
    StepResult::going(used, 0)
}

// An event is a list of one.
fn event_step(
    r: &mut Runner,
    event: Event,
    used: usize,
    memory: &mut Memory,
    out: &mut [u8],
) -> StepResult
    requires { (r.old.offset ≤ 61440) × (r.old.events ≤ 61440) × (used ≤ 65538) × (544 ≤ length out.old) }
    ensures step { outcome_of result r.new memory.new out.new ≡ field_step [] (Field.Event event) used r.old (buffers_of memory.old out.old) }
    ensures same { SameMemory memory.old memory.new }
{
    let bridges = r.bench.bridges;
    let mut answers = [0u32; REPORT];
    let batch = make(
        &mut r.bench,
        memory.costs,
        &mut memory.limits,
        memory.messages,
        &[event],
        &mut answers,
    );
    if let Some(refusal) = refusal_in(batch.disposition) {
        return ended(r, Err(refusal), out);
    }
    let written = event_text(bridges, event, &answers[..batch.answered], out);
    r.stage = 3;
    r.events += 1;
    r.offset += used as u32;
    StepResult::going(used, written)
}

// A view. Costs and limits are written only where the network can be made.
fn view_step(
    r: &mut Runner,
    rest: &[u8],
    used: usize,
    memory: &mut Memory,
    out: &mut [u8],
) -> StepResult
    requires offset_bound { (r.old.offset ≤ 61440) × (used ≤ 65538) × (1024 ≤ length memory.old.costs.now) × (1024 ≤ length memory.old.limits.sent.now) × (1024 ≤ length memory.old.limits.held.now) × (544 ≤ length out.old) }
    requires view_fits { ViewFits rest.now r.old.bench }
    ensures step { outcome_of result r.new memory.new out.new ≡ field_step rest.now Field.View used r.old (buffers_of memory.old out.old) }
    ensures same { SameMemory memory.old memory.new }
{
    if !setup::may_view(&r.bench) {
        return ended(r, Err(Refusal::OutOfRange), out);
    }
    setup::store_row(rest, &r.bench, memory.costs);
    r.bench.views += 1;
    setup::fresh_with_view(&mut r.bench, memory.costs, &mut memory.limits);
    set_up(r, 2, used)
}

fn field_step(
    r: &mut Runner,
    rest: &[u8],
    field: Field,
    used: usize,
    memory: &mut Memory,
    out: &mut [u8],
) -> StepResult
    requires offset_bound { (r.old.offset ≤ 61440) × (r.old.events ≤ 61440) × (used ≤ 65538) × (1024 ≤ length memory.old.costs.now) × (1024 ≤ length memory.old.limits.sent.now) × (1024 ≤ length memory.old.limits.held.now) × (544 ≤ length out.old) }
    requires field_fits { field_fits rest.now r.old.bench field }
    ensures step { outcome_of result r.new memory.new out.new ≡ field_step rest.now field used r.old (buffers_of memory.old out.old) }
    ensures same { SameMemory memory.old memory.new }
{
    match field {
        Field::Bridges(count) => {
            r.bench.bridges = count as usize;
            set_up(r, 1, used)
        }
        Field::Link(first, second) => {
            setup::add_link(&mut r.bench, first, second);
            set_up(r, 1, used)
        }
        Field::View => view_step(r, rest, used, memory, out),
        Field::Event(event) => event_step(r, event, used, memory, out),
    }
}

// How far the reader has come.
fn progress_of(r: &Runner) -> Progress
    ensures { result ≡ progress_of r.now }
{
    Progress {
        stage: r.stage,
        bridges: r.bench.bridges,
        links: r.bench.links,
        views: r.bench.views,
    }
}

// One field of a plan, read at the head of what is left of it, and carried out.
pub fn step(r: &mut Runner, rest: &[u8], memory: &mut Memory, out: &mut [u8]) -> StepResult
    ensures step { outcome_of result r.new memory.new out.new ≡ step_of r.old (buffers_of memory.old out.old) rest.now }
    ensures same { SameMemory memory.old memory.new }
{
    if !may_step(r, memory, out) {
        return StepResult {
            used: 0,
            written: 0,
            end: Some(Err(Refusal::OutOfRange)),
        };
    }
    match plan::fields::read_field(rest, progress_of(r)) {
        Ok(Some((field, used))) => field_step(r, rest, field, used, memory, out),
        Ok(None) => ended(r, Ok(()), out),
        Err(refusal) => ended(r, Err(refusal), out),
    }
}
