// Several fields of a plan at once: the events of a list.
ghost use Rattle.std.specs.Prelude.{◌≡◌, ◌&&◌, true, length};
ghost use Rattle.runner.specs.Buffers.{buffers_of, buffers_long, SameMemory};
ghost use Rattle.runner.specs.Steps.{outcome_of};
ghost use Rattle.runner.specs.Fills.{list_fits, fill_of};

use crate::lists::{answer_room, batch_step, make, may_list};
use crate::sizes::ANSWERS;
use crate::steps::step;
use crate::{Memory, Runner, StepResult};

// The events that come next, as one list, or a step where none comes.
fn fill_by_list(r: &mut Runner, rest: &[u8], memory: &mut Memory, out: &mut [u8]) -> StepResult
    requires { (list_fits r.old (length rest.now) && buffers_long (buffers_of memory.old out.old)) ≡ true }
    ensures fill { outcome_of result r.new memory.new out.new ≡ fill_of r.old (buffers_of memory.old out.old) rest.now }
    ensures same { SameMemory memory.old memory.new }
{
    let room = answer_room(out.len());
    let progress = plan::events::list_progress(&r.bench);
    let read = plan::events::read_events(rest, progress, room);
    if read.count == 0 {
        return step(r, rest, memory, out);
    }
    let mut answers = [0u32; ANSWERS];
    let batch = make(
        &mut r.bench,
        memory.costs,
        &mut memory.limits,
        memory.messages,
        read.list(),
        &mut answers[..room],
    );
    batch_step(r, progress.bridges, &batch, &read, &answers, out)
}

// The next field of a plan, or the events that come next: `out[..written]` is to be printed, and where the plan is still going the next call
// takes `rest[used..]`.
pub fn fill(r: &mut Runner, rest: &[u8], memory: &mut Memory, out: &mut [u8]) -> StepResult
    ensures fill { outcome_of result r.new memory.new out.new ≡ fill_of r.old (buffers_of memory.old out.old) rest.now }
    ensures same { SameMemory memory.old memory.new }
{
    if may_list(r, rest, memory, out) {
        return fill_by_list(r, rest, memory, out);
    }
    step(r, rest, memory, out)
}
