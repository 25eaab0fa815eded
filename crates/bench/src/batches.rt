// A list of events as calls on the network, one after the other; the ranges are checked once, ahead of them.
ghost use Rattle.std.specs.Prelude.{◌≡◌, true, ◌≤◌, ◌*◌, length, List};
ghost use Rattle.std.proofs.lemmas.List.Edits.{sets};
ghost use Rattle.distances.specs.Refusal.{reply_number};
ghost use Rattle.agreement.specs.Call.{mapped, response};
ghost use Rattle.agreement.specs.Record.{answer_numbers};
ghost use Rattle.bench.specs.State.{state_of, SameReferences};
ghost use Rattle.bench.specs.Ranges.{state_in_range};
ghost use Rattle.bench.specs.Outcomes.{path_told, path_numbers};
ghost use Rattle.bench.specs.Batches.{refusal_in, answer_size, ending_of, event_batch_in, batch_from, batch_outcome, batch_outcome_of, batch_of};
ghost use Rattle.bench.specs.Private.Answers.{PathFits};
ghost use Rattle.bench.specs.Private.ListSteps.{value_numbers};
ghost use Rattle.bench.specs.Private.Steps.{IsPrepared, Makes, BatchLeft, made_by, ended_by, answered_by};

use crate::answers::{path_ready, report_ready};
use crate::changes::{switch_ready, update_ready};
use crate::messages::{deliver_ready, lose_ready, repeat_ready, send_ready};
use crate::tables::{Chains, Prepared};
use crate::{BatchResult, Disposition, Event, LentMut, Path, ready};
use agreement::Answer;
use distances::Refusal;
use encoding::ANSWER;

// The refusal of the next event, or of the list itself, by which a list ended.
pub fn refusal_in(how: Disposition) -> Option<Refusal>
    ensures { result ≡ refusal_in how }
{
    match how {
        Disposition::Refused(refusal) => Some(refusal),
        Disposition::Complete | Disposition::Full => None,
    }
}

// How many numbers an event answers with, where there are so many bridges.
#[tactic(auto, unfolding(crate::specs::Batches::answer_size))]
pub fn answer_size(bridges: u8, event: Event) -> usize
    ensures { result ≡ answer_size bridges event }
{
    match event {
        Event::Report(_) => 2 * bridges as usize,
        Event::Path(_, _) | Event::Deliver(_) | Event::Repeat(_) => ANSWER,
        Event::Update(_, _)
        | Event::Send(_, _)
        | Event::Lose(_)
        | Event::Cut(_, _)
        | Event::Restore(_, _) => 0,
    }
}

// What a delivery or a repeat answers, where it is accepted.
#[tactic(auto, unfolding(crate::specs::Private::ListSteps::value_numbers))]
fn answer_delivery(reply: Result<Answer, Refusal>, answers: &mut [u32]) -> Result<(), Refusal>
    requires { 3 ≤ length answers.old }
    ensures { (reply_number result ≡ reply_number reply) × (answers.new ≡ sets answers.old 0 (value_numbers answer_numbers (response reply).value)) }
{
    encoding::put_answer(reply?, answers);
    Ok(())
}

#[tactic(auto, unfolding(crate::specs::Private::ListSteps::value_numbers))]
fn answer_path(reply: Result<Path, Refusal>, answers: &mut [u32]) -> Result<(), Refusal>
    requires { (3 ≤ length answers.old) × PathFits reply }
    ensures { (reply_number result ≡ reply_number reply) × (answers.new ≡ sets answers.old 0 (value_numbers path_numbers (mapped path_told (response reply)).value)) }
{
    match reply? {
        Path::Delivered(hops) => encoding::put_three(0, 0, hops as u32, answers),
        Path::Stops(last, hops) => encoding::put_three(1, last as u32, hops as u32, answers),
    }
    Ok(())
}

// One event whose answer has room, with its answer.
fn make(
    net: &mut LentMut,
    prepared: &mut Prepared,
    flight: &mut [u32],
    event: Event,
    answers: &mut [u32],
) -> Result<(), Refusal>
    requires in_range { state_in_range (state_of net.old flight.old) ≡ true }
    requires room { answer_size net.old.bench.now.bridges event ≤ length answers.old }
    requires prepared { IsPrepared net.old.bench.now net.old.costs.now prepared.old }
    ensures makes { Makes (state_of net.old flight.old) event answers.old (reply_number result) (state_of net.new flight.new) answers.new }
    ensures prepared { IsPrepared net.new.bench.now net.new.costs.now prepared.new }
    ensures same_references { SameReferences net.old net.new }
{
    match event {
        Event::Update(bridge, view) => update_ready(net, prepared, bridge as usize, view as usize),
        Event::Send(bridge, link) => {
            send_ready(net.bench, flight, bridge as usize, link as usize)
        }
        Event::Deliver(place) => {
            answer_delivery(
                deliver_ready(net, prepared, flight, place as usize),
                answers,
            )
        }
        Event::Repeat(place) => {
            answer_delivery(repeat_ready(net, prepared, flight, place as usize), answers)
        }
        Event::Lose(place) => lose_ready(net.bench, flight, place as usize),
        Event::Cut(bridge, link) => {
            switch_ready(net.bench, bridge as usize, link as usize, true)
        }
        Event::Restore(bridge, link) => {
            switch_ready(net.bench, bridge as usize, link as usize, false)
        }
        Event::Report(dest) => {
            report_ready(
                &net.shared(),
                &mut prepared.distances,
                dest as usize,
                answers,
            )
        }
        Event::Path(start, dest) => answer_path(
            path_ready(&net.shared(), prepared, start as usize, dest as usize),
            answers,
        ),
    }
}

// One event, if its answer has room: how many numbers it answers with, or why the list ends there.
fn carry_out(
    net: &mut LentMut,
    prepared: &mut Prepared,
    flight: &mut [u32],
    event: Event,
    answers: &mut [u32],
) -> Result<usize, Disposition>
    requires in_range { state_in_range (state_of net.old flight.old) ≡ true }
    requires prepared { IsPrepared net.old.bench.now net.old.costs.now prepared.old }
    ensures batch { BatchLeft (event_batch_in (length answers.old) (state_of net.old flight.old) event) answers.old (made_by result) (ended_by result) (state_of net.new flight.new) (answered_by result) answers.new }
    ensures prepared { IsPrepared net.new.bench.now net.new.costs.now prepared.new }
    ensures same_references { SameReferences net.old net.new }
{
    ready::typed(net.bench);
    let size = answer_size(net.bench.bridges as u8, event);
    if answers.len() < size {
        return Err(Disposition::Full);
    }
    match make(net, prepared, flight, event, answers) {
        Ok(()) => Ok(size),
        Err(refusal) => Err(Disposition::Refused(refusal)),
    }
}

// Carries the events out one after the other, up to the first that is not made.
fn run_ready(
    net: &mut LentMut,
    flight: &mut [u32],
    events: &[Event],
    answers: &mut [u32],
) -> BatchResult
    requires { state_in_range (state_of net.old flight.old) ≡ true }
    ensures outcome { batch_outcome result.made result.answered (ending_of result.disposition) (state_of net.new flight.new) answers.new ≡ batch_outcome_of (batch_from (length answers.old) (state_of net.old flight.old) events.now) answers.old }
    ensures same_references { SameReferences net.old net.new }
{
    let mut prepared = Prepared::none();
    prepared.chains = Chains::of(net.bench);
    let mut answered = 0;
    for (made, event) in events.iter().enumerate() {
        let room = &mut answers[answered..];
        match carry_out(net, &mut prepared, flight, *event, room) {
            Ok(size) => answered += size,
            Err(disposition) => {
                return BatchResult {
                    disposition,
                    made,
                    answered,
                };
            }
        }
    }
    BatchResult {
        disposition: Disposition::Complete,
        made: events.len(),
        answered,
    }
}

// The events as calls, one after the other, up to the first that is refused or whose answer has no room behind the others in `answers`: a
// report's two numbers for each bridge, a path's three, a delivery's three.
pub fn run(
    net: &mut LentMut,
    messages: &mut [u32],
    events: &[Event],
    answers: &mut [u32],
) -> BatchResult
    ensures outcome { batch_outcome result.made result.answered (ending_of result.disposition) (state_of net.new messages.new) answers.new ≡ batch_of (state_of net.old messages.old) events.now answers.old }
    ensures same_references { SameReferences net.old net.new }
{
    if !ready::delivery_in_range(&net.shared(), messages) {
        return BatchResult {
            disposition: Disposition::Refused(Refusal::OutOfRange),
            made: 0,
            answered: 0,
        };
    }
    run_ready(net, messages, events, answers)
}
