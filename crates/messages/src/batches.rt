// A list of events over message structs: the bench's list, run on the messages' numbers.
ghost use Rattle.std.specs.Prelude.{◌≡◌, drop, replicate};
ghost use Rattle.bench.specs.State.{state_of, SameReferences};
ghost use Rattle.bench.specs.Batches.{ending_of, batch_outcome, batch_of};
ghost use Rattle.messages.specs.Slices.{numbers_in, flight};

use crate::Message;
use crate::copies::by_numbers;
use bench::sizes::MOST_MESSAGES;
use bench::{BatchResult, Event, LentMut};

// No message in flight.
#[tactic(auto, unfolding(crate::specs::Slices::numbers_in))]
pub fn no_messages() -> [Message; MOST_MESSAGES]
    ensures { numbers_in result ≡ replicate 320 0 }
{
    [Message {
        link: 0,
        direction: 0,
        view: 0,
        number: 0,
        discarded: 0,
    }; MOST_MESSAGES]
}

// The list over a lent slice: its messages are read once before the list, and written once after it.
pub fn run(
    net: &mut LentMut,
    ms: &mut [Message],
    events: &[Event],
    answers: &mut [u32],
) -> BatchResult
    ensures answers_after { batch_outcome result.made result.answered (ending_of result.disposition) (state_of net.new (flight ms.new)) answers.new ≡ batch_of (state_of net.old (flight ms.old)) events.now answers.old }
    ensures ms_unchanged { drop 64 ms.new ≡ drop 64 ms.old }
    ensures same_references { SameReferences net.old net.new }
{
    let mut call = |numbers: &mut [u32]| bench::batches::run(net, numbers, events, answers);
    by_numbers(ms, &mut call)
}

// The list for whoever keeps as many messages as may be in flight.
#[tactic(auto, using(crate::proofs::Flight::flight_all))]
pub fn run_array(
    net: &mut LentMut,
    messages: &mut [Message; MOST_MESSAGES],
    events: &[Event],
    answers: &mut [u32],
) -> BatchResult
    ensures outcome { batch_outcome result.made result.answered (ending_of result.disposition) (state_of net.new (numbers_in messages.new)) answers.new ≡ batch_of (state_of net.old (numbers_in messages.old)) events.now answers.old }
    ensures same_references { SameReferences net.old net.new }
{
    run(net, messages, events, answers)
}
