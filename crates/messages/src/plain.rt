// The calls over the slice for whoever keeps the messages as 320 numbers.
ghost use Rattle.std.specs.Prelude.{◌≡◌, ℕ, List};
ghost use Rattle.protocol.specs.Calls as calls;
ghost use Rattle.bench.specs.State.{state, state_of, SameReferences};
ghost use Rattle.agreement.specs.Call.{response};
ghost use Rattle.bench.specs.Outcomes.{outcome, outcome_of};

use crate::batches::no_messages;
use crate::calls;
use crate::copies::{read, write};
use agreement::Answer;
use bench::sizes::MESSAGES;
use bench::{Bench, LentMut};
use distances::Refusal;

// Appends the message of a bridge over a link.
// No shared function over a closure, as `by_numbers`, for the four: tried, and the proofs of send and lose did not close.
pub fn send(
    bench: &mut Bench,
    numbers: &mut [u32; MESSAGES],
    bridge: usize,
    link: usize,
) -> Result<(), Refusal>
    ensures { (costs sent held : List ℕ) → outcome (response result) (state bench.new costs sent held numbers.new) ≡ outcome_of (state bench.old costs sent held numbers.old) (calls.send bridge link) (λ n. tt) }
{
    let mut ms = no_messages();
    write(numbers, &mut ms);
    let done = calls::send(bench, &mut ms, bridge, link);
    read(&ms, numbers);
    done
}

// Takes a message out; later ones move up by one.
pub fn lose(bench: &mut Bench, numbers: &mut [u32; MESSAGES], place: usize) -> Result<(), Refusal>
    ensures { (costs sent held : List ℕ) → outcome (response result) (state bench.new costs sent held numbers.new) ≡ outcome_of (state bench.old costs sent held numbers.old) (calls.lose place) (λ n. tt) }
{
    let mut ms = no_messages();
    write(numbers, &mut ms);
    let done = calls::lose(bench, &mut ms, place);
    read(&ms, numbers);
    done
}

// Delivers a message and takes it out.
pub fn deliver(
    net: &mut LentMut,
    numbers: &mut [u32; MESSAGES],
    place: usize,
) -> Result<Answer, Refusal>
    ensures outcome { outcome (response result) (state_of net.new numbers.new) ≡ outcome_of (state_of net.old numbers.old) (calls.deliver place) (λ n. calls.answer_at n place) }
    ensures same_references { SameReferences net.old net.new }
{
    let mut ms = no_messages();
    write(numbers, &mut ms);
    let done = calls::deliver(net, &mut ms, place);
    read(&ms, numbers);
    done
}

// Delivers a message and leaves it in.
pub fn repeat(net: &mut LentMut, numbers: &[u32; MESSAGES], place: usize) -> Result<Answer, Refusal>
    ensures outcome { outcome (response result) (state_of net.new numbers.now) ≡ outcome_of (state_of net.old numbers.now) (calls.repeat place) (λ n. calls.answer_at n place) }
    ensures same_references { SameReferences net.old net.new }
{
    let mut ms = no_messages();
    write(numbers, &mut ms);
    calls::repeat(net, &ms, place)
}
