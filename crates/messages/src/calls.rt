// The calls on messages in flight over a lent slice of them.
ghost use Rattle.std.specs.Prelude.{◌≡◌, drop, ℕ, List};
ghost use Rattle.protocol.specs.Calls as calls;
ghost use Rattle.bench.specs.State.{state, state_of, SameReferences};
ghost use Rattle.agreement.specs.Call.{response};
ghost use Rattle.bench.specs.Outcomes.{outcome, outcome_of};
ghost use Rattle.messages.specs.Slices.{flight};

use crate::Message;
use crate::copies::{by_numbers, numbers_of};
use agreement::Answer;
use bench::sizes::MESSAGES;
use bench::{Bench, LentMut};
use distances::Refusal;

// Appends the message of a bridge over a link.
pub fn send(
    bench: &mut Bench,
    ms: &mut [Message],
    bridge: usize,
    link: usize,
) -> Result<(), Refusal>
    ensures by_index { (costs sent held : List ℕ) → outcome (response result) (state bench.new costs sent held (flight ms.new)) ≡ outcome_of (state bench.old costs sent held (flight ms.old)) (calls.send bridge link) (λ n. tt) }
    ensures ms_unchanged { drop 64 ms.new ≡ drop 64 ms.old }
{
    let mut call = |numbers: &mut [u32]| bench::messages::send(bench, numbers, bridge, link);
    by_numbers(ms, &mut call)
}

// Takes a message out; later ones move up by one.
pub fn lose(bench: &mut Bench, ms: &mut [Message], place: usize) -> Result<(), Refusal>
    ensures by_index { (costs sent held : List ℕ) → outcome (response result) (state bench.new costs sent held (flight ms.new)) ≡ outcome_of (state bench.old costs sent held (flight ms.old)) (calls.lose place) (λ n. tt) }
    ensures ms_unchanged { drop 64 ms.new ≡ drop 64 ms.old }
{
    let mut call = |numbers: &mut [u32]| bench::messages::lose(bench, numbers, place);
    by_numbers(ms, &mut call)
}

// Delivers a message and takes it out.
pub fn deliver(net: &mut LentMut, ms: &mut [Message], place: usize) -> Result<Answer, Refusal>
    ensures ms_after { outcome (response result) (state_of net.new (flight ms.new)) ≡ outcome_of (state_of net.old (flight ms.old)) (calls.deliver place) (λ n. calls.answer_at n place) }
    ensures ms_unchanged { drop 64 ms.new ≡ drop 64 ms.old }
    ensures same_references { SameReferences net.old net.new }
{
    let mut call = |numbers: &mut [u32]| bench::messages::deliver(net, numbers, place);
    by_numbers(ms, &mut call)
}

// Delivers a message and leaves it in.
pub fn repeat(net: &mut LentMut, ms: &[Message], place: usize) -> Result<Answer, Refusal>
    ensures outcome { outcome (response result) (state_of net.new (flight ms.now)) ≡ outcome_of (state_of net.old (flight ms.now)) (calls.repeat place) (λ n. calls.answer_at n place) }
    ensures same_references { SameReferences net.old net.new }
{
    let mut all = [0u32; MESSAGES];
    let numbers = numbers_of(ms, &mut all);
    bench::messages::repeat(net, numbers, place)
}
