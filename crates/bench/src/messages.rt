// The calls on messages in flight: send, lose, deliver, repeat.
ghost use Rattle.std.specs.Prelude.{◌≡◌, true, ◌&&◌, ℕ, List};
ghost use Rattle.protocol.specs.Calls as calls;
ghost use Rattle.bench.specs.State.{state, state_of, SameReferences};
ghost use Rattle.bench.specs.Ranges.{bench_in_range, messages_in_range, state_in_range};
ghost use Rattle.agreement.specs.Call.{response};
ghost use Rattle.bench.specs.Outcomes.{outcome, outcome_of};
ghost use Rattle.bench.specs.Private.Deliveries.{with_delivered, repeat_of};
ghost use Rattle.bench.specs.Private.Steps.{IsPrepared};

use crate::deliveries::receive;
use crate::tables::{Chains, Prepared};
use crate::{Bench, LentMut, queue, ready, refusals};
use agreement::Answer;
use agreement::calls::carry;
use distances::Refusal;

fn flight_in_range(bench: &Bench, messages: &[u32]) -> bool
    ensures { result ≡ (bench_in_range bench.now && messages_in_range bench.now messages.now) }
{
    ready::bench_in_range(bench) && ready::messages_in_range(bench, messages)
}

// Appends the message of a bridge over a link: its view, its number, and the end's discarded number.
pub fn send(
    bench: &mut Bench,
    messages: &mut [u32],
    bridge: usize,
    link: usize,
) -> Result<(), Refusal>
    ensures { (costs sent held : List ℕ) → outcome (response result) (state bench.new costs sent held messages.new) ≡ outcome_of (state bench.old costs sent held messages.old) (calls.send bridge link) (λ n. tt) }
{
    if !flight_in_range(bench, messages) {
        return Err(Refusal::OutOfRange);
    }
    send_ready(bench, messages, bridge, link)
}

// `send` of what is in range.
pub(crate) fn send_ready(
    bench: &mut Bench,
    messages: &mut [u32],
    bridge: usize,
    link: usize,
) -> Result<(), Refusal>
    requires { (bench_in_range bench.old && messages_in_range bench.old messages.old) ≡ true }
    ensures { (costs sent held : List ℕ) → outcome (response result) (state bench.new costs sent held messages.new) ≡ outcome_of (state bench.old costs sent held messages.old) (calls.send bridge link) (λ n. tt) }
{
    let end = refusals::send(bench, bridge, link)?;
    let carried = carry(
        bench.views,
        bench.view[bridge],
        bench.number[bridge],
        &bench.records[end],
    )?;
    let message = [
        link as u32,
        (end % 2) as u32,
        carried.view as u32,
        carried.number as u32,
        carried.discarded as u32,
    ];
    queue::put(messages, bench.messages, message);
    bench.messages += 1;
    Ok(())
}

// Takes a message out; later ones move up by one.
pub fn lose(bench: &mut Bench, messages: &mut [u32], place: usize) -> Result<(), Refusal>
    ensures { (costs sent held : List ℕ) → outcome (response result) (state bench.new costs sent held messages.new) ≡ outcome_of (state bench.old costs sent held messages.old) (calls.lose place) (λ n. tt) }
{
    if !flight_in_range(bench, messages) {
        return Err(Refusal::OutOfRange);
    }
    lose_ready(bench, messages, place)
}

// `lose` of what is in range.
pub(crate) fn lose_ready(
    bench: &mut Bench,
    messages: &mut [u32],
    place: usize,
) -> Result<(), Refusal>
    requires { (bench_in_range bench.old && messages_in_range bench.old messages.old) ≡ true }
    ensures { (costs sent held : List ℕ) → outcome (response result) (state bench.new costs sent held messages.new) ≡ outcome_of (state bench.old costs sent held messages.old) (calls.lose place) (λ n. tt) }
{
    refusals::lose(bench, place)?;
    queue::take_out(messages, bench.messages, place);
    bench.messages -= 1;
    Ok(())
}

// Delivers a message and takes it out. As `update`, `repeat` and `path` it checks, prepares and makes the call of what is in range: a few lines,
// and a function that takes that call as a closure would be no plainer, for each of the four would write the closure in as many.
pub fn deliver(net: &mut LentMut, messages: &mut [u32], place: usize) -> Result<Answer, Refusal>
    ensures outcome { outcome (response result) (state_of net.new messages.new) ≡ outcome_of (state_of net.old messages.old) (calls.deliver place) (λ n. calls.answer_at n place) }
    ensures same_references { SameReferences net.old net.new }
{
    if !ready::delivery_in_range(&net.shared(), messages) {
        return Err(Refusal::OutOfRange);
    }
    let mut prepared = Prepared::none();
    prepared.chains = Chains::of(net.bench);
    deliver_ready(net, &mut prepared, messages, place)
}

// `deliver` of what is in range.
pub(crate) fn deliver_ready(
    net: &mut LentMut,
    prepared: &mut Prepared,
    messages: &mut [u32],
    place: usize,
) -> Result<Answer, Refusal>
    requires in_range { state_in_range (state_of net.old messages.old) ≡ true }
    requires prepared { IsPrepared net.old.bench.now net.old.costs.now prepared.old }
    ensures outcome { outcome (response result) (state_of net.new messages.new) ≡ outcome_of (state_of net.old messages.old) (calls.deliver place) (λ n. calls.answer_at n place) }
    ensures prepared { IsPrepared net.new.bench.now net.new.costs.now prepared.new }
    ensures same_references { SameReferences net.old net.new }
{
    ready::typed(net.bench);
    let answer = repeat_ready(net, prepared, messages, place)?;
    queue::take_out(messages, net.bench.messages, place);
    net.bench.messages -= 1;
    Ok(answer)
}

// Delivers a message and leaves it in.
pub fn repeat(net: &mut LentMut, messages: &[u32], place: usize) -> Result<Answer, Refusal>
    ensures outcome { outcome (response result) (state_of net.new messages.now) ≡ outcome_of (state_of net.old messages.now) (calls.repeat place) (λ n. calls.answer_at n place) }
    ensures same_references { SameReferences net.old net.new }
{
    if !ready::delivery_in_range(&net.shared(), messages) {
        return Err(Refusal::OutOfRange);
    }
    let mut prepared = Prepared::none();
    prepared.chains = Chains::of(net.bench);
    repeat_ready(net, &mut prepared, messages, place)
}

// `repeat` of what is in range.
pub(crate) fn repeat_ready(
    net: &mut LentMut,
    prepared: &mut Prepared,
    messages: &[u32],
    place: usize,
) -> Result<Answer, Refusal>
    requires in_range { state_in_range (state_of net.old messages.now) ≡ true }
    requires prepared { IsPrepared net.old.bench.now net.old.costs.now prepared.old }
    ensures outcome { outcome (response result) (state_of net.new messages.now) ≡ outcome_of (state_of net.old messages.now) (calls.repeat place) (λ n. calls.answer_at n place) }
    ensures numbers { outcome (response result) (state_of net.new messages.now) ≡ outcome (repeat_of (state_of net.old messages.now) place).reply (with_delivered (state_of net.old messages.now) (repeat_of (state_of net.old messages.now) place)) }
    ensures prepared { IsPrepared net.new.bench.now net.new.costs.now prepared.new }
    ensures same_references { SameReferences net.old net.new }
{
    ready::typed(net.bench);
    let end = refusals::deliver(net.bench, messages, place)?;
    let bridge = net.bench.ends[end] as usize;
    let view = net.bench.view[bridge] as usize;
    prepared.distances.need(net.bench, net.costs, view);
    receive(
        net,
        &prepared.distances,
        end,
        queue::carried(messages, place),
    )
}
