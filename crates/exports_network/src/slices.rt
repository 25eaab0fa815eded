#![tactic(auto, unfolding(encoding::specs::Replies::with_value))]

// The calls on messages as a slice of structs, over numbers: each answers and leaves what the call of the same name in `network` does.
// The messages are 320 numbers, five for each struct; fewer are refused with 17, and what lies past them is neither read nor written.
// The C interface has a function for each call, as in `network`.
ghost use Rattle.std.specs.Prelude.{◌≡◌, [], ◌∷◌, ◌++◌, ◌≤◌, length, take, drop};
ghost use Rattle.encoding.specs.Replies.{call_outcome};
ghost use Rattle.exports_network.specs.SliceCalls.{slice_send_reply, slice_lose_reply, slice_deliver_reply, slice_repeat_reply};

use crate::benches;
use crate::network::{OUT_OF_RANGE, changed, number_of, put_reply};
use agreement::LimitsMut;
use bench::sizes::MESSAGES;
use bench::{Bench, LentMut};
use encoding::ANSWER;
use messages::plain;

// `messages::calls::send`
#[unsafe(no_mangle)]
pub extern "C" fn bench_slice_send(
    bench: &mut [u32],
    messages: &mut [u32],
    bridge: usize,
    link: usize,
) -> u8
    ensures { call_outcome result (bench.new ∷ messages.new ∷ []) ≡ slice_send_reply bench.old messages.old bridge link }
{
    if messages.len() < MESSAGES {
        return OUT_OF_RANGE;
    }
    let mut numbers = benches::part(messages, 0);
    let mut call = |bench: &mut Bench| plain::send(bench, &mut numbers, bridge, link);
    let reply = changed(bench, &mut call);
    messages[..MESSAGES].copy_from_slice(&numbers);
    number_of(reply)
}

// `messages::calls::lose`
#[unsafe(no_mangle)]
pub extern "C" fn bench_slice_lose(bench: &mut [u32], messages: &mut [u32], place: usize) -> u8
    ensures { call_outcome result (bench.new ∷ messages.new ∷ []) ≡ slice_lose_reply bench.old messages.old place }
{
    if messages.len() < MESSAGES {
        return OUT_OF_RANGE;
    }
    let mut numbers = benches::part(messages, 0);
    let mut call = |bench: &mut Bench| plain::lose(bench, &mut numbers, place);
    let reply = changed(bench, &mut call);
    messages[..MESSAGES].copy_from_slice(&numbers);
    number_of(reply)
}

// `messages::calls::deliver`, the answer as for `bench_net_deliver`
#[unsafe(no_mangle)]
pub extern "C" fn bench_slice_deliver(
    bench: &mut [u32],
    costs: &[u32],
    sent: &mut [u32],
    held: &mut [u32],
    messages: &mut [u32],
    place: usize,
    out: &mut [u32],
) -> u8
    ensures { call_outcome result (bench.new ∷ out.new ∷ sent.new ∷ held.new ∷ messages.new ∷ []) ≡ slice_deliver_reply bench.old costs.now sent.old held.old messages.old out.old place }
{
    if messages.len() < MESSAGES {
        return OUT_OF_RANGE;
    }
    if out.len() < ANSWER {
        return OUT_OF_RANGE;
    }
    let mut numbers = benches::part(messages, 0);
    let mut call = |bench: &mut Bench| {
        let limits = &mut LimitsMut { sent, held };
        plain::deliver(
            &mut LentMut {
                bench,
                costs,
                limits,
            },
            &mut numbers,
            place,
        )
    };
    let reply = changed(bench, &mut call);
    messages[..MESSAGES].copy_from_slice(&numbers);
    put_reply(reply, out)
}

// `messages::calls::repeat`, the answer as for `bench_net_deliver`
#[unsafe(no_mangle)]
pub extern "C" fn bench_slice_repeat(
    bench: &mut [u32],
    costs: &[u32],
    sent: &mut [u32],
    held: &mut [u32],
    messages: &[u32],
    place: usize,
    out: &mut [u32],
) -> u8
    ensures { call_outcome result (bench.new ∷ out.new ∷ sent.new ∷ held.new ∷ messages.now ∷ []) ≡ slice_repeat_reply bench.old costs.now sent.old held.old messages.now out.old place }
{
    if messages.len() < MESSAGES {
        return OUT_OF_RANGE;
    }
    if out.len() < ANSWER {
        return OUT_OF_RANGE;
    }
    let numbers = benches::part(messages, 0);
    let mut call = |bench: &mut Bench| {
        let limits = &mut LimitsMut { sent, held };
        plain::repeat(
            &mut LentMut {
                bench,
                costs,
                limits,
            },
            &numbers,
            place,
        )
    };
    put_reply(changed(bench, &mut call), out)
}
