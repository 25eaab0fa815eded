// The list of calls of layer 3 over numbers, a bench as `benches` has it, as the single calls of `network` are.
ghost use Rattle.std.specs.Prelude.{◌≡◌, [], ◌∷◌, ◌≤◌, length};
ghost use Rattle.std.proofs.lemmas.List.Edits.{sets};
ghost use Rattle.bench.specs.Batches.{ending_of};
ghost use Rattle.encoding.specs.Replies.{call_outcome};
ghost use Rattle.exports_network.specs.Lists.{stored_if_made, counts_of, ending_number, net_run_reply};

use crate::benches::{self, low_of};
use crate::network::OUT_OF_RANGE;
use agreement::LimitsMut;
use bench::batches::refusal_in;
use bench::{BatchResult, Bench, LentMut};
use encoding::put_three;
use plan::events::{list_progress, read_events};

// The events made, the bytes used and the numbers answered with.
const COUNTS: usize = 3;

// The bench goes to `numbers` where an event was made, and the counts to `out`.
fn store_batch(
    batch: &BatchResult,
    used: usize,
    bench: &Bench,
    numbers: &mut [u32],
    out: &mut [u32],
) -> u8
    requires { (420 ≤ length numbers.old) × (3 ≤ length out.old) }
    ensures { (result ≡ ending_number (ending_of batch.now.disposition)) × (numbers.new ≡ stored_if_made batch.now.made bench.now numbers.old) × (out.new ≡ sets out.old 0 (counts_of batch.now.made used batch.now.answered)) }
{
    put_three(
        low_of(batch.made),
        low_of(used),
        low_of(batch.answered),
        out,
    );
    if batch.made != 0 {
        benches::store(bench, numbers);
    }
    match refusal_in(batch.disposition) {
        Some(refusal) => refusal.number(),
        None => 0,
    }
}

// `bench::batches::run` of the events at the head of a plan's bytes, as many as have room for what they answer with: the number of the
// event that was refused, else 0. How many were made goes to out[0], how many bytes they take to out[1], how many numbers they answered
// with to out[2]; these are zeros where the network is out of range or another list too short, and `out` is as it was where it is too short itself or `bench` holds no bench.
#[unsafe(no_mangle)]
pub extern "C" fn bench_net_run(
    bench: &mut [u32],
    costs: &[u32],
    sent: &mut [u32],
    held: &mut [u32],
    messages: &mut [u32],
    rest: &[u8],
    answers: &mut [u32],
    out: &mut [u32],
) -> u8
    ensures { call_outcome result (bench.new ∷ out.new ∷ sent.new ∷ held.new ∷ messages.new ∷ answers.new ∷ []) ≡ net_run_reply bench.old costs.now sent.old held.old messages.old rest.now answers.old out.old }
{
    let Some(mut old) = benches::load(bench) else {
        return OUT_OF_RANGE;
    };
    if out.len() < COUNTS {
        return OUT_OF_RANGE;
    }
    let events = read_events(rest, list_progress(&old), answers.len());
    let mut limits = LimitsMut { sent, held };
    let mut net = LentMut {
        bench: &mut old,
        costs,
        limits: &mut limits,
    };
    let batch = bench::batches::run(&mut net, messages, events.list(), answers);
    store_batch(&batch, events.bytes_of(batch.made), &old, bench, out)
}
