#![tactic(auto, unfolding(encoding::specs::Replies::with_value))]

// The public calls of layer 3 over numbers, a bench as `benches` has it. Each answers its number in the table of refusals, 0 where nothing is
// refused; a refused call changes nothing. A list that does not hold a bench, or is too short for the answer, is refused with 17.
// The C interface has a function for each call; where two are alike here, they make different calls with parameters of their own.
ghost use Rattle.std.specs.Prelude.{◌≡◌, [], ◌∷◌, ◌≤◌, length, MatchBool, Err};
ghost use Rattle.std.proofs.lemmas.List.Edits.{sets};
ghost use Rattle.distances.specs.Refusal.{reply_number};
ghost use Rattle.distances.specs.declared.refusals.Refusal.TheVariants.{OutOfRange};
ghost use Rattle.agreement.specs.Call.{response};
ghost use Rattle.agreement.specs.Record.{answer_numbers};
ghost use Rattle.bench.specs.State.{state, lent_state};
ghost use Rattle.bench.specs.Outcomes.{path_told, path_numbers};
ghost use Rattle.bench.specs.Private.Answers.{PathFits};
ghost use Rattle.encoding.specs.Replies.{call_outcome, with_value};
ghost use Rattle.exports_network.specs.Network.{Holds, holds_bench, bench_in, with_bench, net_fresh_reply, net_update_reply, net_cut_reply, net_restore_reply, net_send_reply, net_lose_reply, net_deliver_reply, net_repeat_reply, net_port_reply, net_verdict_reply, net_report_reply, net_path_reply};

use crate::benches;
use agreement::{Answer, Limits, LimitsMut};
use bench::{Bench, Lent, LentMut, Path, answers, changes};
use distances::Refusal;
use encoding::{ANSWER, VERDICT};

// What a call answers that is lent too little.
pub(crate) const OUT_OF_RANGE: u8 = Refusal::OutOfRange as u8;

pub(crate) fn number_of(reply: Result<(), Refusal>) -> u8
    ensures { result ≡ reply_number reply }
{
    match reply {
        Ok(()) => 0,
        Err(refusal) => refusal.number(),
    }
}

// Makes a call on the bench that the numbers hold, and stores the bench where it is not refused. The call is lent: of a closure passed by value
// nothing would be known of what it leaves in what it writes. Limit tables are lent to the bench inside the call: where that was done before it, the proofs did not close.
pub(crate) fn changed<R, F: FnMut(&mut Bench) -> Result<R, Refusal>>(
    numbers: &mut [u32],
    call: &mut F,
) -> Result<R, Refusal>
    requires { F.IsAlwaysCallable call.old }
    ensures { MatchBool (holds_bench numbers.old) ((before : _) × (after : _) × Holds numbers.old before.now × (numbers.new ≡ with_bench (reply_number result) after.now numbers.old) × F.step call.old before result after call.new) ((result ≡ Err OutOfRange) × (numbers.new ≡ numbers.old) × (call.new ≡ call.old)) }
{
    let mut bench = benches::load(numbers).ok_or(Refusal::OutOfRange)?;
    let reply = call(&mut bench)?;
    benches::store(&bench, numbers);
    Ok(reply)
}

// The answer goes to `out` where there is one.
pub(crate) fn put_reply(reply: Result<Answer, Refusal>, out: &mut [u32]) -> u8
    requires { 3 ≤ length out.old }
    ensures { (result ≡ reply_number reply) × (out.new ≡ with_value answer_numbers out.old (response reply).value) }
{
    match reply {
        Ok(answer) => {
            encoding::put_answer(answer, out);
            0
        }
        Err(refusal) => refusal.number(),
    }
}

// `bench::changes::fresh`
#[unsafe(no_mangle)]
pub extern "C" fn bench_net_fresh(
    bench: &mut [u32],
    costs: &[u32],
    sent: &mut [u32],
    held: &mut [u32],
) -> u8
    ensures { call_outcome result (bench.new ∷ sent.new ∷ held.new ∷ []) ≡ net_fresh_reply bench.old costs.now sent.old held.old }
{
    let mut call = |bench: &mut Bench| {
        let limits = &mut LimitsMut { sent, held };
        changes::fresh(&mut LentMut {
            bench,
            costs,
            limits,
        })
    };
    number_of(changed(bench, &mut call))
}

// `bench::changes::update`
#[unsafe(no_mangle)]
pub extern "C" fn bench_net_update(
    bench: &mut [u32],
    costs: &[u32],
    sent: &mut [u32],
    held: &mut [u32],
    bridge: usize,
    view: usize,
) -> u8
    ensures { call_outcome result (bench.new ∷ sent.new ∷ held.new ∷ []) ≡ net_update_reply bench.old costs.now sent.old held.old bridge view }
{
    let mut call = |bench: &mut Bench| {
        let limits = &mut LimitsMut { sent, held };
        changes::update(
            &mut LentMut {
                bench,
                costs,
                limits,
            },
            bridge,
            view,
        )
    };
    number_of(changed(bench, &mut call))
}

// `bench::changes::cut`
#[unsafe(no_mangle)]
pub extern "C" fn bench_net_cut(bench: &mut [u32], bridge: usize, link: usize) -> u8
    ensures { call_outcome result (bench.new ∷ []) ≡ net_cut_reply bench.old bridge link }
{
    let mut call = |bench: &mut Bench| changes::cut(bench, bridge, link);
    number_of(changed(bench, &mut call))
}

// `bench::changes::restore`
#[unsafe(no_mangle)]
pub extern "C" fn bench_net_restore(bench: &mut [u32], bridge: usize, link: usize) -> u8
    ensures { call_outcome result (bench.new ∷ []) ≡ net_restore_reply bench.old bridge link }
{
    let mut call = |bench: &mut Bench| changes::restore(bench, bridge, link);
    number_of(changed(bench, &mut call))
}

// `bench::messages::send`
#[unsafe(no_mangle)]
pub extern "C" fn bench_net_send(
    bench: &mut [u32],
    messages: &mut [u32],
    bridge: usize,
    link: usize,
) -> u8
    ensures { call_outcome result (bench.new ∷ messages.new ∷ []) ≡ net_send_reply bench.old messages.old bridge link }
{
    let mut call = |bench: &mut Bench| bench::messages::send(bench, messages, bridge, link);
    number_of(changed(bench, &mut call))
}

// `bench::messages::lose`
#[unsafe(no_mangle)]
pub extern "C" fn bench_net_lose(bench: &mut [u32], messages: &mut [u32], place: usize) -> u8
    ensures { call_outcome result (bench.new ∷ messages.new ∷ []) ≡ net_lose_reply bench.old messages.old place }
{
    let mut call = |bench: &mut Bench| bench::messages::lose(bench, messages, place);
    number_of(changed(bench, &mut call))
}

// `bench::messages::deliver`: the answer goes to `out`, 0 stale, 1 agreed, 2 noted, then the number and the view taken.
#[unsafe(no_mangle)]
pub extern "C" fn bench_net_deliver(
    bench: &mut [u32],
    costs: &[u32],
    sent: &mut [u32],
    held: &mut [u32],
    messages: &mut [u32],
    place: usize,
    out: &mut [u32],
) -> u8
    ensures { call_outcome result (bench.new ∷ out.new ∷ sent.new ∷ held.new ∷ messages.new ∷ []) ≡ net_deliver_reply bench.old costs.now sent.old held.old messages.old out.old place }
{
    if out.len() < ANSWER {
        return OUT_OF_RANGE;
    }
    let mut call = |bench: &mut Bench| {
        let limits = &mut LimitsMut { sent, held };
        bench::messages::deliver(
            &mut LentMut {
                bench,
                costs,
                limits,
            },
            messages,
            place,
        )
    };
    put_reply(changed(bench, &mut call), out)
}

// `bench::messages::repeat`, the answer as for `deliver`
#[unsafe(no_mangle)]
pub extern "C" fn bench_net_repeat(
    bench: &mut [u32],
    costs: &[u32],
    sent: &mut [u32],
    held: &mut [u32],
    messages: &[u32],
    place: usize,
    out: &mut [u32],
) -> u8
    ensures { call_outcome result (bench.new ∷ out.new ∷ sent.new ∷ held.new ∷ messages.now ∷ []) ≡ net_repeat_reply bench.old costs.now sent.old held.old messages.now out.old place }
{
    if out.len() < ANSWER {
        return OUT_OF_RANGE;
    }
    let mut call = |bench: &mut Bench| {
        let limits = &mut LimitsMut { sent, held };
        bench::messages::repeat(
            &mut LentMut {
                bench,
                costs,
                limits,
            },
            messages,
            place,
        )
    };
    put_reply(changed(bench, &mut call), out)
}

// Asks of the network whose bench the numbers hold.
fn asked<R, F: FnOnce(&Lent) -> Result<R, Refusal>>(
    numbers: &[u32],
    costs: &[u32],
    sent: &[u32],
    held: &[u32],
    ask: F,
) -> Result<R, Refusal>
    requires { F.IsAlwaysCallable ask }
    ensures { MatchBool (holds_bench numbers.now) ((net : _) × Holds numbers.now net.now.bench.now × (lent_state net.now [] ≡ state (bench_in numbers.now) costs.now sent.now held.now []) × F.post ask net result) (result ≡ Err OutOfRange) }
{
    let bench = benches::load(numbers).ok_or(Refusal::OutOfRange)?;
    ask(&Lent {
        bench: &bench,
        costs,
        limits: Limits { sent, held },
    })
}

// `bench::answers::port`: the link, or 4,294,967,295 where no port forwards, goes to out[0].
#[unsafe(no_mangle)]
pub extern "C" fn bench_net_port(
    bench: &[u32],
    costs: &[u32],
    sent: &[u32],
    held: &[u32],
    bridge: usize,
    dest: usize,
    out: &mut [u32],
) -> u8
    ensures { call_outcome result (out.new ∷ []) ≡ net_port_reply bench.now costs.now sent.now held.now bridge dest out.old }
{
    if out.len() < 1 {
        return OUT_OF_RANGE;
    }
    let ask = |net: &Lent| answers::port(net, bridge, dest);
    match asked(bench, costs, sent, held, ask) {
        Ok(port) => {
            out[0] = encoding::link_number(port);
            0
        }
        Err(refusal) => refusal.number(),
    }
}

// `bench::answers::verdict`: to out[0] goes 0 where the port forwards, 1 where the bridge is the destination, 2 no path, 3 chosen link down at this end, 4
// nothing held, 5 held limit too great, 6 sent limit not above the distance; to out[1] the link named, 4,294,967,295 where none is.
#[unsafe(no_mangle)]
pub extern "C" fn bench_net_verdict(
    bench: &[u32],
    costs: &[u32],
    sent: &[u32],
    held: &[u32],
    bridge: usize,
    dest: usize,
    out: &mut [u32],
) -> u8
    ensures { call_outcome result (out.new ∷ []) ≡ net_verdict_reply bench.now costs.now sent.now held.now bridge dest out.old }
{
    if out.len() < VERDICT {
        return OUT_OF_RANGE;
    }
    let ask = |net: &Lent| answers::verdict(net, bridge, dest);
    match asked(bench, costs, sent, held, ask) {
        Ok(verdict) => {
            encoding::put_verdict(verdict, out);
            0
        }
        Err(refusal) => refusal.number(),
    }
}

// `bench::answers::report`. Not by `asked`, whose call writes nothing: a frame that lends its call, for this one, would be no plainer.
#[unsafe(no_mangle)]
pub extern "C" fn bench_net_report(
    bench: &[u32],
    costs: &[u32],
    sent: &[u32],
    held: &[u32],
    dest: usize,
    rows: &mut [u32],
) -> u8
    ensures { call_outcome result (rows.new ∷ []) ≡ net_report_reply bench.now costs.now sent.now held.now dest rows.old }
{
    let Some(old) = benches::load(bench) else {
        return OUT_OF_RANGE;
    };
    let net = Lent {
        bench: &old,
        costs,
        limits: Limits { sent, held },
    };
    number_of(answers::report(&net, dest, rows))
}

// Apart from the bench's own, which a list of events uses: a public one could not require that the numbers fit.
fn put_path(path: Path, out: &mut [u32])
    requires { PathFits (Ok path) }
    ensures { out.new ≡ sets out.old 0 (path_numbers (path_told path)) }
{
    match path {
        Path::Delivered(hops) => encoding::put_three(0, 0, hops as u32, out),
        Path::Stops(last, hops) => encoding::put_three(1, last as u32, hops as u32, out),
    }
}

// `bench::answers::path`: to `out` go 0, 0 and the hops where it is delivered, 1, the last bridge and the hops where it stops.
#[unsafe(no_mangle)]
pub extern "C" fn bench_net_path(
    bench: &[u32],
    costs: &[u32],
    sent: &[u32],
    held: &[u32],
    start: usize,
    dest: usize,
    out: &mut [u32],
) -> u8
    ensures { call_outcome result (out.new ∷ []) ≡ net_path_reply bench.now costs.now sent.now held.now start dest out.old }
{
    if out.len() < ANSWER {
        return OUT_OF_RANGE;
    }
    let ask = |net: &Lent| answers::path(net, start, dest);
    match asked(bench, costs, sent, held, ask) {
        Ok(path) => {
            put_path(path, out);
            0
        }
        Err(refusal) => refusal.number(),
    }
}
