// The public calls of layer 2 over numbers: a record is four numbers (received, view, discarded, holding), a message three (view,
// number, discarded); any number but 0 stands for true. Each answers 0, or its refusal's number: that of `OutOfRange` also where a number does
// not fit its field. A refused call changes nothing.
ghost use Rattle.std.specs.Prelude.{◌≡◌, [], ◌∷◌};
ghost use Rattle.agreement.specs.Call.{view_data, lent, response};
ghost use Rattle.encoding.specs.Replies.{call_outcome};
ghost use Rattle.exports_bridge.specs.Call.{offer_reply, fresh_reply, bridge_update_reply, update_reply, carry_reply, deliver_reply, lent_verdict, port_reply, verdict_reply};

use agreement::choices::port_of;
use agreement::sizes::ENDS;
use agreement::{Limits, LimitsMut, Records, Verdict, View, calls};
use distances::{Graph, Refusal};
use encoding::{AGREEMENT, ANSWER, VERDICT};

const OUT_OF_RANGE: u8 = Refusal::OutOfRange as u8;

// A view as C lends it.
fn view_of<'a>(
    bridges: usize,
    links: usize,
    ends: &'a [u8],
    costs: &'a [u32],
    table: &'a [u32],
) -> View<'a>
    ensures { lent result ≡ view_data bridges links ends.now costs.now table.now }
{
    let graph = Graph {
        bridges,
        links,
        ends,
    };
    View {
        graph,
        costs,
        table,
    }
}

// `agreement::calls::offer_over`: the offer goes to out[0].
#[unsafe(no_mangle)]
#[tactic(auto, unfolding(crate::specs::Call::offer_reply, encoding::specs::Replies::with_value))]
pub extern "C" fn bench_offer(
    bridges: usize,
    links: usize,
    ends: &[u8],
    costs: &[u32],
    table: &[u32],
    end: usize,
    dest: usize,
    out: &mut [u32],
) -> u8
    ensures { call_outcome result (out.new ∷ []) ≡ offer_reply (view_data bridges links ends.now costs.now table.now) end dest out.old }
{
    if out.is_empty() {
        return OUT_OF_RANGE;
    }
    let seen = view_of(bridges, links, ends, costs, table);
    match calls::offer_over(&seen, end, dest) {
        Ok(offer) => {
            out[0] = offer;
            0
        }
        Err(no_offer) => no_offer.number(),
    }
}

// `agreement::calls::start_end`: the fresh record goes to `fields`.
#[unsafe(no_mangle)]
#[tactic(auto, unfolding(crate::specs::Call::fresh_reply, encoding::specs::Replies::with_value))]
pub extern "C" fn bench_start_end(
    bridges: usize,
    links: usize,
    ends: &[u8],
    costs: &[u32],
    table: &[u32],
    end: usize,
    fields: &mut [u32],
    sent: &mut [u32],
    held: &mut [u32],
) -> u8
    ensures { call_outcome result (fields.new ∷ sent.new ∷ held.new ∷ []) ≡ fresh_reply (view_data bridges links ends.now costs.now table.now) end fields.old sent.old held.old }
{
    if fields.len() < 4 {
        return OUT_OF_RANGE;
    }
    let seen = view_of(bridges, links, ends, costs, table);
    let mut limits = LimitsMut { sent, held };
    match calls::start_end(&seen, end, &mut limits) {
        Ok(()) => {
            encoding::put_record(calls::fresh_record(), fields);
            0
        }
        Err(refusal) => refusal.number(),
    }
}

// `agreement::calls::update_bridge`: 0 goes to out[0] where the bridge stays on its view, 1 where it moves; its new number to out[1], 0 where
// it stays.
#[unsafe(no_mangle)]
#[tactic(auto, unfolding(crate::specs::Call::bridge_update_reply, encoding::specs::Replies::with_value))]
pub extern "C" fn bench_update_bridge(
    views: usize,
    present: u8,
    number: u16,
    view: u8,
    out: &mut [u32],
) -> u8
    ensures { call_outcome result (out.new ∷ []) ≡ bridge_update_reply views present number view out.old }
{
    if out.len() < 2 {
        return OUT_OF_RANGE;
    }
    match calls::update_bridge(views, present, number, view) {
        Ok(moved) => {
            out[0] = u32::from(moved.is_some());
            out[1] = moved.map_or(0, u32::from);
            0
        }
        Err(refusal) => refusal.number(),
    }
}

// `agreement::calls::update_end`: the record in `fields` becomes the new one.
#[unsafe(no_mangle)]
#[tactic(auto, unfolding(crate::specs::Call::update_reply, encoding::specs::Replies::with_value))]
pub extern "C" fn bench_update_end(
    bridges: usize,
    links: usize,
    ends: &[u8],
    costs: &[u32],
    table: &[u32],
    views: usize,
    view: u8,
    end: usize,
    fields: &mut [u32],
    sent: &mut [u32],
    held: &mut [u32],
) -> u8
    ensures { call_outcome result (fields.new ∷ sent.new ∷ held.new ∷ []) ≡ update_reply (view_data bridges links ends.now costs.now table.now) views view end fields.old sent.old held.old }
{
    if !encoding::holds_record(fields) {
        return OUT_OF_RANGE;
    }
    let seen = view_of(bridges, links, ends, costs, table);
    let mut limits = LimitsMut { sent, held };
    let mut updated = encoding::record_at(fields, 0);
    match calls::update_end(&seen, views, view, end, &mut updated, &mut limits) {
        Ok(()) => {
            encoding::put_record(updated, fields);
            0
        }
        Err(refusal) => refusal.number(),
    }
}

// `agreement::calls::carry`: the message goes to `out`.
#[unsafe(no_mangle)]
#[tactic(auto, unfolding(crate::specs::Call::carry_reply, encoding::specs::Replies::with_value))]
pub extern "C" fn bench_carry(
    views: usize,
    view: u8,
    number: u16,
    fields: &[u32],
    out: &mut [u32],
) -> u8
    ensures { call_outcome result (out.new ∷ []) ≡ carry_reply views view number fields.now out.old }
{
    if !encoding::holds_record(fields) || out.len() < AGREEMENT {
        return OUT_OF_RANGE;
    }
    match calls::carry(views, view, number, &encoding::record_at(fields, 0)) {
        Ok(message) => {
            encoding::put_agreement(message, out);
            0
        }
        Err(refusal) => refusal.number(),
    }
}

// `agreement::calls::deliver_end`: the record in `fields` becomes the new one, the answer goes to `out`.
#[unsafe(no_mangle)]
#[tactic(auto, unfolding(crate::specs::Call::deliver_reply, encoding::specs::Replies::with_value))]
pub extern "C" fn bench_deliver_end(
    bridges: usize,
    links: usize,
    ends: &[u8],
    costs: &[u32],
    table: &[u32],
    views: usize,
    view: u8,
    number: u16,
    end: usize,
    fields: &mut [u32],
    message: &[u32],
    sent: &mut [u32],
    held: &mut [u32],
    out: &mut [u32],
) -> u8
    ensures { call_outcome result (fields.new ∷ out.new ∷ sent.new ∷ held.new ∷ []) ≡ deliver_reply (view_data bridges links ends.now costs.now table.now) views view number end fields.old message.now sent.old held.old out.old }
{
    if !encoding::holds_record(fields)
        || !encoding::holds_agreement(message)
        || out.len() < ANSWER
    {
        return OUT_OF_RANGE;
    }
    let seen = view_of(bridges, links, ends, costs, table);
    let mut limits = LimitsMut { sent, held };
    let mut received = encoding::record_at(fields, 0);
    let taken = encoding::agreement_in(message);
    match calls::deliver_end(
        &seen,
        views,
        view,
        number,
        end,
        &mut received,
        taken,
        &mut limits,
    ) {
        Ok(answer) => {
            encoding::put_record(received, fields);
            encoding::put_answer(answer, out);
            0
        }
        Err(refusal) => refusal.number(),
    }
}

// The verdict by what is lent as numbers: a flag for each of 64 ends, and their records. Refused where these are too few or do not fit their fields.
#[tactic(auto, unfolding(crate::specs::Call::lent_verdict))]
fn lent_verdict(
    seen: &View,
    views: usize,
    down: &[u8],
    records: &[u32],
    limits: Limits,
    bridge: usize,
    dest: usize,
) -> Result<Verdict, Refusal>
    ensures { response result ≡ lent_verdict (lent seen.now) views down.now records.now limits.entry.sent.now limits.entry.held.now bridge dest }
{
    if down.len() < ENDS || !encoding::holds_records(records) {
        return Err(Refusal::OutOfRange);
    }
    let known = Records {
        down: &encoding::flags_in(down),
        records: &encoding::records_in(records),
        limits,
    };
    calls::verdict(seen, views, &known, bridge, dest)
}

// The port by the verdict of `agreement::calls::verdict`: the link, or 4,294,967,295 where no port forwards, goes to out[0].
// `down` has a flag for each of 64 ends, `records` their records.
#[unsafe(no_mangle)]
#[tactic(auto, unfolding(crate::specs::Call::port_reply, encoding::specs::Replies::with_value))]
pub extern "C" fn bench_port(
    bridges: usize,
    links: usize,
    ends: &[u8],
    costs: &[u32],
    table: &[u32],
    views: usize,
    down: &[u8],
    records: &[u32],
    sent: &[u32],
    held: &[u32],
    bridge: usize,
    dest: usize,
    out: &mut [u32],
) -> u8
    ensures { call_outcome result (out.new ∷ []) ≡ port_reply (view_data bridges links ends.now costs.now table.now) views down.now records.now sent.now held.now bridge dest out.old }
{
    if out.is_empty() {
        return OUT_OF_RANGE;
    }
    let seen = view_of(bridges, links, ends, costs, table);
    let limits = Limits { sent, held };
    match lent_verdict(&seen, views, down, records, limits, bridge, dest) {
        Ok(verdict) => {
            out[0] = encoding::link_number(port_of(verdict));
            0
        }
        Err(refusal) => refusal.number(),
    }
}

// `agreement::calls::verdict`: to out[0] goes 0 where the port forwards, 1 where the bridge is the destination, 2 no path, 3 chosen link down at this end, 4
// nothing held, 5 held limit too great, 6 sent limit not above the distance, 7 no link reaches the lent distance; to out[1] the link named, 4,294,967,295 where
// none is.
// `down` and `records` as in `bench_port`, from which it differs in what is written: the C interface has both.
#[unsafe(no_mangle)]
#[tactic(auto, unfolding(crate::specs::Call::verdict_reply, encoding::specs::Replies::with_value))]
pub extern "C" fn bench_verdict(
    bridges: usize,
    links: usize,
    ends: &[u8],
    costs: &[u32],
    table: &[u32],
    views: usize,
    down: &[u8],
    records: &[u32],
    sent: &[u32],
    held: &[u32],
    bridge: usize,
    dest: usize,
    out: &mut [u32],
) -> u8
    ensures { call_outcome result (out.new ∷ []) ≡ verdict_reply (view_data bridges links ends.now costs.now table.now) views down.now records.now sent.now held.now bridge dest out.old }
{
    if out.len() < VERDICT {
        return OUT_OF_RANGE;
    }
    let seen = view_of(bridges, links, ends, costs, table);
    let limits = Limits { sent, held };
    match lent_verdict(&seen, views, down, records, limits, bridge, dest) {
        Ok(verdict) => {
            encoding::put_verdict(verdict, out);
            0
        }
        Err(refusal) => refusal.number(),
    }
}
