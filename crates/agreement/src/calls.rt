// The calls on a lent view, and the bridge's own part of an update. Every input gets a reply: `OutOfRange` for what is out of range or too
// short, an update of a bridge also `NotThere` and `NumbersUsedUp`; and then nothing is changed.
ghost use Rattle.std.specs.Prelude.{◌≡◌, IsTrue};
ghost use Rattle.distances.specs.Refusal.{reply_number};
ghost use Rattle.agreement.specs.Record.{fresh_record};
ghost use Rattle.agreement.specs.Update.{bridge_update_outcome};
ghost use Rattle.agreement.specs.Steps.{EndListed};
ghost use Rattle.agreement.specs.Call.{lent, response, SameTables, outcome, lent_end_in_range, offer_outcome, fresh_outcome, update_outcome, carry_outcome, deliver_outcome, verdict_outcome, port_outcome};

use crate::between::{deliver_between, update_between};
use crate::choices::port_of;
use crate::sizes::{LIMITS, NO_VIEW};
use crate::{
    Agreement, Answer, EndRecord, Limits, LimitsMut, Port, Records, Rewrite, Verdict, View, ports,
    ready, rows,
};
use distances::Refusal;

// The record of a fresh end.
pub fn fresh_record() -> EndRecord
    ensures { result ≡ fresh_record }
{
    EndRecord {
        received: 0,
        view: NO_VIEW,
        discarded: 0,
        holding: false,
    }
}

// What a send carries from an end of a bridge on this view with this agreement number.
#[tactic(auto, unfolding(crate::specs::Call::carry_outcome))]
pub fn carry(
    views: usize,
    view: u8,
    number: u16,
    end_record: &EndRecord,
) -> Result<Agreement, Refusal>
    ensures { response result ≡ carry_outcome views view number end_record.now }
{
    let ok = ready::is_view(views, view) && ready::record_in_range(views, end_record);
    if !ok {
        return Err(Refusal::OutOfRange);
    }
    Ok(Agreement {
        view,
        number,
        discarded: end_record.discarded,
    })
}

#[tactic(auto, unfolding(crate::specs::Ranges::end_in_range))]
fn end_in_range(view: &View, end: usize, limits: &Limits) -> bool
    ensures passes { result ≡ lent_end_in_range (lent view.now) limits.now.sent.now limits.now.held.now end }
    ensures ready { IsTrue result → EndListed (lent view.now) limits.now.sent.now limits.now.held.now end }
{
    ready::view_in_range(view)
        && LIMITS <= limits.sent.len()
        && LIMITS <= limits.held.len()
        && end < 2 * view.graph.links
}

// The offer over the link of this end for a destination, as a limit.
#[tactic(auto, unfolding(crate::specs::Call::offer_outcome))]
pub fn offer_over(view: &View, end: usize, dest: usize) -> Result<u32, Refusal>
    ensures { response result ≡ offer_outcome (lent view.now) end dest }
{
    let ok = ready::view_in_range(view) && end < 2 * view.graph.links && dest < view.graph.bridges;
    if !ok {
        return Err(Refusal::OutOfRange);
    }
    Ok(rows::offer_at(&rows::across(view, end), dest))
}

// A fresh end's rows: sent limits from this view's offers, held limits all NONE. Its record is `fresh_record`.
#[tactic(auto, unfolding(crate::specs::Call::fresh_outcome))]
pub fn start_end(view: &View, end: usize, limits: &mut LimitsMut) -> Result<(), Refusal>
    ensures outcome { outcome (reply_number result) fresh_record limits.new.sent.now limits.new.held.now ≡ fresh_outcome (lent view.now) end limits.old.sent.now limits.old.held.now }
    ensures same_tables { SameTables limits.old limits.new }
{
    if !end_in_range(view, end, &limits.shared()) {
        return Err(Refusal::OutOfRange);
    }
    rows::rewrite(
        Rewrite::Renew,
        Rewrite::Empty,
        &rows::across(view, end),
        end,
        limits,
    );
    Ok(())
}

// The part of an update that is the bridge's own: whether the view differs from its present one (None: it stays), and its agreement number
// there. Where it moves, each of its ends is to be updated, by `update_end`.
#[tactic(auto, unfolding(crate::specs::Update::bridge_update_outcome, crate::specs::Update::bridge_update_checks, crate::specs::Update::bridge_updated, distances::specs::Refusal::refusal))]
pub fn update_bridge(
    views: usize,
    present: u8,
    number: u16,
    view: u8,
) -> Result<Option<u16>, Refusal>
    ensures { response result ≡ bridge_update_outcome views present number view }
{
    if !ready::is_view(views, present) {
        return Err(Refusal::OutOfRange);
    }
    if views <= view as usize {
        return Err(Refusal::NotThere);
    }
    if ready::numbers_used_up(number, present as usize, view as usize) {
        return Err(Refusal::NumbersUsedUp);
    }
    if present == view {
        return Ok(None);
    }
    Ok(Some(number + 1))
}

// An end whose bridge goes to this view, which is the lent one and differs from its present view.
#[tactic(auto, unfolding(crate::specs::Call::update_outcome))]
pub fn update_end(
    view: &View,
    views: usize,
    to: u8,
    end: usize,
    end_record: &mut EndRecord,
    limits: &mut LimitsMut,
) -> Result<(), Refusal>
    ensures outcome { outcome (reply_number result) end_record.new limits.new.sent.now limits.new.held.now ≡ update_outcome (lent view.now) views to end end_record.old limits.old.sent.now limits.old.held.now }
    ensures same_tables { SameTables limits.old limits.new }
{
    if !end_in_range(view, end, &limits.shared()) {
        return Err(Refusal::OutOfRange);
    }
    update_between(&rows::across(view, end), views, to, end, end_record, limits)
}

// A message at an end of a bridge on view `at`, which is the lent one, with this agreement number. No struct for these and `views`, which an
// update has without a number and with a view that the bridge is not on.
#[tactic(auto, unfolding(crate::specs::Call::deliver_outcome))]
pub fn deliver_end(
    view: &View,
    views: usize,
    at: u8,
    number: u16,
    end: usize,
    end_record: &mut EndRecord,
    message: Agreement,
    limits: &mut LimitsMut,
) -> Result<Answer, Refusal>
    ensures outcome { outcome (response result) end_record.new limits.new.sent.now limits.new.held.now ≡ deliver_outcome (lent view.now) views at number end end_record.old message limits.old.sent.now limits.old.held.now }
    ensures same_tables { SameTables limits.old limits.new }
{
    if !end_in_range(view, end, &limits.shared()) {
        return Err(Refusal::OutOfRange);
    }
    let across = rows::across(view, end);
    deliver_between(&across, views, at, number, end, end_record, message, limits)
}

// The verdict on the port of a bridge on the lent view for a destination: which condition holds it shut, or that it forwards. The bridge looks
// at its own ends, and the other records have to be in range.
#[tactic(auto, unfolding(crate::specs::Call::verdict_outcome))]
pub fn verdict(
    view: &View,
    views: usize,
    records: &Records,
    bridge: usize,
    dest: usize,
) -> Result<Verdict, Refusal>
    ensures { response result ≡ verdict_outcome (lent view.now) views records.now.down.now records.now.records.now records.now.limits.sent.now records.now.limits.held.now bridge dest }
{
    if !ready::port_in_range(view, views, records, bridge, dest) {
        return Err(Refusal::OutOfRange);
    }
    Ok(ports::verdict_of(view, records, bridge, dest))
}

// The forwarding port.
pub fn port(
    view: &View,
    views: usize,
    records: &Records,
    bridge: usize,
    dest: usize,
) -> Result<Port, Refusal>
    ensures { response result ≡ port_outcome (lent view.now) views records.now.down.now records.now.records.now records.now.limits.sent.now records.now.limits.held.now bridge dest }
{
    Ok(port_of(verdict(view, views, records, bridge, dest)?))
}
