// The calls on one end by what is seen from it: its bridge, the bridge across, the link's cost, and the table that holds the view's distances.
// What they test is of constant cost: a caller that has checked its network pays for it once.
ghost use Rattle.std.specs.Prelude.{◌≡◌, IsTrue};
ghost use Rattle.distances.specs.Refusal.{reply_number};
ghost use Rattle.agreement.specs.Call.{response, outcome, SameTables};
ghost use Rattle.agreement.specs.Steps.{EndReady};
ghost use Rattle.agreement.specs.Ends.{seen, between_in_range, update_between, deliver_between};

use crate::end_record::renew_if;
use crate::sizes::{ENDS, LIMITS};
use crate::{Across, Agreement, Answer, EndRecord, Limits, LimitsMut, Rewrite, ready, rows};
use distances::Refusal;
use distances::sizes::{LEAST_BRIDGES, MAX_COST, MOST_BRIDGES, TABLE};

#[tactic(auto, unfolding(crate::specs::Ends::between_in_range))]
fn in_range(across: &Across, limits: &Limits, end: usize) -> bool
    ensures passes { result ≡ between_in_range (seen across.now) limits.now.sent.now limits.now.held.now end }
    ensures ready { IsTrue result → EndReady (seen across.now) limits.now.sent.now limits.now.held.now end }
{
    LEAST_BRIDGES <= across.bridges
        && across.bridges <= MOST_BRIDGES
        && across.near < across.bridges
        && across.far < across.bridges
        && across.near != across.far
        && across.cost <= MAX_COST
        && TABLE <= across.table.len()
        && end < ENDS
        && LIMITS <= limits.sent.len()
        && LIMITS <= limits.held.len()
}

// An end whose bridge goes to this view, whose distances the table holds and which differs from its present view.
#[tactic(auto, unfolding(crate::specs::Ends::update_between))]
pub fn update_between(
    across: &Across,
    views: usize,
    to: u8,
    end: usize,
    end_record: &mut EndRecord,
    limits: &mut LimitsMut,
) -> Result<(), Refusal>
    ensures outcome { outcome (reply_number result) end_record.new limits.new.sent.now limits.new.held.now ≡ update_between (seen across.now) views to end end_record.old limits.old.sent.now limits.old.held.now }
    ensures same_tables { SameTables limits.old limits.new }
{
    let ok = in_range(across, &limits.shared(), end)
        && ready::is_view(views, to)
        && ready::record_in_range(views, end_record);
    if !ok {
        return Err(Refusal::OutOfRange);
    }
    let held_how = renew_if(end_record.view == to);
    rows::rewrite(Rewrite::Lower, held_how, across, end, limits);
    end_record.update(to);
    Ok(())
}

// A message at an end of a bridge on view `at`, whose distances the table holds, with this agreement number. No struct for these, as in
// `calls::deliver_end`.
#[tactic(auto, unfolding(crate::specs::Ends::deliver_between))]
pub fn deliver_between(
    across: &Across,
    views: usize,
    at: u8,
    number: u16,
    end: usize,
    end_record: &mut EndRecord,
    message: Agreement,
    limits: &mut LimitsMut,
) -> Result<Answer, Refusal>
    ensures outcome { outcome (response result) end_record.new limits.new.sent.now limits.new.held.now ≡ deliver_between (seen across.now) views at number end end_record.old message limits.old.sent.now limits.old.held.now }
    ensures same_tables { SameTables limits.old limits.new }
{
    let ok = in_range(across, &limits.shared(), end)
        && ready::delivery_in_range(views, at, end_record, message);
    if !ok {
        return Err(Refusal::OutOfRange);
    }
    let sent_how = renew_if(end_record.is_clearing(number, message));
    let held_how = renew_if(end_record.is_adopting(at, message));
    rows::rewrite(sent_how, held_how, across, end, limits);
    let answer = end_record.answer(at, message);
    end_record.take(answer);
    Ok(answer)
}
