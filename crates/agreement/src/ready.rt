// The entry checks: the ranges of the protocol, and lent buffers that are long enough.
ghost use Rattle.std.specs.Prelude.{◌≡◌, ◌||◌, ℕ, ◌*◌, ◌≤◌, ◌<◌, IsTrue, min, get_or, eqb, ltb};
ghost use Rattle.distances.specs.Call.{all_below};
ghost use Rattle.agreement.specs.Record.{fresh_record};
ghost use Rattle.agreement.specs.Offer.{opposite};
ghost use Rattle.agreement.specs.Update.{numbers_used_up};
ghost use Rattle.agreement.specs.Ranges.{is_view, record_in_range, records_in_range, delivery_in_range};
ghost use Rattle.agreement.specs.Steps.{ViewReady, PortReady};
ghost use Rattle.agreement.specs.Call.{lent, lent_in_range, lent_port_in_range};

use crate::sizes::{LAST_NUMBER, LIMITS, NO_VIEW};
use crate::{Agreement, EndRecord, Records, View};
use distances::sizes::{MOST_LINKS, MOST_VIEWS};

// The other end of a link.
pub fn opposite_end(end: usize) -> usize
    ensures { result ≡ opposite end }
{
    if end % 2 == 0 { end + 1 } else { end - 1 }
}

pub(crate) fn view_in_range(view: &View) -> bool
    ensures passes { result ≡ lent_in_range (lent view.now) }
    ensures ready { IsTrue result → ViewReady (lent view.now) }
{
    distances::ready::in_range(&view.graph, view.costs, view.table.len())
}

#[tactic(auto, unfolding(crate::specs::Ranges::is_view))]
pub(crate) fn is_view(views: usize, view: u8) -> bool
    ensures { result ≡ is_view views view }
{
    1 <= views && views <= MOST_VIEWS && (view as usize) < views
}

#[tactic(auto, unfolding(crate::specs::Ranges::record_in_range))]
pub(crate) fn record_in_range(views: usize, end_record: &EndRecord) -> bool
    ensures { result ≡ record_in_range views end_record.now }
{
    end_record.view == NO_VIEW || (end_record.view as usize) < views
}

// Is there no agreement number left for an update from one view to another? Then it is refused.
pub fn numbers_used_up(number: u16, present: usize, view: usize) -> bool
    ensures { result ≡ numbers_used_up number present view }
{
    number == LAST_NUMBER && present != view
}

// The number of views as a byte: no record has a view beyond 255.
fn view_bound(views: usize) -> u8
    ensures { result ≡ min 255 views }
{
    if views < 255 { views as u8 } else { 255 }
}

// `record_in_range` on bytes, `bound` being the number of views as one: a loop over records can compare several at a time.
fn record_passes(bound: u8, view: u8) -> bool
    ensures { (views : ℕ) → bound ≡ min 255 views → result ≡ (eqb view 255 || ltb view views) }
{
    view == NO_VIEW || view < bound
}

fn each_in_range(views: usize, links: usize, records: &[EndRecord; 64]) -> bool
    requires { links ≤ 32 }
    ensures { result ≡ all_below (2 * links) (λ e. record_in_range views (get_or records.now e fresh_record)) }
{
    let bound = view_bound(views);
    let mut ok = true;
    for e in 0..2 * links {
        ok &= record_passes(bound, records[e].view);
    }
    ok
}

// Are the records of the ends of so many links in range?
#[tactic(auto, unfolding(crate::specs::Ranges::records_in_range))]
pub fn records_in_range(views: usize, links: usize, records: &[EndRecord; 64]) -> bool
    ensures { result ≡ records_in_range views links records.now }
{
    links <= MOST_LINKS && each_in_range(views, links, records)
}

#[tactic(auto, unfolding(crate::specs::Ranges::delivery_in_range))]
pub(crate) fn delivery_in_range(
    views: usize,
    at: u8,
    end_record: &EndRecord,
    message: Agreement,
) -> bool
    ensures { result ≡ delivery_in_range views at end_record.now message.view }
{
    is_view(views, at) && record_in_range(views, end_record) && (message.view as usize) < views
}

#[tactic(auto, unfolding(crate::specs::Ranges::port_in_range))]
pub(crate) fn port_in_range(
    view: &View,
    views: usize,
    records: &Records,
    bridge: usize,
    dest: usize,
) -> bool
    ensures passes { result ≡ lent_port_in_range (lent view.now) views records.now.records.now records.now.limits.sent.now records.now.limits.held.now bridge dest }
    ensures ready { IsTrue result → PortReady (lent view.now) records.now.limits.sent.now records.now.limits.held.now bridge dest }
{
    let limits = &records.limits;
    view_in_range(view)
        && (LIMITS <= limits.sent.len() && LIMITS <= limits.held.len())
        && (1 <= views && views <= MOST_VIEWS)
        && records_in_range(views, view.graph.links, records.records)
        && (bridge < view.graph.bridges && dest < view.graph.bridges)
}
