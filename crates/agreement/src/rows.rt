// The rows of limits: one function rewrites a row, whatever becomes of it, and it is lent a row that starts inside the limit table.
ghost use Rattle.std.specs.Prelude.{◌≡◌, ◌*◌, ◌≤◌, ◌<◌, length, get_or, ltb};
ghost use Rattle.distances.specs.Table.{cell, rewritten};
ghost use Rattle.agreement.specs.Limits.{with_limits, limit_after, row_after, limit_of};
ghost use Rattle.agreement.specs.Ends.{seen, between_at, near_offer, far_offer};
ghost use Rattle.agreement.specs.Steps.{ViewReady, SidesReady, EndReady};
ghost use Rattle.agreement.specs.Call.{lent, SameTables};

use crate::ready::opposite_end;
use crate::{Across, LimitsMut, Rewrite, View};
use distances::sizes::{NONE, ROW};

#[tactic(auto, unfolding(crate::specs::Limits::limit_of))]
fn limit_of(cost: u32, near: u32, far: u32) -> u32
    ensures { result ≡ limit_of cost near far }
{
    if cost != 0 && near < far && near < NONE - cost {
        cost + near
    } else {
        NONE
    }
}

#[tactic(auto, unfolding(crate::specs::Limits::limit_after))]
fn limit_after(how: Rewrite, old: u32, offer: u32) -> u32
    ensures { result ≡ limit_after how old offer }
{
    match how {
        Rewrite::Keep => old,
        Rewrite::Lower => old.min(offer),
        Rewrite::Renew => offer,
        Rewrite::Empty => NONE,
    }
}

// The link of this end of a view, seen from the end.
pub(crate) fn across<'a>(view: &View<'a>, end: usize) -> Across<'a>
    requires view_ready { ViewReady (lent view.now) }
    requires end_bound { end < 2 * view.now.graph.links }
    ensures { seen result ≡ between_at (lent view.now) end }
{
    Across {
        bridges: view.graph.bridges,
        near: view.graph.ends[end] as usize,
        far: view.graph.ends[opposite_end(end)] as usize,
        cost: view.costs[end / 2],
        table: view.table,
    }
}

// The offer of the bridge at the end for a destination.
#[tactic(auto, unfolding(distances::specs::Table::cell))]
pub(crate) fn offer_at(across: &Across, dest: usize) -> u32
    requires sides_ready { SidesReady (seen across.now) }
    requires dest_bound { dest < 16 }
    ensures { result ≡ near_offer (seen across.now) dest }
{
    let table = across.table;
    limit_of(
        across.cost,
        table[ROW * across.near + dest],
        table[ROW * across.far + dest],
    )
}

fn rewrite_row(how: Rewrite, across: &Across, row: &mut [u32])
    requires sides_ready { SidesReady (seen across.now) }
    requires row_long { length row.old ≡ 16 }
    ensures { row.new ≡ rewritten (λ d. ltb d across.now.bridges) (row_after how (near_offer (seen across.now)) (λ d. get_or row.old d 0)) row.old }
{
    for d in 0..across.bridges {
        row[d] = limit_after(how, row[d], offer_at(across, d));
    }
}

fn rewrite_limits(how: Rewrite, across: &Across, end: usize, limits: &mut [u32])
    requires sides_ready { SidesReady (seen across.now) }
    requires end_bound { (end < 64) × (1024 ≤ length limits.old) }
    ensures { limits.new ≡ with_limits across.now.bridges end (row_after how (near_offer (seen across.now)) (cell limits.old end)) limits.old }
{
    let first = ROW * end;
    rewrite_row(how, across, &mut limits[first..first + ROW]);
}

// Both rows of an end: the sent row by its own bridge's offers, the held row by the far bridge's. Inlined, since where the caller's `Rewrite`
// is known the compiler makes vector code of the loop over a row: measured, a list of events takes a third of the time.
#[inline(always)]
pub(crate) fn rewrite(
    sent_how: Rewrite,
    held_how: Rewrite,
    across: &Across,
    end: usize,
    limits: &mut LimitsMut,
)
    requires { EndReady (seen across.now) limits.old.sent.now limits.old.held.now end }
    ensures sent_after { limits.new.sent.now ≡ with_limits across.now.bridges end (row_after sent_how (near_offer (seen across.now)) (cell limits.old.sent.now end)) limits.old.sent.now }
    ensures held_after { limits.new.held.now ≡ with_limits across.now.bridges end (row_after held_how (far_offer (seen across.now)) (cell limits.old.held.now end)) limits.old.held.now }
    ensures same_tables { SameTables limits.old limits.new }
{
    let back = Across {
        near: across.far,
        far: across.near,
        ..*across
    };
    rewrite_limits(sent_how, across, end, limits.sent);
    rewrite_limits(held_how, &back, end, limits.held);
}
