// Update of a bridge, end by end.
ghost use Rattle.std.specs.Prelude.{◌≡◌, true, [], ℕ, List, ◌*◌, ◌≤◌, ◌<◌, length, get_or};
ghost use Rattle.agreement.specs.Call.{view_data};
ghost use Rattle.agreement.specs.Ranges.{end_in_range};
ghost use Rattle.bench.specs.State.{state_of, SameReferences};
ghost use Rattle.bench.specs.Ranges.{network_in_range};
ghost use Rattle.bench.specs.Private.Changes.{ends_in, with_ends, moved_ends, moved_to, with_rewritten};
ghost use Rattle.bench.specs.Private.Chains.{Chained};
ghost use Rattle.bench.specs.Private.Steps.{Ready, IsFilled, IsPrepared};

use crate::sizes::COST_ROW;
use crate::tables::{Chains, Prepared};
use crate::{LentMut, ready};
use agreement::Across;
use agreement::between::update_between;
use agreement::ready::opposite_end;

// The bridge's ends, one behind the other, each in its place, as layer 2 updates them by these costs and distances.
fn move_ends(
    net: &mut LentMut,
    costs: &[u32],
    table: &[u32],
    chains: &Chains,
    bridge: usize,
    view: u8,
)
    requires chained { (net.old.bench.now.links ≤ 32) × (bridge < 16) × Chained net.old.bench.now.links net.old.bench.now.ends chains.now }
    requires ends { (e : ℕ) → e < 2 * net.old.bench.now.links → end_in_range net.old.bench.now.bridges net.old.bench.now.links net.old.bench.now.ends costs.now table.now (length net.old.limits.now.sent.now) (length net.old.limits.now.held.now) e ≡ true }
    ensures state { state_of net.new [] ≡ with_ends (state_of net.old []) (moved_ends (view_data net.old.bench.now.bridges net.old.bench.now.links net.old.bench.now.ends costs.now table.now) net.old.bench.now.views bridge view (2 * net.old.bench.now.links) (ends_in (state_of net.old []))) }
    ensures same_references { SameReferences net.old net.new }
{
    ready::typed(net.bench);
    let mut e = chains.first[bridge] as usize;
    // no `for`: it goes along the chain of the bridge's ends, whose iterator would need a proof of its own and be no plainer
    while e < 2 * net.bench.links {
        let across = Across {
            bridges: net.bench.bridges,
            near: bridge,
            far: net.bench.ends[opposite_end(e)] as usize,
            cost: costs[e / 2],
            table,
        };
        let views = net.bench.views;
        // what is in range is not refused
        let _ = update_between(
            &across,
            views,
            view,
            e,
            &mut net.bench.records[e],
            net.limits,
        );
        e = chains.next[e] as usize;
    }
}

// A bridge goes to a view whose distances are there.
pub(crate) fn move_bridge(net: &mut LentMut, prepared: &Prepared, bridge: usize, view: usize)
    requires in_range { network_in_range (state_of net.old []) ≡ true }
    requires ready { Ready net.old.bench.now net.old.costs.now }
    requires listed { (bridge < net.old.bench.now.bridges) × (view < net.old.bench.now.views) × (get_or net.old.bench.now.number bridge 0 < 65535) }
    requires prepared { IsPrepared net.old.bench.now net.old.costs.now prepared.now × IsFilled net.old.bench.now net.old.costs.now prepared.now.distances.numbers view }
    ensures state { state_of net.new [] ≡ with_rewritten (state_of net.old []) (moved_to (state_of net.old []) bridge view) }
    ensures same_references { SameReferences net.old net.new }
{
    let row = COST_ROW * view;
    let costs = &net.costs[row..row + COST_ROW];
    let table = prepared.distances.table(view);
    let to = view as u8;
    move_ends(net, costs, table, &prepared.chains, bridge, to);
    net.bench.view[bridge] = to;
    net.bench.number[bridge] += 1;
}
