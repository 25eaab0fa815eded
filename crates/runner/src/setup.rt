// Setup fields: the bridge count, links, views.
ghost use Rattle.std.specs.Prelude.{◌≡◌, ◌≤◌, ◌<◌, length, ℕ, List};
ghost use Rattle.agreement.specs.Call.{says, SameTables};
ghost use Rattle.bench.specs.State.{state};
ghost use Rattle.bench.specs.Outcomes.{outcome};
ghost use Rattle.runner.specs.Steps.{with_link, with_row, may_view, fresh_with_view};

use agreement::LimitsMut;
use bench::sizes::COST_ROW;
use bench::{Bench, LentMut};
use distances::Graph;

pub(crate) fn add_link(bench: &mut Bench, first: u8, second: u8)
    requires { bench.old.links < 32 }
    ensures { bench.new ≡ with_link bench.old first second }
{
    let at = 2 * bench.links;
    bench.ends[at] = first;
    bench.ends[at + 1] = second;
    bench.links += 1;
}

// A view's costs into its row.
pub(crate) fn store_row(rest: &[u8], bench: &Bench, costs: &mut [u32])
    requires { (bench.now.views < 32) × (1024 ≤ length costs.old) }
    ensures { costs.new ≡ with_row rest.now bench.now costs.old }
{
    let row = COST_ROW * bench.views;
    // a view that was read is not refused
    let _ = plan::fields::read_costs(rest, bench.links, &mut costs[row..row + COST_ROW]);
}

// May a view be taken? The first one makes the network, which the graph has to be in range for.
pub(crate) fn may_view(bench: &Bench) -> bool
    ensures { result ≡ may_view bench.now }
{
    let graph = Graph {
        bridges: bench.bridges,
        links: bench.links,
        ends: &bench.ends,
    };
    bench.views != 0 || distances::ready::graph_passes(&graph)
}

// The network is fresh with the first view. The costs are lent as `&mut` for the reason that `lists::make` has.
pub(crate) fn fresh_with_view(bench: &mut Bench, costs: &mut [u32], limits: &mut LimitsMut)
    requires { (messages : List ℕ) → (fresh_with_view (state bench.old costs.old limits.old.sent.now limits.old.held.now messages)).reply.number ≡ 0 }
    ensures fresh { (messages : List ℕ) → outcome (says tt) (state bench.new costs.new limits.new.sent.now limits.new.held.now messages) ≡ fresh_with_view (state bench.old costs.old limits.old.sent.now limits.old.held.now messages) }
    ensures costs { costs.new ≡ costs.old }
    ensures same { SameTables limits.old limits.new }
{
    if bench.views == 1 {
        let net = &mut LentMut {
            bench,
            costs,
            limits,
        };
        // a network whose view may be taken is not refused
        let _ = bench::changes::fresh(net);
    }
}
