// The calls that change the network by the planner's hand: fresh, update, cut, restore.
ghost use Rattle.std.specs.Prelude.{◌≡◌, true, ℕ, List, []};
ghost use Rattle.protocol.specs.Calls as calls;
ghost use Rattle.bench.specs.State.{state, state_of, SameReferences};
ghost use Rattle.bench.specs.Ranges.{bench_in_range, network_in_range};
ghost use Rattle.agreement.specs.Call.{response};
ghost use Rattle.bench.specs.Outcomes.{outcome, outcome_of, fresh_of};
ghost use Rattle.bench.specs.Private.Changes.{switch};
ghost use Rattle.bench.specs.Private.Steps.{IsPrepared};

use crate::sizes::COST_ROW;
use crate::tables::{Chains, Prepared};
use crate::updates::move_bridge;
use crate::{Bench, LentMut, initial, ready, refusals};
use agreement::View;
use distances::Refusal;
use distances::sizes::TABLE;

// A cut, by which a bridge's end of a link goes down, or a restore, of what is in range.
pub(crate) fn switch_ready(
    bench: &mut Bench,
    bridge: usize,
    link: usize,
    down: bool,
) -> Result<(), Refusal>
    requires { bench_in_range bench.old ≡ true }
    ensures { (costs sent held messages : List ℕ) → outcome (response result) (state bench.new costs sent held messages) ≡ outcome_of (state bench.old costs sent held messages) (calls.change (switch down bridge link)) (λ n. tt) }
{
    let end = refusals::switch(bench, bridge, link, down)?;
    bench.down[end] = down;
    Ok(())
}

// A bridge's end of a link goes down, or up.
fn switch_end(bench: &mut Bench, bridge: usize, link: usize, down: bool) -> Result<(), Refusal>
    ensures { (costs sent held messages : List ℕ) → outcome (response result) (state bench.new costs sent held messages) ≡ outcome_of (state bench.old costs sent held messages) (calls.change (switch down bridge link)) (λ n. tt) }
{
    if !ready::bench_in_range(bench) {
        return Err(Refusal::OutOfRange);
    }
    switch_ready(bench, bridge, link, down)
}

// Cuts a link at a bridge's end: over it the bridge neither sends nor receives, and no frame crosses. Records and messages in flight are
// retained.
pub fn cut(bench: &mut Bench, bridge: usize, link: usize) -> Result<(), Refusal>
    ensures { (costs sent held messages : List ℕ) → outcome (response result) (state bench.new costs sent held messages) ≡ outcome_of (state bench.old costs sent held messages) (calls.change (calls.cut bridge link)) (λ n. tt) }
{
    switch_end(bench, bridge, link, true)
}

// Restores a link at a bridge's end.
pub fn restore(bench: &mut Bench, bridge: usize, link: usize) -> Result<(), Refusal>
    ensures { (costs sent held messages : List ℕ) → outcome (response result) (state bench.new costs sent held messages) ≡ outcome_of (state bench.old costs sent held messages) (calls.change (calls.restore bridge link)) (λ n. tt) }
{
    switch_end(bench, bridge, link, false)
}

// Puts a bridge on a view. Nothing changes where it is on it already.
pub fn update(net: &mut LentMut, bridge: usize, view: usize) -> Result<(), Refusal>
    ensures outcome { (messages : List ℕ) → outcome (response result) (state_of net.new messages) ≡ outcome_of (state_of net.old messages) (calls.change (calls.update bridge view)) (λ n. tt) }
    ensures same_references { SameReferences net.old net.new }
{
    if !ready::network_in_range(&net.shared()) {
        return Err(Refusal::OutOfRange);
    }
    let mut prepared = Prepared::none();
    prepared.chains = Chains::of(net.bench);
    update_ready(net, &mut prepared, bridge, view)
}

// `update` of what is in range.
pub(crate) fn update_ready(
    net: &mut LentMut,
    prepared: &mut Prepared,
    bridge: usize,
    view: usize,
) -> Result<(), Refusal>
    requires in_range { network_in_range (state_of net.old []) ≡ true }
    requires prepared { IsPrepared net.old.bench.now net.old.costs.now prepared.old }
    ensures outcome { (messages : List ℕ) → outcome (response result) (state_of net.new messages) ≡ outcome_of (state_of net.old messages) (calls.change (calls.update bridge view)) (λ n. tt) }
    ensures prepared { IsPrepared net.new.bench.now net.new.costs.now prepared.new }
    ensures same_references { SameReferences net.old net.new }
{
    ready::typed(net.bench);
    refusals::update(net.bench, bridge, view)?;
    if net.bench.view[bridge] as usize != view {
        prepared.distances.need(net.bench, net.costs, view);
        move_bridge(net, prepared, bridge, view);
    }
    Ok(())
}

// A fresh network over the counts and ends of the bench that is lent: every bridge on view 0.
pub fn fresh(net: &mut LentMut) -> Result<(), Refusal>
    ensures outcome { (messages : List ℕ) → outcome (response result) (state_of net.new messages) ≡ fresh_of (state_of net.old messages) }
    ensures same_references { SameReferences net.old net.new }
{
    if !ready::plan_in_range(&net.shared()) {
        return Err(Refusal::OutOfRange);
    }
    let graph = net.bench.graph();
    let costs = &net.costs[0..COST_ROW];
    let mut table = [0; TABLE];
    // what is in range is not refused
    let _ = distances::distances(&graph, costs, &mut table);
    let view = View {
        graph,
        costs,
        table: &table,
    };
    initial::start_ends(&view, net.limits);
    initial::clear(net.bench);
    Ok(())
}
