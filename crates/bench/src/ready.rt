// The entry checks: the ranges of a bench and of what is lent beside it.
ghost use Rattle.std.specs.Prelude.{◌≡◌, [], ◌+◌, ◌*◌, ◌≤◌, ◌<◌, length, get_or, ltb};
ghost use Rattle.distances.specs.Call.{all_below, costs_pass};
ghost use Rattle.bench.specs.State.{part, lent_state};
ghost use Rattle.bench.specs.Ranges.{graph_in_range, bench_in_range, costs_in_range, limits_long, message_in_range, messages_in_range, network_in_range, state_in_range};
ghost use Rattle.bench.specs.Outcomes.{plan_ready};
ghost use Rattle.bench.specs.Private.Types.{Typed};

use crate::sizes::{COST_ROW, COSTS, MESSAGE, MESSAGES, MOST_MESSAGES};
use crate::{Bench, Lent};
use agreement::Limits;
use agreement::sizes::{LIMITS, NUMBERS};
use distances::sizes::MOST_VIEWS;

// What the types of a bench tell. Nothing is done: a proof that holds a bench behind a reference learns it here.
pub(crate) fn typed(bench: &Bench)
    ensures { Typed bench.now }
{
    typed_value(*bench)
}

fn typed_value(_bench: Bench)
    ensures { Typed _bench }
{}

#[tactic(auto, unfolding(crate::specs::Ranges::graph_in_range))]
fn graph_in_range(bench: &Bench) -> bool
    ensures { result ≡ graph_in_range bench.now }
{
    1 <= bench.views && bench.views <= MOST_VIEWS && distances::ready::graph_passes(&bench.graph())
}

#[tactic(auto, using(agreement::proofs::Basics::all_more), unfolding(distances::specs::Call::all_below))]
fn views_in_range(bench: &Bench) -> bool
    requires { bench.now.bridges ≤ 16 }
    ensures { result ≡ all_below bench.now.bridges (λ y. ltb (get_or bench.now.view y 0) bench.now.views) }
{
    let mut ok = true;
    for y in 0..bench.bridges {
        ok &= (bench.view[y] as usize) < bench.views;
    }
    ok
}

#[tactic(auto, using(crate::proofs::Counts::graph_bridges), unfolding(crate::specs::Ranges::bench_in_range))]
pub(crate) fn bench_in_range(bench: &Bench) -> bool
    ensures { result ≡ bench_in_range bench.now }
{
    graph_in_range(bench)
        && bench.messages <= MOST_MESSAGES
        && views_in_range(bench)
        && agreement::ready::records_in_range(bench.views, bench.links, &bench.records)
}

fn row_in_range(links: usize, costs: &[u32], t: usize) -> bool
    requires { (t ≤ 31) × (1024 ≤ length costs.now) }
    ensures { result ≡ costs_pass links (part 32 t costs.now) }
{
    let first = COST_ROW * t;
    distances::ready::costs_pass(links, &costs[first..first + COST_ROW])
}

#[tactic(auto, using(agreement::proofs::Basics::all_more), unfolding(distances::specs::Call::all_below, crate::specs::Ranges::costs_in_range))]
fn costs_in_range(bench: &Bench, costs: &[u32]) -> bool
    requires { bench.now.views ≤ 32 }
    ensures { result ≡ costs_in_range bench.now costs.now }
{
    if costs.len() < COSTS {
        return false;
    }
    let mut ok = true;
    for t in 0..bench.views {
        ok &= row_in_range(bench.links, costs, t);
    }
    ok
}

#[tactic(auto, unfolding(crate::specs::Ranges::limits_long))]
fn limits_long(limits: &Limits) -> bool
    ensures { result ≡ limits_long (length limits.now.sent.now) (length limits.now.held.now) }
{
    LIMITS <= limits.sent.len() && LIMITS <= limits.held.len()
}

// What `fresh` is lent.
#[tactic(auto, using(crate::proofs::Counts::graph_views))]
pub(crate) fn plan_in_range(net: &Lent) -> bool
    ensures { result ≡ plan_ready (lent_state net.now []) }
{
    graph_in_range(net.bench) && costs_in_range(net.bench, net.costs) && limits_long(&net.limits)
}

#[tactic(auto, using(crate::proofs::Counts::bench_views), unfolding(crate::specs::Ranges::parts_in_range))]
pub(crate) fn network_in_range(net: &Lent) -> bool
    ensures { result ≡ network_in_range (lent_state net.now []) }
{
    bench_in_range(net.bench) && costs_in_range(net.bench, net.costs) && limits_long(&net.limits)
}

#[tactic(auto, unfolding(crate::specs::Ranges::message_passes))]
fn message_in_range(bench: &Bench, messages: &[u32], place: usize) -> bool
    requires { (place < 64) × (320 ≤ length messages.now) }
    ensures { result ≡ message_in_range bench.now messages.now place }
{
    let at = MESSAGE * place;
    (messages[at] as usize) < bench.links
        && messages[at + 1] < 2
        && (messages[at + 2] as usize) < bench.views
        && messages[at + 3] < NUMBERS
        && messages[at + 4] < NUMBERS
}

// A loop of its own beside that of `costs_in_range`: the test of each place is another, and to hand it over as a closure is no plainer.
#[tactic(auto, using(agreement::proofs::Basics::all_more), unfolding(distances::specs::Call::all_below, crate::specs::Ranges::messages_in_range))]
pub(crate) fn messages_in_range(bench: &Bench, messages: &[u32]) -> bool
    requires { bench.now.messages ≤ 64 }
    ensures { result ≡ messages_in_range bench.now messages.now }
{
    if messages.len() < MESSAGES {
        return false;
    }
    let mut ok = true;
    for place in 0..bench.messages {
        ok &= message_in_range(bench, messages, place);
    }
    ok
}

// What a delivery is lent.
#[tactic(auto, using(crate::proofs::Counts::parts_messages))]
pub(crate) fn delivery_in_range(net: &Lent, messages: &[u32]) -> bool
    ensures { result ≡ state_in_range (lent_state net.now messages.now) }
{
    network_in_range(net) && messages_in_range(net.bench, messages)
}
