// The call's entry check: the ranges of a network, and lent buffers that are long enough. Ends and costs are tested in loops of their own,
// each over numbers of one width, which the compiler makes vector code of.
ghost use Rattle.std.specs.Prelude.{◌≡◌, not, ◌+◌, ◌*◌, ◌≤◌, length, get_or, leb, ltb, eqb};
ghost use Rattle.distances.specs.View.{max_cost};
ghost use Rattle.distances.specs.Call.{in_range, graph_passes, all_below, link_in_range, costs_pass};

use crate::Graph;
use crate::sizes::{LEAST_BRIDGES, MAX_COST, MOST_BRIDGES, MOST_LINKS, TABLE};

fn ends_below(bridges: u8, links: usize, ends: &[u8]) -> bool
    requires { (links ≤ 32) × (2 * links ≤ length ends.now) }
    ensures { result ≡ all_below (2 * links) (λ e. ltb (get_or ends.now e 0) bridges) }
{
    let mut ok = true;
    for end in &ends[..2 * links] {
        ok &= *end < bridges;
    }
    ok
}

fn ends_differ(links: usize, ends: &[u8]) -> bool
    requires { (links ≤ 32) × (2 * links ≤ length ends.now) }
    ensures { result ≡ all_below links (λ l. not (eqb (get_or ends.now (2 * l) 0) (get_or ends.now (2 * l + 1) 0))) }
{
    for l in 0..links {
        if ends[2 * l] == ends[2 * l + 1] {
            return false;
        }
    }
    true
}

// Two loops: the first is over bytes that stand side by side.
#[tactic(auto, using(crate::proofs::Ranges::links_apart))]
fn links_in_range(bridges: u8, links: usize, ends: &[u8]) -> bool
    requires { (links ≤ 32) × (2 * links ≤ length ends.now) }
    ensures { result ≡ all_below links (link_in_range bridges ends.now) }
{
    ends_below(bridges, links, ends) && ends_differ(links, ends)
}

// Are the counts in the range, and does each link join two different bridges?
#[tactic(auto, unfolding(crate::specs::Call::graph_passes, crate::specs::Call::every))]
pub fn graph_passes(graph: &Graph) -> bool
    ensures { result ≡ graph_passes graph.now.bridges graph.now.links graph.now.ends.now }
{
    LEAST_BRIDGES <= graph.bridges
        && graph.bridges <= MOST_BRIDGES
        && graph.links <= MOST_LINKS
        && 2 * graph.links <= graph.ends.len()
        && links_in_range(graph.bridges as u8, graph.links, graph.ends)
}

// A bit above the greatest cost's stands in some cost if and only if it stands in all of them joined by `|`.
fn each_cost_passes(links: usize, costs: &[u32]) -> bool
    requires { links ≤ length costs.now }
    ensures { result ≡ all_below links (λ l. leb (get_or costs.now l 0) max_cost) }
{
    let mut joined = 0;
    for cost in &costs[..links] {
        joined |= *cost;
    }
    joined <= MAX_COST
}

// Is there a cost for each of so many links, in the range?
#[tactic(auto, unfolding(crate::specs::Call::costs_pass))]
pub fn costs_pass(links: usize, costs: &[u32]) -> bool
    ensures { result ≡ costs_pass links costs.now }
{
    links <= costs.len() && each_cost_passes(links, costs)
}

#[tactic(auto, unfolding(crate::specs::Call::in_range))]
pub fn in_range(graph: &Graph, costs: &[u32], size: usize) -> bool
    ensures { result ≡ in_range graph.now.bridges graph.now.links graph.now.ends.now costs.now size }
{
    graph_passes(graph) && costs_pass(graph.links, costs) && TABLE <= size
}
