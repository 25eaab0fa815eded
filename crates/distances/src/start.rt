// The table before the first pass: 0 from a bridge to itself, the cheapest link between two bridges, NONE elsewhere.
ghost use Rattle.std.specs.Prelude.{◌≡◌, cond, ℕ, ◌+◌, ◌*◌, ◌/◌, ◌%◌, ◌≤◌, ◌<◌, length, get_or};
ghost use Rattle.distances.specs.Distance.{unjoined};
ghost use Rattle.distances.specs.Table.{is_pair, with_pairs};
ghost use Rattle.distances.specs.Steps.{weight, lowered, with_link, with_links};

use crate::Graph;
use crate::sizes::{NONE, ROW};

#[tactic(auto, unfolding(crate::specs::Table::is_pair, crate::specs::Distance::unjoined))]
fn cleared(bridges: usize, p: usize, old: u32) -> u32
    ensures { result ≡ cond (is_pair bridges p) (unjoined (p / 16) (p % 16)) old }
{
    if bridges <= p / ROW || bridges <= p % ROW {
        old
    } else if p / ROW == p % ROW {
        0
    } else {
        NONE
    }
}

pub(crate) fn clear(bridges: usize, table: &mut [u32])
    requires { (bridges ≤ 16) × (256 ≤ length table.old) }
    ensures { table.new ≡ with_pairs bridges unjoined table.old }
{
    for p in 0..ROW * bridges {
        table[p] = cleared(bridges, p, table[p]);
    }
}

#[tactic(auto, unfolding(crate::specs::Steps::weight))]
fn weight_of(cost: u32) -> u32
    ensures { result ≡ weight cost }
{
    if cost == 0 { NONE } else { cost }
}

#[tactic(auto, unfolding(crate::specs::Steps::lowered))]
fn lower(table: &mut [u32], p: usize, to: u32)
    requires { p < length table.old }
    ensures { table.new ≡ lowered table.old p to }
{
    table[p] = table[p].min(to);
}

#[tactic(auto, unfolding(crate::specs::Steps::with_link))]
fn join_link(first: u8, second: u8, cost: u32, table: &mut [u32])
    requires { (first < 16) × (second < 16) × (256 ≤ length table.old) }
    ensures { table.new ≡ with_link first second cost table.old }
{
    let a = usize::from(first);
    let b = usize::from(second);
    let to = weight_of(cost);
    lower(table, ROW * a + b, to);
    lower(table, ROW * b + a, to);
}

pub(crate) fn join(graph: &Graph, costs: &[u32], table: &mut [u32])
    requires links_bound { (graph.now.links ≤ 32) × (2 * graph.now.links ≤ length graph.now.ends.now) × (graph.now.links ≤ length costs.now) × (256 ≤ length table.old) }
    requires by_index { (e : ℕ) → e < 2 * graph.now.links → get_or graph.now.ends.now e 0 < 16 }
    ensures { table.new ≡ with_links graph.now.ends.now costs.now graph.now.links table.old }
{
    let ends = graph.ends;
    for l in 0..graph.links {
        join_link(ends[2 * l], ends[2 * l + 1], costs[l], table);
    }
}
