// Layer 1: the distances of all pairs of bridges in one view, in a table that the caller lends.
#![tactic(auto)]

pub mod ready;
mod refusals;
mod relax;
pub mod sizes;
mod start;

ghost use Rattle.std.specs.Prelude.{◌≡◌};
ghost use Rattle.distances.specs.Refusal.{reply_number};
ghost use Rattle.distances.specs.Call.{outcome, distances_of};

pub use refusals::Refusal;

// Who joins whom, as a caller lends it: link l joins the bridges ends[2 l] and ends[2 l + 1].
#[derive(Clone, Copy)]
pub struct Graph<'a> {
    pub bridges: usize,
    pub links: usize,
    pub ends: &'a [u8],
}

// Fills the lent table, 16 rows of 16 numbers: row i, column j is the distance of bridge i to bridge j.
// Link l costs costs[l], 0 where the view lacks it.
pub fn distances(graph: &Graph, costs: &[u32], table: &mut [u32]) -> Result<(), Refusal>
    ensures { outcome (reply_number result) table.new ≡ distances_of graph.now.bridges graph.now.links graph.now.ends.now costs.now table.old }
{
    if !ready::in_range(graph, costs, table.len()) {
        return Err(Refusal::OutOfRange);
    }
    start::clear(graph.bridges, table);
    start::join(graph, costs, table);
    relax::passes(graph.bridges, table);
    Ok(())
}
