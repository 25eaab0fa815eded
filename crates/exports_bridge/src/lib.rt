// What Rust and C may call of layers 1 and 2: the public calls, each reply as its number in the table of refusals.
#![tactic(auto)]

pub mod records;

ghost use Rattle.std.specs.Prelude.{◌≡◌};
ghost use Rattle.distances.specs.Call.{outcome, distances_of};

use distances::Graph;

// `distances::distances`: 0 where it filled the table.
#[unsafe(no_mangle)]
pub extern "C" fn bench_distances(
    bridges: usize,
    links: usize,
    ends: &[u8],
    costs: &[u32],
    table: &mut [u32],
) -> u8
    ensures { outcome result table.new ≡ distances_of bridges links ends.now costs.now table.old }
{
    let graph = Graph {
        bridges,
        links,
        ends,
    };
    match distances::distances(&graph, costs, table) {
        Ok(()) => 0,
        Err(refusal) => refusal.number(),
    }
}
