// What a call, or a list of calls, works out of a bench ahead: the distances of its views and the ends of each bridge.
ghost use Rattle.std.specs.Prelude.{◌≡◌, true, false, ℕ, List, ◌*◌, ◌≤◌, ◌<◌, length, get_or};
ghost use Rattle.bench.specs.State.{part};
ghost use Rattle.bench.specs.Private.Steps.{filled_view, Tables, Ready};
ghost use Rattle.bench.specs.Private.Chains.{Chained};
ghost use Rattle.bench.specs.declared.Bench.{Bench};

use crate::Bench;
use crate::sizes::{COST_ROW, TABLES};
use agreement::sizes::ENDS;
use distances::sizes::{MOST_BRIDGES, MOST_VIEWS, TABLE};

// The distances of the views, a block of 256 numbers for each: each view is computed at its first use, and `known` says which are there.
// No Option for each view: a block is filled in its place and is never moved, and nothing is allocated.
#[derive(Drop)]
pub(crate) struct Distances {
    pub(crate) numbers: [u32; TABLES],
    pub(crate) known: [bool; MOST_VIEWS],
}

impl Distances {
    pub(crate) fn none() -> Distances
        ensures { (b : Bench) (costs : List ℕ) → Tables b costs result }
    {
        Distances {
            numbers: [0; TABLES],
            known: [false; MOST_VIEWS],
        }
    }

    // A view's distances, unless they are there.
    pub(crate) fn need(&mut self, bench: &Bench, costs: &[u32], view: usize)
        requires { (view < 32) × (1024 ≤ length costs.now) × Tables bench.now costs.now self.old }
        ensures tables { Tables bench.now costs.now self.new }
        ensures known { get_or self.new.known view false ≡ true }
        ensures still { (t : ℕ) → get_or self.old.known t false ≡ true → get_or self.new.known t false ≡ true }
    {
        if !self.known[view] {
            fill_view(bench, costs, &mut self.numbers, view);
            self.known[view] = true;
        }
    }

    // The views that the bridges are on.
    pub(crate) fn need_all(&mut self, bench: &Bench, costs: &[u32])
        requires { Ready bench.now costs.now × Tables bench.now costs.now self.old }
        ensures tables { Tables bench.now costs.now self.new }
        ensures known { (y : ℕ) → y < bench.now.bridges → get_or self.new.known (get_or bench.now.view y 0) false ≡ true }
    {
        for y in 0..bench.bridges {
            self.need(bench, costs, bench.view[y] as usize);
        }
    }

    // A view's table.
    pub(crate) fn table(&self, view: usize) -> &[u32]
        requires { view < 32 }
        ensures { result.now ≡ part 256 view self.now.numbers }
    {
        let block = TABLE * view;
        &self.numbers[block..block + TABLE]
    }
}

fn fill_view(bench: &Bench, costs: &[u32], tables: &mut [u32], view: usize)
    requires { (view < 32) × (1024 ≤ length costs.now) × (8192 ≤ length tables.old) }
    ensures { tables.new ≡ filled_view bench.now.bridges bench.now.links bench.now.ends costs.now view tables.old }
{
    let row = COST_ROW * view;
    let block = TABLE * view;
    // what is in range is not refused
    let _ = distances::distances(
        &bench.graph(),
        &costs[row..row + COST_ROW],
        &mut tables[block..block + TABLE],
    );
}

// The ends of each bridge one behind the other, so that a call looks at those of one bridge only: each bridge's lowest end, and at each end
// the next end of its bridge; 2 × links where there is none. Numbers of ends and no lists: nothing is allocated;
// and no Option: that the next end is below 2 × links is the loop's test and the bound of what it reads.
#[derive(Drop)]
pub(crate) struct Chains {
    pub(crate) first: [u8; MOST_BRIDGES],
    pub(crate) next: [u8; ENDS],
}

impl Chains {
    pub(crate) fn of(bench: &Bench) -> Chains
        requires { (bench.now.links ≤ 32) × ((e : ℕ) → e < 2 * bench.now.links → get_or bench.now.ends e 0 < 16) }
        ensures { Chained bench.now.links bench.now.ends result }
    {
        let none = (2 * bench.links) as u8;
        let mut first = [none; MOST_BRIDGES];
        let mut next = [none; ENDS];
        for e in (0..2 * bench.links).rev() {
            let y = bench.ends[e] as usize;
            next[e] = first[y];
            first[y] = e as u8;
        }
        Chains { first, next }
    }
}

#[derive(Drop)]
pub(crate) struct Prepared {
    pub(crate) distances: Distances,
    pub(crate) chains: Chains,
}

impl Prepared {
    // Nothing is worked out yet. The chains are set apart: a whole value that is returned is long to copy.
    pub(crate) fn none() -> Prepared
        ensures { (b : Bench) (costs : List ℕ) → Tables b costs result.distances }
    {
        Prepared {
            distances: Distances::none(),
            chains: Chains {
                first: [0; MOST_BRIDGES],
                next: [0; ENDS],
            },
        }
    }
}
