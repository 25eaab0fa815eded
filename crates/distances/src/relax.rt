// The passes of Floyd and Warshall, in place: pass k offers every pair the way by bridge k. It changes neither row k nor column k,
// so it may read what it has already written.
ghost use Rattle.std.specs.Prelude.{◌≡◌, ◌+◌, ◌≤◌, ◌<◌, min, length};
ghost use Rattle.distances.specs.Distance.{relaxed, relaxed_below};
ghost use Rattle.distances.specs.Table.{cell, with_pairs};
ghost use Rattle.distances.specs.Steps.{with_row};

use crate::sizes::ROW;

fn shorter(old: u32, near: u32, far: u32) -> u32
    ensures { result ≡ min old (near + far) }
{
    u64::from(old).min(u64::from(near) + u64::from(far)) as u32
}

fn relax_row(n: usize, k: usize, i: usize, table: &mut [u32])
    requires { (n ≤ 16) × (k < n) × (i < n) × (256 ≤ length table.old) }
    ensures { table.new ≡ with_row n k i table.old }
{
    let near = table[ROW * i + k];
    for j in 0..n {
        table[ROW * i + j] = shorter(table[ROW * i + j], near, table[ROW * k + j]);
    }
}

fn pass(n: usize, k: usize, table: &mut [u32])
    requires { (n ≤ 16) × (k < n) × (256 ≤ length table.old) }
    ensures { table.new ≡ with_pairs n (relaxed (cell table.old) k) table.old }
{
    for i in 0..n {
        relax_row(n, k, i, table);
    }
}

pub(crate) fn passes(n: usize, table: &mut [u32])
    requires { (n ≤ 16) × (256 ≤ length table.old) }
    ensures { table.new ≡ with_pairs n (relaxed_below (cell table.old) n) table.old }
{
    for k in 0..n {
        pass(n, k, table);
    }
}
