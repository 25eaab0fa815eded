// The calls that ask: the forwarding port of a bridge and what holds it shut, the report of a destination, the path of a frame.
ghost use Rattle.std.specs.Prelude.{◌≡◌, true, List, [], ℕ, ◌*◌, ◌≤◌, length};
ghost use Rattle.agreement.specs.Call.{mapped, response};
ghost use Rattle.protocol.specs.Calls as calls;
ghost use Rattle.protocol.specs.Ports.{forwarding_verdict, forwarding_port};
ghost use Rattle.protocol.specs.Paths as paths;
ghost use Rattle.bench.specs.State.{lent_state};
ghost use Rattle.bench.specs.Ranges.{network_in_range};
ghost use Rattle.bench.specs.Outcomes.{path_told, outcome_of, report_outcome, report_of};
ghost use Rattle.bench.specs.Private.Answers.{PathFits};
ghost use Rattle.bench.specs.Private.Steps.{Tables, IsPrepared, report_into};

use crate::sizes::REPORT;
use crate::tables::{Chains, Distances, Prepared};
use crate::{Lent, Path, ports, ready, refusals};
use agreement::choices::port_of;
use agreement::{Port, Verdict};
use distances::Refusal;

// The verdict on the port of a bridge for a destination: which condition holds it shut, or that it forwards.
pub fn verdict(net: &Lent, bridge: usize, dest: usize) -> Result<Verdict, Refusal>
    ensures { (messages : List ℕ) → response result ≡ (outcome_of (lent_state net.now messages) (calls.verdict bridge dest) (λ n. forwarding_verdict n bridge dest)).reply }
{
    ready::typed(net.bench);
    if !ready::network_in_range(net) {
        return Err(Refusal::OutOfRange);
    }
    refusals::verdict(net.bench, bridge, dest)?;
    let mut prepared = Prepared::none();
    prepared.chains = Chains::of(net.bench);
    Ok(ports::verdict_in(net, &mut prepared, bridge, dest))
}

// The forwarding port of a bridge for a destination.
pub fn port(net: &Lent, bridge: usize, dest: usize) -> Result<Port, Refusal>
    ensures { (messages : List ℕ) → response result ≡ (outcome_of (lent_state net.now messages) (calls.port bridge dest) (λ n. forwarding_port n bridge dest)).reply }
{
    Ok(port_of(verdict(net, bridge, dest)?))
}

// The report of a destination: row b has bridge b's distance in its own view and its link, NONE for no port.
pub fn report(net: &Lent, dest: usize, rows: &mut [u32]) -> Result<(), Refusal>
    ensures { (messages : List ℕ) → report_outcome (response result) rows.new ≡ report_of (lent_state net.now messages) dest rows.old }
{
    if !ready::network_in_range(net) || rows.len() < REPORT {
        return Err(Refusal::OutOfRange);
    }
    // ahead of the distances: it takes longer to lay them out than to refuse
    refusals::report(net.bench, dest)?;
    let mut distances = Distances::none();
    report_ready(net, &mut distances, dest, rows)
}

// `report` of what is in range, into rows for the bridges that there are.
pub(crate) fn report_ready(
    net: &Lent,
    distances: &mut Distances,
    dest: usize,
    rows: &mut [u32],
) -> Result<(), Refusal>
    requires in_range { network_in_range (lent_state net.now []) ≡ true }
    requires tables { (2 * net.now.bench.now.bridges ≤ length rows.old) × Tables net.now.bench.now net.now.costs.now distances.old }
    ensures outcome { (messages : List ℕ) → report_outcome (response result) rows.new ≡ report_into (lent_state net.now messages) dest rows.old }
    ensures tables { Tables net.now.bench.now net.now.costs.now distances.new }
{
    refusals::report(net.bench, dest)?;
    ports::report_rows(net, distances, dest, rows);
    Ok(())
}

// The path of a frame from a bridge to a destination.
pub fn path(net: &Lent, start: usize, dest: usize) -> Result<Path, Refusal>
    ensures { (messages : List ℕ) → mapped path_told (response result) ≡ (outcome_of (lent_state net.now messages) (calls.path start dest) (λ n. paths.path n start dest)).reply }
{
    if !ready::network_in_range(net) {
        return Err(Refusal::OutOfRange);
    }
    let mut prepared = Prepared::none();
    prepared.chains = Chains::of(net.bench);
    path_ready(net, &mut prepared, start, dest)
}

// `path` of what is in range.
pub(crate) fn path_ready(
    net: &Lent,
    prepared: &mut Prepared,
    start: usize,
    dest: usize,
) -> Result<Path, Refusal>
    requires in_range { network_in_range (lent_state net.now []) ≡ true }
    requires prepared { IsPrepared net.now.bench.now net.now.costs.now prepared.old }
    ensures reply { (messages : List ℕ) → mapped path_told (response result) ≡ (outcome_of (lent_state net.now messages) (calls.path start dest) (λ n. paths.path n start dest)).reply }
    ensures fits { PathFits result }
    ensures prepared { IsPrepared net.now.bench.now net.now.costs.now prepared.new }
{
    ready::typed(net.bench);
    refusals::verdict(net.bench, start, dest)?;
    Ok(ports::walk(net, prepared, start, dest))
}
