// Verdicts, hops and walks over a network that is in range.
ghost use Rattle.std.specs.Prelude.{◌≡◌, List, [], ℕ, ◌+◌, ◌*◌, ◌≤◌, ◌<◌, ◌-◌, length, get_or, set, eqb, cond};
ghost use Rattle.agreement.specs.Offer.{opposite};
ghost use Rattle.agreement.specs.Call.{lent_records};
ghost use Rattle.agreement.specs.declared.EndRecord.{EndRecord};
ghost use Rattle.agreement.specs.Choice.{next_choice, verdict_by, port_by};
ghost use Rattle.distances.specs.View.{graph_of, max_cost};
ghost use Rattle.bench.specs.State.{lent_state, network};
ghost use Rattle.bench.specs.Outcomes.{path_told};
ghost use Rattle.protocol.specs.Ports.{across, is_live};
ghost use Rattle.protocol.specs.Paths.{onward, delivered, stops};
ghost use Rattle.bench.specs.Private.Answers.{verdict_in, hop_in};
ghost use Rattle.bench.specs.Private.Steps.{PortsReady, IsFilled, AllFilled, Tables, IsPrepared, AreChoices, protocol_hop, link_seen, with_report};
ghost use Rattle.encoding.specs.Numbers.{link_number};

use crate::sizes::COST_ROW;
use crate::tables::{Distances, Prepared};
use crate::{Bench, Lent, Path, ready};
use agreement::choices::{first_choice, next_choice, port_of, verdict_by};
use agreement::ready::opposite_end;
use agreement::{Choice, LinkEnd, Verdict};
use distances::sizes::{MOST_BRIDGES, ROW, TABLE};

// An end as the choice looks at it, for a destination, in a view whose distances are there.
fn link_end(net: &Lent, distances: &Distances, view: usize, end: usize, dest: usize) -> LinkEnd
    requires low { (view < 32) × (end < 64) × (dest < 16) × (get_or net.now.bench.now.ends (opposite end) 0 < 16) }
    requires long { (1024 ≤ length net.now.costs.now) × (1024 ≤ length net.now.limits.sent.now) × (1024 ≤ length net.now.limits.held.now) }
    ensures { result ≡ link_seen (lent_state net.now []) distances.now.numbers view end dest }
{
    let far = net.bench.ends[opposite_end(end)] as usize;
    LinkEnd {
        link: (end / 2) as u8,
        cost: net.costs[COST_ROW * view + end / 2],
        far: distances.numbers[TABLE * view + ROW * far + dest],
        down: net.bench.down[end],
        holding: net.bench.records[end].holding,
        sent: net.limits.sent[ROW * end + dest],
        held: net.limits.held[ROW * end + dest],
    }
}

// The choice with one end more.
#[tactic(auto, using(crate::proofs::ChoiceSteps::next_said))]
fn choice_with(old: Choice, end: &LinkEnd) -> Choice
    requires { (end.now.link < 32) × (end.now.cost ≤ max_cost) }
    ensures { result ≡ next_choice old end.now }
{
    // what is in range is not refused
    next_choice(&old, end).unwrap_or(old)
}

#[tactic(auto, using(crate::proofs::ChoiceSteps::verdict_said))]
fn found_verdict(choice: &Choice) -> Verdict
    requires { (choice.now.link < 32) × (choice.now.barring < 32) }
    ensures { result ≡ verdict_by choice.now }
{
    // what is in range is not refused
    verdict_by(choice).unwrap_or(Verdict::NoLink)
}

// The verdict on the port of a bridge in its own view, whose distances are there.
fn verdict_at(net: &Lent, prepared: &Prepared, bridge: usize, dest: usize) -> Verdict
    requires ports_ready { PortsReady (lent_state net.now []) }
    requires listed { (bridge < net.now.bench.now.bridges) × (dest < net.now.bench.now.bridges) }
    requires prepared { IsPrepared net.now.bench.now net.now.costs.now prepared.now }
    requires filled { IsFilled net.now.bench.now net.now.costs.now prepared.now.distances.numbers (get_or net.now.bench.now.view bridge 0) }
    ensures { result ≡ verdict_in (lent_state net.now []) bridge dest }
{
    let distances = &prepared.distances;
    let view = net.bench.view[bridge] as usize;
    let distance = distances.numbers[TABLE * view + ROW * bridge + dest];
    let mut choice = first_choice(distance, bridge == dest);
    let mut e = prepared.chains.first[bridge] as usize;
    // no `for`: it goes along the chain of the bridge's ends, whose iterator would need a proof of its own and be no plainer
    while e < 2 * net.bench.links {
        choice = choice_with(choice, &link_end(net, distances, view, e, dest));
        e = prepared.chains.next[e] as usize;
    }
    found_verdict(&choice)
}

// The verdict on the port of a bridge in its own view.
pub(crate) fn verdict_in(net: &Lent, prepared: &mut Prepared, bridge: usize, dest: usize) -> Verdict
    requires ports_ready { PortsReady (lent_state net.now []) }
    requires listed { (bridge < net.now.bench.now.bridges) × (dest < net.now.bench.now.bridges) × IsPrepared net.now.bench.now net.now.costs.now prepared.old }
    ensures value { result ≡ verdict_in (lent_state net.now []) bridge dest }
    ensures prepared { IsPrepared net.now.bench.now net.now.costs.now prepared.new }
{
    let view = net.bench.view[bridge] as usize;
    prepared.distances.need(net.bench, net.costs, view);
    verdict_at(net, prepared, bridge, dest)
}

// The choice of each bridge before any end.
fn first_choices(net: &Lent, distances: &Distances, dest: usize) -> [Choice; MOST_BRIDGES]
    requires ports_ready { PortsReady (lent_state net.now []) }
    requires filled { (dest < net.now.bench.now.bridges) × AllFilled net.now.bench.now net.now.costs.now distances.now.numbers }
    ensures { AreChoices (lent_state net.now []) dest 0 net.now.bench.now.bridges result }
{
    let mut choices = [first_choice(0, true); MOST_BRIDGES];
    for y in 0..net.bench.bridges {
        let view = net.bench.view[y] as usize;
        let distance = distances.numbers[TABLE * view + ROW * y + dest];
        choices[y] = first_choice(distance, y == dest);
    }
    choices
}

// The choice of each bridge, each in its own view, by one pass over all ends.
fn all_choices(net: &Lent, distances: &Distances, dest: usize) -> [Choice; MOST_BRIDGES]
    requires ports_ready { PortsReady (lent_state net.now []) }
    requires filled { (dest < net.now.bench.now.bridges) × AllFilled net.now.bench.now net.now.costs.now distances.now.numbers }
    ensures { AreChoices (lent_state net.now []) dest (2 * net.now.bench.now.links) net.now.bench.now.bridges result }
{
    let mut choices = first_choices(net, distances, dest);
    for e in 0..2 * net.bench.links {
        let y = net.bench.ends[e] as usize;
        let view = net.bench.view[y] as usize;
        choices[y] = choice_with(choices[y], &link_end(net, distances, view, e, dest));
    }
    choices
}

fn report_row(rows: &mut [u32], bridge: usize, choice: &Choice)
    requires { (bridge < 16) × ((choice.now.link < 32) × (choice.now.barring < 32)) × (2 * bridge + 2 ≤ length rows.old) }
    ensures { rows.new ≡ set (set rows.old (2 * bridge) choice.now.distance) (2 * bridge + 1) (link_number (port_by choice.now)) }
{
    rows[2 * bridge] = choice.distance;
    rows[2 * bridge + 1] = encoding::link_number(port_of(found_verdict(choice)));
}

pub(crate) fn report_rows(net: &Lent, distances: &mut Distances, dest: usize, rows: &mut [u32])
    requires ports_ready { PortsReady (lent_state net.now []) }
    requires tables { (dest < net.now.bench.now.bridges) × (2 * net.now.bench.now.bridges ≤ length rows.old) × Tables net.now.bench.now net.now.costs.now distances.old }
    ensures rows { (messages : List ℕ) → rows.new ≡ with_report (network (lent_state net.now messages)) dest net.now.bench.now.bridges rows.old }
    ensures tables { Tables net.now.bench.now net.now.costs.now distances.new }
{
    ready::typed(net.bench);
    distances.need_all(net.bench, net.costs);
    let choices = all_choices(net, distances, dest);
    for y in 0..net.bench.bridges {
        report_row(rows, y, &choices[y]);
    }
}

// The bridge across a link from one of its two bridges.
#[tactic(auto, unfolding(protocol::specs::Ports::across))]
fn across_link(bench: &Bench, link: usize, bridge: usize) -> usize
    requires { link < 32 }
    ensures { result ≡ across (graph_of bench.now.bridges bench.now.links bench.now.ends) link bridge }
{
    let a = bench.ends[2 * link] as usize;
    let b = bench.ends[2 * link + 1] as usize;
    if a == bridge { b } else { a }
}

// Are both ends of a link up?
fn link_live(bench: &Bench, link: usize) -> bool
    requires { link < 32 }
    ensures { (records : List EndRecord) (sent held : List ℕ) → result ≡ is_live (lent_records bench.now.down records sent held) link }
{
    !bench.down[2 * link] && !bench.down[2 * link + 1]
}

// The link that a frame crosses from a bridge, and the bridge across.
fn hop_at(net: &Lent, prepared: &mut Prepared, dest: usize, bridge: usize) -> Option<(usize, usize)>
    requires ports_ready { PortsReady (lent_state net.now []) }
    requires listed { (bridge < net.now.bench.now.bridges) × (dest < net.now.bench.now.bridges) × IsPrepared net.now.bench.now net.now.costs.now prepared.old }
    ensures hop { protocol_hop result ≡ hop_in (lent_state net.now []) dest bridge }
    ensures prepared { IsPrepared net.now.bench.now net.now.costs.now prepared.new }
{
    let verdict = verdict_in(net, prepared, bridge, dest);
    let Some(number) = port_of(verdict) else {
        return None;
    };
    let link = number as usize;
    if !link_live(net.bench, link) {
        return None;
    }
    Some((link, across_link(net.bench, link, bridge)))
}

fn end_of_walk(dest: usize, last: usize, hops: usize) -> Path
    ensures { path_told result ≡ cond (eqb last dest) (delivered hops) (stops last hops) }
{
    if last == dest {
        Path::Delivered(hops)
    } else {
        Path::Stops(last, hops)
    }
}

pub(crate) fn walk(net: &Lent, prepared: &mut Prepared, start: usize, dest: usize) -> Path
    requires ports_ready { PortsReady (lent_state net.now []) }
    requires listed { (start < net.now.bench.now.bridges) × (dest < net.now.bench.now.bridges) × IsPrepared net.now.bench.now net.now.costs.now prepared.old }
    ensures path { path_told result ≡ onward (hop_in (lent_state net.now []) dest) dest (net.now.bench.now.bridges - 1) 0 start }
    ensures prepared { IsPrepared net.now.bench.now net.now.costs.now prepared.new }
{
    let mut last = start;
    let most = net.bench.bridges - 1;
    for hops in 0..most {
        if last == dest {
            return Path::Delivered(hops);
        }
        let Some((_, next)) = hop_at(net, prepared, dest, last) else {
            return Path::Stops(last, hops);
        };
        last = next;
    }
    end_of_walk(dest, last, most)
}
