// What turns a call down, by the table of refusals (docs/PROTOCOL.md), once the ranges are checked.
#![tactic(auto, unfolding(distances::specs::Refusal::refusal, protocol::specs::Calls::refuse, protocol::specs::Calls::checks, protocol::specs::Calls::change_checks, protocol::specs::Calls::no_such_bridge, protocol::specs::Calls::no_such_view, protocol::specs::Calls::no_such_link, protocol::specs::Calls::no_number_left, protocol::specs::Calls::not_on_link, protocol::specs::Calls::already))]

ghost use Rattle.std.specs.Prelude.{◌≡◌, List, [], ◌∷◌, ◌*◌, ◌≤◌, ◌<◌, length, IfOk};
ghost use Rattle.distances.specs.Refusal.{Check, refusal, reply_number};
ghost use Rattle.protocol.specs.Calls.{change, update, send, deliver, lose, verdict, report, refuse, no_such_bridge, no_such_link, not_on_link};
ghost use Rattle.bench.specs.Outcomes.{or_refused};
ghost use Rattle.bench.specs.Private.Changes.{switch, IsOwnEnd};
ghost use Rattle.bench.specs.Private.Deliveries.{LinkFits, arrival_end};
ghost use Rattle.bench.specs.Private.Views.{network_of};

use crate::Bench;
use crate::queue::{arrival_end, end_of};
use crate::sizes::MOST_MESSAGES;
use agreement::ready::numbers_used_up;
use distances::Refusal;

pub(crate) fn update(bench: &Bench, bridge: usize, to: usize) -> Result<(), Refusal>
    requires { bench.now.bridges ≤ 16 }
    ensures { reply_number result ≡ refuse (network_of bench.now []) (change (update bridge to)) }
{
    if bench.bridges <= bridge || bench.views <= to {
        return Err(Refusal::NotThere);
    }
    if numbers_used_up(bench.number[bridge], bench.view[bridge] as usize, to) {
        return Err(Refusal::NumbersUsedUp);
    }
    Ok(())
}

// The end that a send, a cut or a restore names: no such bridge or link, or the bridge is not on the link.
fn own_end(bench: &Bench, bridge: usize, link: usize) -> Result<usize, Refusal>
    requires { (bench.now.bridges ≤ 16) × (bench.now.links ≤ 32) }
    ensures first { (rest : List Check) → or_refused (reply_number result) (λ k. k) (refusal rest) ≡ refusal (no_such_bridge (network_of bench.now []) bridge ∷ no_such_link (network_of bench.now []) link ∷ not_on_link (network_of bench.now []) bridge link ∷ rest) }
    ensures end { IfOk result (IsOwnEnd bench.now bridge link) }
{
    if bench.bridges <= bridge || bench.links <= link {
        return Err(Refusal::NotThere);
    }
    let near = bench.ends[2 * link] as usize;
    let far = bench.ends[2 * link + 1] as usize;
    if near != bridge && far != bridge {
        return Err(Refusal::NotOnLink);
    }
    Ok(end_of(bench, bridge, link))
}

// A cut, by which the end goes down, or a restore: else which end it is.
pub(crate) fn switch(
    bench: &Bench,
    bridge: usize,
    link: usize,
    down: bool,
) -> Result<usize, Refusal>
    requires { (bench.now.bridges ≤ 16) × (bench.now.links ≤ 32) }
    ensures number { reply_number result ≡ refuse (network_of bench.now []) (change (switch down bridge link)) }
    ensures end { IfOk result (IsOwnEnd bench.now bridge link) }
{
    let end = own_end(bench, bridge, link)?;
    if bench.down[end] == down {
        return Err(Refusal::AlreadySo);
    }
    Ok(end)
}

// Else the end that the message leaves.
pub(crate) fn send(bench: &Bench, bridge: usize, link: usize) -> Result<usize, Refusal>
    requires { (bench.now.bridges ≤ 16) × (bench.now.links ≤ 32) }
    ensures number { reply_number result ≡ refuse (network_of bench.now []) (send bridge link) }
    ensures end { IfOk result (IsOwnEnd bench.now bridge link) }
    ensures room { IfOk result (λ e. bench.now.messages < 64) }
{
    let own = own_end(bench, bridge, link)?;
    if bench.down[own] {
        return Err(Refusal::EndDown);
    }
    if MOST_MESSAGES <= bench.messages {
        return Err(Refusal::QueueFull);
    }
    Ok(own)
}

// A delivery or a repeat: else the end where the message arrives.
pub(crate) fn deliver(bench: &Bench, messages: &[u32], place: usize) -> Result<usize, Refusal>
    requires { (bench.now.messages ≤ 64) × (320 ≤ length messages.now) × (place < bench.now.messages → LinkFits messages.now place) }
    ensures number { reply_number result ≡ refuse (network_of bench.now messages.now) (deliver place) }
    ensures end { IfOk result (λ e. (e ≡ arrival_end messages.now place) × (place < bench.now.messages)) }
{
    if bench.messages <= place {
        return Err(Refusal::NoMessage);
    }
    let there = arrival_end(messages, place);
    if bench.down[there] {
        return Err(Refusal::EndDown);
    }
    Ok(there)
}

pub(crate) fn lose(bench: &Bench, place: usize) -> Result<(), Refusal>
    ensures { reply_number result ≡ refuse (network_of bench.now []) (lose place) }
{
    if bench.messages <= place {
        return Err(Refusal::NoMessage);
    }
    Ok(())
}

pub(crate) fn report(bench: &Bench, dest: usize) -> Result<(), Refusal>
    ensures { reply_number result ≡ refuse (network_of bench.now []) (report dest) }
{
    if bench.bridges <= dest {
        return Err(Refusal::NotThere);
    }
    Ok(())
}

// For `verdict` and `port`, and for `path`, which has the same checks.
pub(crate) fn verdict(bench: &Bench, bridge: usize, dest: usize) -> Result<(), Refusal>
    ensures { reply_number result ≡ refuse (network_of bench.now []) (verdict bridge dest) }
{
    if bench.bridges <= bridge || bench.bridges <= dest {
        return Err(Refusal::NotThere);
    }
    Ok(())
}
