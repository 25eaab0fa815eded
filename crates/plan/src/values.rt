// The tag's own checks, and the field that is read.
ghost use Rattle.std.specs.Prelude.{◌≡◌, ◌≤◌, ◌<◌};
ghost use Rattle.distances.specs.Refusal.{refusal, reply_number};
ghost use Rattle.plan.specs.Sizes.{most_links};
ghost use Rattle.plan.specs.Fields.{byte, value, cost_in, field_of};
ghost use Rattle.plan.specs.Reading.{costs_fit, bridge_checks, link_checks, view_checks, value_checks};
ghost use Rattle.plan.specs.Steps.{tag_number};

use crate::sizes::{COST_BYTES, HEADER_BYTES};
use crate::tags::Tag;
use crate::{Field, Progress};
use bench::Event;
use distances::Refusal;
use distances::sizes::{LEAST_BRIDGES, MAX_COST, MOST_BRIDGES, MOST_LINKS, MOST_VIEWS};

// A byte of the value, which starts after the header; 0 past the bytes that are left, so that no reader has to test a length. No value is
// longer than two bytes of length can say.
fn value_at(rest: &[u8], i: usize) -> u8
    requires { i < 65536 }
    ensures { result ≡ value rest.now i }
{
    rest.get(HEADER_BYTES + i).copied().unwrap_or(0)
}

// The cost of link l in a view's value.
#[tactic(auto, unfolding(crate::specs::Fields::cost_in))]
pub(crate) fn cost_in(rest: &[u8], l: usize) -> u32
    requires { l < most_links }
    ensures { result ≡ cost_in rest.now l }
{
    let at = COST_BYTES * l;
    u32::from_be_bytes([
        value_at(rest, at),
        value_at(rest, at + 1),
        value_at(rest, at + 2),
        value_at(rest, at + 3),
    ])
}

// Each cost is at most the greatest there is. Shared with `read_costs`.
#[tactic(auto, unfolding(crate::specs::Reading::costs_fit))]
pub(crate) fn costs_fit(rest: &[u8], links: usize) -> bool
    requires { links ≤ most_links }
    ensures { result ≡ costs_fit rest.now links }
{
    let mut ok = true;
    for l in 0..links {
        ok &= cost_in(rest, l) <= MAX_COST;
    }
    ok
}

#[tactic(auto, unfolding(crate::specs::Reading::bridge_checks, distances::specs::Refusal::refusal))]
fn check_bridges(rest: &[u8]) -> Result<(), Refusal>
    ensures { reply_number result ≡ refusal (bridge_checks rest.now) }
{
    let count = value_at(rest, 0) as usize;
    if count < LEAST_BRIDGES || MOST_BRIDGES < count {
        return Err(Refusal::BridgeCount);
    }
    Ok(())
}

#[tactic(auto, unfolding(crate::specs::Reading::link_checks, distances::specs::Refusal::refusal))]
fn check_link(rest: &[u8], p: Progress) -> Result<(), Refusal>
    ensures { reply_number result ≡ refusal (link_checks rest.now p) }
{
    if MOST_LINKS <= p.links {
        return Err(Refusal::TooManyLinks);
    }
    let a = value_at(rest, 0) as usize;
    let b = value_at(rest, 1) as usize;
    if p.bridges <= a || p.bridges <= b || a == b {
        return Err(Refusal::WrongEnds);
    }
    Ok(())
}

#[tactic(auto, unfolding(crate::specs::Reading::view_checks, distances::specs::Refusal::refusal))]
fn check_view(rest: &[u8], p: Progress) -> Result<(), Refusal>
    requires { p.links ≤ most_links }
    ensures { reply_number result ≡ refusal (view_checks rest.now p) }
{
    if MOST_VIEWS <= p.views {
        return Err(Refusal::TooManyViews);
    }
    if !costs_fit(rest, p.links) {
        return Err(Refusal::CostTooHigh);
    }
    Ok(())
}

// An event's value has no check here: its call on the network has them.
#[tactic(auto, unfolding(crate::specs::Reading::value_checks, distances::specs::Refusal::refusal))]
pub(crate) fn check_value(tag: Tag, rest: &[u8], p: Progress) -> Result<(), Refusal>
    requires { (tag_number tag ≡ byte rest.now 0) × (p.links ≤ most_links) }
    ensures { reply_number result ≡ refusal (value_checks rest.now p) }
{
    match tag {
        Tag::BridgeCount => check_bridges(rest),
        Tag::Link => check_link(rest, p),
        Tag::View => check_view(rest, p),
        _ => Ok(()),
    }
}

// An event's one or two numbers are the first bytes of its value.
#[tactic(auto, unfolding(crate::specs::Fields::field_of, crate::specs::Fields::event_by))]
pub(crate) fn field_of(tag: Tag, rest: &[u8]) -> Field
    requires { tag_number tag ≡ byte rest.now 0 }
    ensures { result ≡ field_of rest.now }
{
    let a = value_at(rest, 0);
    let b = value_at(rest, 1);
    match tag {
        Tag::BridgeCount => Field::Bridges(a),
        Tag::Link => Field::Link(a, b),
        Tag::View => Field::View,
        Tag::Update => Field::Event(Event::Update(a, b)),
        Tag::Send => Field::Event(Event::Send(a, b)),
        Tag::Deliver => Field::Event(Event::Deliver(a)),
        Tag::Repeat => Field::Event(Event::Repeat(a)),
        Tag::Lose => Field::Event(Event::Lose(a)),
        Tag::Cut => Field::Event(Event::Cut(a, b)),
        Tag::Restore => Field::Event(Event::Restore(a, b)),
        Tag::Report => Field::Event(Event::Report(a)),
        Tag::Path => Field::Event(Event::Path(a, b)),
    }
}
