// The forwarding choice of a bridge for a destination, made of its ends one after another, the lowest first. Each call is lent what it looks
// at, so that a caller may loop over the ends of any network that it keeps.
ghost use Rattle.std.specs.Prelude.{◌≡◌};
ghost use Rattle.agreement.specs.Call.{response};
ghost use Rattle.agreement.specs.Forwarding.{reaches_distance, port_of};
ghost use Rattle.agreement.specs.Choice.{first_choice, next_choice, verdict_by, next_outcome, choice_outcome};

use crate::{Choice, LinkEnd, Port, Verdict};
use distances::Refusal;
use distances::sizes::{MAX_COST, MOST_LINKS, NONE};

// The links are numbered below this.
const LINKS: u8 = MOST_LINKS as u8;

// The choice of a bridge at this distance from the destination, before any end.
#[tactic(auto, unfolding(crate::specs::Choice::first_choice))]
pub fn first_choice(distance: u32, is_destination: bool) -> Choice
    ensures { result ≡ first_choice distance is_destination }
{
    Choice {
        distance,
        held: 0,
        link: 0,
        barring: 0,
        destination: is_destination,
        found: false,
        down: false,
        holding: false,
        barred: false,
    }
}

fn reaches(distance: u32, cost: u32, far: u32) -> bool
    ensures { result ≡ reaches_distance cost far distance }
{
    cost != 0 && cost as u64 + far as u64 == distance as u64
}

// The choice with one end more of the bridge.
#[tactic(auto, unfolding(crate::specs::Choice::next_choice))]
pub(crate) fn choice_with(old: &Choice, end: &LinkEnd) -> Choice
    ensures { result ≡ next_choice old.now end.now }
{
    let mut new = *old;
    let bars = !end.down && end.sent <= old.distance;
    if !old.barred && bars {
        new.barring = end.link;
    }
    new.barred = old.barred || bars;
    if !old.found && reaches(old.distance, end.cost, end.far) {
        new.found = true;
        new.link = end.link;
        new.down = end.down;
        new.holding = end.holding;
        new.held = end.held;
    }
    new
}

// The same for any numbers: refused where the link or the cost is out of range.
#[tactic(auto, unfolding(crate::specs::Choice::next_outcome))]
pub fn next_choice(old: &Choice, end: &LinkEnd) -> Result<Choice, Refusal>
    ensures { response result ≡ next_outcome old.now end.now }
{
    if end.link < LINKS && end.cost <= MAX_COST {
        Ok(choice_with(old, end))
    } else {
        Err(Refusal::OutOfRange)
    }
}

// The verdict by the ends so far: the conditions that hold a port shut, in their order.
#[tactic(auto, unfolding(crate::specs::Choice::verdict_by, crate::specs::Forwarding::first_of))]
pub(crate) fn chosen_verdict(choice: &Choice) -> Verdict
    ensures { result ≡ verdict_by choice.now }
{
    if choice.destination {
        return Verdict::IsDestination;
    }
    if choice.distance == NONE {
        return Verdict::NoPath;
    }
    if !choice.found {
        return Verdict::NoLink;
    }
    if choice.down {
        return Verdict::LinkDown(choice.link);
    }
    if !choice.holding {
        return Verdict::NothingHeld(choice.link);
    }
    if choice.distance < choice.held {
        return Verdict::HeldTooGreat(choice.link);
    }
    if choice.barred {
        return Verdict::SentNotAbove(choice.barring);
    }
    Verdict::Forwards(choice.link)
}

// The same for any choice: refused where a link of it is out of range.
#[tactic(auto, unfolding(crate::specs::Choice::choice_outcome))]
pub fn verdict_by(choice: &Choice) -> Result<Verdict, Refusal>
    ensures { response result ≡ choice_outcome choice.now }
{
    if choice.link < LINKS && choice.barring < LINKS {
        Ok(chosen_verdict(choice))
    } else {
        Err(Refusal::OutOfRange)
    }
}

// The forwarding port by a verdict.
pub fn port_of(verdict: Verdict) -> Port
    ensures { result ≡ port_of verdict }
{
    match verdict {
        Verdict::Forwards(link) => Some(link),
        _ => None,
    }
}
