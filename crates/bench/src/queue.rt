// Messages in flight as lent numbers, five for each, and the ends that they leave and arrive at.
ghost use Rattle.std.specs.Prelude.{◌≡◌, ◌*◌, ◌≤◌, ◌<◌, length};
ghost use Rattle.std.proofs.lemmas.List.Edits.{sets};
ghost use Rattle.bench.specs.State.{message_from};
ghost use Rattle.bench.specs.Private.Changes.{own_end};
ghost use Rattle.bench.specs.Private.Deliveries.{arrival_end, LinkFits, MessageFits};
ghost use Rattle.bench.specs.Private.Queue.{taken_out};

use crate::Bench;
use crate::sizes::MESSAGE;
use agreement::Agreement;
use agreement::ready::opposite_end;

// A message's five numbers, at a place.
pub(crate) fn put(messages: &mut [u32], place: usize, message: [u32; MESSAGE])
    requires { (place < 64) × (320 ≤ length messages.old) }
    ensures { messages.new ≡ sets messages.old (5 * place) message }
{
    let at = MESSAGE * place;
    messages[at..at + MESSAGE].copy_from_slice(&message);
}

// Of `count` messages the one at a place goes, and later ones move up by one.
pub(crate) fn take_out(messages: &mut [u32], count: usize, place: usize)
    requires { (place < count) × (count ≤ 64) × (320 ≤ length messages.old) }
    ensures { messages.new ≡ taken_out count place messages.old }
{
    let at = MESSAGE * place;
    messages.copy_within(at + MESSAGE..MESSAGE * count, at);
}

// What the message at a place carries.
pub(crate) fn carried(messages: &[u32], place: usize) -> Agreement
    requires { (place < 64) × (320 ≤ length messages.now) × MessageFits messages.now place }
    ensures { result ≡ (message_from messages.now place).agreement }
{
    let at = MESSAGE * place;
    Agreement {
        view: messages[at + 2] as u8,
        number: messages[at + 3] as u16,
        discarded: messages[at + 4] as u16,
    }
}

// The end of a link at a bridge that is on it.
#[tactic(auto, unfolding(protocol::specs::Calls::end_of))]
pub(crate) fn end_of(bench: &Bench, bridge: usize, link: usize) -> usize
    requires { link < 32 }
    ensures end { result ≡ own_end bench.now bridge link }
    ensures low { result < 64 }
{
    let first = 2 * link;
    if bench.ends[first] as usize == bridge {
        first
    } else {
        first + 1
    }
}

// The end where the message at a place arrives: opposite to its sender.
pub(crate) fn arrival_end(messages: &[u32], place: usize) -> usize
    requires { (place < 64) × (320 ≤ length messages.now) × LinkFits messages.now place }
    ensures { result ≡ arrival_end messages.now place }
{
    let at = MESSAGE * place;
    opposite_end(2 * (messages[at] as usize) + messages[at + 1] as usize)
}
