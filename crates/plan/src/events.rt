// The events at the head of the bytes that are left, read once for a list of calls.
ghost use Rattle.std.specs.Prelude.{◌≡◌, true, [], ◌<◌, take};
ghost use Rattle.plan.specs.Sizes.{most_events};
ghost use Rattle.plan.specs.Reading.{progress_in_range};
ghost use Rattle.plan.specs.Events.{listing, events_reply, list_progress, bytes_by};
ghost use Rattle.plan.specs.Steps.{next_event, with_event};

use crate::fields::progress_in_range;
use crate::header::read_header;
use crate::sizes::{EVENT_ENDS, HEADER_BYTES};
use crate::values::field_of;
use crate::{Field, Progress};
use bench::sizes::MOST_EVENTS;
use bench::{Bench, Event};

// Events that were read: the first `count` ones. ends[k] is how many bytes the first k take; 16 bits hold it, since each of 2,048 events
// takes at most 5 bytes. Two arrays, since the calls on a network take the events as one slice; a count
// beside them, since nothing is allocated.
#[derive(Clone, Copy)]
pub struct Events {
    pub count: usize,
    pub events: [Event; MOST_EVENTS],
    pub ends: [u16; EVENT_ENDS],
}

impl Events {
    // Before the first event.
    #[tactic(auto, unfolding(crate::specs::Events::listing, crate::specs::Events::events_of, crate::specs::Events::ends_of))]
    fn none() -> Events
        ensures { result ≡ listing [] }
    {
        Events {
            count: 0,
            events: [Event::Lose(0); MOST_EVENTS],
            ends: [0; EVENT_ENDS],
        }
    }

    // The events as one list.
    pub fn list(&self) -> &[Event]
        ensures { result.now ≡ take self.now.count self.now.events }
    {
        &self.events[..self.count.min(MOST_EVENTS)]
    }

    // The bytes of the first `made` events; 0 of none, and where there is no room for so many.
    pub fn bytes_of(&self, made: usize) -> usize
        ensures { result ≡ bytes_by self.now.ends made }
    {
        if made == 0 {
            return 0;
        }
        self.ends.get(made).copied().unwrap_or(0) as usize
    }

    // One more, behind the others, up to whose end there are so many bytes.
    fn add(&mut self, event: Event, end: u16)
        requires { self.old.count < most_events }
        ensures { self.new ≡ with_event self.old event end }
    {
        self.events[self.count] = event;
        self.count += 1;
        self.ends[self.count] = end;
    }
}

// The next event, the bytes that it takes and the numbers that it answers with.
#[derive(Clone, Copy)]
pub(crate) struct NextEvent {
    pub(crate) event: Event,
    pub(crate) used: usize,
    pub(crate) size: usize,
}

// The event at the head, if there is one and the numbers that it answers with have room. The header tells all: an event's value has no check.
#[tactic(auto, using(crate::proofs::Laws::few_links, crate::proofs::Laws::few_bridges))]
fn next_event(rest: &[u8], p: Progress, room: usize) -> Option<NextEvent>
    requires { progress_in_range p ≡ true }
    ensures { result ≡ next_event rest.now p room }
{
    let Ok(header) = read_header(rest, p) else {
        return None;
    };
    let Field::Event(event) = field_of(header.tag, rest) else {
        return None;
    };
    let size = bench::batches::answer_size(p.bridges as u8, event);
    if room < size {
        return None;
    }
    Some(NextEvent {
        event,
        used: HEADER_BYTES + header.length,
        size,
    })
}

// As many events as stand at the head of the bytes, up to the first field that is none, to the most that a list has, and to one whose
// answer has no room behind the others in so many numbers; none where the progress is out of range.
#[tactic(auto, unfolding(crate::specs::Events::listing))]
pub fn read_events(rest: &[u8], p: Progress, room: usize) -> Events
    ensures { result ≡ events_reply rest.now p room }
{
    let mut read = Events::none();
    if !progress_in_range(p) {
        return read;
    }
    let mut left = room;
    let mut at = 0;
    for _ in 0..MOST_EVENTS {
        let Some(next) = next_event(&rest[at..], p, left) else {
            return read;
        };
        at += next.used;
        left -= next.size;
        read.add(next.event, at as u16);
    }
    read
}

// How far a plan has come whose network stands in a bench.
pub fn list_progress(bench: &Bench) -> Progress
    ensures { result ≡ list_progress bench.now }
{
    Progress {
        stage: 3,
        bridges: bench.bridges,
        links: bench.links,
        views: bench.views,
    }
}
