// The plan file's reader over numbers. Each call answers its number in the table of refusals, 0 where nothing is refused; a refused call changes nothing.
ghost use Rattle.std.specs.Prelude.{◌≡◌, [], ◌∷◌};
ghost use Rattle.std.proofs.lemmas.List.Edits.{sets};
ghost use Rattle.encoding.specs.Replies.{call_outcome};
ghost use Rattle.exports_network.specs.Reading.{event_numbers, field_numbers, read_field_reply, tell_field_reply, read_costs_reply};

use crate::benches::low_of;
use crate::network::{OUT_OF_RANGE, number_of};
use bench::Event;
use encoding::put_three;
use plan::fields::{read_costs, read_field};
use plan::{Field, Progress};

// The numbers of a field that was read: its tag, its two numbers, the bytes that it takes.
const FIELD_NUMBERS: usize = 4;

// The tag, and the numbers of the value, 0 for a second that there is not. The C interface has the tags as these numbers; plan's own enum of
// them is private.
fn put_event(event: Event, out: &mut [u32])
    ensures { out.new ≡ sets out.old 0 (event_numbers event) }
{
    match event {
        Event::Update(bridge, view) => put_three(4, bridge as u32, view as u32, out),
        Event::Send(bridge, link) => put_three(5, bridge as u32, link as u32, out),
        Event::Deliver(place) => put_three(6, place as u32, 0, out),
        Event::Repeat(place) => put_three(7, place as u32, 0, out),
        Event::Lose(place) => put_three(8, place as u32, 0, out),
        Event::Cut(bridge, link) => put_three(9, bridge as u32, link as u32, out),
        Event::Restore(bridge, link) => put_three(10, bridge as u32, link as u32, out),
        Event::Report(dest) => put_three(11, dest as u32, 0, out),
        Event::Path(start, dest) => put_three(12, start as u32, dest as u32, out),
    }
}

// The same of any field. A view's costs are read by `bench_read_costs`.
fn put_field(field: Field, out: &mut [u32])
    ensures { out.new ≡ sets out.old 0 (field_numbers field) }
{
    match field {
        Field::Bridges(count) => put_three(1, count as u32, 0, out),
        Field::Link(a, b) => put_three(2, a as u32, b as u32, out),
        Field::View => put_three(3, 0, 0, out),
        Field::Event(event) => put_event(event, out),
    }
}

// `plan::fields::read_field`, with how far the plan has come as four numbers. The bytes that the field takes go to out[0], 0 where the plan
// properly ends; no room for them is refused with 17.
#[unsafe(no_mangle)]
pub extern "C" fn bench_read_field(
    rest: &[u8],
    stage: usize,
    bridges: usize,
    links: usize,
    views: usize,
    out: &mut [u32],
) -> u8
    ensures { call_outcome result (out.new ∷ []) ≡ read_field_reply rest.now stage bridges links views out.old }
{
    if out.len() < 1 {
        return OUT_OF_RANGE;
    }
    let progress = Progress {
        stage,
        bridges,
        links,
        views,
    };
    out[0] = match read_field(rest, progress) {
        Ok(Some((_, used))) => low_of(used),
        Ok(None) => 0,
        Err(refusal) => return refusal.number(),
    };
    0
}

// The same, and the field goes to `out`, so that a caller can compare it with the one that it wrote: its tag, its two numbers, the bytes that it takes; four zeros where the plan properly ends. An `out` of fewer than
// four is refused with 17.
#[unsafe(no_mangle)]
pub extern "C" fn bench_tell_field(
    rest: &[u8],
    stage: usize,
    bridges: usize,
    links: usize,
    views: usize,
    out: &mut [u32],
) -> u8
    ensures { call_outcome result (out.new ∷ []) ≡ tell_field_reply rest.now stage bridges links views out.old }
{
    if out.len() < FIELD_NUMBERS {
        return OUT_OF_RANGE;
    }
    let progress = Progress {
        stage,
        bridges,
        links,
        views,
    };
    match read_field(rest, progress) {
        Ok(Some((field, used))) => {
            put_field(field, out);
            out[3] = low_of(used);
            0
        }
        Ok(None) => {
            put_three(0, 0, 0, out);
            out[3] = 0;
            0
        }
        Err(refusal) => refusal.number(),
    }
}

// `plan::fields::read_costs`
#[unsafe(no_mangle)]
pub extern "C" fn bench_read_costs(rest: &[u8], links: usize, row: &mut [u32]) -> u8
    ensures { call_outcome result (row.new ∷ []) ≡ read_costs_reply rest.now links row.old }
{
    number_of(read_costs(rest, links, row))
}
