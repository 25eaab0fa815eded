// The lines that events print.
ghost use Rattle.std.specs.Prelude.{◌≡◌, false, ◌≤◌, length};
ghost use Rattle.bench.specs.Batches.{answer_size};
ghost use Rattle.runner.specs.Events.{path_text, event_text, NoText, line, line_of};

use bench::Event;

fn path_text(out: &mut [u8], start: u8, dest: u8, answers: &[u32]) -> usize
    requires { (3 ≤ length answers.now) × (544 ≤ length out.old) }
    ensures { line result out.new ≡ line_of (path_text start dest answers.now) out.old }
{
    let from = start as u32;
    let to = dest as u32;
    let hops = answers[2];
    if answers[0] == 0 {
        return text::lines::path_delivered(out, from, to, hops).unwrap_or(0);
    }
    text::lines::path_stops(out, from, to, answers[1], hops).unwrap_or(0)
}

// Whether an event has a text; false only where it has none.
pub(crate) fn has_text(event: Event) -> bool
    ensures { result ≡ false → NoText event }
{
    matches!(event, Event::Report(_) | Event::Path(_, _))
}

// The line of an event that was carried out, by the numbers that it answered with.
pub(crate) fn event_text(bridges: usize, event: Event, answers: &[u32], out: &mut [u8]) -> usize
    requires { (bridges ≤ 16) × (answer_size bridges event ≤ length answers.now) × (544 ≤ length out.old) }
    ensures { line result out.new ≡ line_of (event_text bridges event answers.now) out.old }
{
    match event {
        Event::Report(dest) => {
            text::lines::report(out, dest as u32, bridges, answers).unwrap_or(0)
        }
        Event::Path(start, dest) => path_text(out, start, dest, answers),
        _ => 0,
    }
}
