#![tactic(auto, using(crate::proofs::Laws::length_decimal, crate::proofs::Laws::length_or_dash), unfolding(crate::specs::Writing::writing))]

// The public calls: each writes its text from the first lent byte on, and answers how many bytes that is. `None`, and nothing is written, where
// fewer than `LONGEST` bytes are lent.
ghost use Rattle.std.specs.Prelude.{◌≡◌, true, ◌&&◌, ◌+◌, ◌*◌, ◌≤◌, ◌<◌, length, leb};
ghost use Rattle.text.specs.Lines.{row_line, row_lines, distance_at, link_at, report_text, delivered_text, stops_text, end_text, refused_text};
ghost use Rattle.text.specs.Writing.{Writes, outcome, writing};

use crate::LONGEST;
use crate::writer::Writer;

fn row(text: &mut Writer, bridge: usize, distance: u32, link: u32)
    requires { (bridge < 16) × (text.old.len + 33 ≤ length text.old.out.now) }
    ensures { Writes text.old (row_line bridge distance link) text.new }
{
    text.number(bridge as u32);
    text.word(b" ");
    text.number_or_dash(distance);
    text.word(b" ");
    text.number_or_dash(link);
    text.word(b"\n");
}

// A report: `rows` has two numbers for each bridge, its distance and its link, NONE for `-`. `None` also for more than 16 bridges or too few rows.
pub fn report(out: &mut [u8], dest: u32, bridges: usize, rows: &[u32]) -> Option<usize>
    ensures { outcome result out.new ≡ writing (leb bridges 16 && leb (2 * bridges) (length rows.now)) (report_text dest bridges rows.now) out.old }
{
    if bridges > 16 || rows.len() < 2 * bridges || out.len() < LONGEST {
        return None;
    }
    let mut text = Writer { out, len: 0 };
    text.word(b"dest ");
    text.number(dest);
    text.word(b"\n");
    for y in 0..bridges {
        row(&mut text, y, rows[2 * y], rows[2 * y + 1]);
    }
    Some(text.len)
}

pub fn path_delivered(out: &mut [u8], start: u32, dest: u32, hops: u32) -> Option<usize>
    ensures { outcome result out.new ≡ writing true (delivered_text start dest hops) out.old }
{
    if out.len() < LONGEST {
        return None;
    }
    let mut text = Writer { out, len: 0 };
    text.word(b"path ");
    text.number(start);
    text.word(b" ");
    text.number(dest);
    text.word(b" delivered ");
    text.number(hops);
    text.word(b"\n");
    Some(text.len)
}

pub fn path_stops(out: &mut [u8], start: u32, dest: u32, last: u32, hops: u32) -> Option<usize>
    ensures { outcome result out.new ≡ writing true (stops_text start dest last hops) out.old }
{
    if out.len() < LONGEST {
        return None;
    }
    let mut text = Writer { out, len: 0 };
    text.word(b"path ");
    text.number(start);
    text.word(b" ");
    text.number(dest);
    text.word(b" stops ");
    text.number(last);
    text.word(b" ");
    text.number(hops);
    text.word(b"\n");
    Some(text.len)
}

// The last line of a plan that was carried out.
pub fn end(out: &mut [u8], events: u32) -> Option<usize>
    ensures { outcome result out.new ≡ writing true (end_text events) out.old }
{
    if out.len() < LONGEST {
        return None;
    }
    let mut text = Writer { out, len: 0 };
    text.word(b"end ");
    text.number(events);
    text.word(b"\n");
    Some(text.len)
}

// The last line of a plan that was refused.
pub fn refused(out: &mut [u8], number: u32, offset: u32) -> Option<usize>
    ensures { outcome result out.new ≡ writing true (refused_text number offset) out.old }
{
    if out.len() < LONGEST {
        return None;
    }
    let mut text = Writer { out, len: 0 };
    text.word(b"refused ");
    text.number(number);
    text.word(b" at ");
    text.number(offset);
    text.word(b"\n");
    Some(text.len)
}
