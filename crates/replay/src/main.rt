// Carries out each plan of its data folder and prints its name and its output. The program is held to the file stdout, and that
// file to the known outputs in plans/.
// A plan that cannot be opened, read or printed is named on standard error with the reason, and its output is missing.
#![tactic(auto)]

use play::PlayError;
use std::fs::File;
use std::io;
use std::io::{ErrorKind, Read, Write};

// A reader or a writer, and why it failed: the last error that ends a plan, so not that of a call which is made again.
#[derive(Drop)]
struct Noted<T> {
    inner: T,
    reason: Option<io::Error>,
}

impl<T> Noted<T> {
    fn new(inner: T) -> Noted<T> {
        Noted {
            inner,
            reason: None,
        }
    }

    // Keeps the error, unless a signal interrupted the call, and answers its kind alone.
    fn note(&mut self, error: io::Error) -> io::Error {
        let kind = error.kind();
        if kind != ErrorKind::Interrupted {
            self.reason = Some(error);
        }
        io::Error::from(kind)
    }
}

impl<T: Read> Read for Noted<T> {
    fn read(&mut self, buf: &mut [u8]) -> io::Result<usize> {
        self.inner.read(buf).map_err(|error| self.note(error))
    }
}

impl<T: Write> Write for Noted<T> {
    fn write(&mut self, buf: &[u8]) -> io::Result<usize> {
        self.inner.write(buf).map_err(|error| self.note(error))
    }

    fn flush(&mut self) -> io::Result<()> {
        self.inner.flush().map_err(|error| self.note(error))
    }
}

// The plan with this name, or why it could not be opened, read or printed.
fn carry_out(rt: HostRuntime, name: &str) -> io::Result<()> {
    let mut input = Noted::new(File::open(&rt, name)?);
    let mut to = Noted::new(rt.stdout());
    match play::play(&mut input, &mut to) {
        Ok(_) => Ok(()),
        Err(PlayError::Stopped(_)) => Err(
            to.reason.unwrap_or(io::Error::from(ErrorKind::WriteZero)),
        ),
        Err(PlayError::Unread) => Err(input.reason.unwrap_or(io::Error::from(ErrorKind::Other))),
    }
}

fn run(rt: HostRuntime, name: &str) {
    let _ = rt.stdout().write_all(name.as_bytes());
    let _ = rt.stdout().write_all(b"\n");
    if let Err(error) = carry_out(rt, name) {
        let _ = rt.eprintln(format_args!("{name}: {error}"));
    }
}

// Known examples, and what becomes of messages, cuts and limits. A line for each plan, here and below: the tests read the names in these lines.
fn known(rt: HostRuntime) {
    let replay = |name: &str| run(rt, name);
    replay("e10_after_loss.plan");
    replay("e10_full.plan");
    replay("e1_to_e8.plan");
    replay("e9_accepted.plan");
    replay("e9_refused.plan");
    replay("frame_dies.plan");
    replay("greatest_distance.plan");
    replay("limits_at_the_own_end.plan");
    replay("limits_on_every_link.plan");
    replay("messages.plan");
    replay("no_links.plan");
    replay("noted_then_updated.plan");
    replay("parallel_links.plan");
    replay("sample.plan");
    replay("views_with_equal_costs.plan");
    replay("one_connector.plan");
    replay("ring_of_four.plan");
    replay("sixteen_bridges.plan");
    replay("ward_pair.plan");
}

// Refused in the header.
fn header(rt: HostRuntime) {
    let replay = |name: &str| run(rt, name);
    replay("r01_cut_without_link.plan");
    replay("r01_first_field.plan");
    replay("r01_one_byte.plan");
    replay("r01_two_bytes.plan");
    replay("r01_value_cut_short.plan");
    replay("r01_view_cut_short.plan");
    replay("r02_tag_0.plan");
    replay("r02_tag_13.plan");
    replay("r02_tag_255.plan");
    replay("r03_before_cut_short.plan");
    replay("r03_bridge_count_of_two_bytes.plan");
    replay("r03_cut_of_one_byte.plan");
    replay("r03_cut_of_three_bytes.plan");
    replay("r03_event_too_long.plan");
    replay("r03_event_too_short.plan");
    replay("r03_high_length_byte.plan");
    replay("r03_restore_of_one_byte.plan");
    replay("r03_view_of_other_length.plan");
    replay("r03_view_without_links.plan");
    replay("r04_before_length.plan");
    replay("r04_count_after_count.plan");
    replay("r04_empty.plan");
    replay("r04_event_before_view.plan");
    replay("r04_link_after_view.plan");
    replay("r04_no_bridges.plan");
    replay("r04_no_view.plan");
    replay("r04_second_count.plan");
    replay("r04_view_after_event.plan");
}

// Refused in a setup field, or for the plan's length.
fn setup(rt: HostRuntime) {
    let replay = |name: &str| run(rt, name);
    replay("r05_no_bridge.plan");
    replay("r05_one_bridge.plan");
    replay("r05_seventeen.plan");
    replay("r06_33_links.plan");
    replay("r07_equal.plan");
    replay("r07_first_end.plan");
    replay("r07_no_bridge.plan");
    replay("r08_33_views.plan");
    replay("r08_before_cost.plan");
    replay("r09_second_view.plan");
    replay("r18_too_long.plan");
}

// Events refused for the bridge, view, link or end that they name.
fn named(rt: HostRuntime) {
    let replay = |name: &str| run(rt, name);
    replay("r10_cut_bridge.plan");
    replay("r10_cut_link.plan");
    replay("r10_path_destination.plan");
    replay("r10_path_start.plan");
    replay("r10_report.plan");
    replay("r10_restore_bridge.plan");
    replay("r10_restore_link.plan");
    replay("r10_send_bridge.plan");
    replay("r10_send_link.plan");
    replay("r10_update_bridge.plan");
    replay("r10_update_view.plan");
    replay("r11_cut.plan");
    replay("r11_cut_before_down.plan");
    replay("r11_restore.plan");
    replay("r11_restore_before_up.plan");
    replay("r11_send.plan");
    replay("r11_send_before_down.plan");
    replay("r12_cut_again.plan");
    replay("r12_cut_twice.plan");
    replay("r12_other_end_is_allowed.plan");
    replay("r12_restore_other_end.plan");
    replay("r12_restore_up.plan");
    replay("r12_restored_twice.plan");
}

// Events refused for an end that is down, or for the messages in flight; and what an end that is down allows.
fn flight(rt: HostRuntime) {
    let replay = |name: &str| run(rt, name);
    replay("r13_before_full.plan");
    replay("r13_deliver.plan");
    replay("r13_deliver_is_allowed.plan");
    replay("r13_lose_is_allowed.plan");
    replay("r13_repeat.plan");
    replay("r13_repeat_is_allowed.plan");
    replay("r13_send.plan");
    replay("r13_send_is_allowed.plan");
    replay("r14_far_end_down.plan");
    replay("r15_before_cut.plan");
    replay("r15_deliver.plan");
    replay("r15_lose.plan");
    replay("r15_repeat.plan");
}

fn main(rt: HostRuntime) {
    known(rt);
    header(rt);
    setup(rt);
    named(rt);
    flight(rt);
}
