// Reads a plan from standard input and prints its reports, its paths and its last line. Where the plan cannot be read or the output
// not be written, a line on standard error says so; the exit status is 0 then too.
#![tactic(auto)]

use play::PlayError;
use std::io::Write;

fn main(rt: HostRuntime) {
    let what = match play::play(&mut rt.stdin(), &mut rt.stdout()) {
        Ok(_) => return,
        Err(PlayError::Stopped(_)) => "the output could not be written",
        Err(PlayError::Unread) => "the plan could not be read",
    };
    let _ = rt.eprintln(format_args!("rehearse: {what}"));
}
