// A plan read from a reader and carried out from its first field to its end. What it prints goes to a writer after each field or
// list of events, from a buffer of fixed size, so it never stands in memory whole.
#![tactic(auto)]

ghost use Rattle.std.specs.Prelude.{◌≡◌, true, false, [], suc, ◌≤◌, ◌<◌, length};
ghost use Rattle.play.specs.Output.{Carried, Gave, Handed, Played, ReadBehind, StandsAt, Wrote, WrotePart};
ghost use Rattle.std.specs.Io.KnownBytes.{Appends, prepend_known};
ghost use Rattle.runner.specs.Plans.{first_runner, first_buffers, prints};
ghost use Rattle.runner.specs.Program.{output};
ghost use Rattle.text.specs.Lines.{refused_text};

use agreement::LimitsMut;
use agreement::sizes::LIMITS;
use bench::sizes::COSTS;
use distances::Refusal;
use runner::Memory;
use runner::sizes::{LONGEST_PLAN, OUT_BYTES};
use std::io::{ErrorKind, Read, Write};
use text::LONGEST;

// One byte more than the longest plan, so that a longer one is noticed.
const READ_BYTES: usize = LONGEST_PLAN + 1;

// A shorter plan that comes in one piece is carried out where it was read: a program starts faster, the fewer pages of memory it touches.
const SHORT_BYTES: usize = 4096;

// A longer plan is refused at this offset.
const TOO_LONG_AT: u32 = LONGEST_PLAN as u32;

// Why a plan's output is not whole: the plan could not be read, and nothing was handed to the writer; or a write failed, and so many bytes
// had been handed on before it.
#[derive(Clone, Copy, PartialEq, Eq)]
pub enum PlayError {
    Unread,
    Stopped(usize),
}

// Reads a plan and prints all that the protocol asks for it: so many bytes. `read_on` is called at two places, so that the compiler keeps it
// a function of its own: a short plan never touches the memory that a long one needs.
pub fn play<R: Read, W: Write>(input: &mut R, to: &mut W) -> Result<usize, PlayError>
    ensures played { Played [] result }
    ensures carried { Carried (R.remaining input.old) result (W.contents to.old) (W.contents to.new) }
{
    let mut begun = [0u8; SHORT_BYTES];
    let n = read_piece(input, &mut begun, 0)?;
    if n == 0 {
        return run_plan(&begun[..n], to);
    }
    if n == SHORT_BYTES {
        return read_on(input, &begun[..n], to);
    }
    let end = read_piece(input, &mut begun, n)?;
    if end == n {
        return run_plan(&begun[..n], to);
    }
    read_on(input, &begun[..end], to)
}

// Reads once, behind the bytes that were read already; again where a signal interrupts the read. So many of the lent bytes are then the plan's.
fn read_piece<R: Read>(input: &mut R, bytes: &mut [u8], from: usize) -> Result<usize, PlayError>
    requires { from ≤ length bytes.old }
    ensures behind { ReadBehind from result bytes.old bytes.new }
    ensures gave { Gave from (suc from) result bytes.new (R.remaining input.old) (R.remaining input.new) }
{
    // a call that a signal interrupts is made again; counted, since a loop that may not end would ask for a handle
    for _ in 0..u64::MAX {
        match input.read(&mut bytes[from..]) {
            Ok(n) => return Ok(from + n),
            Err(e) => {
                if e.kind() != ErrorKind::Interrupted {
                    return Err(PlayError::Unread);
                }
            }
        }
    }
    Err(PlayError::Unread)
}

// Reads the rest of a plan and prints all that the protocol asks for it. There is room for one byte more than the longest plan has, so that a
// longer one is seen.
fn read_on<R: Read, W: Write>(input: &mut R, begun: &[u8], to: &mut W) -> Result<usize, PlayError>
    requires { length begun.now ≤ 4096 }
    ensures played { Played begun.now result }
    ensures carried { Carried (prepend_known begun.now (R.remaining input.old)) result (W.contents to.old) (W.contents to.new) }
{
    let mut plan = [0u8; READ_BYTES];
    let from = begun.len();
    plan[..from].copy_from_slice(begun);
    let end = read_rest(input, &mut plan, from)?;
    print(&plan[..end], to)
}

// Reads until the input ends, a read fails or no byte more is lent.
fn read_rest<R: Read>(input: &mut R, bytes: &mut [u8], from: usize) -> Result<usize, PlayError>
    requires { from ≤ length bytes.old }
    ensures behind { ReadBehind from result bytes.old bytes.new }
    ensures gave { Gave from (length bytes.new) result bytes.new (R.remaining input.old) (R.remaining input.new) }
{
    let mut n = from;
    // no `for`: what the reader gives moves `n`
    while n < bytes.len() {
        let end = read_piece(input, bytes, n)?;
        if end == n {
            return Ok(n);
        }
        n = end;
    }
    Ok(n)
}

// Prints all that the protocol asks for these bytes as a plan: so many bytes. Up to 61,440 of them are carried out, more are refused.
pub fn print<W: Write>(plan: &[u8], to: &mut W) -> Result<usize, PlayError>
    ensures handed { Handed result (output plan.now) }
    ensures wrote { Wrote result (output plan.now) (W.contents to.old) (W.contents to.new) }
{
    if LONGEST_PLAN < plan.len() {
        return too_long(plan, to);
    }
    run_plan(plan, to)
}

// Prints the refusal of a plan that is too long.
fn too_long<W: Write>(plan: &[u8], to: &mut W) -> Result<usize, PlayError>
    requires { 61440 < length plan.now }
    ensures handed { Handed result (refused_text 18 61440) }
    ensures wrote { Wrote result (refused_text 18 61440) (W.contents to.old) (W.contents to.new) }
{
    let mut out = [0u8; LONGEST];
    let number = Refusal::PlanTooLong.number() as u32;
    // the text has room, so it is written
    let written = text::lines::refused(&mut out, number, TOO_LONG_AT).unwrap_or(0);
    if !hand_on(plan, 0, &out[..written], to) {
        return Err(PlayError::Stopped(0));
    }
    Ok(written)
}

// Carries a plan out and prints what it fills, until it goes no further or a write fails.
fn run_plan<W: Write>(plan: &[u8], to: &mut W) -> Result<usize, PlayError>
    requires { length plan.now ≤ 61440 }
    ensures handed { Handed result (prints (suc (length plan.now)) first_runner first_buffers plan.now) }
    ensures wrote { Wrote result (prints (suc (length plan.now)) first_runner first_buffers plan.now) (W.contents to.old) (W.contents to.new) }
{
    let mut costs = [0u32; COSTS];
    let mut sent = [0u32; LIMITS];
    let mut held = [0u32; LIMITS];
    let mut messages = runner::steps::first_messages();
    let mut memory = Memory {
        costs: &mut costs,
        limits: LimitsMut {
            sent: &mut sent,
            held: &mut held,
        },
        messages: &mut messages,
    };
    let mut out = [0u8; OUT_BYTES];
    let mut r = runner::steps::first();
    let mut at = 0;
    let mut printed = 0;
    // no `for`: what a step used and wrote moves `at` and `printed`, and it ends with the plan or with a write that fails
    'fills: loop {
        let step = runner::fills::fill(&mut r, &plan[at..], &mut memory, &mut out);
        if !hand_on(plan, printed, &out[..step.written], to) {
            return Err(PlayError::Stopped(printed));
        }
        printed += step.written;
        if step.end.is_some() {
            return Ok(printed);
        }
        at += step.used;
    }
}

// Writes bytes that stand in a plan's output, behind the first `from`, to the writer, and flushes it; false where that failed. A write that a
// signal interrupts is made again. Without a byte to write nothing fails. The plan is handed over for the contract; nothing else here writes.
fn hand_on<W: Write>(plan: &[u8], from: usize, bytes: &[u8], to: &mut W) -> bool
    requires { StandsAt plan.now from bytes.now }
    ensures some { result ≡ false → 0 < length bytes.now }
    ensures all { result ≡ true → Appends (W.contents to.old) (W.contents to.new) bytes.now }
    ensures part { WrotePart 0 bytes.now (W.contents to.old) (W.contents to.new) }
{
    if bytes.len() == 0 {
        return true;
    }
    let mut done = 0;
    // counted, as in `read_piece`
    for _ in 0..u64::MAX {
        if done == bytes.len() {
            return to.flush().is_ok();
        }
        match to.write(&bytes[done..]) {
            Ok(0) => return false,
            Ok(n) => done += n,
            Err(e) => {
                if e.kind() != ErrorKind::Interrupted {
                    return false;
                }
            }
        }
    }
    false
}
