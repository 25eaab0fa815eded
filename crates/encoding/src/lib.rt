// Records, agreements, answers, flags, ports and verdicts as numbers in lent slices. Views have 8 bits and other numbers 16; any number but 0
// stands for true. A list holds a record or an agreement where each number fits its field, and there the remainders change nothing. Past the
// end of a list a number is read as 0, and nothing is written.
// Functions and no `From`: the C interface lends slices of any length, in which a record stands at a place.
#![tactic(auto)]

ghost use Rattle.std.specs.Prelude.{◌≡◌, cond, [], ◌∷◌, get_or};
ghost use Rattle.std.proofs.lemmas.List.Edits.{sets};
ghost use Rattle.agreement.specs.Record.{answer_numbers};
ghost use Rattle.agreement.specs.Reasons.{verdict_numbers};
ghost use Rattle.encoding.specs.Numbers.{is_set, record_at, agreement_in, records_in, flags_in, record_fits, holds_record, holds_agreement, holds_records, record_numbers, agreement_numbers, link_number};

use agreement::sizes::{ENDS, NUMBERS};
use agreement::{Agreement, Answer, EndRecord, Port, Verdict, calls};
use distances::sizes::NONE;

// The numbers of an agreement: view, number, discarded number.
pub const AGREEMENT: usize = 3;

// The numbers of a delivery's answer, and of a path.
pub const ANSWER: usize = 3;

// The numbers of a verdict.
pub const VERDICT: usize = 2;

// The numbers of the records of all ends.
const RECORD_NUMBERS: usize = 4 * ENDS;

// The number at place k, 0 past the end.
fn number_at<T: Copy>(numbers: &[T], k: usize, zero: T) -> T
    ensures { result ≡ get_or numbers.now k zero }
{
    numbers.get(k).copied().unwrap_or(zero)
}

// The record in the four numbers from place `first` on: received, view, discarded, holding. A place of 16 bits, so that the sums are in range.
#[tactic(auto, unfolding(crate::specs::Numbers::record_at))]
pub fn record_at(numbers: &[u32], first: u16) -> EndRecord
    ensures { result ≡ record_at numbers.now first }
{
    let k = first as usize;
    EndRecord {
        received: (number_at(numbers, k, 0) % NUMBERS) as u16,
        view: (number_at(numbers, k + 1, 0) % 256) as u8,
        discarded: (number_at(numbers, k + 2, 0) % NUMBERS) as u16,
        holding: number_at(numbers, k + 3, 0) != 0,
    }
}

#[tactic(auto, unfolding(crate::specs::Numbers::record_fits))]
fn record_fits(numbers: &[u32], first: u16) -> bool
    ensures { result ≡ record_fits numbers.now first }
{
    let k = first as usize;
    number_at(numbers, k, 0) < NUMBERS
        && number_at(numbers, k + 1, 0) < 256
        && number_at(numbers, k + 2, 0) < NUMBERS
}

// Does the list begin with a record?
pub fn holds_record(numbers: &[u32]) -> bool
    ensures { result ≡ holds_record numbers.now }
{
    4 <= numbers.len() && record_fits(numbers, 0)
}

// The agreement in the first three numbers: view, number, discarded.
#[tactic(auto, unfolding(crate::specs::Numbers::agreement_in))]
pub fn agreement_in(numbers: &[u32]) -> Agreement
    ensures { result ≡ agreement_in numbers.now }
{
    Agreement {
        view: (number_at(numbers, 0, 0) % 256) as u8,
        number: (number_at(numbers, 1, 0) % NUMBERS) as u16,
        discarded: (number_at(numbers, 2, 0) % NUMBERS) as u16,
    }
}

// Does the list begin with an agreement?
pub fn holds_agreement(numbers: &[u32]) -> bool
    ensures { result ≡ holds_agreement numbers.now }
{
    AGREEMENT <= numbers.len() && numbers[0] < 256 && numbers[1] < NUMBERS && numbers[2] < NUMBERS
}

// The records of 64 ends, four numbers each.
pub fn records_in(numbers: &[u32]) -> [EndRecord; 64]
    ensures { result ≡ records_in numbers.now }
{
    // `from_fn` was tried: by its contract a later call of the closure may find something else captured, and the proof did not close.
    let mut records = [calls::fresh_record(); ENDS];
    for e in 0..ENDS {
        records[e] = record_at(numbers, 4 * e as u16);
    }
    records
}

// Does the list begin with the records of 64 ends?
pub fn holds_records(numbers: &[u32]) -> bool
    ensures { result ≡ holds_records numbers.now }
{
    if numbers.len() < RECORD_NUMBERS {
        return false;
    }
    let mut ok = true;
    for e in 0..ENDS {
        ok &= record_fits(numbers, 4 * e as u16);
    }
    ok
}

// A flag for each of 64 ends.
pub fn flags_in(numbers: &[u8]) -> [bool; 64]
    ensures { result ≡ flags_in numbers.now }
{
    // A loop, as for the records.
    let mut flags = [false; ENDS];
    for e in 0..ENDS {
        flags[e] = number_at(numbers, e, 0) != 0;
    }
    flags
}

// To the front of `out`, as far as it reaches; so do the others that put.
fn put(numbers: &[u32], out: &mut [u32])
    ensures { out.new ≡ sets out.old 0 numbers.now }
{
    // `get_mut` was tried, whose contract says nothing of what the slice ends as, and `copy_from_slice` of as many as have room: neither proved.
    for (k, number) in numbers.iter().enumerate() {
        if k < out.len() {
            out[k] = *number;
        }
    }
}

pub fn put_three(first: u32, second: u32, third: u32, out: &mut [u32])
    ensures { out.new ≡ sets out.old 0 (first ∷ second ∷ third ∷ []) }
{
    put(&[first, second, third], out);
}

// 1 for true, 0 for false.
pub fn flag_number(flag: bool) -> u32
    ensures { result ≡ cond flag 1 0 }
{
    u32::from(flag)
}

pub fn put_record(end: EndRecord, out: &mut [u32])
    ensures { out.new ≡ sets out.old 0 (record_numbers end) }
{
    let received = u32::from(end.received);
    let discarded = u32::from(end.discarded);
    let holding = flag_number(end.holding);
    put(&[received, u32::from(end.view), discarded, holding], out);
}

pub fn put_agreement(message: Agreement, out: &mut [u32])
    ensures { out.new ≡ sets out.old 0 (agreement_numbers message) }
{
    let number = u32::from(message.number);
    let discarded = u32::from(message.discarded);
    put(&[u32::from(message.view), number, discarded], out);
}

// 0 stale, 1 agreed, 2 noted; then the number and the view taken, zeros for stale.
pub fn put_answer(answer: Answer, out: &mut [u32])
    ensures { out.new ≡ sets out.old 0 (answer_numbers answer) }
{
    let numbers = match answer {
        Answer::Stale => [0, 0, 0],
        Answer::Agreed(number, view) => [1, u32::from(number), u32::from(view)],
        Answer::Noted(number, view) => [2, u32::from(number), u32::from(view)],
    };
    put(&numbers, out);
}

// The link, NONE where the port is closed.
pub fn link_number(port: Port) -> u32
    ensures { result ≡ link_number port }
{
    port.map_or(NONE, u32::from)
}

// The number of the verdict (docs/PROTOCOL.md, "Why a port is shut"), 0 where the port forwards, 7 where no link reaches the distance; then the
// link, NONE where none is named.
pub fn put_verdict(verdict: Verdict, out: &mut [u32])
    ensures { out.new ≡ sets out.old 0 (verdict_numbers verdict) }
{
    let (number, link) = match verdict {
        Verdict::IsDestination => (1, NONE),
        Verdict::NoPath => (2, NONE),
        Verdict::LinkDown(link) => (3, u32::from(link)),
        Verdict::NothingHeld(link) => (4, u32::from(link)),
        Verdict::HeldTooGreat(link) => (5, u32::from(link)),
        Verdict::SentNotAbove(link) => (6, u32::from(link)),
        Verdict::NoLink => (7, NONE),
        Verdict::Forwards(link) => (0, u32::from(link)),
    };
    put(&[number, link], out);
}
