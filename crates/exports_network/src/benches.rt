// A bench as 420 numbers: the counts of bridges, links, views and messages in flight, then ends (64), view (16), number (16), four
// numbers for each of 64 records, and down (64). Any number but 0 stands for true. A list holds a bench where each number fits its
// field, and there the remainders change nothing. Functions and no `From`: the C interface lends slices of any length.
ghost use Rattle.std.specs.Prelude.{◌≡◌, false, MatchOption, ◌+◌, ◌%◌, ◌≤◌, ◌<◌, length, get_or, take, drop};
ghost use Rattle.encoding.specs.Numbers.{is_set, record_numbers};
ghost use Rattle.exports_network.specs.Network.{Holds, each, each_below, holds_bench, low, bench_in, count_at, number_at, stored};

use agreement::EndRecord;
use agreement::sizes::{ENDS, NUMBERS};
use bench::Bench;
use distances::sizes::MOST_BRIDGES;

// Where each array of a bench begins among its numbers, behind the four counts, and how many numbers there are.
const ENDS_AT: usize = 4;

const VIEW_AT: usize = 68;

const NUMBER_AT: usize = 84;

const RECORDS_AT: usize = 100;

const DOWN_AT: usize = 356;

const BENCH_NUMBERS: usize = 420;

// The N numbers from place `first` on.
pub(crate) fn part<const N: usize>(numbers: &[u32], first: usize) -> [u32; N]
    requires { first + N ≤ length numbers.now }
    ensures { result ≡ take N (drop first numbers.now) }
{
    let mut part = [0; N];
    part.copy_from_slice(&numbers[first..first + N]);
    part
}

// The N numbers of 8 bits from place `first` on. A loop, as for the flags: the library's `map` of an array takes several times as long.
fn bytes_in<const N: usize>(numbers: &[u32], first: usize) -> [u8; N]
    requires { first + N ≤ length numbers.now }
    ensures { result ≡ each N first (λ x. x % 256) numbers.now }
{
    let mut bytes = [0u8; N];
    for k in 0..N {
        bytes[k] = (numbers[first + k] % 256) as u8;
    }
    bytes
}

// The flags of the ends.
fn flags_in(numbers: &[u32]) -> [bool; 64]
    requires { 420 ≤ length numbers.now }
    ensures { result ≡ each 64 356 is_set numbers.now }
{
    let mut flags = [false; ENDS];
    for e in 0..ENDS {
        flags[e] = numbers[DOWN_AT + e] != 0;
    }
    flags
}

fn bench_in(numbers: &[u32]) -> Bench
    requires { 420 ≤ length numbers.now }
    ensures { result ≡ bench_in numbers.now }
{
    Bench {
        bridges: numbers[0] as usize,
        links: numbers[1] as usize,
        views: numbers[2] as usize,
        messages: numbers[3] as usize,
        ends: bytes_in(numbers, ENDS_AT),
        view: bytes_in(numbers, VIEW_AT),
        number: part(numbers, NUMBER_AT).map(|x| (x % NUMBERS) as u16),
        records: encoding::records_in(&numbers[RECORDS_AT..DOWN_AT]),
        down: flags_in(numbers),
    }
}

fn each_below(numbers: &[u32], first: usize, count: usize, limit: u32) -> bool
    requires { first + count ≤ length numbers.now }
    ensures { result ≡ each_below count first limit numbers.now }
{
    // no way out before the end: the compiler makes vector code of it
    let mut ok = true;
    for k in 0..count {
        ok &= numbers[first + k] < limit;
    }
    ok
}

// Are there the numbers of a bench, and does each fit its field? Ends and views have 8 bits.
fn holds(numbers: &[u32]) -> bool
    ensures { result ≡ holds_bench numbers.now }
{
    numbers.len() >= BENCH_NUMBERS
        && each_below(numbers, ENDS_AT, NUMBER_AT - ENDS_AT, 256)
        && each_below(numbers, NUMBER_AT, MOST_BRIDGES, NUMBERS)
        && encoding::holds_records(&numbers[RECORDS_AT..DOWN_AT])
}

// The bench that the numbers hold.
pub(crate) fn load(numbers: &[u32]) -> Option<Bench>
    ensures { MatchOption result (holds_bench numbers.now ≡ false) (λ b. Holds numbers.now b) }
{
    if !holds(numbers) {
        return None;
    }
    Some(bench_in(numbers))
}

// The low 32 bits, which is all that a number of the C interface has.
pub(crate) fn low_of(number: usize) -> u32
    ensures { result ≡ low number }
{
    (number % 4294967296) as u32
}

fn count_at(bench: &Bench, k: usize) -> u32
    requires { k < 4 }
    ensures { result ≡ count_at bench.now k }
{
    low_of([bench.bridges, bench.links, bench.views, bench.messages][k])
}

fn field_of(end: &EndRecord, k: usize) -> u32
    requires { k < 4 }
    ensures { result ≡ get_or (record_numbers end.now) k 0 }
{
    [
        end.received as u32,
        end.view as u32,
        end.discarded as u32,
        encoding::flag_number(end.holding),
    ][k]
}

// The number at place k of a bench.
#[tactic(auto, unfolding(crate::specs::Network::number_at))]
fn number_at(bench: &Bench, k: usize) -> u32
    requires { k < 420 }
    ensures { result ≡ number_at bench.now k }
{
    match k {
        ..ENDS_AT => count_at(bench, k),
        ..VIEW_AT => bench.ends[k - ENDS_AT] as u32,
        ..NUMBER_AT => bench.view[k - VIEW_AT] as u32,
        ..RECORDS_AT => bench.number[k - NUMBER_AT] as u32,
        ..DOWN_AT => field_of(&bench.records[(k - RECORDS_AT) / 4], k % 4),
        _ => encoding::flag_number(bench.down[k - DOWN_AT]),
    }
}

// By place, as `stored` says it.
pub(crate) fn store(bench: &Bench, numbers: &mut [u32])
    requires { 420 ≤ length numbers.old }
    ensures { numbers.new ≡ stored bench.now numbers.old }
{
    for k in 0..BENCH_NUMBERS {
        numbers[k] = number_at(bench, k);
    }
}
