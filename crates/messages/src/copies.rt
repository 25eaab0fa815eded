// A slice's messages as numbers, and back.
ghost use Rattle.std.specs.Prelude.{◌≡◌, ◌*◌, min, length, drop};
ghost use Rattle.messages.specs.Slices.{flight};

use crate::Message;
use bench::sizes::{MESSAGE, MESSAGES, MOST_MESSAGES};

// The numbers of the slice's messages.
#[tactic(auto, unfolding(crate::specs::Slices::numbers_in))]
pub(crate) fn read(ms: &[Message], numbers: &mut [u32])
    requires { length numbers.old ≡ 5 * min (length ms.now) 64 }
    ensures { numbers.new ≡ flight ms.now }
{
    for k in 0..numbers.len() / MESSAGE {
        let five: [u32; MESSAGE] = ms[k].into();
        numbers[MESSAGE * k..MESSAGE * k + MESSAGE].copy_from_slice(&five);
    }
}

// The same, at the head of an array.
pub(crate) fn numbers_of<'a>(ms: &[Message], all: &'a mut [u32; MESSAGES]) -> &'a mut [u32]
    ensures messages { result.now ≡ flight ms.now }
    ensures count { length result.now ≡ 5 * min (length ms.now) 64 }
{
    let numbers = &mut all[..MESSAGE * ms.len().min(MOST_MESSAGES)];
    read(ms, numbers);
    numbers
}

// The messages that the numbers are, in their places of the slice.
#[tactic(auto, unfolding(crate::specs::Slices::numbers_in))]
pub(crate) fn write(numbers: &[u32], ms: &mut [Message])
    requires { length numbers.now ≡ 5 * min (length ms.old) 64 }
    ensures in_flight { numbers.now ≡ flight ms.new }
    ensures behind { drop 64 ms.new ≡ drop 64 ms.old }
{
    let (fives, _) = numbers.as_chunks::<MESSAGE>();
    for (k, five) in fives.iter().enumerate() {
        ms[k] = Message::from(*five);
    }
}

// A call on the numbers of the slice's messages, with what it leaves of them written back. It is lent: of a closure passed by value nothing would be known of what it leaves of the bench.
pub(crate) fn by_numbers<R, F: FnMut(&mut [u32]) -> R>(ms: &mut [Message], call: &mut F) -> R
    requires { F.IsAlwaysCallable call.old }
    ensures called { (before : _) × (after : _) × (before.now ≡ flight ms.old) × (after.now ≡ flight ms.new) × F.step call.old before result after call.new }
    ensures behind { drop 64 ms.new ≡ drop 64 ms.old }
{
    let mut all = [0u32; MESSAGES];
    let numbers = numbers_of(ms, &mut all);
    let result = call(numbers);
    write(numbers, ms);
    result
}
