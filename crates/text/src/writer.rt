// A text written into lent bytes, one piece behind the other.
ghost use Rattle.std.specs.Prelude.{[], ◌∷◌, ◌+◌, ◌/◌, ◌%◌, ◌≤◌, ◌<◌, length};
ghost use Rattle.text.specs.Decimal.{decimal, digit};
ghost use Rattle.text.specs.Lines.{or_dash};
ghost use Rattle.text.specs.Writing.{HasRoom, Put, Writes};

// The number that stands for none.
const NONE: u32 = 4294967295;

// The text so far is the first `len` bytes of `out`.
#[derive(Drop)]
pub(crate) struct Writer<'a> {
    pub out: &'a mut [u8],
    pub len: usize,
}

// A number's digits from place `at` on, those of its tenth and then its last, up to the place that is answered. It is handed no writer: one
// whose address is handed on has its length in memory, and not in a register.
#[tactic(auto, using(crate::proofs::Laws::decimal_one, crate::proofs::Laws::length_more))]
fn digits(out: &mut [u8], at: usize, n: u32) -> usize
    requires { at + length (decimal n) ≤ length out.old }
    ensures { Put out.old at (decimal n) out.new result }
{
    if n < 10 {
        out[at] = b'0' + n as u8;
        at + 1
    } else {
        let last = digits(out, at, n / 10);
        out[last] = b'0' + (n % 10) as u8;
        last + 1
    }
}

impl Writer<'_> {
    pub(crate) fn word(&mut self, word: &[u8])
        requires { HasRoom self.old word.now }
        ensures { Writes self.old word.now self.new }
    {
        let end = self.len + word.len();
        self.out[self.len..end].copy_from_slice(word);
        self.len = end;
    }

    // The last digit of a number.
    fn digit(&mut self, n: u32)
        requires { self.old.len < length self.old.out.now }
        ensures { Writes self.old (digit (n % 10) ∷ []) self.new }
    {
        self.out[self.len] = b'0' + (n % 10) as u8;
        self.len += 1;
    }

    // The last two.
    fn two_digits(&mut self, n: u32)
        requires { self.old.len + 2 ≤ length self.old.out.now }
        ensures { Writes self.old (digit (n / 10 % 10) ∷ digit (n % 10) ∷ []) self.new }
    {
        self.digit(n / 10);
        self.digit(n);
    }

    // In decimal. Most numbers have at most three digits: these without the recursion.
    #[tactic(auto, using(crate::proofs::Laws::decimal_one, crate::proofs::Laws::decimal_two, crate::proofs::Laws::decimal_three))]
    pub(crate) fn number(&mut self, n: u32)
        requires { HasRoom self.old (decimal n) }
        ensures { Writes self.old (decimal n) self.new }
    {
        if n < 10 {
            self.digit(n);
        } else if n < 100 {
            self.two_digits(n);
        } else if n < 1000 {
            self.two_digits(n / 10);
            self.digit(n);
        } else {
            self.len = digits(self.out, self.len, n);
        }
    }

    // `-` for NONE.
    #[tactic(auto, using(crate::proofs::Laws::length_decimal), unfolding(crate::specs::Lines::or_dash))]
    pub(crate) fn number_or_dash(&mut self, n: u32)
        requires { self.old.len + 10 ≤ length self.old.out.now }
        ensures { Writes self.old (or_dash n) self.new }
    {
        if n == NONE {
            self.word(b"-");
        } else {
            self.number(n);
        }
    }
}
