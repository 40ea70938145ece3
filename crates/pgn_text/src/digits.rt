#![tactic(auto)]

ghost use Rattle.std.specs.Prelude.{◌≡◌, ◌+◌, ◌/◌, ◌%◌, ◌<◌, ◌≤◌, [], ◌∷◌, ◌++◌, decimal, length};
ghost use Rattle.pgn_text.specs.declared.buffer.TheConstants.{SIZE};
ghost use Rattle.pgn_text.specs.declared.digits.TheConstants.{NUMBER_ROOM};

use crate::buffer::Buffer;

// So many bytes are room for any number.
pub(crate) const NUMBER_ROOM: usize = 40;

// The numbers below 100, with two digits each.
static PAIRS: [u8; 200] =
    *b"00010203040506070809101112131415161718192021222324252627282930313233343536373839404142434445464748495051525354555657585960616263646566676869707172737475767778798081828384858687888990919293949596979899";

impl Buffer {
    // Two digits.
    #[inline(always)]
    fn push_pair(&mut self, number: u64)
        requires small { number < 100 }
        requires fits { length self.old + 2 ≤ SIZE }
        ensures { self.new ≡ self.old ++ (48 + number / 10) ∷ (48 + number % 10) ∷ [] }
    {
        let from = number as usize * 2;
        self.push(&[PAIRS[from], PAIRS[from + 1]]);
    }

    // A number below 100.
    #[inline(always)]
    fn push_first(&mut self, number: u64)
        requires small { number < 100 }
        requires fits { length self.old + 2 ≤ SIZE }
        ensures { self.new ≡ self.old ++ decimal number }
    {
        if number < 10 {
            self.push(&[b'0' + number as u8]);
            return;
        }
        self.push_pair(number);
    }

    // A number below 10,000.
    #[inline(always)]
    fn push_short(&mut self, number: u64)
        requires small { number < 10000 }
        requires fits { length self.old + 4 ≤ SIZE }
        ensures { self.new ≡ self.old ++ decimal number }
    {
        if number < 100 {
            self.push_first(number);
            return;
        }
        self.push_first(number / 100);
        self.push_pair(number % 100);
    }

    // A number of five to eight digits.
    fn push_middle(&mut self, number: u64)
        requires large { 10000 ≤ number }
        requires small { number < 100000000 }
        requires fits { length self.old + 8 ≤ SIZE }
        ensures { self.new ≡ self.old ++ decimal number }
    {
        let four = number % 10_000;
        self.push_short(number / 10_000);
        self.push_pair(four / 100);
        self.push_pair(four % 100);
    }

    /// A number.
    #[inline]
    pub(crate) fn push_number(&mut self, number: u64)
        requires { length self.old + NUMBER_ROOM ≤ SIZE }
        ensures { self.new ≡ self.old ++ decimal number }
    {
        if number < 10_000 {
            self.push_short(number);
            return;
        }
        if number < 100_000_000 {
            self.push_middle(number);
            return;
        }
        let mut digits = itoa::Buffer::new();
        self.push(digits.format(number).as_bytes());
    }
}
