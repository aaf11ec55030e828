// Writing numbers in decimal into a lent buffer, digit by digit or two at a time. Each method writes one text behind
// what stands there, and leaves every other byte as it was. Document 01, "Command sheet".
#![tactic(auto)]

ghost use Rattle.std.specs.Prelude.{◌+◌, ◌<◌, ◌≤◌, [], ◌∷◌, length};
ghost use Rattle.text.specs.Text.{decimal};
ghost use Rattle.numerals.specs.Pair.{pair};
ghost use Rattle.numerals.specs.Written.{Written, HasRoom, AppendsText};

// A text that is being written into a lent buffer, and the index behind what is written of it.
#[derive(Drop)]
pub struct TextWriter<'a> {
    pub out: &'a mut [u8],
    pub end: usize,
}

impl TextWriter<'_> {
    pub fn put_byte(&mut self, b: u8)
        requires { HasRoom self.old (b ∷ []) }
        ensures { AppendsText self.old self.new (b ∷ []) }
    {
        self.out[self.end] = b;
        self.end += 1;
    }

    // The tens and the units.
    fn put_pair(&mut self, n: u64)
        requires n_bound { n < 100 }
        requires room { HasRoom self.old (pair n) }
        ensures { AppendsText self.old self.new (pair n) }
    {
        let tens = (n / 10) as u8;
        let units = (n % 10) as u8;
        self.put_byte(b'0' + tens);
        self.put_byte(b'0' + units);
    }

    // A number below 100: one digit, or two.
    fn put_short(&mut self, n: u64)
        requires n_bound { n < 100 }
        requires room { HasRoom self.old (decimal n) }
        ensures { AppendsText self.old self.new (decimal n) }
    {
        if n < 10 {
            self.put_byte(b'0' + n as u8);
        } else {
            self.put_pair(n);
        }
    }

    // A number of any size: its tenth, then its last digit.
    fn put_decimal(&mut self, n: u64)
        requires { HasRoom self.old (decimal n) }
        ensures { AppendsText self.old self.new (decimal n) }
    {
        if n < 10 {
            self.put_byte(b'0' + n as u8);
        } else {
            self.put_decimal(n / 10);
            self.put_byte(b'0' + (n % 10) as u8);
        }
    }

    // A number; line numbers have up to four digits, and words up to five. What is longer goes through a writer of its
    // own, since one whose address a call takes stands in memory, the short numbers' too.
    #[inline(always)]
    fn put_digits(&mut self, n: u64)
        requires { HasRoom self.old (decimal n) }
        ensures { AppendsText self.old self.new (decimal n) }
    {
        if n < 100 {
            self.put_short(n);
        } else if n < 10000 {
            self.put_short(n / 100);
            self.put_pair(n % 100);
        } else if n < 100000 {
            self.put_short(n / 10000);
            self.put_pair(n / 100 % 100);
            self.put_pair(n % 100);
        } else {
            let mut long = TextWriter {
                out: &mut *self.out,
                end: self.end,
            };
            long.put_decimal(n);
            self.end = long.end;
        }
    }

    // A number.
    #[inline(always)]
    pub fn put_number(&mut self, n: u64)
        requires { HasRoom self.old (decimal n) }
        ensures { AppendsText self.old self.new (decimal n) }
    {
        self.end = number_at(&mut *self.out, self.end, n);
    }
}

// A number at an index: the index behind it. Slice and index are handed over in registers, a writer through memory.
fn number_at(out: &mut [u8], at: usize, n: u64) -> usize
    requires { at + length (decimal n) ≤ length out.old }
    ensures { Written out.old out.new at (decimal n) result }
{
    let mut writer = TextWriter { out, end: at };
    writer.put_digits(n);
    writer.end
}
