// Numbers as the programs write them, in base ten and in four hexadecimal digits, appended to a page.
// A number is written whole or not at all, and is the definition's to the byte: specs/Text.antt, specs/Page.antt.
ghost use Rattle.std.specs.Prelude.{◌+◌, ◌%◌, ◌≤◌, ◌≡◌, length};
ghost use Rattle.memory.specs.Wrote.{Wrote};
ghost use Rattle.text.specs.Text.{digit, decimal, hex4};
ghost use Rattle.text.specs.Page.{Writes};

use crate::page::Page;

impl Page<'_> {
    // A number in base ten.
    pub fn append_decimal(&mut self, number: u64)
        ensures { Writes (decimal number) self.old self.new }
    {
        let count = width(number);
        if self.room() < count {
            return;
        }
        self.at = decimal(self.out, self.at, count, number);
    }

    // The four hexadecimal digits of a number.
    pub fn append_hex4(&mut self, number: u16)
        ensures { Writes (hex4 number) self.old self.new }
    {
        if self.room() < 4 {
            return;
        }
        self.at = hex4(self.out, self.at, number);
    }
}

// How many decimal digits a number has; 0 has one.
// Stays: short numbers, which are most, are compared; tried, of `ilog10` alone a frame's line took longer.
pub fn width(number: u64) -> usize
    ensures { result ≡ length (decimal number) }
{
    match number {
        0..=9 => 1,
        10..=99 => 2,
        _ => number.ilog10() as usize + 1,
    }
}

// The last hexadecimal digit of a number: 0 to 9, then A to F.
pub(crate) fn digit(number: u64) -> u8
    ensures { result ≡ digit (number % 16) }
{
    let d = (number % 16) as u8;
    if d < 10 {
        return b'0' + d;
    }
    b'A' - 10 + d
}

// The decimal digits of `number`, `count` of them, the last one first.
fn decimal(out: &mut [u8], at: usize, count: usize, number: u64) -> usize
    requires { (count ≡ length (decimal number)) × (at + count ≤ length out.old) }
    ensures { Wrote out.old at (decimal number) out.new result }
{
    let end = at + count;
    let mut rest = number;
    for place in (at..end).rev() {
        out[place] = digit(rest % 10);
        rest /= 10;
    }
    end
}

// The four hexadecimal digits of `number`.
// Stays: stored one by one, as in `decimal`; tried, of an array of them that is appended a frame's line took longer.
fn hex4(out: &mut [u8], at: usize, number: u16) -> usize
    requires { at + 4 ≤ length out.old }
    ensures { Wrote out.old at (hex4 number) out.new result }
{
    let n = u64::from(number);
    out[at] = digit(n / 4096);
    out[at + 1] = digit(n / 256);
    out[at + 2] = digit(n / 16);
    out[at + 3] = digit(n);
    at + 4
}
