// A line that tells a number and some bytes in hexadecimal, and one such byte alone, appended to a page.
// It is written whole or not at all, and is the definition's to the byte: specs/Bytes.antt, specs/Page.antt.
ghost use Rattle.std.specs.Prelude.{◌+◌, ◌*◌, ◌≤◌, ◌≡◌, ◌++◌, length, leb};
ghost use Rattle.memory.specs.Wrote.{Wrote};
ghost use Rattle.text.specs.Bytes.{hex2, hex_pairs, bytes_word, word_length};
ghost use Rattle.text.specs.Text.{decimal};
ghost use Rattle.text.specs.Page.{Writes};

use crate::page::Page;

impl Page<'_> {
    // A number between two words, some bytes, and the line's end.
    pub fn bytes_line(
        &mut self,
        before: &[u8],
        number: u64,
        behind: &[u8],
        bytes: &[u8],
        end: &[u8],
    )
        ensures { Writes (before.now ++ decimal number ++ behind.now ++ bytes_word bytes.now ++ end.now) self.old self.new }
    {
        let left = self.left(before.len(), behind.len());
        if !fits(left, crate::digits::width(number), bytes.len(), end.len()) {
            return;
        }
        self.append_numbered(before, number, behind);
        self.put_bytes(bytes);
        self.append(end);
    }

    // The two hexadecimal digits of a byte.
    pub fn append_hex2(&mut self, byte: u8)
        ensures { Writes (hex2 byte) self.old self.new }
    {
        let digits = hex2(byte);
        self.append(&digits);
    }

    // Bytes in hexadecimal, `-` for none.
    fn put_bytes(&mut self, bytes: &[u8])
        requires { self.old.at + length (bytes_word bytes.now) ≤ length self.old.out.now }
        ensures { Writes (bytes_word bytes.now) self.old self.new }
    {
        if bytes.is_empty() {
            return self.append(crate::words::NO_BYTES);
        }
        self.at = hex_pairs(self.out, self.at, bytes);
    }
}

// Whether a number, the text of so many bytes and the line's end fit.
fn fits(room: usize, number: usize, bytes: usize, end: usize) -> bool
    ensures { result ≡ leb (number + word_length bytes + end) room }
{
    if room < number {
        return false;
    }
    let behind = room - number;
    if behind < end {
        return false;
    }
    let between = behind - end;
    if bytes == 0 {
        return 1 <= between;
    }
    bytes <= between / 2
}

// Two digits for each byte.
// Stays: memory and place apart, here and in `decimal`, no plainer: the page would be written back at each turn.
fn hex_pairs(out: &mut [u8], at: usize, bytes: &[u8]) -> usize
    requires { at + 2 * length bytes.now ≤ length out.old }
    ensures { Wrote out.old at (hex_pairs bytes.now) out.new result }
{
    let mut place = at;
    for byte in bytes {
        let [high, low] = hex2(*byte);
        out[place] = high;
        out[place + 1] = low;
        place += 2;
    }
    place
}

// The two digits.
// Stays: apart from `append_hex4`, no plainer: two array literals of digits, of which a loop over a number of digits would be longer.
fn hex2(byte: u8) -> [u8; 2]
    ensures { result ≡ hex2 byte }
{
    let n = u64::from(byte);
    [crate::digits::digit(n / 16), crate::digits::digit(n)]
}
