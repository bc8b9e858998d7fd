// A node's name between quotes: up to its first zero byte, with what would not be read as it stands escaped.
// The text is the definition's to the byte: specs/Entry.antt.
ghost use Rattle.std.specs.Prelude.{◌+◌, ◌*◌, ◌≤◌, ◌≡◌, ◌==◌, ◌||◌, length, ltb, eqb, position};
ghost use Rattle.memory.specs.Wrote.{Wrote};
ghost use Rattle.report.specs.Entry.{name_length, shown, shown_all};

use text::Page;

// Before a byte that is written as it is, and before one that is written in digits.
const ESCAPE: &[u8] = b"\\";

const DIGITS: &[u8] = b"\\x";

// How many bytes of a name stand before its first zero byte.
pub(crate) fn name_length(name: &[u8]) -> usize
    ensures { (result ≡ name_length name.now) × (result ≤ length name.now) }
{
    first_zero(name).unwrap_or(name.len())
}

fn first_zero(name: &[u8]) -> Option<usize>
    ensures { result ≡ position (λ b. b == 0) name.now }
{
    name.iter().position(|byte| *byte == 0)
}

// The bytes of a name, each shown in no more than four.
pub(crate) fn put_name(page: &mut Page, name: &[u8])
    requires { page.old.at + 4 * length name.now ≤ length page.old.out.now }
    ensures { Wrote page.old.out.now page.old.at (shown_all name.now) page.new.out.now page.new.at }
{
    for byte in name {
        put_byte(page, *byte);
    }
}

fn put_byte(page: &mut Page, byte: u8)
    requires { page.old.at + 4 ≤ length page.old.out.now }
    ensures { Wrote page.old.out.now page.old.at (shown byte) page.new.out.now page.new.at }
{
    if is_control(byte) {
        page.append(DIGITS);
        return page.append_hex2(byte);
    }
    if is_marked(byte) {
        page.append(ESCAPE);
    }
    page.append(&[byte]);
}

// 00 to 1F, and 7F.
fn is_control(byte: u8) -> bool
    ensures { result ≡ (ltb byte 32 || eqb byte 127) }
{
    byte < 32 || byte == 127
}

// A quote, and the byte that escapes.
fn is_marked(byte: u8) -> bool
    ensures { result ≡ (eqb byte 34 || eqb byte 92) }
{
    byte == b'"' || byte == b'\\'
}
