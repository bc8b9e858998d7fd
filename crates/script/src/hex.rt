// Bytes and sessions in hexadecimal digits, as a script has them.
// Every answer is the definition's: specs/Script.antt, specs/Code.antt.
ghost use Rattle.std.specs.Prelude.{◌/◌, ◌%◌, ◌≤◌, ◌≡◌, cond, length, Some, None};
ghost use Rattle.script.specs.Script.{all_hex, pairs, bytes, session};
ghost use Rattle.script.specs.Code.{digit_of, pair_of, Stored};

// The bytes of a word, to the front of `out`; answers how many.
pub(crate) fn decode(text: &[u8], out: &mut [u8]) -> Option<usize>
    requires { length text.now / 2 ≤ length out.old }
    ensures { Stored (bytes text.now) out.new result }
{
    if text == text::NO_BYTES {
        return Some(0);
    }
    if text.is_empty() || text.len() % 2 != 0 {
        return None;
    }
    store_pairs(text, out)
}

// The bytes of pairs of digits, each digit looked at once.
fn store_pairs(text: &[u8], out: &mut [u8]) -> Option<usize>
    requires { (length text.now / 2 ≤ length out.old) × (length text.now % 2 ≡ 0) }
    ensures { Stored (cond (all_hex text.now) (Some (pairs text.now)) None) out.new result }
{
    let count = text.len() / 2;
    for i in 0..count {
        out[i] = pair(text[2 * i], text[2 * i + 1])?;
    }
    Some(count)
}

// The session that exactly four digits are.
pub(crate) fn session(text: &[u8]) -> Option<u16>
    ensures { result ≡ session text.now }
{
    if text.len() != 4 {
        return None;
    }
    let high = pair(text[0], text[1])?;
    let low = pair(text[2], text[3])?;
    Some(u16::from(high) * 256 + u16::from(low))
}

// The byte of two digits.
fn pair(high: u8, low: u8) -> Option<u8>
    ensures { result ≡ pair_of high low }
{
    let tens = digit_of(high)?;
    let ones = digit_of(low)?;
    Some(tens * 16 + ones)
}

// The value of a hexadecimal digit in either case.
fn digit_of(digit: u8) -> Option<u8>
    ensures { result ≡ digit_of digit }
{
    match digit {
        b'0'..=b'9' => Some(digit - b'0'),
        b'A'..=b'F' => Some(digit - b'A' + 10),
        b'a'..=b'f' => Some(digit - b'a' + 10),
        _ => None,
    }
}
