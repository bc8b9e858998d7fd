// The numbers among the words of a script.
// Every answer is the definition's: specs/Script.antt.
ghost use Rattle.std.specs.Prelude.{◌≤◌, ◌≡◌, length};
ghost use Rattle.script.specs.Script.{digits_most, digits_from, is_plain, number_up_to};

// No number has more digits.
const DIGITS_MOST: usize = 5;

// The number that a word is, up to the most that it may be.
pub(crate) fn number_in(text: &[u8], most: usize) -> Option<usize>
    ensures { result ≡ number_up_to most text.now }
{
    if !is_plain(text) {
        return None;
    }
    let value = digits(text)?;
    if most < value {
        return None;
    }
    Some(value)
}

// One to five bytes, and no zero before others.
fn is_plain(text: &[u8]) -> bool
    ensures { result ≡ is_plain text.now }
{
    match text.len() {
        1 => true,
        2..=DIGITS_MOST => text[0] != b'0',
        _ => false,
    }
}

// The value of decimal digits.
fn digits(text: &[u8]) -> Option<usize>
    requires { length text.now ≤ digits_most }
    ensures { result ≡ digits_from 0 text.now }
{
    let mut value = 0;
    for &digit in text {
        if !digit.is_ascii_digit() {
            return None;
        }
        value = value * 10 + usize::from(digit - b'0');
    }
    Some(value)
}
