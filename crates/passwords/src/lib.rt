// Passwords (document 02, CR 3): the bytes before the first zero, or all 32. They are compared and stored as specs/Passwords.antt says.
// Each call looks at all bytes, whatever they hold, so that its time tells little of them; nothing is promised of time.
// It stands on what `memory` states of bytes compared.
#![tactic(auto)]

ghost use Rattle.std.specs.Prelude.{◌≡◌, cond};
ghost use Rattle.passwords.specs.Passwords.{is_same, stored};

// The bytes in which a password lies.
pub const PASSWORD: usize = 32;

// Whether both are the same password. A byte that ends one is compared too: the other must end there.
pub fn is_same(a: [u8; PASSWORD], b: [u8; PASSWORD]) -> bool
    ensures { result ≡ is_same a b }
{
    let mut same = true;
    let mut inside = true;
    for (x, y) in a.iter().zip(&b) {
        same &= !inside | (*x == *y);
        inside &= *x != 0;
    }
    same
}

// As it is stored: with zeros from its first zero on.
pub fn stored(bytes: [u8; PASSWORD]) -> [u8; PASSWORD]
    ensures { result ≡ stored bytes }
{
    let mut kept = bytes;
    let mut inside = true;
    for b in kept.iter_mut() {
        inside &= *b != 0;
        *b = byte_if(inside, *b);
    }
    kept
}

fn byte_if(inside: bool, b: u8) -> u8
    ensures { result ≡ cond inside b 0 }
{
    if inside { b } else { 0 }
}
