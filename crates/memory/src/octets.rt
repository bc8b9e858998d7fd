// Lent bytes looked at: one of them, and whether two runs of bytes are the same.
// Answers are the definition's: specs/Octets.antt.
ghost use Rattle.std.specs.Prelude.{◌≡◌, get_or};
ghost use Rattle.memory.specs.Octets.{same};

// The byte at a place, 0 where there is none.
pub fn byte(bytes: &[u8], place: usize) -> u8
    ensures { result ≡ get_or bytes.now place 0 }
{
    bytes.get(place).copied().unwrap_or(0)
}

// Whether two runs of bytes are the same: all bytes are compared.
pub fn is_same(a: &[u8], b: &[u8]) -> bool
    ensures { result ≡ same a.now b.now }
{
    a == b
}
