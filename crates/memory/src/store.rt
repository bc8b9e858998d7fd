// Bytes stored in lent memory from a place on; what would run past its end is dropped.
// The content after a call is the library's `sets`, of all the bytes: specs/WroteLaws.antt.
ghost use Rattle.std.specs.Prelude.{◌≡◌, replicate};
ghost use Rattle.std.proofs.lemmas.List.Edits.{sets};
ghost use Rattle.memory.specs.Wrote.{fitting};

// The bytes of `from`, from `start` on.
pub fn copy(to: &mut [u8], start: usize, from: &[u8])
    ensures { to.new ≡ sets to.old start from.now }
{
    let n = fit(to.len(), start, from.len());
    if n > 0 {
        to[start..start + n].copy_from_slice(&from[..n]);
    }
}

// `count` times the same byte.
pub fn fill(to: &mut [u8], start: usize, count: usize, value: u8)
    ensures { to.new ≡ sets to.old start (replicate count value) }
{
    let n = fit(to.len(), start, count);
    if n > 0 {
        to[start..start + n].fill(value);
    }
}

// How many of `count` bytes fit into `len` from `start` on.
fn fit(len: usize, start: usize, count: usize) -> usize
    ensures { result ≡ fitting len start count }
{
    count.min(len.saturating_sub(start))
}
