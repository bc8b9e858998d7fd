// Lent memory that is written from a place on: words appended to it, and the room there is for them. Numbers are in `digits`.
// A word is written whole or not at all, and is the definition's to the byte: specs/Page.antt, specs/Appended.antt.
ghost use Rattle.std.specs.Prelude.{◌-◌, ◌≡◌, length, take};
ghost use Rattle.text.specs.Page.{Writes};

// The memory, and the place behind what is written.
#[derive(Drop)]
pub struct Page<'a> {
    pub out: &'a mut [u8],
    pub at: usize,
}

impl Page<'_> {
    // Some bytes as they are; of these and of numbers the lines are built.
    // Stays: two tests; with one by `room` the copy's length is not known where a literal is appended, and the listing misses its goal of 1.0 (docs/BENCHMARKS.md).
    pub fn append(&mut self, bytes: &[u8])
        ensures { Writes bytes.now self.old self.new }
    {
        if self.out.len() < self.at {
            return;
        }
        if self.out.len() - self.at < bytes.len() {
            return;
        }
        memory::copy(self.out, self.at, bytes);
        self.at += bytes.len();
    }

    // How many bytes there are from the place on.
    pub fn room(&self) -> usize
        ensures { result ≡ length self.now.out.now - self.now.at }
    {
        self.out.len().saturating_sub(self.at)
    }

    // What stands before the place.
    pub fn written(&self) -> &[u8]
        ensures { result.now ≡ take self.now.at self.now.out.now }
    {
        &self.out[..self.at.min(self.out.len())]
    }
}
