// Reading on a lent record, which lies as the answer by value says: specs/Lent.antt.
ghost use Rattle.std.specs.Prelude.{◌≡◌};
ghost use Rattle.line.specs.Lent.{told_of, ReadsPacket};

use crate::{Answer, PacketOutcome, Reading, Told};

// Reads to the end of the first outcome or of the bytes.
pub fn read_packet(reading: &mut Reading, wire: &[u8]) -> Told<PacketOutcome>
    ensures { ReadsPacket reading.old wire.now result reading.new }
{
    crate::reader::read(*reading, wire).store_back(reading)
}

impl<O> Answer<O> {
    // Stores the reading back where it was lent, and gives the rest.
    pub fn store_back(self, reading: &mut Reading) -> Told<O>
        ensures stored { reading.new ≡ self.reading }
        ensures rest { result ≡ told_of self }
    {
        *reading = self.reading;
        self.into()
    }
}

// What an answer tells beside its reading.
impl<O> From<Answer<O>> for Told<O> {
    ghost from_gives = { λ answer told. told ≡ told_of answer };

    fn from(answer: Answer<O>) -> Told<O> {
        Told {
            used: answer.used,
            outcome: answer.outcome,
        }
    }
}
