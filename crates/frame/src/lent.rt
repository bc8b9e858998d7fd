// Reading frames on a lent record, which lies as the answer by value says: specs/Lent.antt.
ghost use Rattle.frame.specs.Lent.{ReadsFrame};

use crate::FrameOutcome;
use line::{Reading, Told};

// Reads to the end of the first outcome or of the bytes.
pub fn read_frame(reading: &mut Reading, wire: &[u8]) -> Told<FrameOutcome>
    ensures { ReadsFrame reading.old wire.now result reading.new }
{
    crate::reader::read(*reading, wire).store_back(reading)
}
