// The serial lines by their numbers, 0 to 3.
// Which numbers are those of a line is specs/Hub.antt: line_count.
ghost use Rattle.std.specs.Prelude.{◌<◌, ◌≤◌, ◌≡◌, MatchResult};
ghost use Rattle.rules.specs.Hub.{line_count};
ghost use Rattle.rules.specs.declared.CallRefusal.TheVariants.{WrongLine};

use crate::{CallRefusal, LINES};

// One of the serial lines.
#[derive(Clone, Copy)]
pub struct SerialLine {
    pub number: u8,
    pub ghost one_of_four: { number < line_count },
}

// The line of a number; a call with a number above 3 is refused.
impl TryFrom<u8> for SerialLine {
    type Error = CallRefusal;

    ghost try_from_gives = { λ n r. MatchResult r
        (λ line. line.number ≡ n)
        (λ refusal. (refusal ≡ WrongLine) × (line_count ≤ n)) };

    fn try_from(number: u8) -> Result<Self, CallRefusal> {
        if LINES <= usize::from(number) {
            return Err(CallRefusal::WrongLine);
        }
        Ok(SerialLine { number })
    }
}
