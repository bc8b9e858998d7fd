// An answer by value, where the record was lent: the record lies as the answer says, and the rest is given.
ghost use Rattle.std.specs.Prelude.{◌≡◌};

use crate::{Answered, AnsweredByValue};
use line::Reading;

impl<T> AnsweredByValue<T> {
    // Stores the record back where it was lent, and gives the rest.
    pub fn store_back(self, reading: &mut Reading) -> Answered<T>
        ensures stored { reading.new ≡ self.reading }
        ensures rest { result ≡ record { answer = self.answer; hub = self.hub } }
    {
        *reading = self.reading;
        Answered {
            answer: self.answer,
            hub: self.hub,
        }
    }
}
