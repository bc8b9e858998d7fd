// Document 01's numbers of the calls' refusals.
ghost use Rattle.std.specs.Prelude.{◌≡◌};
ghost use Rattle.rules.specs.Answers.{number};

use crate::CallRefusal;

// The number of a call's refusal.
pub fn number(refusal: CallRefusal) -> u8
    ensures { result ≡ number refusal }
{
    refusal as u8
}
