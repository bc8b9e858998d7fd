// Close, with the record in and out by value (document 01, host calls).
ghost use Rattle.std.specs.Prelude.{◌≡◌};
ghost use Rattle.rules.specs.Hub.{closed_line};
ghost use Rattle.rules.specs.Promises.{Closes};

use line::Reading;
use rules::{AnsweredByValue, Hub, SerialLine};

// A line is closed: its login is lost, its reading state emptied, its sessions closed.
pub(crate) fn close_record(hub: Hub, reading: Reading, line: u8) -> AnsweredByValue<()>
    ensures { Closes hub reading line result.answer result.hub result.reading }
{
    match SerialLine::try_from(line) {
        Ok(line) => AnsweredByValue {
            answer: Ok(()),
            hub: closed_line(hub, line),
            reading: frame::emptied(),
        },
        Err(refusal) => AnsweredByValue {
            answer: Err(refusal),
            hub,
            reading,
        },
    }
}

fn closed_line(mut hub: Hub, line: SerialLine) -> Hub
    ensures { result ≡ closed_line hub line.number }
{
    hub.logins[usize::from(line.number)] = 0;
    sessions::close_line(&mut hub.slots, line.number);
    hub
}
