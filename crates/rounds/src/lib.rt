// The bench's rounds: a call of the hub made again and again, for a program in Rust or C to time. Only numbers and lent bytes cross over: hub
// and record are kept here from round to round, so that their layout is nobody else's matter.
// What the rounds promise is what the calls promise, one after another: specs/Rounds.antt. It stands on the calls of `hub`.
#![tactic(auto)]

ghost use Rattle.std.specs.Prelude.{◌≡◌, replicate};
ghost use Rattle.frame.specs.Line.{limit};
ghost use Rattle.frame.specs.Reader.{emptied_reading};
ghost use Rattle.requests.specs.Answers.{reading_at};
ghost use Rattle.rules.specs.Hub.{first_hub};
ghost use Rattle.rounds.specs.Rounds.{fed_length, finished_length, Fed, Sent, Makes};

use line::{Cursor, Mode};
use rules::{CallRefusal, FedAt, Notice, Told};

// Feeds on line 0 of a hub before any start: `login` once, then `bytes` in each round. The answer is the length of the last reply.
#[unsafe(no_mangle)]
pub extern "C" fn rounds_feed(
    table: &mut [u8],
    login: &[u8],
    bytes: &[u8],
    room: &mut [u8],
    rounds: u64,
) -> usize
    ensures { Makes (Fed bytes.now) login.now rounds table.old room.old result table.new room.new }
{
    let mut held = [0u8; line::LIMIT];
    let entered = enter(table, &mut held, login, room);
    let mut kept = entered.hub;
    let mut cursor = entered.cursor;
    let mut len = 0;
    for _ in 0..rounds {
        let fed = hub::feed_in(kept, table, &mut held, cursor, 0, bytes, room);
        kept = fed.hub;
        cursor = fed.cursor;
        len = fed_len(fed.answer);
    }
    len
}

// The same, with the session of a number finished in each round.
#[unsafe(no_mangle)]
pub extern "C" fn rounds_finish(
    table: &mut [u8],
    login: &[u8],
    bytes: &[u8],
    session: u16,
    room: &mut [u8],
    rounds: u64,
) -> usize
    ensures { Makes (Sent bytes.now session) login.now rounds table.old room.old result table.new room.new }
{
    let mut held = [0u8; line::LIMIT];
    let entered = enter(table, &mut held, login, room);
    let mut kept = entered.hub;
    let mut cursor = entered.cursor;
    let mut len = 0;
    for _ in 0..rounds {
        let sent = hub::feed_in(kept, table, &mut held, cursor, 0, bytes, room);
        cursor = sent.cursor;
        let finished = hub::finish(sent.hub, session, room);
        kept = finished.hub;
        len = finished_len(finished.answer);
    }
    len
}

// The login, fed to a hub before any start on an emptied record.
fn enter(table: &mut [u8], held: &mut [u8; line::LIMIT], login: &[u8], room: &mut [u8]) -> FedAt
    requires { held.old ≡ replicate limit 0 }
    ensures { Fed login.now (record { hub = first_hub; table = table.old; reading = emptied_reading; room = room.old }) (fed_length result.answer) (record { hub = result.hub; table = table.new; reading = reading_at held.new result.cursor; room = room.new }) }
{
    let start = Cursor {
        count: 0,
        mode: Mode::Plain,
    };
    hub::feed_in(hub::first(), table, held, start, 0, login, room)
}

// The length of the reply that an answer tells.
fn fed_len(answer: Result<Told, CallRefusal>) -> usize
    ensures { result ≡ fed_length answer }
{
    answer.map_or(0, |told| told.len)
}

fn finished_len(answer: Result<Notice, CallRefusal>) -> usize
    ensures { result ≡ finished_length answer }
{
    answer.map_or(0, |notice| notice.len)
}
