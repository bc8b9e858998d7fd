// A line of a script is played: its call is made on the hub, the table and the lines' records, and its answer is written.
// What a line answers and leaves is the definition's: specs/World.antt, specs/Plays.antt.
ghost use Rattle.std.specs.Prelude.{◌≡◌, length};
ghost use Rattle.script.specs.Script.{room_most};
ghost use Rattle.script.specs.Answers.{meaning, Within};
ghost use Rattle.transcript.specs.World.{start, enrol, feed, close, finish, show, list, bad, long, play, play_line, next_number};
ghost use Rattle.transcript.specs.Plays.{world_of, first_run, Plays};

use crate::Run;
use crate::answers::FILLER;
use rules::LINES;
use script::{Call, DATA_MOST, ROOM_MOST};
use text::Page;

// Before the first line: the hub before any start, and emptied records.
pub fn first() -> Run
    ensures { result ≡ first_run }
{
    Run {
        hub: hub::first(),
        readings: [frame::emptied(); LINES],
        at: 0,
    }
}

// One line of the script, without its LF, and its number. The answer is appended to `out` at the run's place.
// Of `bytes` and `room` the call gets what it asks for; what they hold before and after it counts for nothing.
pub fn play(
    run: Run,
    number: u64,
    line: &[u8],
    table: &mut [u8],
    bytes: &mut [u8; DATA_MOST],
    room: &mut [u8; ROOM_MOST],
    out: &mut [u8],
) -> Run
    ensures { Plays (play_line (world_of run table.old) number line.now) out.old run.at result table.new out.new }
{
    let call = script::parse(line, bytes);
    made(run, number, call, table, bytes, room, out)
}

// The number of the next line; none has a greater one than 64 bits hold.
pub fn next_number(number: u64) -> u64
    ensures { result ≡ next_number number }
{
    number.saturating_add(1)
}

// What a line was found to be; the bytes of its word are the first of `bytes`.
fn made(
    run: Run,
    number: u64,
    call: Call,
    table: &mut [u8],
    bytes: &[u8],
    room: &mut [u8],
    out: &mut [u8],
) -> Run
    requires { Within bytes.now call × (length room.old ≡ room_most) }
    ensures { Plays (play (world_of run table.old) number (meaning bytes.now call)) out.old run.at result table.new out.new }
{
    match call {
        Call::Start { len, table: lent } => {
            let n = table.len().min(lent);
            start(run, &mut table[..n], &bytes[..len], out)
        }
        Call::Enrol {
            node,
            kind,
            table: lent,
        } => {
            let n = table.len().min(lent);
            enrol(run, &mut table[..n], node, kind, out)
        }
        Call::Feed {
            line: k,
            room: most,
            len,
            table: lent,
        } => {
            let n = table.len().min(lent);
            feed(
                run,
                &mut table[..n],
                k,
                &bytes[..len],
                &mut room[..most],
                out,
            )
        }
        Call::Close { line: k } => close(run, k, table, out),
        Call::Finish {
            session,
            room: most,
        } => finish(run, session, &mut room[..most], table, out),
        Call::Show => show(run, table, out),
        Call::Table => list(run, table, out),
        Call::Remark => run,
        Call::Bad { word } => bad(run, number, word, table, out),
        Call::Long => long(run, number, table, out),
    }
}

// ---- calls, each on the table and the room that are lent

fn start(run: Run, table: &mut [u8], password: &[u8], out: &mut [u8]) -> Run
    ensures { Plays (start (world_of run table.old) password.now) out.old run.at result table.new out.new }
{
    let started = hub::start(run.hub, table, password);
    let mut page = Page { out, at: run.at };
    crate::answers::call_line(&mut page, started.answer);
    Run {
        hub: started.hub,
        at: page.at,
        ..run
    }
}

fn enrol(run: Run, table: &mut [u8], node: u8, kind: u16, out: &mut [u8]) -> Run
    ensures { Plays (enrol (world_of run table.old) node kind) out.old run.at result table.new out.new }
{
    let answer = hub::enrol(table, node, kind);
    let mut page = Page { out, at: run.at };
    crate::answers::call_line(&mut page, answer);
    Run { at: page.at, ..run }
}

fn close(run: Run, line: u8, table: &[u8], out: &mut [u8]) -> Run
    ensures { Plays (close (world_of run table.now) line) out.old run.at result table.now out.new }
{
    let lent = service::record_of(run.readings, line);
    let closed = hub::close_by_value(run.hub, lent, line);
    let mut page = Page { out, at: run.at };
    crate::answers::call_line(&mut page, closed.answer);
    Run {
        hub: closed.hub,
        readings: service::with_record(run.readings, line, closed.reading),
        at: page.at,
    }
}

fn finish(run: Run, session: u16, room: &mut [u8], table: &[u8], out: &mut [u8]) -> Run
    ensures { Plays (finish (world_of run table.now) session (length room.old)) out.old run.at result table.now out.new }
{
    room.fill(FILLER);
    let finished = hub::finish(run.hub, session, room);
    let mut page = Page { out, at: run.at };
    crate::answers::finish_line(&mut page, finished.answer, room);
    Run {
        hub: finished.hub,
        at: page.at,
        ..run
    }
}

fn feed(run: Run, table: &mut [u8], line: u8, wire: &[u8], room: &mut [u8], out: &mut [u8]) -> Run
    ensures { Plays (feed (world_of run table.old) line wire.now (length room.old)) out.old run.at result table.new out.new }
{
    room.fill(FILLER);
    let lent = service::record_of(run.readings, line);
    let fed = hub::feed_by_value(run.hub, table, lent, line, wire, room);
    let mut page = Page { out, at: run.at };
    crate::answers::feed_line(&mut page, fed.answer, room);
    Run {
        hub: fed.hub,
        readings: service::with_record(run.readings, line, fed.reading),
        at: page.at,
    }
}

fn show(run: Run, table: &[u8], out: &mut [u8]) -> Run
    ensures { Plays (show (world_of run table.now)) out.old run.at result table.now out.new }
{
    let mut page = Page { out, at: run.at };
    crate::state::show(&mut page, run.hub, table, run.readings);
    Run { at: page.at, ..run }
}

fn list(run: Run, table: &[u8], out: &mut [u8]) -> Run
    ensures { Plays (list (world_of run table.now)) out.old run.at result table.now out.new }
{
    let mut page = Page { out, at: run.at };
    crate::listing::list(&mut page, table);
    Run { at: page.at, ..run }
}

// ---- lines that no call is made of

fn bad(run: Run, number: u64, word: u8, table: &[u8], out: &mut [u8]) -> Run
    ensures { Plays (bad (world_of run table.now) number word) out.old run.at result table.now out.new }
{
    let mut page = Page { out, at: run.at };
    report::bad_line(&mut page, number, word);
    Run { at: page.at, ..run }
}

fn long(run: Run, number: u64, table: &[u8], out: &mut [u8]) -> Run
    ensures { Plays (long (world_of run table.now) number) out.old run.at result table.now out.new }
{
    let mut page = Page { out, at: run.at };
    report::long_line(&mut page, number);
    Run { at: page.at, ..run }
}
