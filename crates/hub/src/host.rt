// The host's calls: the hub before any start, start, enrol, finish a session (document 01, "What the commands do").
// The hub goes in and out by value; the node table and the reply room are lent.
ghost use Rattle.std.specs.Prelude.{◌≡◌};
ghost use Rattle.rules.specs.Hub.{fresh_hub, first_hub};
ghost use Rattle.rules.specs.Promises.{Starts, Enrols, Finishes};

use replies::Reply;
use rules::{Answered, CallRefusal, Hub, Notice};

// The hub before any start.
pub fn first() -> Hub
    ensures { result ≡ first_hub }
{
    fresh([0u8; passwords::PASSWORD])
}

// A hub with a password, nobody logged in, no session.
fn fresh(password: [u8; passwords::PASSWORD]) -> Hub
    ensures { result ≡ fresh_hub password }
{
    Hub {
        password,
        logins: [0; rules::LINES],
        slots: [0; sessions::TABLE],
    }
}

// Starts the hub anew: the password is stored with zeros from its first zero on, the table is zeroed.
pub fn start(mut hub: Hub, table: &mut [u8], password: &[u8]) -> Answered<()>
    ensures { Starts hub table.old password.now result.answer result.hub table.new }
{
    let answer = start_lent(&mut hub, table, password);
    Answered { answer, hub }
}

// The same with the hub lent.
fn start_lent(hub: &mut Hub, table: &mut [u8], password: &[u8]) -> Result<(), CallRefusal>
    ensures { Starts hub.old table.old password.now result hub.new table.new }
{
    if table.len() != nodes::TABLE {
        return Err(CallRefusal::WrongTable);
    }
    if password.len() != passwords::PASSWORD {
        return Err(CallRefusal::WrongPassword);
    }
    nodes::empty(table);
    let mut sent = [0u8; passwords::PASSWORD];
    sent.copy_from_slice(password);
    let kept = passwords::stored(sent);
    *hub = fresh(kept);
    Ok(())
}

// A node comes into use, with its type.
pub fn enrol(table: &mut [u8], node: u8, kind: u16) -> Result<(), CallRefusal>
    ensures { Enrols table.old node kind result table.new }
{
    if table.len() != nodes::TABLE {
        return Err(CallRefusal::WrongTable);
    }
    if nodes::NODES <= usize::from(node) {
        return Err(CallRefusal::WrongNode);
    }
    if nodes::in_use(table, usize::from(node)) {
        return Err(CallRefusal::NodeInUse);
    }
    nodes::enrol(table, node, kind);
    Ok(())
}

// A session is finished: frame 0304 with its number goes to its line. It is written, if there is room for it; then the session is closed.
pub fn finish(mut hub: Hub, session: u16, room: &mut [u8]) -> Answered<Notice>
    ensures { Finishes hub session room.old result.answer result.hub room.new }
{
    let answer = finish_lent(&mut hub, session, room);
    Answered { answer, hub }
}

// The same with the hub lent.
fn finish_lent(hub: &mut Hub, session: u16, room: &mut [u8]) -> Result<Notice, CallRefusal>
    ensures { Finishes hub.old session room.old result hub.new room.new }
{
    let line = sessions::line_of(&hub.slots, session).ok_or(CallRefusal::NotOpen)?;
    let Ok(len) = replies::write(room, Reply::SessionFinished(session), &[]) else {
        return Err(CallRefusal::ShortRoom);
    };
    sessions::finish(&mut hub.slots, session);
    Ok(Notice { line, len })
}
