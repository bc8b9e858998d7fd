// What a request does once its reply is written (document 01, "What the commands do"): to the hub's password, logins and sessions, and to the
// node table. They are those of specs/Answers.antt: carried_out.
ghost use Rattle.std.specs.Prelude.{◌≡◌, length};
ghost use Rattle.sessions.specs.Sessions.{mode_send_size, mode_send_of, opened_if};
ghost use Rattle.rules.specs.Hub.{change_size};
ghost use Rattle.requests.specs.Answers.{password_left, logins_left, carried_out, Enough};

use crate::decide::{PasswordStatus, mode_send_of, password_at};
use replies::Reply;
use rules::{Hub, SerialLine};
use sessions::ModeSendStatus;

// What was decided is done, by the reply, the line and the request's data.
pub(crate) fn carry_out(
    hub: &mut Hub,
    table: &mut [u8],
    line: SerialLine,
    reply: Reply,
    payload: &[u8],
)
    requires { Enough reply payload.now }
    ensures { record { hub = hub.new; table = table.new } ≡ carried_out reply hub.old table.old line.number payload.now }
{
    match reply {
        Reply::Nothing | Reply::Error(_) | Reply::AboutNode(_) | Reply::SessionFinished(_) => {}
        Reply::PasswordEntered(status) => log_in(&mut hub.logins, line, status),
        Reply::PasswordChanged(status) => change_password(&mut hub.password, status, payload),
        Reply::VariationSet { node, .. } => {
            nodes::set_variation(table, node, memory::byte(payload, 1));
        }
        Reply::NameSet { node, .. } => {
            nodes::set_name(table, node, &payload[1..]);
        }
        Reply::OrderAndPlacementSet { node, .. } => {
            nodes::set_order_and_placement(table, node, &payload[1..]);
        }
        Reply::NodesRemoved(_) => {
            sessions::close_removed(&mut hub.slots, table, payload);
            nodes::remove(table, payload);
        }
        Reply::VirginStateSet => {
            sessions::close_all(&mut hub.slots);
            nodes::empty(table);
        }
        Reply::ModeSendConfirmed { status, .. } => {
            open_if(&mut hub.slots, line.number, status, payload);
        }
    }
}

// Password enter with a status: where it is 0, the line is logged in.
fn log_in(logins: &mut [u8; rules::LINES], line: SerialLine, status: u8)
    ensures { logins.new ≡ logins_left status line.number logins.old }
{
    if status == PasswordStatus::Correct as u8 {
        logins[usize::from(line.number)] = 1;
    }
}

// Password change with a status: where it is 0, the new half of the data is stored.
fn change_password(password: &mut [u8; passwords::PASSWORD], status: u8, payload: &[u8])
    requires { length payload.now ≡ change_size }
    ensures { password.new ≡ password_left status payload.now password.old }
{
    if status == PasswordStatus::Correct as u8 {
        let sent = password_at(payload, passwords::PASSWORD);
        let kept = passwords::stored(sent);
        *password = kept;
    }
}

// A mode send with a status: where it is 0, its session is opened.
fn open_if(slots: &mut [u8; sessions::TABLE], line: u8, status: u8, payload: &[u8])
    requires { length payload.now ≡ mode_send_size }
    ensures { slots.new ≡ opened_if status slots.old line (mode_send_of payload.now) }
{
    if status == u8::from(ModeSendStatus::Accepted) {
        sessions::open_session(slots, line, mode_send_of(payload));
    }
}
