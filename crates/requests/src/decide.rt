// The requests: a frame on a line is judged, and what is answered to it is decided (document 01, "The command directory", "What the commands
// do"). Nothing is changed here. The reply is the definition's, and so are hub and table once it is carried out: crate rules, specs/Hub.antt:
// respond.
ghost use Rattle.std.specs.Prelude.{◌≡◌, ◌+◌, ◌≤◌, length, take, drop, None};
ghost use Rattle.frame.specs.Frame.{frame};
ghost use Rattle.nodes.specs.Table.{node_status};
ghost use Rattle.sessions.specs.Sessions.{mode_send_size, mode_send_of};
ghost use Rattle.directory.specs.Lookup.{verdict};
ghost use Rattle.rules.specs.Hub.{password_size, may_ask, request, respond};
ghost use Rattle.replies.specs.declared.Reply.TheVariants.{NameSet, OrderAndPlacementSet};
ghost use Rattle.requests.specs.Answers.{Decides, answered, error_for, password_status, varied, confirmed};

use directory::CommandError;
use replies::Reply;
use rules::Hub;
use sessions::ModeSend;

// The request that a line may ask before it is logged in.
// Stays: requests are numbers, for an enum would be no plainer: a frame's command is any number, and what is not served has none to be named by.
const PASSWORD_ENTER: u16 = 0x3000;

const PASSWORD_CHANGE: u16 = 0x3002;

// What the error frame tells, with its byte.
#[derive(Clone, Copy, PartialEq, Eq, Debug)]
pub(crate) enum RequestError {
    UnknownCommand = 1,
    Frame = 2,
    NotLoggedIn = 12,
}

// The status of a password request, with its byte.
#[derive(Clone, Copy, PartialEq, Eq, Debug)]
pub(crate) enum PasswordStatus {
    Correct = 0,
    Incorrect = 1,
}

// A command that the directory refuses, as the error frame tells it.
impl From<CommandError> for RequestError {
    ghost from_gives = { λ refused error. error ≡ error_for refused };

    fn from(refused: CommandError) -> RequestError {
        match refused {
            CommandError::Unknown => RequestError::UnknownCommand,
            CommandError::WrongLength => RequestError::Frame,
        }
    }
}

// The order of document 01: command unknown, length outside its range, not logged in, not served.
pub(crate) fn decide(
    hub: &Hub,
    table: &[u8],
    line: u8,
    command: u16,
    payload: &[u8],
) -> Result<Reply, RequestError>
    ensures { Decides (respond hub.now table.now line (frame command payload.now)) hub.now table.now line payload.now (answered result) }
{
    directory::judge(command, payload.len())?;
    if !may_ask(hub, line, command) {
        return Err(RequestError::NotLoggedIn);
    }
    request(hub, table, line, command, payload)
}

fn may_ask(hub: &Hub, line: u8, command: u16) -> bool
    ensures { result ≡ may_ask hub.now.logins line command }
{
    rules::is_logged_in(hub.logins, line) || command == PASSWORD_ENTER
}

// A request by its number. SceneDeleted is 0.
fn request(
    hub: &Hub,
    table: &[u8],
    line: u8,
    command: u16,
    payload: &[u8],
) -> Result<Reply, RequestError>
    requires { verdict command (length payload.now) ≡ None }
    ensures { Decides (request hub.now table.now line command payload.now) hub.now table.now line payload.now (answered result) }
{
    match command {
        PASSWORD_ENTER => Ok(Reply::PasswordEntered(password_status(hub, payload))),
        PASSWORD_CHANGE => Ok(Reply::PasswordChanged(password_status(hub, payload))),
        0x0200 => Ok(Reply::AboutNode(payload[0])),
        0x0206 => Ok(set_variation(table, payload)),
        0x0208 => Ok(set_name(table, payload[0])),
        0x020D => Ok(set_order_and_placement(table, payload[0])),
        0x0106 => Ok(Reply::NodesRemoved(0)),
        0x0108 => Ok(Reply::VirginStateSet),
        0x0320 => Ok(mode_send(hub, table, mode_send_of(payload))),
        _ => Err(RequestError::UnknownCommand),
    }
}

// The data of both password requests begin with the password that is given.
fn password_status(hub: &Hub, payload: &[u8]) -> u8
    requires { password_size ≤ length payload.now }
    ensures { result ≡ password_status hub.now.password (take password_size payload.now) }
{
    let given = password_at(payload, 0);
    if passwords::is_same(given, hub.password) {
        PasswordStatus::Correct as u8
    } else {
        PasswordStatus::Incorrect as u8
    }
}

// The 32 bytes of a password in a request's data.
pub(crate) fn password_at(payload: &[u8], start: usize) -> [u8; passwords::PASSWORD]
    requires { start + password_size ≤ length payload.now }
    ensures { result ≡ take password_size (drop start payload.now) }
{
    let mut bytes = [0u8; passwords::PASSWORD];
    bytes.copy_from_slice(&payload[start..start + passwords::PASSWORD]);
    bytes
}

fn set_variation(table: &[u8], payload: &[u8]) -> Reply
    requires { length payload.now ≡ 2 }
    ensures { result ≡ varied table.now payload.now }
{
    let node = payload[0];
    let status = u8::from(nodes::variation_status(table, node, payload[1]));
    Reply::VariationSet { status, node }
}

fn set_name(table: &[u8], node: u8) -> Reply
    ensures { result ≡ NameSet (node_status table.now node) node }
{
    let status = u8::from(nodes::status(table, node));
    Reply::NameSet { status, node }
}

fn set_order_and_placement(table: &[u8], node: u8) -> Reply
    ensures { result ≡ OrderAndPlacementSet (node_status table.now node) node }
{
    let status = u8::from(nodes::status(table, node));
    Reply::OrderAndPlacementSet { status, node }
}

fn mode_send(hub: &Hub, table: &[u8], asked: ModeSend) -> Reply
    ensures { result ≡ confirmed hub.now.slots table.now asked }
{
    let session = asked.session;
    let status = u8::from(sessions::status(&hub.slots, table, asked));
    Reply::ModeSendConfirmed { session, status }
}

// What the data of a mode send ask for.
pub(crate) fn mode_send_of(payload: &[u8]) -> ModeSend
    requires { length payload.now ≡ mode_send_size }
    ensures { result ≡ mode_send_of payload.now }
{
    let mut asked = [0u8; sessions::MODE_SEND];
    asked.copy_from_slice(payload);
    sessions::mode_send_of(asked)
}
