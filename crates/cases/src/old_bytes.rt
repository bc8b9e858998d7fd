// Passwords that end at 0, 1, 31 and 32, with old bytes behind them, on hubs made to keep old bytes too: entered, changed, started with.
use crate::PAGE;
use passwords::PASSWORD;
use rules::Hub;
use std::io::Stdout;
use text::{LINE_END, NOTHING, Page};

// Where the passwords end.
const ENDS: [usize; 4] = [0, 1, 31, 32];

// n times 7, a zero if there is room for it, and old bytes.
fn sevens(n: usize, old: u8) -> [u8; PASSWORD] {
    let mut bytes = [old; PASSWORD];
    memory::fill(&mut bytes, 0, n, 7);
    memory::fill(&mut bytes, n, 1, 0);
    bytes
}

// A hub that keeps a password of n bytes; line 0 is logged in exactly if `login` is 1.
fn keeping(n: usize, login: u8) -> Hub {
    Hub {
        password: sevens(n, 9),
        logins: [login, 0, 0, 0],
        slots: [0; sessions::TABLE],
    }
}

// The password that a hub keeps, behind the text so far.
fn show_kept(stdout: Stdout, page: &mut Page, state: Hub) {
    crate::counted(page, b"keeps ", &state.password, LINE_END);
    crate::print(stdout, page);
}

// A frame fed to the hub on line 0.
fn show_frame(stdout: Stdout, page: &mut Page, state: Hub, command: u16, payload: &[u8]) {
    let mut wire = [0u8; frame::ROOM];
    if let Ok(n) = frame::write(&mut wire, command, payload) {
        show_fed(stdout, page, state, &wire[..n.min(frame::ROOM)]);
    }
}

fn show_fed(stdout: Stdout, page: &mut Page, state: Hub, wire: &[u8]) {
    let mut table = [0u8; nodes::TABLE];
    let mut room = [transcript::FILLER; frame::ROOM];
    let fed = hub::feed_by_value(state, &mut table, line::emptied(), 0, wire, &mut room);
    transcript::feed_line(page, fed.answer, &room);
    show_kept(stdout, page, fed.hub);
}

fn show_entry(stdout: Stdout, sent: usize, kept: usize) {
    let mut out = [0; PAGE];
    let mut page = Page {
        out: &mut out,
        at: 0,
    };
    page.append_numbered(b"enter ", sent as u64, b" on ");
    page.append_numbered(NOTHING, kept as u64, b": ");
    show_frame(
        stdout,
        &mut page,
        keeping(kept, 0),
        0x3000,
        &sevens(sent, 5),
    );
}

fn show_change(stdout: Stdout, old: usize, new: usize, kept: usize) {
    let mut out = [0; PAGE];
    let mut page = Page {
        out: &mut out,
        at: 0,
    };
    page.append_numbered(b"change ", old as u64, b" to ");
    page.append_numbered(NOTHING, new as u64, b" on ");
    page.append_numbered(NOTHING, kept as u64, b": ");
    let mut halves = [0u8; 64];
    memory::copy(&mut halves, 0, &sevens(old, 5));
    memory::copy(&mut halves, PASSWORD, &sevens(new, 3));
    show_frame(stdout, &mut page, keeping(kept, 1), 0x3002, &halves);
}

fn show_start(stdout: Stdout, n: usize) {
    let mut out = [0; PAGE];
    let mut page = Page {
        out: &mut out,
        at: 0,
    };
    page.append_numbered(b"start ", n as u64, b": ");
    let mut table = [0u8; nodes::TABLE];
    let started = hub::start(keeping(2, 1), &mut table, &sevens(n, 3));
    show_kept(stdout, &mut page, started.hub);
}

fn show_entries(stdout: Stdout, kept: usize) {
    for sent in ENDS {
        show_entry(stdout, sent, kept);
    }
}

fn show_changes(stdout: Stdout, kept: usize) {
    for (old, new) in [(0, 1), (1, 31), (31, 32), (32, 0), (kept, kept)] {
        show_change(stdout, old, new, kept);
    }
}

// Every end of what is sent, on hubs that keep one of every end.
fn show_kept_ends(stdout: Stdout) {
    for kept in ENDS {
        show_entries(stdout, kept);
        show_changes(stdout, kept);
    }
}

fn show_starts(stdout: Stdout) {
    for n in ENDS {
        show_start(stdout, n);
    }
}

pub(crate) fn show(stdout: Stdout) {
    show_kept_ends(stdout);
    show_starts(stdout);
}
