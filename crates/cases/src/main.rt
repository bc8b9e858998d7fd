// Boundary cases of reading and of passwords, run and held to the file stdout: the line reader on wire bytes, whole and cut in two at every place,
// and on records that claim too much or skip at places that no bytes could leave; such records, lent to the hub;
// passwords with old bytes behind them (old_bytes.rt).
#![tactic(auto)]

mod old_bytes;

ghost use Rattle.std.specs.Prelude.{◌≤◌, length};

use frame::Cause;
use line::{DecodedPlace, Fault, FaultAt, Mode, PacketOutcome, Reading, WirePlace};
use rules::{AnsweredByValue, Told};
use std::io::{Print, Stdout};
use text::{COLON, GAP, LINE_END, NOTHING, PACKET, Page};

// A piece that has no room behind those before it is left out.
const PAGE: usize = 2048;

// An escaped END.
const PAIR: [u8; 2] = [line::ESC, line::ESC_END];

// Stays: twice, here and in `framing`, no plainer: one for both would be a public function that no one else calls.
// Where the output is not taken, the cases go on.
fn print(stdout: Stdout, page: &Page) {
    let _ = stdout.write_all(page.written());
}

// How many bytes there are, and the bytes, between two words.
fn counted(page: &mut Page, before: &[u8], bytes: &[u8], last: &[u8]) {
    page.bytes_line(before, bytes.len() as u64, GAP, bytes, last);
}

// The first n bytes of the record's array.
fn put_held(page: &mut Page, word: &[u8], reading: Reading, n: usize) {
    match reading.bytes.get(..n) {
        Some(held) => counted(page, word, held, NOTHING),
        None => page.append(b" too many"),
    }
}

fn put_outcome(page: &mut Page, outcome: PacketOutcome, reading: Reading) {
    match outcome {
        PacketOutcome::Nothing => {}
        PacketOutcome::Packet(n) => put_held(page, PACKET, reading, n),
        PacketOutcome::Refused(fault) => put_fault(page, b" refused ", fault),
    }
}

// A fault behind a word: its number, and where it is.
fn put_fault(page: &mut Page, word: &[u8], fault: FaultAt) {
    let cause = Cause::from(fault.fault);
    page.append_numbered(word, u64::from(frame::number(cause)), NOTHING);
    page.append_places(fault.at);
}

fn put_mode(page: &mut Page, mode: Mode) {
    match mode {
        Mode::Plain => page.append(b" plain"),
        Mode::Escaped => page.append(b" escaped"),
        Mode::Skipping(fault) => {
            put_fault(page, b" skipping ", fault);
            page.append(b" holds");
        }
    }
}

// The record as it was left: its mode, and the bytes that it claims.
fn put_reading(page: &mut Page, reading: Reading) {
    page.append(b" |");
    put_mode(page, reading.mode);
    put_held(page, GAP, reading, reading.count);
    page.append(LINE_END);
}

// Calls the reader until all bytes are used.
fn read_all(page: &mut Page, start: Reading, wire: &[u8]) -> Reading {
    let mut reading = start;
    let mut rest = wire;
    while !rest.is_empty() {
        let answer = line::read(reading, rest);
        reading = answer.reading;
        put_outcome(page, answer.outcome, reading);
        rest = &rest[answer.used..];
    }
    reading
}

// What the wire gives, read in two parts.
fn put_cut(page: &mut Page, wire: &[u8], place: usize)
    requires { place ≤ length wire.now }
{
    let half = read_all(page, line::emptied(), &wire[..place]);
    let whole = read_all(page, half, &wire[place..]);
    put_reading(page, whole);
}

fn cut_agrees(wire: &[u8], place: usize, whole: &[u8]) -> bool
    requires { place ≤ length wire.now }
{
    let mut out = [0; PAGE];
    let mut page = Page {
        out: &mut out,
        at: 0,
    };
    put_cut(&mut page, wire, place);
    page.written() == whole
}

fn cuts_agree(wire: &[u8], whole: &[u8]) -> bool {
    (0..wire.len()).all(|place| cut_agrees(wire, place, whole))
}

fn show_cuts(stdout: Stdout, wire: &[u8]) {
    let mut out = [0; PAGE];
    let mut page = Page {
        out: &mut out,
        at: 0,
    };
    put_cut(&mut page, wire, wire.len());
    print(stdout, &page);
    if !cuts_agree(wire, page.written()) {
        let _ = stdout.write_all(b"differs where it is cut\n");
    }
}

// The wire is an END, so many escaped ENDs, n times 55, then `tail`.
fn show_case(stdout: Stdout, name: &[u8], pairs: usize, n: usize, tail: &[u8]) {
    let mut out = [0; PAGE];
    let mut wire = Page {
        out: &mut out,
        at: 0,
    };
    wire.append(&[line::END]);
    for _ in 0..pairs {
        wire.append(&PAIR);
    }
    for _ in 0..n {
        wire.append(&[0x55]);
    }
    wire.append(tail);
    let _ = stdout.write_all(name);
    show_cuts(stdout, wire.written());
}

// Name, n and tail of wires without pairs.
const WIRES: [(&[u8], usize, &[u8]); 17] = [
    (b"P2", 0, b"\xC0\xC0"),
    (b"P7", 0, b"\xDB\xC0"),
    (b"ESC ESC", 0, b"\xDB\xDB\xC0"),
    (b"DC and DD outside an escape", 0, b"\xDC\xDD\xDC\xC0"),
    (
        b"escapes and an empty piece",
        0,
        b"\x01\xDB\xDC\xDB\xDD\x02\xC0\xC0\x03\xC0",
    ),
    (b"open in an escape", 0, b"\x01\xDB"),
    (b"open after a wrong escape", 0, b"\x01\xDB\x02"),
    (
        b"wrong escape, then a frame's bytes",
        0,
        b"\x11\xDB\x22\x00\x03\x00\x01\x02\xC0\x33\xC0",
    ),
    (b"255 decoded bytes", 255, b"\xC0"),
    (b"256 decoded bytes", 256, b"\xC0"),
    (b"the 255th decoded byte escaped", 254, b"\xDB\xDC\xC0"),
    (b"ESC at 255, open", 255, b"\xDB"),
    (b"ESC at 255, then END", 255, b"\xDB\xC0"),
    (b"ESC at 255, then DC", 255, b"\xDB\xDC\xC0"),
    (b"ESC at 255, then another byte", 255, b"\xDB\xDE\xC0"),
    (
        b"256 bytes, then a frame's bytes",
        256,
        b"\x00\x03\x00\x01\x02\xC0\x33\xC0",
    ),
    (b"open after 256 bytes", 256, b"\x01"),
];

fn show_wires(stdout: Stdout) {
    for (name, n, tail) in WIRES {
        show_case(stdout, name, 0, n, tail);
    }
}

// Name, pairs, n and tail.
const ESCAPED_WIRES: [(&[u8], usize, usize, &[u8]); 11] = [
    (b"escapes before a wrong escape", 2, 1, b"\xDB\x00\x05\xC0"),
    (
        b"escapes behind a wrong escape",
        0,
        1,
        b"\xDB\x07\xDB\xDC\xDB\xDB\xC0",
    ),
    (b"ESC behind 255 escaped, then END", 255, 0, b"\xDB\xC0"),
    (
        b"ESC behind 255 escaped, then another byte",
        255,
        0,
        b"\xDB\x01\xC0",
    ),
    (b"255 decoded bytes, 100 escaped", 100, 155, b"\xC0"),
    (b"255 decoded bytes, all escaped", 255, 0, b"\xC0"),
    (b"256 decoded bytes, 100 escaped", 100, 155, b"\x01\xC0"),
    (b"256 decoded bytes, all escaped", 256, 0, b"\xC0"),
    (
        b"256 decoded bytes, all but the last escaped",
        255,
        0,
        b"\x01\xC0",
    ),
    (
        b"256 decoded bytes, escapes behind",
        0,
        256,
        b"\xDB\xDC\xDB\xDD\xC0",
    ),
    (b"open after 256 escaped bytes", 256, 0, b"\xDB"),
];

fn show_escaped_wires(stdout: Stdout) {
    for (name, pairs, n, tail) in ESCAPED_WIRES {
        show_case(stdout, name, pairs, n, tail);
    }
}

// A record of any mode that claims so many bytes, all of them 55.
fn claiming(mode: Mode, count: usize) -> Reading {
    Reading {
        bytes: [0x55; line::LIMIT],
        count,
        mode,
    }
}

// A lent record of any mode and count, in one call on some bytes.
fn show_record(stdout: Stdout, mode: Mode, count: usize, wire: &[u8]) {
    let mut out = [0; PAGE];
    let mut page = Page {
        out: &mut out,
        at: 0,
    };
    put_title(&mut page, b"record", mode, count);
    counted(&mut page, b" reads ", wire, COLON);
    let answer = line::read(claiming(mode, count), wire);
    put_outcome(&mut page, answer.outcome, answer.reading);
    put_reading(&mut page, answer.reading);
    print(stdout, &page);
}

fn put_title(page: &mut Page, word: &[u8], mode: Mode, count: usize) {
    page.append(word);
    put_mode(page, mode);
    page.append_numbered(GAP, count as u64, NOTHING);
}

// The same count in every mode.
fn show_modes(stdout: Stdout, count: usize, wire: &[u8]) {
    let modes = [
        Mode::Plain,
        Mode::Escaped,
        skipping(Fault::WrongEscape, 7, 3),
        skipping(Fault::TooLong, 300, 255),
    ];
    for mode in modes {
        show_record(stdout, mode, count, wire);
    }
}

// A record that skips for a fault at these places.
fn skipping(fault: Fault, wire: u16, decoded: u16) -> Mode {
    let at = line::places_at(WirePlace(wire), DecodedPlace(decoded));
    Mode::Skipping(FaultAt { fault, at })
}

fn show_counts(stdout: Stdout, wire: &[u8]) {
    for count in [0, 3, 255, 256, usize::MAX] {
        show_modes(stdout, count, wire);
    }
}

// Wire and decoded places at which a record may skip, at their bounds and one beyond each.
const ESCAPE_BOUNDS: [(u16, u16); 14] = [
    (0, 0),
    (1, 0),
    (2, 0),
    (3, 3),
    (4, 3),
    (7, 3),
    (8, 3),
    (255, 255),
    (256, 255),
    (511, 255),
    (512, 255),
    (257, 256),
    (0, 65535),
    (65535, 65535),
];

const LONG_BOUNDS: [(u16, u16); 7] = [
    (254, 255),
    (255, 255),
    (510, 255),
    (511, 255),
    (254, 254),
    (256, 256),
    (65535, 255),
];

// Records that skip there, read up to an END.
fn show_bounds(stdout: Stdout, fault: Fault, bounds: &[(u16, u16)]) {
    for (wire, decoded) in bounds {
        show_record(stdout, skipping(fault, *wire, *decoded), 0, b"\xC0");
    }
}

// Impossible places with bytes claimed.
fn show_claimed_bounds(stdout: Stdout) {
    for count in [1, 255, 256] {
        show_record(stdout, skipping(Fault::WrongEscape, 8, 3), count, b"\xC0");
        show_record(stdout, skipping(Fault::TooLong, 511, 255), count, b"\xC0");
    }
}

// A lent record of any mode and count, fed to a hub before any start: the bytes of P3 behind its first END.
fn show_fed(stdout: Stdout, mode: Mode, count: usize) {
    let mut table = [0u8; nodes::TABLE];
    let mut room = [transcript::FILLER; frame::ROOM];
    let wire = b"\x00\x03\x00\x01\x02\xC0";
    let fed = hub::feed_by_value(
        hub::first(),
        &mut table,
        claiming(mode, count),
        0,
        wire,
        &mut room,
    );
    show_told(stdout, mode, count, fed, &room);
}

fn show_told(stdout: Stdout, mode: Mode, count: usize, fed: AnsweredByValue<Told>, room: &[u8]) {
    let mut out = [0; PAGE];
    let mut page = Page {
        out: &mut out,
        at: 0,
    };
    put_title(&mut page, b"hub", mode, count);
    put_reading(&mut page, fed.reading);
    transcript::feed_line(&mut page, fed.answer, room);
    print(stdout, &page);
}

// Records that the hub takes as emptied, and as skipping with none.
fn show_hub(stdout: Stdout) {
    show_fed(stdout, Mode::Plain, 0);
    show_fed(stdout, Mode::Plain, 256);
    show_fed(stdout, Mode::Escaped, 256);
    show_fed(stdout, skipping(Fault::WrongEscape, 7, 3), 3);
    show_fed(stdout, skipping(Fault::TooLong, 300, 255), 256);
    show_fed(stdout, skipping(Fault::WrongEscape, 8, 3), 0);
}

fn main(rt: HostRuntime) {
    let stdout = rt.stdout();
    show_wires(stdout);
    show_escaped_wires(stdout);
    show_counts(stdout, b"");
    show_counts(stdout, b"\xC0");
    show_counts(stdout, b"\xDC\xC0");
    show_bounds(stdout, Fault::WrongEscape, &ESCAPE_BOUNDS);
    show_bounds(stdout, Fault::TooLong, &LONG_BOUNDS);
    show_claimed_bounds(stdout);
    show_hub(stdout);
    old_bytes::show(stdout);
}
