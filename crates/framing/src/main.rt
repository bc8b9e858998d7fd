// Boundary cases of frames, run and held to the file stdout: frames measured, the frame writer at its limits, each frame that it writes read back;
// packets through their view, those that are accepted from the wire and through a lent record; where a refused packet broke.
#![tactic(auto)]

ghost use Rattle.frame.specs.Reader.{taken, read};
ghost use Rattle.frame.specs.Answers.{Answers};

use frame::{Answer, FrameOutcome, LongData, WriteRefusal};
use line::Reading;
use std::io::{Print, Stdout};
use text::{COLON, DATA, GAP, LINE_END, NOTHING, PACKET, Page};

// A frame's command and `len` times the same data byte, by a name.
#[derive(Clone, Copy)]
struct Sample<'a> {
    name: &'a [u8],
    command: u16,
    byte: u8,
    len: usize,
}

impl<'a> Sample<'a> {
    fn new(name: &'a [u8], command: u16, byte: u8, len: usize) -> Sample<'a> {
        Sample {
            name,
            command,
            byte,
            len,
        }
    }
}

// A piece that has no room behind those before it is left out.
const PAGE: usize = 2048;

// One data byte more than a frame has.
const LONG: usize = frame::DATA + 1;

// What stands in a room before it is written.
const FILLER: u8 = 0xA5;

// Stays: twice, here and in `cases`, no plainer: one for both would be a public function that no one else calls.
// Where the output is not taken, the cases go on.
fn print(stdout: Stdout, page: &Page) {
    let _ = stdout.write_all(page.written());
}

// How many bytes there are, and the bytes, between two words.
fn counted(page: &mut Page, before: &[u8], bytes: &[u8], last: &[u8]) {
    page.bytes_line(before, bytes.len() as u64, GAP, bytes, last);
}

// The first n bytes of the room, whether the bytes behind them are as they lay, and what reading them gives.
fn put_written(page: &mut Page, room: &[u8], n: usize) {
    let Some(wire) = room.get(..n) else {
        return;
    };
    counted(page, b" writes ", wire, LINE_END);
    if report::spilled(room, n, FILLER) {
        page.append(b"spilled\n");
    }
    let answer = frame::read(frame::emptied(), wire);
    lister::outcome_line(page, answer.outcome);
}

fn put_answer(page: &mut Page, answer: Result<usize, WriteRefusal>, room: &[u8]) {
    match answer {
        Ok(n) => put_written(page, room, n),
        Err(WriteRefusal::ShortRoom) => put_refused(page, 9, room),
        Err(WriteRefusal::LongData) => put_refused(page, 10, room),
    }
}

fn put_refused(page: &mut Page, number: u8, room: &[u8]) {
    page.append(GAP);
    report::refused_line(page, number, report::spilled(room, 0, FILLER));
}

// The sample written into a room, behind the text so far.
fn show_frame(stdout: Stdout, page: &mut Page, room: &mut [u8], sample: Sample) {
    let bytes = [sample.byte; LONG];
    let Some(payload) = bytes.get(..sample.len) else {
        return;
    };
    let answer = frame::write(room, sample.command, payload);
    page.append(sample.name);
    put_answer(page, answer, room);
    print(stdout, page);
}

fn show_right_room(stdout: Stdout, sample: Sample) {
    let mut room = [FILLER; frame::ROOM];
    let mut out = [0; PAGE];
    let mut page = Page {
        out: &mut out,
        at: 0,
    };
    show_frame(stdout, &mut page, &mut room, sample);
}

// The same in room of `space` bytes.
fn show_in(stdout: Stdout, space: usize, sample: Sample) {
    let mut bytes = [FILLER; frame::ROOM];
    let Some(room) = bytes.get_mut(..space) else {
        return;
    };
    let mut out = [0; PAGE];
    let mut page = Page {
        out: &mut out,
        at: 0,
    };
    page.append_numbered(b"room ", space as u64, b", ");
    show_frame(stdout, &mut page, room, sample);
}

fn show_rooms(stdout: Stdout, sample: Sample, spaces: &[usize]) {
    for space in spaces {
        show_in(stdout, *space, sample);
    }
}

fn put_measured(page: &mut Page, answer: Result<usize, LongData>) {
    match answer {
        Ok(n) => page.append_numbered(b" measures ", n as u64, LINE_END),
        Err(LongData) => put_refused(page, 10, NOTHING),
    }
}

// The room that the sample takes.
fn show_measured(stdout: Stdout, sample: Sample) {
    let bytes = [sample.byte; LONG];
    let Some(payload) = bytes.get(..sample.len) else {
        return;
    };
    let mut out = [0; PAGE];
    let mut page = Page {
        out: &mut out,
        at: 0,
    };
    page.append(sample.name);
    put_measured(&mut page, frame::measure(sample.command, payload));
    print(stdout, &page);
}

fn put_place(page: &mut Page, answer: Result<usize, WriteRefusal>) {
    match answer {
        Ok(k) => page.append_numbered(b" up to ", k as u64, NOTHING),
        Err(WriteRefusal::ShortRoom) => page.append(b" does not fit"),
        Err(WriteRefusal::LongData) => page.append(b" data too long"),
    }
}

// n times ESC as data, written from a place on into 13 bytes.
fn show_at(stdout: Stdout, start: usize, n: usize) {
    let bytes = [frame::ESC; LONG];
    let Some(payload) = bytes.get(..n) else {
        return;
    };
    let mut room = [FILLER; 13];
    let answer = frame::write_at(&mut room, start, 0x0102, payload);
    let mut out = [0; PAGE];
    let mut page = Page {
        out: &mut out,
        at: 0,
    };
    page.append_numbered(b"room 13, from ", start as u64, DATA);
    page.append_numbered(NOTHING, n as u64, COLON);
    put_place(&mut page, answer);
    counted(&mut page, b", room ", &room, LINE_END);
    print(stdout, &page);
}

fn show_frames(stdout: Stdout) {
    let samples = [
        Sample::new(b"P3", 0x0001, 0, 0),
        Sample::new(b"data C0 C0", 0x0206, 0xC0, 2),
        Sample::new(b"data DB DB", 0x0206, 0xDB, 2),
        Sample::new(b"check byte C0", 0x0206, 0xC0, 1),
        Sample::new(b"check byte DB", 0x0206, 0xDB, 1),
        Sample::new(b"command C0DB", 0xC0DB, 0, 0),
        Sample::new(b"length byte C0", 0x0206, 0x55, 189),
        Sample::new(b"length byte DB", 0x0206, 0x55, 216),
        Sample::new(b"250 data bytes", 0xFFFF, 0x55, 250),
        Sample::new(b"251 data bytes", 0x0206, 0x55, 251),
    ];
    for sample in samples {
        show_right_room(stdout, sample);
    }
}

// The room that a sample takes, and the sample in rooms of so many bytes.
fn show_rooms_of(stdout: Stdout, sample: Sample, spaces: &[usize]) {
    show_measured(stdout, sample);
    show_rooms(stdout, sample, spaces);
}

// Room of no byte, of one byte too few, of the wire form's length and of more.
fn show_plain_rooms(stdout: Stdout) {
    show_rooms_of(
        stdout,
        Sample::new(b"P3", 0x0001, 0, 0),
        &[0, 6, 7, 8, 11, 12],
    );
}

// The same where bytes are escaped: data and check byte, the check byte alone, the length byte.
fn show_escaped_rooms(stdout: Stdout) {
    let both = Sample::new(b"data C0, check byte C0", 0x0206, 0xC0, 1);
    show_rooms_of(stdout, both, &[8, 9, 10, 11]);
    let check = Sample::new(b"check byte C0 alone", 0xC300, 0, 0);
    show_rooms_of(stdout, check, &[7, 8, 9]);
    let length = Sample::new(b"length byte C0", 0x0206, 0x55, 189);
    show_rooms_of(stdout, length, &[196, 197]);
}

// The longest frames: 250 plain bytes, 216 and 250 that are doubled, and 251, whatever the room.
fn show_long_rooms(stdout: Stdout) {
    let plain = Sample::new(b"250 data bytes", 0xFFFF, 0x55, 250);
    show_rooms(stdout, plain, &[256, 257]);
    let doubled = Sample::new(b"216 data bytes C0", 0xC0C0, 0xC0, 216);
    show_rooms_of(stdout, doubled, &[442, 443]);
    let longest = Sample::new(b"250 data bytes C0", 0xC0C0, 0xC0, 250);
    show_rooms_of(stdout, longest, &[508, 509, 511, 512]);
    let long = Sample::new(b"251 data bytes", 0x0206, 0x55, 251);
    show_rooms_of(stdout, long, &[0, 511]);
}

fn show_places(stdout: Stdout) {
    for (start, n) in [(4, 1), (5, 1), (13, 0), (14, 0), (usize::MAX, 0), (0, 251)] {
        show_at(stdout, start, n);
    }
}

// A packet, and what its view shows.
fn show_view(stdout: Stdout, name: &[u8], packet: &[u8]) {
    let view = frame::show(packet);
    let mut out = [0; PAGE];
    let mut page = Page {
        out: &mut out,
        at: 0,
    };
    page.append(name);
    counted(&mut page, PACKET, packet, b" shows ");
    page.bytes_line(
        NOTHING,
        u64::from(frame::command(view)),
        DATA,
        frame::data(view),
        b" refusal ",
    );
    page.append_numbered(NOTHING, u64::from(frame::refusal(view)), NOTHING);
    page.append_places(frame::broken_at(view));
    page.append(LINE_END);
    print(stdout, &page);
}

// Wire bytes, read on a record that is lent for the call.
fn read_lent(reading: Reading, wire: &[u8]) -> Answer<FrameOutcome>
    ensures { Answers (read (taken reading) wire.now) result }
{
    let mut lent = reading;
    let told = frame::read_frame(&mut lent, wire);
    Answer {
        used: told.used,
        outcome: told.outcome,
        reading: lent,
    }
}

// Wire bytes and their outcome; a frame's packet is viewed where it stands in the record's array.
fn show_wire(stdout: Stdout, name: &[u8], wire: &[u8]) {
    let answer = read_lent(frame::emptied(), wire);
    show_outcome(stdout, name, wire, answer.outcome);
    if let FrameOutcome::Frame { command: _, len } = answer.outcome {
        show_view(stdout, name, &answer.reading.bytes[..len + frame::AROUND]);
    }
}

fn show_outcome(stdout: Stdout, name: &[u8], wire: &[u8], outcome: FrameOutcome) {
    let mut out = [0; PAGE];
    let mut page = Page {
        out: &mut out,
        at: 0,
    };
    page.append(name);
    counted(&mut page, b" wire ", wire, GAP);
    lister::outcome_line(&mut page, outcome);
    print(stdout, &page);
}

// P3 to P6, and the frame 0000 without data.
const WIRES: [(&[u8], &[u8]); 5] = [
    (b"P3", b"\xC0\x00\x03\x00\x01\x02\xC0"),
    (b"P4", b"\xC0\x00\x05\x02\x06\xDB\xDC\x00\xC1\xC0"),
    (b"P5", b"\xC0\x00\x05\x02\x06\xC1\x00\xDB\xDC\xC0"),
    (b"P6", b"\xC0\x00\x05\x02\x06\xDB\xDD\x00\xDA\xC0"),
    (b"0000", b"\xC0\x00\x03\x00\x00\x03\xC0"),
];

const REFUSED_WIRES: [(&[u8], &[u8]); 4] = [
    (b"P8", b"\xC0\x00\x03\x00\x03\xC0"),
    (b"P9", b"\xC0\x01\x03\x00\x01\x03\xC0"),
    (b"P10", b"\xC0\x00\x04\x00\x01\x05\xC0"),
    (b"P11", b"\xC0\x00\x03\x00\x01\x03\xC0"),
];

// Wire bytes that break, with escapes before, at and behind the place that is told: an escaped byte's is its ESC's.
const SHORT_WIRES: [(&[u8], &[u8]); 4] = [
    (b"too short behind an escape", b"\xC0\xDB\xDC\x01\xC0"),
    (
        b"too short, its last byte escaped",
        b"\xC0\x00\x03\xDB\xDD\xC0",
    ),
    (
        b"protocol byte escaped",
        b"\xC0\xDB\xDC\x03\x00\x01\x02\xC0",
    ),
    (
        b"wrong protocol, escapes behind",
        b"\xC0\x01\x03\xDB\xDC\xDB\xDD\x02\xC0",
    ),
];

// The length byte claims one byte too many, one too few, and less than any frame has.
const LENGTH_WIRES: [(&[u8], &[u8]); 7] = [
    (b"below its length", b"\xC0\x00\x04\xDB\xDC\x01\xDB\xDD\xC0"),
    (
        b"beyond its length",
        b"\xC0\x00\x03\xDB\xDC\x01\x02\x55\xC0",
    ),
    (
        b"beyond, at an escape",
        b"\xC0\x00\x03\x00\x01\x02\xDB\xDC\xC0",
    ),
    (
        b"beyond, escapes behind",
        b"\xC0\x00\x03\x00\x01\x02\x55\xDB\xDC\xDB\xDD\xC0",
    ),
    (b"length 0", b"\xC0\x00\x00\xDB\xDC\x01\x02\xC0"),
    (b"length 1", b"\xC0\x00\x01\xDB\xDC\x01\x02\xC0"),
    (b"length 2", b"\xC0\x00\x02\xDB\xDC\xDB\xDD\x02\xC0"),
];

const CHECK_WIRES: [(&[u8], &[u8]); 2] = [
    (b"check byte escaped", b"\xC0\x00\x03\x00\x01\xDB\xDC\xC0"),
    (
        b"check byte behind an escape",
        b"\xC0\x00\x03\xDB\xDC\x01\x00\xC0",
    ),
];

fn show_wires(stdout: Stdout, cases: &[(&[u8], &[u8])]) {
    for (name, wire) in cases {
        show_wire(stdout, *name, *wire);
    }
}

// Refused packets.
const EMPTY_VIEWS: [(&[u8], &[u8]); 5] = [
    (b"P8", b"\x00\x03\x00\x03"),
    (b"P9", b"\x01\x03\x00\x01\x03"),
    (b"P10", b"\x00\x04\x00\x01\x05"),
    (b"P11", b"\x00\x03\x00\x01\x03"),
    (b"no bytes", b""),
];

// A view's wire place is that in the packet's one escaped form.
const BROKEN_VIEWS: [(&[u8], &[u8]); 5] = [
    (b"below its length", b"\x00\x04\xC0\x01\xDB"),
    (b"beyond its length", b"\x00\x03\xC0\x01\x02\x55"),
    (b"beyond, at an escape", b"\x00\x03\x00\x01\x02\xC0"),
    (b"length 2", b"\x00\x02\xC0\xDB\x02"),
    (b"check byte behind an escape", b"\x00\x03\xC0\x01\x00"),
];

fn show_views(stdout: Stdout, cases: &[(&[u8], &[u8])]) {
    for (name, packet) in cases {
        show_view(stdout, *name, *packet);
    }
}

// The greatest places: 256 bytes, and 255 of which the check byte is wrong.
fn show_long_views(stdout: Stdout) {
    show_long(stdout, b"none escaped", 0);
    show_long(stdout, b"some escaped", 100);
    show_long(stdout, b"the data escaped", 252);
    show_view(stdout, b"all escaped", &[frame::END; 256]);
}

// n bytes behind the length byte are escaped.
fn show_long(stdout: Stdout, name: &[u8], n: usize) {
    let mut packet = [0x55u8; 256];
    packet[0] = 0;
    packet[1] = 253;
    memory::fill(&mut packet, 2, n, frame::END);
    show_view(stdout, name, &packet[0..255]);
    show_view(stdout, name, &packet);
}

fn main(rt: HostRuntime) {
    let stdout = rt.stdout();
    show_frames(stdout);
    show_plain_rooms(stdout);
    show_escaped_rooms(stdout);
    show_long_rooms(stdout);
    show_places(stdout);
    show_wires(stdout, &WIRES);
    show_wires(stdout, &REFUSED_WIRES);
    show_wires(stdout, &SHORT_WIRES);
    show_wires(stdout, &LENGTH_WIRES);
    show_wires(stdout, &CHECK_WIRES);
    show_views(stdout, &EMPTY_VIEWS);
    show_views(stdout, &BROKEN_VIEWS);
    show_long_views(stdout);
}
