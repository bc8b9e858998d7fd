// The script of `replay`: what a line of text is, its call and the bytes of its word.
// Every answer is the definition's (specs/Script.antt, specs/Answers.antt); of a line that is not exactly right, the first word that cannot be taken is told.
// It stands on the definitions of bytes compared and stored (`memory`), on the characters of `text`, and on the size of the node table.
#![tactic(auto)]

ghost use Rattle.std.specs.Prelude.{◌≤◌, length};
ghost use Rattle.script.specs.Script.{longest};

mod hex;
mod numbers;
mod parser;

pub use parser::{DATA_MOST, LONGEST, ROOM_MOST, TABLE_MOST, parse};

// What a line is: a call, a remark, bad from a word on, or too long. The bytes of a call are the first `len` of those that were lent for them.
#[derive(Clone, Copy)]
pub enum Call {
    Start {
        len: usize,
        table: usize,
    },
    Enrol {
        node: u8,
        kind: u16,
        table: usize,
    },
    Feed {
        line: u8,
        room: usize,
        len: usize,
        table: usize,
    },
    Close {
        line: u8,
    },
    Finish {
        session: u16,
        room: usize,
    },
    Show,
    Table,
    Remark,
    Bad {
        word: u8,
    },
    Long,
}

// The first word that cannot be taken, counted from 1.
#[derive(Clone, Copy)]
pub(crate) struct BadWord(u8);

// The words of a line that are still to come: the next starts at `from`, and behind the line's end is none. The bytes of each fit where `parse` stores them.
#[derive(Clone, Copy)]
pub(crate) struct Words<'a> {
    line: &'a [u8],
    from: usize,
    ghost short: { length line.now ≤ longest },
}
