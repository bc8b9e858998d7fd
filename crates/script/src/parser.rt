// What a line of a script is; the words of a call are taken left to right, and the first that cannot be is told.
// The answer is the definition's: specs/Script.antt, specs/Answers.antt.
ghost use Rattle.std.specs.Prelude.{◌==◌, position, ◌≡◌, is_some};
ghost use Rattle.script.specs.Script.{space, byte_most, pair_most, ended, start_of, enrol_of, feed_of, close_of, finish_of, alone, show, table, call_of, is_remark, parse};
ghost use Rattle.script.specs.Answers.{Tells, TellsAny};
ghost use Rattle.script.specs.Code.{word_length, to_come, answered, WordAt, Numbered, TableAt, SessionAt, BytesAt};

use crate::{BadWord, Call, Words, hex, numbers};

// No line has more bytes.
pub const LONGEST: usize = 40000;

// No line has more in hexadecimal digits.
pub const DATA_MOST: usize = LONGEST / 2;

// TABLE: the whole buffer. Without the word the hub's table is lent.
pub const TABLE_MOST: usize = 16384;

pub const ROOM_MOST: usize = 8192;

// LINE and NODE.
const BYTE_MOST: usize = 255;

// TYPE.
const PAIR_MOST: usize = 65535;

const START: &[u8] = b"start";

const ENROL: &[u8] = b"enrol";

const FEED: &[u8] = b"feed";

const CLOSE: &[u8] = b"close";

const FINISH: &[u8] = b"finish";

const SHOW: &[u8] = b"show";

const NODES: &[u8] = b"table";

// What a line without its LF is. The bytes of its word are stored at the front of `bytes`, where those of any line fit.
pub fn parse(line: &[u8], bytes: &mut [u8; DATA_MOST]) -> Call
    ensures { Tells (parse line.now) bytes.new result }
{
    if LONGEST < line.len() {
        return Call::Long;
    }
    if is_remark(line) {
        return Call::Remark;
    }
    match called(Words { line, from: 0 }, bytes) {
        Ok(call) => call,
        Err(BadWord(word)) => Call::Bad { word },
    }
}

// An empty line, and one that begins with `#`.
fn is_remark(line: &[u8]) -> bool
    ensures { result ≡ is_remark line.now }
{
    line.is_empty() || line[0] == b'#'
}

// The call of a line's words: the first says which it is.
fn called(mut words: Words, bytes: &mut [u8; DATA_MOST]) -> Result<Call, BadWord>
    ensures { Tells (call_of (to_come words.entry)) bytes.new (answered result) }
{
    let word = words.next_word().ok_or(BadWord(1))?;
    // Stays: a `match` on the seven words leaves a goal for each byte at which two of them part.
    if word == START {
        return start(words, bytes);
    }
    if word == ENROL {
        return enrol(words);
    }
    if word == FEED {
        return feed(words, bytes);
    }
    if word == CLOSE {
        return close(words);
    }
    if word == FINISH {
        return finish(words);
    }
    if word == SHOW {
        return show(words);
    }
    if word == NODES {
        return nodes(words);
    }
    Err(BadWord(1))
}

// "start BYTES [TABLE]".
fn start(mut words: Words, bytes: &mut [u8; DATA_MOST]) -> Result<Call, BadWord>
    ensures { Tells (start_of (to_come words.entry)) bytes.new (answered result) }
{
    let len = words.bytes(bytes).ok_or(BadWord(2))?;
    let table = words.table().ok_or(BadWord(3))?;
    words.end().ok_or(BadWord(4))?;
    Ok(Call::Start { len, table })
}

// "enrol NODE TYPE [TABLE]".
fn enrol(mut words: Words) -> Result<Call, BadWord>
    ensures { TellsAny (enrol_of (to_come words.entry)) (answered result) }
{
    let node = words.byte().ok_or(BadWord(2))?;
    let kind = words.pair().ok_or(BadWord(3))?;
    let table = words.table().ok_or(BadWord(4))?;
    words.end().ok_or(BadWord(5))?;
    Ok(Call::Enrol { node, kind, table })
}

// "feed LINE ROOM BYTES [TABLE]".
fn feed(mut words: Words, bytes: &mut [u8; DATA_MOST]) -> Result<Call, BadWord>
    ensures { Tells (feed_of (to_come words.entry)) bytes.new (answered result) }
{
    let line = words.byte().ok_or(BadWord(2))?;
    let room = words.number(ROOM_MOST).ok_or(BadWord(3))?;
    let len = words.bytes(bytes).ok_or(BadWord(4))?;
    let table = words.table().ok_or(BadWord(5))?;
    words.end().ok_or(BadWord(6))?;
    Ok(Call::Feed {
        line,
        room,
        len,
        table,
    })
}

// "close LINE".
fn close(mut words: Words) -> Result<Call, BadWord>
    ensures { TellsAny (close_of (to_come words.entry)) (answered result) }
{
    let line = words.byte().ok_or(BadWord(2))?;
    words.end().ok_or(BadWord(3))?;
    Ok(Call::Close { line })
}

// "finish SESSION ROOM".
fn finish(mut words: Words) -> Result<Call, BadWord>
    ensures { TellsAny (finish_of (to_come words.entry)) (answered result) }
{
    let session = words.session().ok_or(BadWord(2))?;
    let room = words.number(ROOM_MOST).ok_or(BadWord(3))?;
    words.end().ok_or(BadWord(4))?;
    Ok(Call::Finish { session, room })
}

// "show".
fn show(words: Words) -> Result<Call, BadWord>
    ensures { TellsAny (alone show (ended (to_come words.entry))) (answered result) }
{
    words.end().ok_or(BadWord(2))?;
    Ok(Call::Show)
}

// "table".
fn nodes(words: Words) -> Result<Call, BadWord>
    ensures { TellsAny (alone table (ended (to_come words.entry))) (answered result) }
{
    words.end().ok_or(BadWord(2))?;
    Ok(Call::Table)
}

// Each method but `is_done` and `end` takes one word.
impl<'a> Words<'a> {
    // No word is left.
    fn is_done(&self) -> bool
        ensures { result ≡ ended (to_come self.now) }
    {
        self.line.len() < self.from
    }

    // The end of the line: no word may be left.
    fn end(&self) -> Option<()>
        ensures { is_some result ≡ ended (to_come self.now) }
    {
        self.is_done().then_some(())
    }

    // The word up to the next space, or to the line's end.
    fn next_word(&mut self) -> Option<&'a [u8]>
        ensures { WordAt self.old self.new result }
    {
        let text = self.line.get(self.from..)?;
        let end = word_length(text);
        self.from += end + 1;
        Some(&text[..end])
    }

    // The next word as a number.
    fn number(&mut self, most: usize) -> Option<usize>
        ensures { Numbered most (to_come self.old) (to_come self.new) result }
    {
        let word = self.next_word()?;
        numbers::number_in(word, most)
    }

    // The next word as a byte: LINE or NODE.
    fn byte(&mut self) -> Option<u8>
        ensures { Numbered byte_most (to_come self.old) (to_come self.new) result }
    {
        let number = self.number(BYTE_MOST)?;
        u8::try_from(number).ok()
    }

    // The next word as two bytes: TYPE.
    fn pair(&mut self) -> Option<u16>
        ensures { Numbered pair_most (to_come self.old) (to_come self.new) result }
    {
        let number = self.number(PAIR_MOST)?;
        u16::try_from(number).ok()
    }

    // The next word as a session.
    fn session(&mut self) -> Option<u16>
        ensures { SessionAt (to_come self.old) (to_come self.new) result }
    {
        let word = self.next_word()?;
        hex::session(word)
    }

    // The bytes of the next word, to the front of `out`; answers how many.
    fn bytes(&mut self, out: &mut [u8; DATA_MOST]) -> Option<usize>
        ensures { BytesAt (to_come self.old) out.new (to_come self.new) result }
    {
        let word = self.next_word()?;
        hex::decode(word, out)
    }

    // TABLE, or what is lent without it.
    fn table(&mut self) -> Option<usize>
        ensures { TableAt (to_come self.old) (to_come self.new) result }
    {
        if self.is_done() {
            return Some(nodes::TABLE);
        }
        self.number(TABLE_MOST)
    }
}

// How many bytes stand before the first space.
fn word_length(text: &[u8]) -> usize
    ensures { result ≡ word_length text.now }
{
    first_space(text).unwrap_or(text.len())
}

// Where the first space stands.
fn first_space(text: &[u8]) -> Option<usize>
    ensures { result ≡ position (λ b. b == space) text.now }
{
    text.iter().position(|b| *b == b' ')
}
