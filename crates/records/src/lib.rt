// The record stream ("Records and the runner"): the record at a place of it, and a reader that keeps the stream with its place.
//
//     TK   C, D, T of 4 bytes each        14 bytes in all      a task of the table
//     RL   a reading, a task byte          7                   release
//     DN   a reading, a task byte          7                   done
//     TM   a reading                       6                   clock
//
// Numbers are little-endian. Each function takes a few steps.
#![tactic(auto)]

ghost use Rattle.std.specs.Prelude.{◌≡◌, ◌+◌, ◌-◌, ◌≤◌, length, IfErr};
ghost use Rattle.std.specs.Iterator.{at_most};
ghost use Rattle.rules.specs.Records.{word, record_at};
ghost use Rattle.records.specs.Read.{mark_in, size_in, says_in, read_as, found_in};

use kernel::{Call, Task, TaskNo};

// The two bytes before a record.
#[derive(Clone, Copy)]
enum Mark {
    Task,
    Release,
    Done,
    Clock,
}

// What a record says: a task of the table, or an event, "calls (release, done, clock)".
#[derive(Clone, Copy)]
pub enum Record {
    Task(Task),
    Event(Call),
}

// "unknown mark, or a record cut off": at this offset.
#[derive(Clone, Copy, Debug, PartialEq, Eq)]
pub struct Unreadable(pub usize);

impl Mark {
    // The table of marks: the two bytes,
    fn of(first: u8, second: u8) -> Option<Mark>
        ensures { result ≡ mark_in first second }
    {
        match (first, second) {
            (b'T', b'K') => Some(Mark::Task),
            (b'R', b'L') => Some(Mark::Release),
            (b'D', b'N') => Some(Mark::Done),
            (b'T', b'M') => Some(Mark::Clock),
            _ => None,
        }
    }

    // and how many bytes the record has with them.
    fn size(self) -> usize
        ensures { result ≡ size_in self }
    {
        match self {
            Mark::Task => 14,
            Mark::Release => 7,
            Mark::Done => 7,
            Mark::Clock => 6,
        }
    }
}

// What the record of a mark says, where all its bytes are there.
fn body_at(stream: &[u8], at: usize, mark: Mark) -> Record
    requires { at + size_in mark ≤ length stream.now }
    ensures { read_as result (size_in mark) ≡ says_in stream.now at mark }
{
    match mark {
        Mark::Task => Record::Task(Task {
            c: word_at(stream, at + 2),
            d: word_at(stream, at + 6),
            t: word_at(stream, at + 10),
        }),
        Mark::Release => Record::Event(Call::Release {
            reading: word_at(stream, at + 2),
            task: TaskNo(stream[at + 6]),
        }),
        Mark::Done => Record::Event(Call::Done {
            reading: word_at(stream, at + 2),
            task: TaskNo(stream[at + 6]),
        }),
        Mark::Clock => Record::Event(Call::Clock {
            reading: word_at(stream, at + 2),
        }),
    }
}

// "Numbers are little-endian": the number that the four bytes from a place on say. (An inner form: its callers have tested that there are four.)
pub fn word_at(stream: &[u8], at: usize) -> u32
    requires { at + 4 ≤ length stream.now }
    ensures { result ≡ word stream.now at }
{
    u32::from_le_bytes([stream[at], stream[at + 1], stream[at + 2], stream[at + 3]])
}

// What stands at a place of a stream, whatever the place: a record and its size, or nothing where the stream has ended.
pub fn record_at(stream: &[u8], at: usize) -> Result<Option<(Record, usize)>, Unreadable>
    ensures found { found_in result ≡ record_at stream.now at }
    ensures offset { IfErr result (λ e. e.0 ≡ at) }
{
    if stream.len() <= at {
        return Ok(None);
    }
    if stream.len() - at < 2 {
        return Err(Unreadable(at));
    }
    let mark = Mark::of(stream[at], stream[at + 1]).ok_or(Unreadable(at))?;
    let size = mark.size();
    if stream.len() - at < size {
        return Err(Unreadable(at));
    }
    Ok(Some((body_at(stream, at, mark), size)))
}

// "The record reader keeps the stream it reads together with its place in it." (A place, and no rest of the stream: the rules speak of places.)
#[derive(Clone, Copy)]
pub struct Reader<'a> {
    pub stream: &'a [u8],
    pub at: usize,
}

impl<'a> Reader<'a> {
    // A stream, from its front.
    pub fn new(stream: &'a [u8]) -> Reader<'a>
        ensures { (result.stream ≡ stream.entry) × (result.at ≡ 0) }
    {
        Reader { stream, at: 0 }
    }

    // The same stream, at another place.
    pub fn moved(self, at: usize) -> Reader<'a>
        ensures { (result.stream ≡ self.entry.stream) × (result.at ≡ at) }
    {
        Reader { at, ..self }
    }
}

// The records from the reader's place on, each with its offset. Behind one that cannot be read there are none.
impl<'a> Iterator for Reader<'a> {
    type Item = Result<(usize, Record), Unreadable>;

    ghost use Rattle.records.specs.Turns.{Turns};

    ghost next_gives = { Turns };

    ghost remaining = { λ r. at_most (length r.stream.now - r.at) };

    fn next(&mut self) -> Option<Result<(usize, Record), Unreadable>> {
        let at = self.at;
        match record_at(self.stream, at) {
            Ok(None) => None,
            Ok(Some((record, size))) => {
                self.at += size;
                Some(Ok((at, record)))
            }
            Err(unreadable) => {
                self.at = self.stream.len();
                Some(Err(unreadable))
            }
        }
    }
}
