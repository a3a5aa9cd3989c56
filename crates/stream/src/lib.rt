// A whole stream: its tests, and the table that its task records make.
//
//     stream_test      14, then 12 and 13 at each record, from the front
//     table_in         the task records, in their order
//
// Each reads the stream once.
#![tactic(auto)]

ghost use Rattle.std.specs.Prelude.{◌≡◌, false, suc, ◌<◌, ◌^◌};
ghost use Rattle.rules.specs.Numbers.{first_of};
ghost use Rattle.rules.specs.Records.{items_of, record_tests, stream_of, tasks_read};
ghost use Rattle.stream.specs.declared.StreamRefusal.TheVariants as StreamRefusal;
ghost use Rattle.stream.specs.Answer.{stream_refusal_in, stream_in};
ghost use Rattle.stream.specs.Load.{table_in, added_to};

use records::{Reader, Record, Unreadable};
use refusals::Refused;
use table::{MOST, Table, Task};

// "input above 65,536 bytes"
pub const LONGEST: usize = 65536;

// Why a stream is refused: the first test that fails, with the offset of the record.
#[derive(Clone, Copy, Debug, PartialEq, Eq)]
pub enum StreamRefusal {
    Unreadable(usize),
    TaskBehindEvent(usize),
    TooLong,
}

impl Refused for StreamRefusal {
    ghost means = { stream_refusal_in };

    // "No."
    fn number(self) -> u8 {
        match self {
            StreamRefusal::Unreadable(_) => refusals::UNREADABLE,
            StreamRefusal::TaskBehindEvent(_) => refusals::TASK_BEHIND_EVENT,
            StreamRefusal::TooLong => refusals::INPUT_TOO_LONG,
        }
    }

    // "offset of the record", "offset 65536".
    fn given(self) -> usize {
        match self {
            StreamRefusal::Unreadable(offset) => offset,
            StreamRefusal::TaskBehindEvent(offset) => offset,
            StreamRefusal::TooLong => LONGEST,
        }
    }
}

impl From<Unreadable> for StreamRefusal {
    ghost from_gives = { λ e r. r ≡ StreamRefusal.Unreadable e.0 };

    fn from(unreadable: Unreadable) -> StreamRefusal {
        StreamRefusal::Unreadable(unreadable.0)
    }
}

// "tests 14, then all records from the front"
pub fn stream_test(stream: &[u8]) -> Result<(), StreamRefusal>
    ensures { stream_in result ≡ stream_of stream.now }
{
    if LONGEST < stream.len() {
        return Err(StreamRefusal::TooLong);
    }
    records_test(stream)
}

// "all records from the front (at each, 12 before 13)"
fn records_test(stream: &[u8]) -> Result<(), StreamRefusal>
    ensures { stream_in result ≡ first_of (record_tests false (items_of stream.now)) }
{
    let mut begun = false;
    for item in Reader::new(stream) {
        let (offset, record) = item?;
        match record {
            Record::Task(_) if begun => return Err(StreamRefusal::TaskBehindEvent(offset)),
            Record::Task(_) => {}
            Record::Event(_) => begun = true,
        }
    }
    Ok(())
}

// A table and one task more. Past the room for them tasks are counted, and not kept. (By index: a slice's `get_mut` does not promise how a
// write through it comes back.)
fn added(table: Table, task: Task) -> Table
    requires { suc table.count < 2 ^ 64 }
    ensures { result ≡ added_to table task }
{
    let Table { count, mut tasks } = table;
    if count < MOST {
        tasks[count] = task;
    }
    Table {
        count: count + 1,
        tasks,
    }
}

// The table that the task records make, in their order.
pub fn table_in(stream: &[u8]) -> Table
    ensures { result ≡ table_in (tasks_read stream.now) }
{
    let mut table = Table {
        count: 0,
        tasks: [Task { c: 0, d: 0, t: 0 }; MOST],
    };
    for item in Reader::new(stream) {
        let Ok((_, record)) = item else { break };
        if let Record::Task(task) = record {
            table = added(table, task);
        }
    }
    table
}
