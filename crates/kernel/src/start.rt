// Start: the table's tests, and the first block.
ghost use Rattle.kernel.specs.Start.{Fresh, no_tasks, Starts};
ghost use Rattle.std.specs.Prelude.{◌≡◌};

use super::{Block, Now};
use jobs::{Job, Tasks};
use levels::rising;
use lists::Lists;
use ready::Ready;
use table::{MOST, PLACES, Table, TableRefusal, Task, table_test};

// What start gives back: whether the table is sound, and a block, whether it is or not.
#[derive(Clone, Copy)]
pub struct Started {
    pub verdict: Result<(), TableRefusal>,
    pub block: Block,
}

// "Start takes the table and a reading, any 32-bit value, which becomes the last accepted one." "A refused start hands back, with its
// number, a block whose every field is zero or nobody".
pub fn start(table: Table, reading: u32) -> Started
    ensures { Starts table reading result }
{
    match table_test(table) {
        Ok(()) => {
            let tasks = Tasks {
                table,
                rising: rising(table),
            };
            Started {
                verdict: Ok(()),
                block: fresh(tasks, reading),
            }
        }
        Err(refusal) => Started {
            verdict: Err(refusal),
            block: fresh(no_tasks(), 0),
        },
    }
}

// A block where nothing has happened yet.
fn fresh(tasks: Tasks, reading: u32) -> Block
    ensures { Fresh tasks reading result }
{
    let none = Job {
        active: false,
        last: None,
    };
    let jobs = [none; PLACES];
    let lists = Lists::empty();
    let ready = Ready {
        running: None,
        lists,
    };
    let now = Now { clock: 0, reading };
    Block {
        tasks,
        jobs,
        ready,
        now,
    }
}

// No table: all zero.
fn no_tasks() -> Tasks
    ensures { result ≡ no_tasks }
{
    let none = Task { c: 0, d: 0, t: 0 };
    let table = Table {
        count: 0,
        tasks: [none; MOST],
    };
    Tasks {
        table,
        rising: [0u32; MOST],
    }
}
