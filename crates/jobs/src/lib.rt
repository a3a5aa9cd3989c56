// The jobs: for each task whether its job is active and when the task was last released; and from these, with the table and its rising
// copy, deadlines and levels. A task's number is its place; place 0, and those past the table's count, are free.
//
// These are inner forms: what they require of the table, the copy and the release times holds of a whole block. No type says it, since a block
// that is handed in may be none.
#![tactic(auto)]

ghost use Rattle.std.specs.Prelude.{◌≡◌, ◌&&◌, ◌≤◌, leb};
ghost use Rattle.rules.specs.Levels.{remaining_of};
ghost use Rattle.rules.specs.Clock.{last_tick};
ghost use Rattle.rules.specs.State.{time_of};
ghost use Rattle.jobs.specs.Kept.{last_in, deadlines_in, levels_in, Dated, Levelled};

use levels::{level_in, remaining};
use table::{Level, MOST, Table, TaskNo};

mod moment; // Moment

pub use moment::Moment;

// Whether the task's job is active, and when its last release was accepted, if there was one. (Both, and no enum of what may be: a block that
// is handed in may hold an active job that was never released, and test 15 tells.)
#[derive(Clone, Copy)]
pub struct Job {
    pub active: bool,
    pub last: Option<u64>,
}

// The table, and its deadlines in rising order, "laid down at start".
#[derive(Clone, Copy)]
pub struct Tasks {
    pub table: Table,
    pub rising: [u32; MOST],
}

// Whether a table with `count` tasks has this task.
pub fn in_table(count: usize, task: TaskNo) -> bool
    ensures { result ≡ (leb 1 task.0 && leb task.0 count) }
{
    1 <= task.0 && task.0 as usize <= count
}

// The time of a release; 0 where there was none. It is a `match`, since `unwrap_or` is library code, which kernel/proofs/Answered does not run.
pub fn time_of(last: Option<u64>) -> u64
    ensures { result ≡ time_of (last_in last) }
{
    match last {
        None => 0,
        Some(time) => time,
    }
}

impl Moment {
    // "A job released at time r has absolute deadline r + D"
    pub fn deadline(&self, task: TaskNo) -> u64
        requires { Dated self.now.tasks.table self.now.jobs task.0 }
        ensures { result ≡ deadlines_in self.now task.0 }
    {
        let k = task.0 as usize;
        time_of(self.jobs[k].last) + self.tasks.table.tasks[k - 1].d as u64
    }

    // The time that remains to the deadline of the task's job.
    pub fn time_left(&self, task: TaskNo) -> i64
        requires { Dated self.now.tasks.table self.now.jobs task.0 × (self.now.time ≤ last_tick) }
        ensures { result ≡ remaining_of (deadlines_in self.now task.0) self.now.time }
    {
        remaining(self.deadline(task), self.time)
    }

    // The level of the task's job.
    pub fn level_of(&self, task: TaskNo) -> Level
        requires { Levelled self.now.tasks self.now.jobs self.now.time task.0 }
        ensures { result.0 ≡ levels_in self.now task.0 }
    {
        let left = self.time_left(task);
        level_in(&self.tasks.rising[..self.tasks.table.count], left)
    }
}
