// The tests of a call on a whole block, in the paper's order: 5, 6, 7, then 8 and 9, or 10. (Functions for each call: they differ in the tests
// behind 6.)
ghost use Rattle.std.specs.Prelude.{◌≡◌, ◌≤◌};
ghost use Rattle.rules.specs.Clock.{last_tick};
ghost use Rattle.rules.specs.State.{time_of};
ghost use Rattle.rules.specs.Calls.{Release, Done, Clock, too_soon, is_running, release_tests, done_tests};
ghost use Rattle.lists.specs.Answers.{who_in};
ghost use Rattle.jobs.specs.Kept.{last_in};
ghost use Rattle.kernel.specs.Block.{view_of, Whole};
ghost use Rattle.kernel.specs.Tests.{checked_in, checked_of, go_on};

use super::{Block, Refusal};
use clock::advance;
use jobs::in_table;
use table::TaskNo;

// "Spacing is counted from the task's last accepted release; a task never released has no spacing to keep. Equality with T is enough."
fn too_soon(last: Option<u64>, spacing: u32, time: u64) -> bool
    requires { time_of (last_in last) ≤ last_tick }
    ensures { result ≡ too_soon (last_in last) spacing time }
{
    match last {
        None => false,
        Some(at) => time < at + spacing as u64,
    }
}

// Whether this task's job is the running one.
fn is_running(running: Option<TaskNo>, task: TaskNo) -> bool
    ensures { result ≡ is_running (who_in running) task.0 }
{
    match running {
        None => false,
        Some(other) => other.0 == task.0,
    }
}

impl Block {
    // Tests 5 and 6. "The clock call stops after 6."
    pub fn clock_tests(self, reading: u32) -> Result<u64, Refusal>
        requires { Whole self }
        ensures { checked_in result ≡ checked_of (view_of self) (Clock reading) }
    {
        match advance(self.now.clock, self.now.reading, reading) {
            Ok(time) => Ok(time),
            Err(refusal) => Err(Refusal::from(refusal)),
        }
    }

    // 5, 6, 7, 8, 9.
    pub fn release_tests(self, reading: u32, task: TaskNo) -> Result<u64, Refusal>
        requires { Whole self }
        ensures { checked_in result ≡ checked_of (view_of self) (Release reading task.0) }
    {
        match self.clock_tests(reading) {
            Err(refusal) => Err(refusal),
            Ok(time) => self.may_release(time, task),
        }
    }

    // 5, 6, 7, 10.
    pub fn done_tests(self, reading: u32, task: TaskNo) -> Result<u64, Refusal>
        requires { Whole self }
        ensures { checked_in result ≡ checked_of (view_of self) (Done reading task.0) }
    {
        match self.clock_tests(reading) {
            Err(refusal) => Err(refusal),
            Ok(time) => self.may_end(time, task),
        }
    }

    // 7, 8, 9 of a release at this time.
    fn may_release(self, time: u64, task: TaskNo) -> Result<u64, Refusal>
        requires { Whole self }
        ensures { checked_in result ≡ go_on time (release_tests (view_of self) time task.0) }
    {
        let table = self.tasks.table;
        if !in_table(table.count, task) {
            return Err(Refusal::NoSuchTask);
        }
        let k = task.0 as usize;
        let job = self.jobs[k];
        let entry = table.tasks[k - 1];
        let soon = too_soon(job.last, entry.t, time);
        if job.active {
            Err(Refusal::TaskActive)
        } else if soon {
            Err(Refusal::TooSoon)
        } else {
            Ok(time)
        }
    }

    // 7, 10 of a done at this time.
    fn may_end(self, time: u64, task: TaskNo) -> Result<u64, Refusal>
        requires { Whole self }
        ensures { checked_in result ≡ go_on time (done_tests (view_of self) task.0) }
    {
        let known = in_table(self.tasks.table.count, task);
        let runs = is_running(self.ready.running, task);
        if !known {
            Err(Refusal::NoSuchTask)
        } else if !runs {
            Err(Refusal::NotRunning)
        } else {
            Ok(time)
        }
    }
}
