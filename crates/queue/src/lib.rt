// A part of the whole-test ("The block"): whether the jobs that run and wait are jobs of the table's tasks, each once, all active ones, in
// the lists of their levels and in order. These are inner forms: the table, its copy, the clock and the release times have been tested
// before, and the waiting jobs are read from their listing, a byte for the level and one for the task.
//
//     Row             the running job, and behind it those that wait
//     runs_whole      where a job runs
//       in_table        the running one is a task of the table
//       all_wait        so is each that waits; it does not run, and is in the list of its level
//       in_order        each may stand ahead of the next
//       active_as       exactly these are active
//
// Each takes a step for each waiting job or each task.
#![tactic(auto)]

ghost use Rattle.std.specs.Prelude.{◌≡◌, ◌∷◌, ℕ, ◌≤◌};
ghost use Rattle.laws.specs.Words.{Decides};
ghost use Rattle.rules.specs.Table.{most};
ghost use Rattle.rules.specs.State.{MayLead};
ghost use Rattle.table.specs.Stored.{table_of};
ghost use Rattle.lists.specs.Marks.{none, marked};
ghost use Rattle.jobs.specs.Kept.{released_in, Dated};
ghost use Rattle.queue.specs.Asked.{Datable};
ghost use Rattle.queue.specs.Row.{Few, row_tasks, WaitsRight, AllWait, in_row, RowDated, InOrder, ActiveAs, RunsWhole};

use jobs::{Moment, in_table, time_of};
use table::{Level, MOST, PLACES, TaskNo};

// Room for the listing of all tasks.
pub const LISTING_BYTES: usize = 2 * MOST;

// The running job's task, and behind it the n that wait, as the bytes list them: for each a byte for the level and one for the task. (An
// array and its count: there is no heap.)
#[derive(Clone, Copy)]
pub struct Row {
    pub first: TaskNo,
    pub bytes: [u8; LISTING_BYTES],
    pub n: usize,
    ghost few: { Few n },
}

// Loops over a row count pairs of bytes: `chunks_exact` is library code, which kernel/proofs/Answered does not run.
impl Row {
    // Whether all is as it should be at this moment.
    pub fn runs_whole(&self, moment: &Moment) -> bool
        requires { Datable moment.now.tasks moment.now.jobs moment.now.time }
        ensures { Decides result (RunsWhole moment.now.tasks moment.now.jobs moment.now.time self.now.first.0 self.now.bytes self.now.n) }
    {
        if !in_table(moment.tasks.table.count, self.first) {
            return false;
        }
        if !self.all_wait(moment) {
            return false;
        }
        if !self.in_order(moment) {
            return false;
        }
        active_as(moment, &self.marks())
    }

    // Whether a job that waits is that of a task in the table, not the running one, and in the list of its level at this moment.
    fn waits_right(&self, moment: &Moment, level: Level, task: TaskNo) -> bool
        requires { Datable moment.now.tasks moment.now.jobs moment.now.time }
        ensures { Decides result (WaitsRight moment.now.tasks moment.now.jobs moment.now.time self.now.first.0 level.0 task.0) }
    {
        if !in_table(moment.tasks.table.count, task) {
            return false;
        }
        let first = self.first;
        if task.0 == first.0 {
            return false;
        }
        let right = moment.level_of(task);
        right.0 == level.0
    }

    // Whether that is so of each job that waits.
    fn all_wait(&self, moment: &Moment) -> bool
        requires { Datable moment.now.tasks moment.now.jobs moment.now.time }
        ensures { Decides result (AllWait moment.now.tasks moment.now.jobs moment.now.time self.now.first.0 self.now.bytes self.now.n) }
    {
        for i in 0..self.n {
            let l = self.bytes[2 * i];
            let k = self.bytes[2 * i + 1];
            if !self.waits_right(moment, Level(l), TaskNo(k)) {
                return false;
            }
        }
        true
    }

    // Whether the running job, and each that waits, may stand ahead of the next.
    fn in_order(&self, moment: &Moment) -> bool
        requires { RowDated moment.now.tasks.table moment.now.jobs self.now.first.0 self.now.bytes self.now.n }
        ensures { Decides result (InOrder moment.now.tasks.table moment.now.jobs self.now.first.0 self.now.bytes self.now.n) }
    {
        let mut ahead = self.first;
        for i in 0..self.n {
            let k = self.bytes[2 * i + 1];
            let task = TaskNo(k);
            if !may_lead(moment, ahead, task) {
                return false;
            }
            ahead = task;
        }
        true
    }

    // Marks the task whose job runs, and those whose jobs wait.
    fn marks(&self) -> [bool; PLACES]
        requires { (i : ℕ) → i ≤ self.now.n → in_row self.now.first.0 self.now.bytes i ≤ most }
        ensures { result ≡ marked none (self.now.first.0 ∷ row_tasks self.now.bytes self.now.n) }
    {
        let mut seen = [false; PLACES];
        seen[self.first.0 as usize] = true;
        for i in 0..self.n {
            seen[self.bytes[2 * i + 1] as usize] = true;
        }
        seen
    }
}

// "in order of deadline, earlier first, and of equal deadlines no later release time stands ahead of an earlier one"
fn may_lead(moment: &Moment, a: TaskNo, b: TaskNo) -> bool
    requires { Dated moment.now.tasks.table moment.now.jobs a.0 × Dated moment.now.tasks.table moment.now.jobs b.0 }
    ensures { Decides result (MayLead (table_of moment.now.tasks.table) (released_in moment.now.tasks.table moment.now.jobs) a.0 b.0) }
{
    let x = moment.deadline(a);
    let y = moment.deadline(b);
    if x != y {
        return x < y;
    }
    let ahead = moment.jobs[a.0 as usize];
    let behind = moment.jobs[b.0 as usize];
    time_of(ahead.last) <= time_of(behind.last)
}

// Whether exactly the jobs that are marked are active.
pub fn active_as(moment: &Moment, seen: &[bool; PLACES]) -> bool
    requires { moment.now.tasks.table.count ≤ most }
    ensures { Decides result (ActiveAs moment.now.tasks.table.count moment.now.jobs seen.now) }
{
    let held = &moment.jobs[1..moment.tasks.table.count + 1];
    for (i, job) in held.iter().enumerate() {
        if job.active != seen[i + 1] {
            return false;
        }
    }
    true
}
