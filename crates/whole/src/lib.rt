// Whether a block is whole ("The block"), of parts that may hold anything: links in a circle, links to nowhere, counts of any size, a
// running task of 200. The test always ends and never reads out of range: what a later part reads, an earlier part has tested.
//
//     tasks_whole     the table passes tests 1 to 3, and the rising copy agrees with it
//     jobs_whole      every active job has a release time, none after the clock
//     holds_lists     (crate stored) the links and the map store lists
//     queue_whole     (over crate queue) those who run and wait: tasks of the table, each once, all active ones, in the lists of their
//                     levels, in order
//
// The last part reads the listing, as a pair of bytes for each waiting job, and so decides whether the block is whole.
#![tactic(auto)]

ghost use Rattle.std.specs.Prelude.{◌≡◌, ◌≤◌};
ghost use Rattle.laws.specs.Words.{Decides};
ghost use Rattle.rules.specs.Table.{most};
ghost use Rattle.jobs.specs.Kept.{last_in};
ghost use Rattle.queue.specs.Asked.{TasksWhole, JobsWhole};
ghost use Rattle.whole.specs.Whole.{Whole};
ghost use Rattle.whole.specs.Parts.{dated_by, Tested};

use clock::LAST_TICK;
use jobs::{Job, Moment};
use levels::agrees;
use lists::Stored;
use queue::{LISTING_BYTES, Row, active_as};
use ready::Ready;
use stored::holds_lists;
use table::{PLACES, tests_to_3};

// "A block is whole when": of its tasks, its jobs and its clock as a moment.
pub fn is_whole(moment: &Moment, ready: Ready) -> bool
    ensures { Decides result (Whole moment.now.tasks moment.now.jobs ready moment.now.time) }
{
    if !tasks_whole(moment) {
        return false;
    }
    if LAST_TICK < moment.time {
        return false;
    }
    if !jobs_whole(moment) {
        return false;
    }
    if !holds_lists(Stored::from(ready.lists)) {
        return false;
    }
    queue_whole(moment, ready)
}

// "its table passes tests 1 to 3; its rising copy of the deadlines agrees with the table"
fn tasks_whole(moment: &Moment) -> bool
    ensures { Decides result (TasksWhole moment.now.tasks) }
{
    let tasks = &moment.tasks;
    match tests_to_3(tasks.table) {
        Ok(()) => agrees(tasks.table, tasks.rising),
        Err(_) => false,
    }
}

// "every active job has a release time, and no release time lies after the clock"
fn jobs_whole(moment: &Moment) -> bool
    requires { moment.now.tasks.table.count ≤ most }
    ensures { Decides result (JobsWhole moment.now.tasks.table moment.now.jobs moment.now.time) }
{
    let held = &moment.jobs[1..moment.tasks.table.count + 1];
    for job in held {
        if !is_dated(*job, moment.time) {
            return false;
        }
    }
    true
}

// Whether that is so of one job.
fn is_dated(job: Job, clock: u64) -> bool
    ensures { result ≡ dated_by job.active (last_in job.last) clock }
{
    match job.last {
        None => !job.active,
        Some(time) => time <= clock,
    }
}

// Whether the block is whole, where the rest has been tested: exactly the active jobs run or wait, each once, where and in the order that
// they should.
fn queue_whole(moment: &Moment, ready: Ready) -> bool
    requires { Tested moment.now.tasks moment.now.jobs ready moment.now.time }
    ensures { Decides result (Whole moment.now.tasks moment.now.jobs ready moment.now.time) }
{
    let mut bytes = [0u8; LISTING_BYTES];
    let end = ready.lists.list_all(&mut bytes);
    match ready.running {
        None => {
            if end != 0 {
                return false; // "nobody runs only if nobody waits"
            }
            active_as(moment, &[false; PLACES])
        }
        Some(first) => {
            let row = Row {
                first,
                bytes,
                n: end / 2,
            };
            row.runs_whole(moment)
        }
    }
}
