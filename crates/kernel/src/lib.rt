// The kernel block and its calls ("What a call does", "The block").
//
//     Block
//       tasks     the table, and its deadlines in rising order, laid down at start
//       jobs      for each task whether its job is active, and its last accepted release: never, or at a time
//       ready     who runs; and who waits, a list for each level, with the map of the lists that hold one
//       now       the clock, which starts at 0 and may reach 2^40; and the last accepted reading of the counter
//
//     start(table, reading)              tests 1 to 4           start
//     block.release(reading, task)       15, 5, 6, 7, 8, 9      here; tests, inner
//     block.done(reading, task)          15, 5, 6, 7, 10
//     block.clock(reading)               15, 5, 6
//     block.call(call)                   whichever of the three it is
//     block.listing(buffer)              15, 11                 asks
//     block.plan(task)                   15, 7
//
// Of a block that an accepted start gave this always holds: the running job has the earliest deadline, and of equals the release call
// that came first; every other active job waits once, in the list of its level, each list in that same order (specs/Demands).
//
// Each public call is the whole-test and then an inner form, whose name ends in _whole and which requires a whole block. An inner form
// takes a step for each occupied list and, with a search in the rising copy, for each job that moves; it walks along no list. The listing
// takes a step for each level and job, a plan for each task. The whole-test takes some steps for each task, level and place, and sorts the
// deadlines again to compare the copy.
#![tactic(auto)]

ghost use Rattle.std.specs.Prelude.{◌≡◌};
ghost use Rattle.laws.specs.Words.{Decides};
ghost use Rattle.rules.specs.Calls.{Release, Done, Clock};
ghost use Rattle.clock.specs.Advance.{clock_refusal_in};
ghost use Rattle.kernel.specs.Block.{Whole};
ghost use Rattle.kernel.specs.Answers.{refusal_in};
ghost use Rattle.kernel.specs.Calls.{call_in, Gives};

use clock::ClockRefusal;
use jobs::{Job, Moment, Tasks};
use ready::Ready;
use table::PLACES;
use whole::is_whole;

// What a user of the calls names beside them, so that it is named by one crate.
pub use levels::{Plan, Point};
pub use lists::task_number;
pub use refusals::Refused;
pub use table::{Level, MOST, Table, TableRefusal, Task, TaskNo};

pub mod start; // start
mod tests; // tests 5 to 10
mod inner; // release, done and clock of a whole block
pub mod asks; // listing and plan

// The clock, and the last accepted reading.
#[derive(Clone, Copy)]
pub struct Now {
    pub clock: u64,
    pub reading: u32,
}

#[derive(Clone, Copy)]
pub struct Block {
    pub tasks: Tasks,
    pub jobs: [Job; PLACES],
    pub ready: Ready,
    pub now: Now,
}

// Why a call, a listing or a plan is refused.
#[derive(Clone, Copy)]
pub enum Refusal {
    NotWhole,
    CounterWentBack,
    ClockFull,
    NoSuchTask,
    TaskActive,
    TooSoon,
    NotRunning,
    BufferTooShort,
}

impl Refused for Refusal {
    ghost means = { refusal_in };

    fn number(self) -> u8 {
        match self {
            Refusal::CounterWentBack => refusals::COUNTER_WENT_BACK,
            Refusal::ClockFull => refusals::CLOCK_FULL,
            Refusal::NoSuchTask => refusals::NO_SUCH_TASK,
            Refusal::TaskActive => refusals::TASK_ACTIVE,
            Refusal::TooSoon => refusals::TOO_SOON,
            Refusal::NotRunning => refusals::NOT_RUNNING,
            Refusal::BufferTooShort => refusals::BUFFER_TOO_SHORT,
            Refusal::NotWhole => refusals::NOT_WHOLE,
        }
    }

    fn given(self) -> usize {
        0
    }
}

// Tests 5 and 6 of the clock are tests of each call.
impl From<ClockRefusal> for Refusal {
    ghost from_gives = { λ clock call. refusal_in call ≡ clock_refusal_in clock };

    fn from(refusal: ClockRefusal) -> Refusal {
        match refusal {
            ClockRefusal::CounterWentBack => Refusal::CounterWentBack,
            ClockRefusal::ClockFull => Refusal::ClockFull,
        }
    }
}

// "An accepted answer holds who runs: nobody, or one task; the moves of the call; and for done the margin", deadline less the time of the
// call, a signed number.
#[derive(Clone, Copy)]
pub struct Accepted {
    pub running: Option<TaskNo>,
    pub moves: u32,
    pub margin: Option<i64>,
}

// "calls (release, done, clock)"
#[derive(Clone, Copy)]
pub enum Call {
    Release { reading: u32, task: TaskNo },
    Done { reading: u32, task: TaskNo },
    Clock { reading: u32 },
}

// What a call gives back.
#[derive(Clone, Copy)]
pub struct Called {
    pub answer: Result<Accepted, Refusal>,
    pub block: Block,
}

impl Block {
    // The tasks and jobs of the block at a time, for those who are lent a moment.
    fn at(self, time: u64) -> Moment
        ensures { (result.tasks ≡ self.tasks) × (result.jobs ≡ self.jobs) × (result.time ≡ time) }
    {
        let jobs = self.jobs; // through a variable, as the check asks of an array
        Moment {
            tasks: self.tasks,
            jobs,
            time,
        }
    }

    // Whether the block is whole, whatever it holds.
    pub fn whole(self) -> bool
        ensures { Decides result (Whole self) }
    {
        is_whole(&self.at(self.now.clock), self.ready)
    }

    // The call, whichever it is.
    pub fn call(self, call: Call) -> Called
        ensures { Gives self (call_in call) result }
    {
        match call {
            Call::Release { reading, task } => self.release(reading, task),
            Call::Done { reading, task } => self.done(reading, task),
            Call::Clock { reading } => self.clock(reading),
        }
    }

    // "release: the task's job becomes active." (Three methods, as the paper has them.)
    pub fn release(mut self, reading: u32, task: TaskNo) -> Called
        ensures { Gives self (Release reading task.0) result }
    {
        if !self.whole() {
            return self.refused(Refusal::NotWhole);
        }
        self.release_whole(reading, task)
    }

    // "done: the running job ends."
    pub fn done(mut self, reading: u32, task: TaskNo) -> Called
        ensures { Gives self (Done reading task.0) result }
    {
        if !self.whole() {
            return self.refused(Refusal::NotWhole);
        }
        self.done_whole(reading, task)
    }

    // "clock: nothing more."
    pub fn clock(mut self, reading: u32) -> Called
        ensures { Gives self (Clock reading) result }
    {
        if !self.whole() {
            return self.refused(Refusal::NotWhole);
        }
        self.clock_whole(reading)
    }
}
