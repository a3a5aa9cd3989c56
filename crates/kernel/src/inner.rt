// Release, done and clock of a whole block: the tests, and then one commit, which promotes the waiting jobs in place, does what the call
// does, and stores it. A refusal gives the block back as it was. (Each call has functions of its own: they differ in the step that they make.
// That the block is whole is asked in one word, and no second type of block says it.)
ghost use Rattle.std.specs.Prelude.{◌≡◌};
ghost use Rattle.rules.specs.Calls.{Release, Done, Clock};
ghost use Rattle.kernel.specs.Block.{Whole};
ghost use Rattle.kernel.specs.Calls.{Goes, Does, refused_as, accepted_as};

use super::{Accepted, Block, Called, Now, Refusal};
use jobs::Job;
use ready::{Promoted, Ready};
use table::TaskNo;

impl Block {
    // "Every other refusal gives the block back equal, its clock and last reading included".
    pub fn refused(self, refusal: Refusal) -> Called
        ensures { result ≡ refused_as refusal self }
    {
        Called {
            answer: Err(refusal),
            block: self,
        }
    }

    // 5, 6, 7, 8, 9, and the commit. (These three require a whole block: the public calls have tested it, and any other caller proves it.)
    pub fn release_whole(self, reading: u32, task: TaskNo) -> Called
        requires { Whole self }
        ensures { Does self (Release reading task.0) result }
    {
        match self.release_tests(reading, task) {
            Err(refusal) => self.refused(refusal),
            Ok(time) => self.released(reading, time, task),
        }
    }

    // 5, 6, 7, 10, and the commit.
    pub fn done_whole(self, reading: u32, task: TaskNo) -> Called
        requires { Whole self }
        ensures { Does self (Done reading task.0) result }
    {
        match self.done_tests(reading, task) {
            Err(refusal) => self.refused(refusal),
            Ok(time) => self.ended(reading, time, task),
        }
    }

    // 5, 6, and the commit.
    pub fn clock_whole(self, reading: u32) -> Called
        requires { Whole self }
        ensures { Does self (Clock reading) result }
    {
        match self.clock_tests(reading) {
            Err(refusal) => self.refused(refusal),
            Ok(time) => self.moved(reading, time),
        }
    }

    // The task's job becomes active, and runs or waits.
    fn released(mut self, reading: u32, time: u64, task: TaskNo) -> Called
        requires { Goes self (Release reading task.0) time }
        ensures { Does self (Release reading task.0) result }
    {
        let mut moment = self.at(time);
        let Promoted {
            now: waiting,
            moves,
        } = self.ready.relevel(&moment);
        let k = task.0 as usize;
        moment.jobs[k] = Job {
            active: true,
            last: Some(time),
        };
        let after = waiting.enter(&moment, task);
        let jobs = moment.jobs; // through a variable, as the check asks of an array
        self.jobs = jobs;
        self.accepted(after, time, reading, moves, None)
    }

    // The running job, which is this task's, ends.
    fn ended(mut self, reading: u32, time: u64, task: TaskNo) -> Called
        requires { Goes self (Done reading task.0) time }
        ensures { Does self (Done reading task.0) result }
    {
        let moment = self.at(time);
        let margin = moment.time_left(task);
        let Promoted {
            now: waiting,
            moves,
        } = self.ready.relevel(&moment);
        let k = task.0 as usize;
        let job = self.jobs[k];
        self.jobs[k] = Job {
            active: false,
            last: job.last,
        };
        let after = waiting.leave();
        self.accepted(after, time, reading, moves, Some(margin))
    }

    // The clock has moved, and nothing more.
    fn moved(self, reading: u32, time: u64) -> Called
        requires { Goes self (Clock reading) time }
        ensures { Does self (Clock reading) result }
    {
        let Promoted { now: after, moves } = self.ready.relevel(&self.at(time));
        self.accepted(after, time, reading, moves, None)
    }

    // Who runs and who waits, the time and the reading are stored; the answer says who runs.
    fn accepted(
        mut self,
        ready: Ready,
        time: u64,
        reading: u32,
        moves: u32,
        margin: Option<i64>,
    ) -> Called
        ensures { result ≡ accepted_as self ready time reading moves margin }
    {
        let running = ready.running;
        self.ready = ready;
        self.now = Now {
            clock: time,
            reading,
        };
        Called {
            answer: Ok(Accepted {
                running,
                moves,
                margin,
            }),
            block: self,
        }
    }
}
