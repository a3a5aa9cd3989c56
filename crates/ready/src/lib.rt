// Who runs and who waits: the running job, and the ready lists ("What a call does").
//
//     relevel     every waiting job goes to the list of its new level, in place: occupied lists from level 2 up, each from its front,
//                 up to the first job that stays; only jobs that move are touched (document 003, 4.2.2)
//     enter       the job of a released task runs, or waits
//     leave       the running job ends; the front job of the lowest list that holds one runs next
//
//                   level 1      level 2             level 3      level 4
//     before        3            9                   4            7 -> 2 -> 5
//     promoted      3            9 -> 7 -> 2         4            5               5 stays, so nobody behind it moves
//
// relevel takes a step for each occupied list and each job that moves; enter and leave take no walk along a list. Contracts speak of the
// rules' lists: whatever is kept at first, they say what is kept afterwards. These are inner forms: what they require holds of a whole
// block.
#![tactic(auto)]

ghost use Rattle.std.specs.Prelude.{List, ℕ};
ghost use Rattle.rules.specs.Calls.{to_front, met_by, enter, leave};
ghost use Rattle.lists.specs.Links.{Stores};
ghost use Rattle.lists.specs.Answers.{MayEnter};
ghost use Rattle.jobs.specs.Kept.{levels_in};
ghost use Rattle.ready.specs.Promote.{Promotable};
ghost use Rattle.ready.specs.Keep.{Keeping, Keeps, Becomes, Relevels, Enterable};

use jobs::Moment;
use lists::Lists;
use promotion::promote;
use table::{Level, TaskNo};

mod promotion; // promote

pub use promotion::Promoted;

// Who runs, and the lists of those who wait.
#[derive(Clone, Copy)]
pub struct Ready {
    pub running: Option<TaskNo>,
    pub lists: Lists,
}

// "the former goes to the front of the list of its level"
fn put_back(lists: Lists, level: Level, task: TaskNo) -> Lists
    requires { MayEnter lists level.0 task.0 }
    ensures { (ls : ℕ → List ℕ) → Stores lists ls → Stores result (to_front ls level.0 task.0) }
{
    lists.push_front(level, task)
}

// A released job meets the running one (two jobs with their levels, which no other function has side by side): the lower level runs, and of
// equals the one that runs already.
fn meet(lists: Lists, task: TaskNo, level: Level, other: TaskNo, held: Level) -> Ready
    requires { MayEnter lists level.0 task.0 × MayEnter lists held.0 other.0 }
    ensures { (ls : ℕ → List ℕ) → Stores lists ls → Keeps result (met_by task.0 level.0 other.0 held.0 ls) }
{
    if level.0 < held.0 {
        let waiting = put_back(lists, held, other);
        return Ready {
            running: Some(task),
            lists: waiting,
        };
    }
    let waiting = lists.push_back(level, task);
    Ready {
        running: Some(other),
        lists: waiting,
    }
}

impl Ready {
    // "puts every waiting job in the list of its new level", its level at this time.
    pub fn relevel(self, moment: &Moment) -> Promoted<Ready>
        requires { Promotable moment.now.tasks moment.now.jobs moment.now.time self.lists }
        ensures { Relevels (levels_in moment.now) self result }
    {
        let Promoted { now: lists, moves } = promote(moment, self.lists);
        let ready = Ready {
            running: self.running,
            lists,
        };
        Promoted { now: ready, moves }
    }

    // "If nothing runs, it runs. If its level is lower than the running job's level at this time, it runs and the former goes to the
    // front of the list of its level. Otherwise it goes to the end of the list of its own level."
    pub fn enter(self, moment: &Moment, task: TaskNo) -> Ready
        requires { Enterable self moment.now.tasks moment.now.jobs moment.now.time task.0 }
        ensures { Becomes self (enter (levels_in moment.now) task.0) result }
    {
        match self.running {
            None => Ready {
                running: Some(task),
                lists: self.lists,
            },
            Some(other) => {
                let level = moment.level_of(task);
                let held = moment.level_of(other);
                meet(self.lists, task, level, other, held)
            }
        }
    }

    // "The front job of the lowest-numbered list that holds one runs next .. If all are empty, nobody runs."
    pub fn leave(self) -> Ready
        requires { Keeping self }
        ensures { Becomes self leave result }
    {
        match self.lists.lowest() {
            None => Ready {
                running: None,
                lists: self.lists,
            },
            Some(level) => {
                let popped = self.lists.pop_front(level);
                Ready {
                    running: popped.front,
                    lists: popped.lists,
                }
            }
        }
    }
}
