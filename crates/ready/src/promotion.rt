// Promotion in place (document 003, 4.2.2): occupied lists from level 2 up, each from its front. From the highest level down, later
// deadlines would land in front.
ghost use Rattle.std.specs.Prelude.{◌≡◌, List, ℕ, ⊤};
ghost use Rattle.lists.specs.Links.{Stores};
ghost use Rattle.jobs.specs.Kept.{levels_in};
ghost use Rattle.ready.specs.Promote.{goes_to, front_goes, Leaves, Promotable, Drainable, DrainedTo, PromotedTo};

use jobs::Moment;
use levels::{has_left, level_in};
use lists::Lists;
use std::alloc::AllocError;
use table::{Level, MOST, TaskNo};

// No list holds more jobs than there are tasks.
const JOBS: u32 = MOST as u32;

// What is kept after jobs have moved, and how many did. (A copy is the language's own: a derived one clones field by field, by library code,
// which kernel/proofs/Answered does not run.)
pub struct Promoted<T> {
    pub now: T,
    pub moves: u32,
}

impl<T: Copy> Clone for Promoted<T> {
    ghost is_clone = { λ p q. q ≡ p };

    ghost is_infallible = { λ _. ⊤ };

    fn clone(&self) -> Result<Promoted<T>, AllocError> {
        Ok(*self)
    }
}

impl<T: Copy> Copy for Promoted<T> {}

// The level that the job of this task, which waits at this level, leaves it for; nothing where it stays.
fn next_of(moment: &Moment, level: Level, task: TaskNo) -> Option<Level>
    requires { Leaves moment.now.tasks moment.now.jobs moment.now.time level.0 task.0 }
    ensures { result ≡ goes_to level.0 (levels_in moment.now task.0) }
{
    let left = moment.time_left(task);
    let rising = &moment.tasks.rising[..moment.tasks.table.count];
    if !has_left(rising, level, left) {
        return None;
    }
    Some(level_in(rising, left))
}

// The same for the front job of the level's list, where there is one.
fn front_next(moment: &Moment, lists: Lists, level: Level) -> Option<Level>
    requires { Drainable moment.now.tasks moment.now.jobs moment.now.time lists level.0 }
    ensures { (ls : ℕ → List ℕ) → Stores lists ls → result ≡ front_goes (levels_in moment.now) level.0 (ls level.0) }
{
    match lists.front(level) {
        None => None,
        Some(task) => next_of(moment, level, task),
    }
}

// The front jobs of the level's list go to the ends of the lists of their new levels, up to the first that stays.
fn drain(moment: &Moment, lists: Lists, level: Level) -> Promoted<Lists>
    requires { Drainable moment.now.tasks moment.now.jobs moment.now.time lists level.0 }
    ensures { (ls : ℕ → List ℕ) → Stores lists ls → DrainedTo (levels_in moment.now) level.0 ls result }
{
    let mut now = lists;
    let mut moves: u32 = 0; // the count is the answer too
    while moves < JOBS {
        match front_next(moment, now, level) {
            None => {
                return Promoted { now, moves };
            }
            Some(to) => {
                now = now.move_front(level, to);
                moves += 1;
            }
        }
    }
    Promoted { now, moves }
}

// Every waiting job goes to the list of its new level.
pub fn promote(moment: &Moment, lists: Lists) -> Promoted<Lists>
    requires { Promotable moment.now.tasks moment.now.jobs moment.now.time lists }
    ensures { (ls : ℕ → List ℕ) → Stores lists ls → PromotedTo (levels_in moment.now) ls result }
{
    let mut now = lists;
    let mut total: u32 = 0;
    let mut from: u8 = 2;
    // the level jumps to the next occupied list
    while from as usize <= MOST {
        match now.lowest_from(Level(from)) {
            None => {
                return Promoted { now, moves: total };
            }
            Some(level) => {
                let Promoted {
                    now: drained,
                    moves,
                } = drain(moment, now, level);
                now = drained;
                total += moves;
                from = level.0 + 1;
            }
        }
    }
    Promoted { now, moves: total }
}
