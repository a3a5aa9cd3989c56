// The ready lists (document 003, 4.2.1): for each level the jobs that wait there, in their order, singly linked; and a map of the lists
// that hold one. A job is its task's number, 1 to MOST; 0 is nobody.
//
//      level    first   last       next, by task: who stands behind
//        1      [ 3 ]   [ 5 ]      3 -> 7 -> 5 -> 0
//        2      [ 0 ]   [ 0 ]
//        3      [ 2 ]   [ 2 ]      2 -> 0
//        ..     [ 0 ]   [ 0 ]      of those who wait nowhere: 0
//
//        map    ..00101            bit 0 is level 1; set where the list holds a job
//
// Place 0 of each array is nobody's and holds 0, so a number is a place. The lists say what every place holds: they determine the arrays
// and the map, and the arrays and the map determine them (proofs/Determined).
//
//      empty, push_front, push_back, pop_front, move_front, front, lowest, lowest_from      O(1)
//      length_of, list_into                   a step for each job of the list
//      waiting, list_all                      a step for each level and each job
//
// Contracts speak of lists of numbers: whatever lists `ls` are stored, they say what is answered and which lists are stored afterwards.
// The fields are private, so nothing above this crate names a link or a bit. All functions but `empty`, `task_number` and the conversions
// from and to `Stored` are inner forms: they require that the arrays store lists. `empty` makes such arrays, each operation keeps them so,
// and crate stored tests arrays that may hold anything.
#![tactic(auto)]

ghost use Rattle.std.specs.Prelude.{◌≡◌, List, [], ℕ, suc, ◌-◌};
ghost use Rattle.laws.specs.Bits.{BitMade};
ghost use Rattle.rules.specs.Table.{most};
ghost use Rattle.rules.specs.Calls.{to_front, to_end, front_of, lowest};
ghost use Rattle.rules.specs.Lines.{task_in};
ghost use Rattle.lists.specs.Links.{Stores, Numbered};
ghost use Rattle.lists.specs.Answers.{stored_of, lists_of, who_in, occupied_at, PopsFrom, front_moved, Holds, HoldsAt, MayEnter};

use table::{Level, PLACES, TaskNo};

mod walk; // length_of, waiting, list_into, list_all

// (Links by number in arrays of fixed size, as the paper has them: there is no heap. That they store lists is asked by each operation and is
// no invariant of the type: the lists of a block that is handed in may hold anything, and test 15 tells.)
#[derive(Clone, Copy)]
pub struct Lists {
    first: [TaskNo; PLACES],
    last: [TaskNo; PLACES],
    next: [TaskNo; PLACES],
    map: u64,
}

// The arrays and the map, for those who keep a block elsewhere and bring it back; what they hold need not be lists.
#[derive(Clone, Copy)]
pub struct Stored {
    pub first: [TaskNo; PLACES],
    pub last: [TaskNo; PLACES],
    pub next: [TaskNo; PLACES],
    pub map: u64,
}

// "0 nobody"
pub fn task_number(who: Option<TaskNo>) -> u8
    ensures { result ≡ task_in (who_in who) }
{
    match who {
        None => 0,
        Some(task) => task.0,
    }
}

#[derive(Clone, Copy)]
pub struct Popped {
    pub front: Option<TaskNo>,
    pub lists: Lists,
}

// The map with the bit of the level set. (Two functions of a line, which differ by an operator: one would be no plainer.)
fn with_bit(map: u64, level: Level) -> u64
    requires { Numbered level.0 }
    ensures { BitMade map (level.0 - 1) 1 result }
{
    map | (1u64 << (level.0 - 1))
}

// The map with the bit of the level clear.
fn without_bit(map: u64, level: Level) -> u64
    requires { Numbered level.0 }
    ensures { BitMade map (level.0 - 1) 0 result }
{
    map & !(1u64 << (level.0 - 1))
}

// The arrays and the map, to be kept elsewhere. (Here and below each array has a variable: an array's field that stands straight in a literal was
// tried, and does not build.)
impl From<Lists> for Stored {
    ghost from_gives = { λ lists stored. stored ≡ stored_of lists };

    fn from(lists: Lists) -> Stored {
        let first = lists.first;
        let last = lists.last;
        let next = lists.next;
        Stored {
            first,
            last,
            next,
            map: lists.map,
        }
    }
}

// The lists again (two conversions, each of its own type), from arrays and a map that may hold anything; crate stored tells whether they store lists.
impl From<Stored> for Lists {
    ghost from_gives = { λ stored lists. lists ≡ lists_of stored };

    fn from(stored: Stored) -> Lists {
        let first = stored.first;
        let last = stored.last;
        let next = stored.next;
        Lists {
            first,
            last,
            next,
            map: stored.map,
        }
    }
}

impl Lists {
    // All lists empty.
    pub fn empty() -> Lists
        ensures { Stores result (λ l. []) }
    {
        Lists {
            first: [TaskNo(0); PLACES],
            last: [TaskNo(0); PLACES],
            next: [TaskNo(0); PLACES],
            map: 0,
        }
    }

    // The task goes ahead of all in the list of the level.
    pub fn push_front(mut self, level: Level, task: TaskNo) -> Lists
        requires { MayEnter self level.0 task.0 }
        ensures { (ls : ℕ → List ℕ) → Stores self ls → Stores result (to_front ls level.0 task.0) }
    {
        let l = level.0 as usize;
        let x = task.0 as usize;
        let second = self.first[l];
        self.first[l] = task;
        self.next[x] = second;
        if second.0 == 0 {
            self.last[l] = task; // its last too
            self.map = with_bit(self.map, level);
            return self;
        }
        self
    }

    // The task goes behind all in the list of the level.
    pub fn push_back(mut self, level: Level, task: TaskNo) -> Lists
        requires { MayEnter self level.0 task.0 }
        ensures { (ls : ℕ → List ℕ) → Stores self ls → Stores result (to_end ls level.0 task.0) }
    {
        let l = level.0 as usize;
        let end = self.last[l];
        let z = end.0 as usize;
        self.last[l] = task;
        if z == 0 {
            self.first[l] = task;
            self.map = with_bit(self.map, level);
            return self;
        }
        self.next[z] = task;
        self
    }

    // The front job of the list of the level leaves it.
    pub fn pop_front(mut self, level: Level) -> Popped
        requires { HoldsAt self level.0 }
        ensures { (ls : ℕ → List ℕ) → Stores self ls → PopsFrom ls level.0 result }
    {
        let l = level.0 as usize;
        let head = self.first[l];
        let x = head.0 as usize;
        if x == 0 {
            return Popped {
                front: None,
                lists: self,
            };
        }
        let after = self.next[x];
        let nobody = TaskNo(0);
        self.first[l] = after;
        self.next[x] = nobody;
        if after.0 == 0 {
            self.last[l] = nobody;
            self.map = without_bit(self.map, level);
            return Popped {
                front: Some(head),
                lists: self,
            };
        }
        Popped {
            front: Some(head),
            lists: self,
        }
    }

    // Promotion's inner step: the front job of one list goes to the end of another.
    pub fn move_front(self, from: Level, to: Level) -> Lists
        requires { HoldsAt self from.0 × Numbered to.0 }
        ensures { (ls : ℕ → List ℕ) → Stores self ls → Stores result (front_moved ls from.0 to.0 (ls from.0)) }
    {
        let popped = self.pop_front(from);
        let front = popped.front;
        let rest = popped.lists;
        match front {
            None => rest,
            Some(task) => rest.push_back(to, task),
        }
    }

    // The front job of the list of the level, or nobody.
    pub fn front(self, level: Level) -> Option<TaskNo>
        requires { HoldsAt self level.0 }
        ensures { (ls : ℕ → List ℕ) → Stores self ls → who_in result ≡ front_of (ls level.0) }
    {
        let l = level.0 as usize;
        let head = self.first[l];
        if head.0 == 0 {
            return None;
        }
        Some(head)
    }

    // The lowest level, from this one up, whose list holds a job.
    pub fn lowest_from(self, level: Level) -> Option<Level>
        requires { HoldsAt self level.0 }
        ensures { (ls : ℕ → List ℕ) → Stores self ls → result ≡ occupied_at (lowest ls (suc most - level.0) level.0) }
    {
        let above = self.map >> (level.0 - 1);
        if above == 0 {
            return None;
        }
        let zeros = u64::trailing_zeros(above) as u8;
        let lowest = zeros + level.0;
        Some(Level(lowest))
    }

    // "the lowest-numbered list that holds one"
    pub fn lowest(self) -> Option<Level>
        requires { Holds self }
        ensures { (ls : ℕ → List ℕ) → Stores self ls → result ≡ occupied_at (lowest ls most 1) }
    {
        self.lowest_from(Level(1))
    }
}
