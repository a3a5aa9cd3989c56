// Walks along the links (there is no slice to iterate over): they tell how long a list is and how many jobs wait, and write one list, or
// all, into a lent buffer.
ghost use Rattle.std.specs.Prelude.{◌≡◌, List, ℕ, length};
ghost use Rattle.laws.specs.Words.{Puts};
ghost use Rattle.rules.specs.State.{listing};
ghost use Rattle.rules.specs.Listing.{pairs_of, listing_bytes};
ghost use Rattle.lists.specs.Links.{Stores};
ghost use Rattle.lists.specs.Answers.{Holds, HoldsAt, RoomFor, RoomForAll};

use super::Lists;
use table::{Level, MOST};

impl Lists {
    // How many wait in the list of the level.
    pub fn length_of(self, level: Level) -> usize
        requires { HoldsAt self level.0 }
        ensures { (ls : ℕ → List ℕ) → Stores self ls → result ≡ length (ls level.0) }
    {
        let l = level.0 as usize;
        let mut x = self.first[l];
        let mut n: usize = 0;
        while x.0 != 0 {
            let i = x.0 as usize;
            x = self.next[i];
            n += 1;
        }
        n
    }

    // The number waiting.
    pub fn waiting(self) -> usize
        requires { Holds self }
        ensures { (ls : ℕ → List ℕ) → Stores self ls → result ≡ length (listing ls) }
    {
        let mut sum: usize = 0;
        // the level is what is asked
        for l in 1..=MOST as u8 {
            sum += self.length_of(Level(l));
        }
        sum
    }

    // The list of the level into the buffer, from a place on, "one byte level, one byte task" a job; the place behind it.
    // (A place beside the buffer: it has one caller and one loop, and crate text, whose texts keep theirs, stands above.)
    pub fn list_into(self, level: Level, buffer: &mut [u8], place: usize) -> usize
        requires { RoomFor self level.0 place (length buffer.old) }
        ensures { (ls : ℕ → List ℕ) → Stores self ls → Puts buffer.old place (pairs_of level.0 (ls level.0)) result buffer.new }
    {
        let l = level.0 as usize;
        let mut task = self.first[l];
        let mut at = place;
        while task.0 != 0 {
            buffer[at] = level.0;
            buffer[at + 1] = task.0;
            at += 2;
            let i = task.0 as usize;
            task = self.next[i];
        }
        at
    }

    // All lists, from level 1 up, into the buffer from its front; the place behind them.
    pub fn list_all(self, buffer: &mut [u8]) -> usize
        requires { RoomForAll self (length buffer.old) }
        ensures { (ls : ℕ → List ℕ) → Stores self ls → Puts buffer.old 0 (listing_bytes ls) result buffer.new }
    {
        let mut at: usize = 0;
        // the level is what is listed
        for level in 1..=MOST as u8 {
            at = self.list_into(Level(level), buffer, at);
        }
        at
    }
}
