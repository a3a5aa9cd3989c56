// Whether arrays and a map that may hold anything store lists: links in a circle, links to nowhere, wrong ends, false bits.
//
//     holds_lists     place 0 is nobody's
//       map_true        each bit of the map tells whether the list of its level holds a job
//       lists_hold      no number stands in two lists, or twice in one
//         go_along        one list, marking who stands in it
//         unlinked        nobody else has a link
//
// It takes a step for each level, each job and each place.
#![tactic(auto)]

ghost use Rattle.std.specs.Prelude.{◌≡◌, not, ◌≤◌, eqb};
ghost use Rattle.laws.specs.Words.{Decides, digit};
ghost use Rattle.rules.specs.Table.{most};
ghost use Rattle.lists.specs.Answers.{lists_of, Holds};
ghost use Rattle.stored.specs.Test.{Went, Unlinked, ListsRight, MapTrue};

use lists::Stored;
use table::{MOST, PLACES, TaskNo};

// Whether there are lists that the arrays and the map store.
pub fn holds_lists(stored: Stored) -> bool
    ensures { Decides result (Holds (lists_of stored)) }
{
    let first = stored.first[0];
    if first.0 != 0 {
        return false;
    }
    let last = stored.last[0];
    if last.0 != 0 {
        return false;
    }
    if !map_true(stored) {
        return false;
    }
    lists_hold(stored)
}

// Whether each bit of the map tells if the list of its level holds a job.
fn map_true(stored: Stored) -> bool
    ensures { Decides result (MapTrue (lists_of stored)) }
{
    for (k, first) in stored.first[1..].iter().enumerate() {
        if (stored.map >> k) % 2 != bit_of(*first) {
            return false;
        }
    }
    true
}

// Whether the lists of all levels are right, with no number in two of them, and nobody else has a link.
fn lists_hold(stored: Stored) -> bool
    ensures { Decides result (ListsRight (lists_of stored)) }
{
    let mut seen = [false; PLACES];
    // the level is what is asked
    for l in 1..PLACES {
        let Some(more) = go_along(stored, l, seen) else {
            return false;
        };
        seen = more;
    }
    unlinked(stored, seen)
}

// Goes along the list of level l and marks its numbers, where the list is right: each is a task's and was not marked, and the last of
// them is the one that ends it.
fn go_along(stored: Stored, l: usize, before: [bool; PLACES]) -> Option<[bool; PLACES]>
    requires { l ≤ most }
    ensures { Went (lists_of stored) l before result }
{
    let mut seen = before;
    let mut passed: u8 = 0;
    let mut x = stored.first[l];
    // along links there is no slice to iterate over
    while x.0 != 0 {
        let n = x.0 as usize;
        if MOST < n {
            return None;
        }
        if seen[n] {
            return None;
        }
        seen[n] = true;
        passed = x.0;
        x = stored.next[n];
    }
    let last = stored.last[l];
    if last.0 != passed {
        return None;
    }
    Some(seen)
}

// Whether every task that was seen in no list has no link.
fn unlinked(stored: Stored, seen: [bool; PLACES]) -> bool
    ensures { Decides result (Unlinked (lists_of stored) seen) }
{
    for (x, next) in stored.next.iter().enumerate() {
        if next.0 != 0 && !seen[x] {
            return false;
        }
    }
    true
}

// The bit of a list with this number at its front.
fn bit_of(first: TaskNo) -> u64
    ensures { result ≡ digit (not (eqb first.0 0)) }
{
    (first.0 != 0) as u64
}
