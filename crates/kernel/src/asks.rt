// What may be asked of a block: the listing, and a task's plan. (Two, which share test 15 alone.)
ghost use Rattle.std.specs.Prelude.{◌≡◌};
ghost use Rattle.rules.specs.Calls.{planned_of};
ghost use Rattle.rules.specs.Listing.{listed_of};
ghost use Rattle.kernel.specs.Block.{view_of, Whole};
ghost use Rattle.kernel.specs.Asks.{listed_in, GivesListing, PlansAs, GivesPlan};

use super::{Block, Refusal};
use jobs::in_table;
use levels::{Plan, plan_of};
use table::TaskNo;

impl Block {
    // "The listing writes the waiting jobs into a lent buffer, lists from level 1 up, each from its front: one byte level, one byte task."
    // The number waiting, or why there is no listing.
    pub fn listing(self, buffer: &mut [u8]) -> Result<usize, Refusal>
        ensures { GivesListing self buffer.old result buffer.new }
    {
        if !self.whole() {
            return Err(Refusal::NotWhole);
        }
        self.listing_whole(buffer)
    }

    // Of a whole block, which the whole-test has told: test 11, and the listing.
    pub fn listing_whole(self, buffer: &mut [u8]) -> Result<usize, Refusal>
        requires { Whole self }
        ensures { listed_in result buffer.new ≡ listed_of (view_of self) buffer.old }
    {
        let lists = self.ready.lists;
        let waiting = lists.waiting();
        if buffer.len() < 2 * waiting {
            return Err(Refusal::BufferTooShort);
        }
        lists.list_all(buffer);
        Ok(waiting)
    }

    // "a task's plan, asked of a block"
    pub fn plan(self, task: TaskNo) -> Result<Plan, Refusal>
        ensures { GivesPlan self task.0 result }
    {
        if !self.whole() {
            return Err(Refusal::NotWhole);
        }
        self.plan_whole(task)
    }

    // Of a whole block: test 7, and the plan.
    pub fn plan_whole(self, task: TaskNo) -> Result<Plan, Refusal>
        requires { Whole self }
        ensures { PlansAs (planned_of (view_of self) task.0) result }
    {
        let table = self.tasks.table;
        if !in_table(table.count, task) {
            return Err(Refusal::NoSuchTask);
        }
        let k = task.0 as usize;
        let entry = table.tasks[k - 1];
        Ok(plan_of(&self.tasks.rising[..table.count], entry.d))
    }
}
