// What deadlines, the time to them and levels are counted from.
ghost use Rattle.std.specs.Prelude.{◌≡◌, length};
ghost use Rattle.rules.specs.Table.{most};

use super::{Job, Tasks};
use table::PLACES;

// The tasks and their jobs at a time. It is lent, so that no array is copied on the way. That the table has all its places, as its type
// says, is named, since the check does not look so deep behind a reference.
#[derive(Clone, Copy)]
pub struct Moment {
    pub tasks: Tasks,
    pub jobs: [Job; PLACES],
    pub time: u64,
    ghost sized: { length tasks.table.tasks ≡ most },
}
