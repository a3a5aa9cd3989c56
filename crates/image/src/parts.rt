// The parts of a block.
ghost use Rattle.image.specs.Bytes.{task_bytes, task_from, task_no_bytes, task_no_from, last_bytes, last_from, job_bytes, job_from, who_bytes, who_from};
ghost use Rattle.image.specs.Bytes.{tasks_size, tasks_bytes, tasks_from, stored_size, stored_bytes, stored_from};
ghost use Rattle.image.specs.Bytes.{ready_size, ready_bytes, ready_from, now_bytes, now_from};

use crate::part::{Part, put_all, put_option, take_all, take_option};
use jobs::{Job, Tasks};
use kernel::Now;
use lists::{Lists, Stored};
use ready::Ready;
use table::{MOST, PLACES, Table, Task, TaskNo};

impl Part for Task {
    const SIZE: usize = 12;

    ghost SIZE = { 12 };

    ghost as_bytes = { task_bytes };

    ghost from_bytes = { task_from };

    fn put(self, bytes: &mut [u8], at: usize) {
        self.c.put(bytes, at);
        self.d.put(bytes, at + 4);
        self.t.put(bytes, at + 8);
    }

    fn take(bytes: &[u8], at: usize) -> Task {
        Task {
            c: u32::take(bytes, at),
            d: u32::take(bytes, at + 4),
            t: u32::take(bytes, at + 8),
        }
    }
}

impl Part for TaskNo {
    const SIZE: usize = 1;

    ghost SIZE = { 1 };

    ghost as_bytes = { task_no_bytes };

    ghost from_bytes = { task_no_from };

    fn put(self, bytes: &mut [u8], at: usize) {
        self.0.put(bytes, at);
    }

    fn take(bytes: &[u8], at: usize) -> TaskNo {
        TaskNo(u8::take(bytes, at))
    }
}

// The count, the table, and its deadlines in rising order.
impl Part for Tasks {
    const SIZE: usize = 8 + 12 * MOST + 4 * MOST;

    ghost SIZE = { tasks_size };

    ghost as_bytes = { tasks_bytes };

    ghost from_bytes = { tasks_from };

    fn put(self, bytes: &mut [u8], at: usize) {
        self.table.count.put(bytes, at);
        put_all(bytes, at + 8, &self.table.tasks);
        put_all(bytes, at + (8 + 12 * MOST), &self.rising);
    }

    fn take(bytes: &[u8], at: usize) -> Tasks {
        let count = usize::take(bytes, at);
        let tasks = take_all(bytes, at + 8);
        let rising = take_all(bytes, at + (8 + 12 * MOST));
        Tasks {
            table: Table { count, tasks },
            rising,
        }
    }
}

// A byte that tells whether there was a release, and its time.
impl Part for Option<u64> {
    const SIZE: usize = 9;

    ghost SIZE = { 9 };

    ghost as_bytes = { last_bytes };

    ghost from_bytes = { last_from };

    fn put(self, bytes: &mut [u8], at: usize) {
        put_option(bytes, at, self, 0);
    }

    fn take(bytes: &[u8], at: usize) -> Option<u64> {
        take_option(bytes, at)
    }
}

impl Part for Job {
    const SIZE: usize = 10;

    ghost SIZE = { 10 };

    ghost as_bytes = { job_bytes };

    ghost from_bytes = { job_from };

    fn put(self, bytes: &mut [u8], at: usize) {
        self.active.put(bytes, at);
        self.last.put(bytes, at + 1);
    }

    fn take(bytes: &[u8], at: usize) -> Job {
        Job {
            active: bool::take(bytes, at),
            last: Part::take(bytes, at + 1),
        }
    }
}

// A byte that tells whether a job runs, and its task.
impl Part for Option<TaskNo> {
    const SIZE: usize = 2;

    ghost SIZE = { 2 };

    ghost as_bytes = { who_bytes };

    ghost from_bytes = { who_from };

    fn put(self, bytes: &mut [u8], at: usize) {
        put_option(bytes, at, self, TaskNo(0));
    }

    fn take(bytes: &[u8], at: usize) -> Option<TaskNo> {
        take_option(bytes, at)
    }
}

// The arrays and the map.
impl Part for Stored {
    const SIZE: usize = 3 * PLACES + 8;

    ghost SIZE = { stored_size };

    ghost as_bytes = { stored_bytes };

    ghost from_bytes = { stored_from };

    fn put(self, bytes: &mut [u8], at: usize) {
        put_all(bytes, at, &self.first);
        put_all(bytes, at + PLACES, &self.last);
        put_all(bytes, at + 2 * PLACES, &self.next);
        self.map.put(bytes, at + 3 * PLACES);
    }

    fn take(bytes: &[u8], at: usize) -> Stored {
        Stored {
            first: take_all(bytes, at),
            last: take_all(bytes, at + PLACES),
            next: take_all(bytes, at + 2 * PLACES),
            map: u64::take(bytes, at + 3 * PLACES),
        }
    }
}

// Who runs and who waits.
impl Part for Ready {
    const SIZE: usize = 2 + Stored::SIZE;

    ghost SIZE = { ready_size };

    ghost as_bytes = { ready_bytes };

    ghost from_bytes = { ready_from };

    fn put(self, bytes: &mut [u8], at: usize) {
        self.running.put(bytes, at);
        Stored::from(self.lists).put(bytes, at + 2);
    }

    fn take(bytes: &[u8], at: usize) -> Ready {
        let running = Part::take(bytes, at);
        let lists = Lists::from(Stored::take(bytes, at + 2));
        Ready { running, lists }
    }
}

impl Part for Now {
    const SIZE: usize = 12;

    ghost SIZE = { 12 };

    ghost as_bytes = { now_bytes };

    ghost from_bytes = { now_from };

    fn put(self, bytes: &mut [u8], at: usize) {
        self.clock.put(bytes, at);
        self.reading.put(bytes, at + 8);
    }

    fn take(bytes: &[u8], at: usize) -> Now {
        Now {
            clock: u64::take(bytes, at),
            reading: u32::take(bytes, at + 8),
        }
    }
}
