// The calls in use, where no stream shows them: plans asked of a block, listings into buffers of several lengths, the calls by the block's
// address, and the block of a refused start. What is written is compared with the file stdout, which is written from the paper.
#![tactic(auto)]

ghost use Rattle.rules.specs.Calls.{Release, Done, Clock};
ghost use Rattle.kernel.specs.Calls.{call_in, Follows};

use kernel::start::start;
use kernel::{Block, Call, Called, MOST, Plan, Table, Task, TaskNo, task_number};
use lent::call_through;
use lines::{Shown, event_line};
use refusals::number_in;
use std::io;
use std::io::Write;
use text::Text;

// Room for the longest E line.
const LINE: usize = 129;

fn main(rt: HostRuntime) {
    paper(&rt);
    refused(&rt);
}

// Document 003, Example 1. (What prints is handed on from function to function, with the block that it prints of.)
fn paper(out: &impl Print) {
    let none = Task { c: 0, d: 0, t: 0 };
    let mut tasks = [none; MOST];
    tasks[0] = Task { c: 1, d: 2, t: 4 };
    tasks[1] = Task { c: 4, d: 7, t: 8 };
    tasks[2] = Task { c: 3, d: 10, t: 16 };
    let started = start(Table { count: 3, tasks }, 0);
    let block = started.block;
    plans(out, block);
    listings(out, block);
    calls(out, block);
    clocks(out, block);
}

// "a task's plan, asked of a block, 15, then 7"
fn plans(out: &impl Print, block: Block) {
    text(out, b"plans: task, answer, point:level ..\n");
    plan_line(out, block, 1);
    plan_line(out, block, 2);
    plan_line(out, block, 3);
    plan_line(out, block, 0);
    plan_line(out, block, 4);
}

// "Two waiting, buffer of 3 bytes: 11. Of 4: both written. None waiting: an empty buffer will do."
fn listings(out: &impl Print, block: Block) {
    text(
        out,
        b"listings, where nobody waits and where two wait: buffer's length, answer, number waiting, bytes ..\n",
    );
    let mut none = [9u8; 0];
    listing(out, block, &mut none);
    let block = released(block, 1);
    let block = released(block, 2);
    let block = released(block, 3);
    let mut three = [9u8; 3];
    listing(out, block, &mut three);
    let mut four = [9u8; 4];
    listing(out, block, &mut four);
    let mut five = [9u8; 5];
    listing(out, block, &mut five);
}

// "RL 0 1, RL 0 2, RL 0 3, DN 1 1, RL 4 1, DN 5 1, DN 6 2, RL 8 1, RL 8 2, DN 9 3, RL 10 3, DN 10 2 (reading, task)"
fn calls(out: &impl Print, block: Block) {
    text(
        out,
        b"calls by the block's address: E count, answer, running task, moves, number waiting, margin\n",
    );
    let block = release(out, block, 1, 0, 1);
    let block = release(out, block, 2, 0, 2);
    let block = release(out, block, 3, 0, 3);
    let block = done(out, block, 4, 1, 1);
    let block = release(out, block, 5, 4, 1);
    let block = done(out, block, 6, 5, 1);
    let block = done(out, block, 7, 6, 2);
    let block = release(out, block, 8, 8, 1);
    let block = release(out, block, 9, 8, 2);
    let block = done(out, block, 10, 9, 3);
    let block = release(out, block, 11, 10, 3);
    done(out, block, 12, 10, 2);
}

// Tasks 2 and 3 wait from 0 on: a job moves at the points of the plans, 3:2 and 8:1 of task 3 and 5:1 of task 2, and at no other reading.
// "Elapsed 2147483647 passes; 2147483648 gives 5."
fn clocks(out: &impl Print, block: Block) {
    text(
        out,
        b"clock calls by the block's address, from three releases at 0 on: E as above\n",
    );
    let block = released(block, 1);
    let block = released(block, 2);
    let block = released(block, 3);
    let block = clock(out, block, 4, 2);
    let block = clock(out, block, 5, 3);
    let block = clock(out, block, 6, 5);
    let block = clock(out, block, 7, 8);
    let block = clock(out, block, 8, 2147483656);
    clock(out, block, 9, 2147483655);
}

// A table of no tasks: start is refused, and so is whatever is asked of the block that it hands back.
fn refused(out: &impl Print) {
    text(
        out,
        b"a refused start: its number, and what clock, listing and plan of its block answer\n",
    );
    let none = Task { c: 0, d: 0, t: 0 };
    let empty = Table {
        count: 0,
        tasks: [none; MOST],
    };
    let started = start(empty, 0);
    let block = started.block;
    number(out, number_in(started.verdict) as u64);
    let called = call_through(block, Call::Clock { reading: 0 });
    column(out, number_in(called.answer) as u64);
    let mut room = [0u8; 2 * MOST];
    column(out, number_in(block.listing(&mut room)) as u64);
    column(out, number_in(block.plan(TaskNo(1))) as u64);
    text(out, b"\n");
}

// ---- calls by the block's address

// The block after a release at reading 0.
fn released(block: Block, task: u8) -> Block
    ensures { Follows block (Release 0 task) result }
{
    call_through(
        block,
        Call::Release {
            reading: 0,
            task: TaskNo(task),
        },
    )
    .block
}

// A release and its line; and the block after it. (Named calls, for who reads the history above.)
fn release(out: &impl Print, block: Block, count: u64, reading: u32, task: u8) -> Block
    ensures { Follows block (Release reading task) result }
{
    let task = TaskNo(task);
    made(out, block, count, Call::Release { reading, task })
}

// The same for done.
fn done(out: &impl Print, block: Block, count: u64, reading: u32, task: u8) -> Block
    ensures { Follows block (Done reading task) result }
{
    let task = TaskNo(task);
    made(out, block, count, Call::Done { reading, task })
}

// The same for clock.
fn clock(out: &impl Print, block: Block, count: u64, reading: u32) -> Block
    ensures { Follows block (Clock reading) result }
{
    made(out, block, count, Call::Clock { reading })
}

// A call and its line; and the block after it.
fn made(out: &impl Print, block: Block, count: u64, call: Call) -> Block
    ensures { Follows block (call_in call) result }
{
    let called = call_through(block, call);
    event(out, count, called);
    called.block
}

// ---- lines

// The line of a call: its answer, and the number that a listing gives then. "After a refused event, running and waiting are as before and
// moves are 0."
fn event(out: &impl Print, count: u64, called: Called) {
    let block = called.block;
    let mut room = [0u8; 2 * MOST];
    let Ok(waiting) = block.listing(&mut room) else {
        return;
    };
    let (running, moves, margin) = match called.answer {
        Ok(accepted) => (accepted.running, accepted.moves, accepted.margin),
        Err(_) => (block.ready.running, 0, None),
    };
    line(
        out,
        Shown {
            count,
            answer: number_in(called.answer) as u64,
            running: task_number(running) as u64,
            moves: moves as u64,
            waiting: waiting as u64,
            margin,
        },
    );
}

fn line(out: &impl Print, shown: Shown) {
    let mut buffer = [0u8; LINE];
    let mut written = Text {
        buffer: &mut buffer,
        at: 0,
    };
    event_line(&mut written, shown);
    let end = written.at;
    text(out, &buffer[..end]);
}

// The task, the answer, and the plan's points.
fn plan_line(out: &impl Print, block: Block, task: u8) {
    number(out, task as u64);
    let planned = block.plan(TaskNo(task));
    column(out, number_in(planned) as u64);
    if let Ok(plan) = planned {
        points(out, plan);
    }
    text(out, b"\n");
}

// "` point:level` for each promotion"
fn points(out: &impl Print, plan: Plan) {
    for point in plan.points.iter().take(plan.count) {
        column(out, point.at as u64);
        text(out, b":");
        number(out, point.level.0 as u64);
    }
}

// The length of the buffer, the answer, the number waiting or `-`, and what the buffer holds then.
fn listing(out: &impl Print, block: Block, buffer: &mut [u8]) {
    number(out, buffer.len() as u64);
    let listed = block.listing(buffer);
    column(out, number_in(listed) as u64);
    match listed {
        Ok(n) => column(out, n as u64),
        Err(_) => text(out, b" -"),
    }
    columns(out, buffer);
    text(out, b"\n");
}

// ---- text

fn text(out: &impl Print, s: &[u8]) {
    let _ = io::writer(out).write_all(s);
}

fn number(out: &impl Print, n: u64) {
    let _ = print!(out; "{n}");
}

fn column(out: &impl Print, n: u64) {
    text(out, b" ");
    number(out, n);
}

fn columns(out: &impl Print, bytes: &[u8]) {
    for byte in bytes {
        column(out, *byte as u64);
    }
}
