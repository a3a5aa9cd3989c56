// What Rust and C may link, over byte slices and numbers, as the C interface wants them; none asks anything of its arguments. The caller
// keeps the block as bytes, which `image` lays out; bytes of another length than BLOCK_BYTES are no whole block, and get 15.
//
//     meter_run          the runner's whole output for a stream
//     meter_start        a block from the task records of a stream
//     meter_release      meter_done      meter_clock          a call on the block
//     meter_listing      the waiting jobs
//     meter_plan         when a task's job is promoted, and to which level
//     meter_whole        whether the block is whole
//
// A refusal writes nothing: not one byte of the block, the answer, the buffer or the points.
#![tactic(auto)]

ghost use Rattle.std.specs.Prelude.{◌≡◌, ◌≤◌, ◌+◌, ◌*◌};
ghost use Rattle.rules.specs.Numbers.{longest, number_of, value_of, given};
ghost use Rattle.rules.specs.Table.{most};
ghost use Rattle.rules.specs.Calls.{Release, Done, Clock};
ghost use Rattle.kernel.specs.Answers.{margin_in};
ghost use Rattle.kernel.specs.Calls.{call_in};
ghost use Rattle.levels.specs.Copy.{points_in};
ghost use Rattle.run.specs.Run.{Runs};
ghost use Rattle.export.specs.Door.{kind_of, ticks_of, BlockSized, Answers, TellsStart, TellsListing, PlanPut, TellsPlan, Tells, TellsWhole};

use image::{BLOCK_BYTES, load, save};
use kernel::start::start;
use kernel::{Call, Called, MOST, Plan, TaskNo, task_number};
use refusals::Refused;
use run::run;
use stream::{stream_test, table_in};

// The output's length; 0, and nothing is written, where `out` has less than 2 MiB.
pub fn meter_run(stream: &[u8], out: &mut [u8]) -> usize
    ensures { Runs stream.now out.old result out.new }
{
    run(stream, out)
}

// The number of a refusal of a stream or its table, and 256 times the task or offset with it: one number, as the C interface has it.
fn told<R: Refused + Copy>(refusal: R) -> usize
    requires { given (value_of (R.means refusal)) ≤ longest }
    ensures { result ≡ number_of (R.means refusal) + 256 * given (value_of (R.means refusal)) }
{
    refusal.number() as usize + 256 * refusal.given()
}

// 0; or the number of a refusal, and 256 times the task or offset with it: 14, 12 and 13 of the stream, 1 to 4 of its table.
pub fn meter_start(stream: &[u8], reading: u32, block: &mut [u8]) -> usize
    ensures { TellsStart stream.now reading block.old result block.new }
{
    if block.len() != BLOCK_BYTES {
        return refusals::NOT_WHOLE as usize;
    }
    if let Err(refusal) = stream_test(stream) {
        return told(refusal);
    }
    let started = start(table_in(stream), reading);
    if let Err(refusal) = started.verdict {
        return told(refusal);
    }
    save(started.block, block);
    0
}

// 0 where the margin is none, 1 where it is 0 or more, 2 where the job was late. (A number, as the C interface has it.)
fn kind_of(margin: Option<i64>) -> u64
    ensures { result ≡ kind_of (margin_in margin) }
{
    match margin {
        None => 0,
        Some(ticks) if ticks < 0 => 2,
        Some(_) => 1,
    }
}

// How many ticks before or behind the deadline.
fn ticks_of(margin: Option<i64>) -> u64
    ensures { result ≡ ticks_of (margin_in margin) }
{
    margin.map_or(0, |ticks| ticks.unsigned_abs())
}

// The number of what a call gave back. Where it was accepted, the block is stored, and the answer: who runs (0 nobody), moves, the margin's
// kind and its ticks.
fn answered(called: Called, block: &mut [u8], answer: &mut [u64; 4]) -> u8
    requires { BlockSized block.old }
    ensures { Answers called block.old answer.old result block.new answer.new }
{
    match called.answer {
        Err(refusal) => refusal.number(),
        Ok(accepted) => {
            save(called.block, block);
            *answer = [
                task_number(accepted.running) as u64,
                accepted.moves as u64,
                kind_of(accepted.margin),
                ticks_of(accepted.margin),
            ];
            0
        }
    }
}

// A call on the block: 0, or the number of the refusal.
fn call_on(block: &mut [u8], call: Call, answer: &mut [u64; 4]) -> u8
    ensures { Tells (call_in call) block.old answer.old result block.new answer.new }
{
    if block.len() != BLOCK_BYTES {
        return refusals::NOT_WHOLE;
    }
    answered(load(block).call(call), block, answer)
}

// The three calls, each under its own name, which the C interface has.
pub fn meter_release(block: &mut [u8], reading: u32, task: u8, answer: &mut [u64; 4]) -> u8
    ensures { Tells (Release reading task) block.old answer.old result block.new answer.new }
{
    let task = TaskNo(task);
    call_on(block, Call::Release { reading, task }, answer)
}

pub fn meter_done(block: &mut [u8], reading: u32, task: u8, answer: &mut [u64; 4]) -> u8
    ensures { Tells (Done reading task) block.old answer.old result block.new answer.new }
{
    let task = TaskNo(task);
    call_on(block, Call::Done { reading, task }, answer)
}

pub fn meter_clock(block: &mut [u8], reading: u32, answer: &mut [u64; 4]) -> u8
    ensures { Tells (Clock reading) block.old answer.old result block.new answer.new }
{
    call_on(block, Call::Clock { reading }, answer)
}

// The number waiting; or 256 times the number of the refusal.
pub fn meter_listing(block: &[u8], buffer: &mut [u8]) -> usize
    ensures { TellsListing block.now buffer.old result buffer.new }
{
    if block.len() != BLOCK_BYTES {
        return 256 * refusals::NOT_WHOLE as usize;
    }
    match load(block).listing(buffer) {
        Ok(n) => n,
        Err(refusal) => 256 * refusal.number() as usize,
    }
}

// The points of a stored plan, from the front of the array on.
fn put_plan(plan: Plan, points: &mut [u32; 2 * MOST])
    requires { plan.count ≤ most }
    ensures { PlanPut points.old (points_in plan) points.new }
{
    for (i, point) in plan.points[..plan.count].iter().enumerate() {
        points[2 * i] = point.at;
        points[2 * i + 1] = point.level.0 as u32;
    }
}

// The points of a task's plan: of each the ticks after the release, and the level. Their number; or 256 times the number of the refusal.
pub fn meter_plan(block: &[u8], task: u8, points: &mut [u32; 2 * MOST]) -> usize
    ensures { TellsPlan block.now task points.old result points.new }
{
    if block.len() != BLOCK_BYTES {
        return 256 * refusals::NOT_WHOLE as usize;
    }
    match load(block).plan(TaskNo(task)) {
        Ok(plan) => {
            put_plan(plan, points);
            plan.count
        }
        Err(refusal) => 256 * refusal.number() as usize,
    }
}

// 1 where the block is whole, else 0.
pub fn meter_whole(block: &[u8]) -> u8
    ensures { TellsWhole block.now result }
{
    if block.len() != BLOCK_BYTES {
        return 0;
    }
    load(block).whole() as u8
}
