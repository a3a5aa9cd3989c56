// What the benchmark times, for Rust to link: one call, so many times on the same block, as users call it and by its inner form. What it
// gives back is the sum of the tasks that the answers name, so that no call can be left out; and the block that a call gives back is kept
// and at the end tested, so that no call can leave it out.
#![tactic(auto)]

ghost use Rattle.std.specs.Prelude.{◌≡◌, ◌≤◌};
ghost use Rattle.kernel.specs.Block.{Whole};
ghost use Rattle.kernel.specs.Answers.{answer_in};
ghost use Rattle.kernel.specs.Calls.{call_in, Does};
ghost use Rattle.bench.specs.Sums.{call_by, named_in, Sums};

use image::{BLOCK_BYTES, load};
use kernel::{Accepted, Block, Call, Called, Refusal, TaskNo, task_number};

// The task that an answer names; 0 where it names none.
fn named(answer: Result<Accepted, Refusal>) -> u64
    ensures { (result ≡ named_in (answer_in answer)) × (result ≤ 255) }
{
    match answer {
        Err(_) => 0,
        Ok(accepted) => task_number(accepted.running) as u64,
    }
}

// A call of this kind: 0 release, 1 done, else clock. (A number, as the C interface has it.)
fn call_of(kind: u8, reading: u32, task: u8) -> Call
    ensures { call_in result ≡ call_by kind reading task }
{
    let task = TaskNo(task);
    match kind {
        0 => Call::Release { reading, task },
        1 => Call::Done { reading, task },
        _ => Call::Clock { reading },
    }
}

// The inner form of a call, as `Block::call` is of the public ones: each names other functions.
fn call_whole(block: Block, call: Call) -> Called
    requires { Whole block }
    ensures { Does block (call_in call) result }
{
    match call {
        Call::Release { reading, task } => block.release_whole(reading, task),
        Call::Done { reading, task } => block.done_whole(reading, task),
        Call::Clock { reading } => block.clock_whole(reading),
    }
}

// So many calls on the block that the bytes say, each made by `make`; 0 where they are no whole block.
fn sum_of<F: Fn(Block, Call) -> Called>(make: F, block: &[u8], call: Call, times: u32) -> u64
    requires takes { (b : Block) → Whole b → F.pre make b call }
    requires does { (b : Block) (r : Called) → Whole b → F.post make b call r → Does b (call_in call) r }
    ensures { Sums block.now (call_in call) times result }
{
    if block.len() != BLOCK_BYTES {
        return 0;
    }
    let kept = load(block);
    if !kept.whole() {
        return 0;
    }
    let mut sum: u64 = 0;
    let mut after = kept;
    // so many times: there is nothing to go over
    for _ in 0..times {
        let Called {
            answer,
            block: next,
        } = make(kept, call);
        sum += named(answer);
        after = next;
    }
    if !after.whole() {
        return 0; // not reached
    }
    sum
}

// The public call, with its whole-test; 0 where the bytes are no whole block.
pub fn bench_calls(block: &[u8], kind: u8, reading: u32, task: u8, times: u32) -> u64
    ensures { Sums block.now (call_by kind reading task) times result }
{
    sum_of(Block::call, block, call_of(kind, reading, task), times)
}

// The inner form, without the whole-test.
pub fn bench_inner(block: &[u8], kind: u8, reading: u32, task: u8, times: u32) -> u64
    ensures { Sums block.now (call_by kind reading task) times result }
{
    sum_of(call_whole, block, call_of(kind, reading, task), times)
}
