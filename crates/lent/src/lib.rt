// The calls by the block's address: "the kernel keeps one block for its whole life and hands its address to each call". Each calls the
// method by value, with the same answer, and stores the block that it gives back. (They are three, as the paper has them.)
#![tactic(auto)]

ghost use Rattle.rules.specs.Calls.{Release, Done, Clock};
ghost use Rattle.kernel.specs.Calls.{call_in, Gives};

use kernel::{Accepted, Block, Call, Called, Refusal, TaskNo};

pub fn release(block: &mut Block, reading: u32, task: TaskNo) -> Result<Accepted, Refusal>
    ensures { Gives block.old (Release reading task.0) (record { answer = result; block = block.new }) }
{
    let released = (*block).release(reading, task);
    *block = released.block;
    released.answer
}

pub fn done(block: &mut Block, reading: u32, task: TaskNo) -> Result<Accepted, Refusal>
    ensures { Gives block.old (Done reading task.0) (record { answer = result; block = block.new }) }
{
    let ended = (*block).done(reading, task);
    *block = ended.block;
    ended.answer
}

pub fn clock(block: &mut Block, reading: u32) -> Result<Accepted, Refusal>
    ensures { Gives block.old (Clock reading) (record { answer = result; block = block.new }) }
{
    let moved = (*block).clock(reading);
    *block = moved.block;
    moved.answer
}

// One of the three on a block of its own, for callers that hold a block by value.
pub fn call_through(block: Block, call: Call) -> Called
    ensures { Gives block (call_in call) result }
{
    let mut kept = block;
    let answer = match call {
        Call::Release { reading, task } => release(&mut kept, reading, task),
        Call::Done { reading, task } => done(&mut kept, reading, task),
        Call::Clock { reading } => clock(&mut kept, reading),
    };
    Called {
        answer,
        block: kept,
    }
}
