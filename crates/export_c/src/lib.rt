// The library that C and Rust link: each call of `export` under its own name, over the C interface, with the same promise.
#![tactic(auto)]

ghost use Rattle.rules.specs.Calls.{Release, Done, Clock};
ghost use Rattle.run.specs.Run.{Runs};
ghost use Rattle.export.specs.Door.{TellsStart, TellsListing, TellsPlan, Tells, TellsWhole};

use table::MOST;

#[unsafe(no_mangle)]
pub extern "C" fn meter_run(stream: &[u8], out: &mut [u8]) -> usize
    ensures { Runs stream.now out.old result out.new }
{
    export::meter_run(stream, out)
}

#[unsafe(no_mangle)]
pub extern "C" fn meter_start(stream: &[u8], reading: u32, block: &mut [u8]) -> usize
    ensures { TellsStart stream.now reading block.old result block.new }
{
    export::meter_start(stream, reading, block)
}

#[unsafe(no_mangle)]
pub extern "C" fn meter_release(
    block: &mut [u8],
    reading: u32,
    task: u8,
    answer: &mut [u64; 4],
) -> u8
    ensures { Tells (Release reading task) block.old answer.old result block.new answer.new }
{
    export::meter_release(block, reading, task, answer)
}

#[unsafe(no_mangle)]
pub extern "C" fn meter_done(block: &mut [u8], reading: u32, task: u8, answer: &mut [u64; 4]) -> u8
    ensures { Tells (Done reading task) block.old answer.old result block.new answer.new }
{
    export::meter_done(block, reading, task, answer)
}

#[unsafe(no_mangle)]
pub extern "C" fn meter_clock(block: &mut [u8], reading: u32, answer: &mut [u64; 4]) -> u8
    ensures { Tells (Clock reading) block.old answer.old result block.new answer.new }
{
    export::meter_clock(block, reading, answer)
}

#[unsafe(no_mangle)]
pub extern "C" fn meter_listing(block: &[u8], buffer: &mut [u8]) -> usize
    ensures { TellsListing block.now buffer.old result buffer.new }
{
    export::meter_listing(block, buffer)
}

#[unsafe(no_mangle)]
pub extern "C" fn meter_plan(block: &[u8], task: u8, points: &mut [u32; 2 * MOST]) -> usize
    ensures { TellsPlan block.now task points.old result points.new }
{
    export::meter_plan(block, task, points)
}

#[unsafe(no_mangle)]
pub extern "C" fn meter_whole(block: &[u8]) -> u8
    ensures { TellsWhole block.now result }
{
    export::meter_whole(block)
}
