// From the bytes of a stream to the whole text that the runner prints ("Records and the runner").
//
//     run                the buffer's length
//       put_output       14, then 12 and 13 at each record: X
//         report         the table, and tests 1 to 4: X
//           lines        the block starts, last reading 0
//             plan_lines     P, a line a task                  plans
//             events         E, a line an event record         events
//             sum_line       S
//
// Time: the stream is read three times, for its tests, its table and its events; an event takes what its call takes, with the
// whole-test, and what counting the waiting jobs takes.
#![tactic(auto)]

ghost use Rattle.std.specs.Prelude.{◌≡◌, suc, ◌≤◌, length, replicate};
ghost use Rattle.rules.specs.Numbers.{Passed, longest};
ghost use Rattle.rules.specs.Records.{stream_of};
ghost use Rattle.rules.specs.Runner.{output_of};
ghost use Rattle.text.specs.Writes.{HasRoom, Writes};
ghost use Rattle.run.specs.Run.{room, Runs, StartedBy};

use events::events;
use kernel::Block;
use kernel::start::start;
use lines::{refusal_line, sum_line};
use plans::plan_lines;
use refusals::Refused;
use stream::{LONGEST, stream_test, table_in};
use text::Text;

mod plans; // P lines
mod events; // E lines

// Room for the longest output: 2 MiB.
pub const ROOM: usize = 2097152;

// The output's length; 0, and nothing is written, where the buffer has less than ROOM. (A number, as the C interface has it.)
pub fn run(stream: &[u8], out: &mut [u8]) -> usize
    ensures { Runs stream.now out.old result out.new × (result ≤ length out.new) }
{
    if out.len() < ROOM {
        return 0;
    }
    let mut text = Text { buffer: out, at: 0 };
    put_output(stream, &mut text);
    text.at
}

// The output, where there is room for it: the stream is tested.
fn put_output(stream: &[u8], out: &mut Text)
    requires { HasRoom out.old room }
    ensures { Writes out.old (output_of stream.now) room out.new }
{
    match stream_test(stream) {
        Ok(()) => report(stream, out),
        Err(refusal) => refusal_line(out, refusal.number() as u64, refusal.given() as u64),
    }
}

// The output for a readable stream: its table is tested, and the block starts.
fn report(stream: &[u8], out: &mut Text)
    requires { (stream_of stream.now ≡ Passed) × HasRoom out.old room }
    ensures { Writes out.old (output_of stream.now) room out.new }
{
    let started = start(table_in(stream), 0);
    match started.verdict {
        Ok(()) => lines(stream, started.block, out),
        Err(refusal) => refusal_line(out, refusal.number() as u64, refusal.given() as u64),
    }
}

// The lines of a readable stream whose table is sound; the block is as it started.
fn lines(stream: &[u8], block: Block, out: &mut Text)
    requires { StartedBy stream.now block × HasRoom out.old room }
    ensures { Writes out.old (output_of stream.now) room out.new }
{
    plan_lines(block.tasks, out);
    let totals = events(stream, block, out);
    sum_line(out, totals.moves, totals.bound);
}

// Room for a stream and one byte more, by which a longer one is seen.
pub fn input_room() -> [u8; LONGEST + 1]
    ensures { result ≡ replicate (suc longest) 0 }
{
    [0; LONGEST + 1]
}

// Room for its output.
pub fn output_room() -> [u8; ROOM]
    ensures { result ≡ replicate room 0 }
{
    [0; ROOM]
}
