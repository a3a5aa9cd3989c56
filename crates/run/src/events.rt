// "one `E` line an event record"; and the totals of the S line.
ghost use Rattle.std.specs.Prelude.{◌≡◌, ◌-◌, ◌≤◌, length};
ghost use Rattle.rules.specs.Numbers.{longest};
ghost use Rattle.rules.specs.Lines as Rules;
ghost use Rattle.rules.specs.Levels.{first_level};
ghost use Rattle.rules.specs.Histories.{bound_by};
ghost use Rattle.rules.specs.Records.{calls_read};
ghost use Rattle.table.specs.Stored.{table_of};
ghost use Rattle.lines.specs.Shown.{shown_as};
ghost use Rattle.kernel.specs.Block.{Whole};
ghost use Rattle.kernel.specs.Answers.{answer_in};
ghost use Rattle.kernel.specs.Calls.{call_in};
ghost use Rattle.text.specs.Writes.{HasRoom};
ghost use Rattle.lines.specs.Room.{event_room};
ghost use Rattle.run.specs.Run.{totals_of, step_in, events_room, LaidTask, Boundable, Steps, Begins, Ends};

use jobs::Tasks;
use kernel::{Accepted, Block, Call, Called, Refusal, TaskNo, task_number};
use levels::first_level;
use lines::{Shown, event_line};
use records::{Reader, Record};
use refusals::Refused;
use text::Text;

// How far a run has come: the block, how many events there were, the total of moves, and the bound of demand 3.
#[derive(Clone, Copy)]
struct Progress {
    pub block: Block,
    pub count: u64,
    pub moves: u64,
    pub bound: u64,
}

// What a run comes to: the total of moves, and the bound.
#[derive(Clone, Copy)]
pub struct Totals {
    pub moves: u64,
    pub bound: u64,
}

fn totals_of(progress: Progress) -> Totals
    ensures { result ≡ totals_of progress }
{
    Totals {
        moves: progress.moves,
        bound: progress.bound,
    }
}

// What the line of an event shows: running and waiting are those after it, moves and margin those of its answer.
fn shown(count: u64, called: Called) -> Shown
    requires { Whole called.block }
    ensures { shown_as result ≡ Rules.line_of count (step_in called) }
{
    let ready = called.block.ready;
    let running = task_number(ready.running) as u64;
    let waiting = ready.lists.waiting() as u64;
    match called.answer {
        Ok(accepted) => Shown {
            count,
            answer: 0,
            running,
            moves: accepted.moves as u64,
            waiting,
            margin: accepted.margin,
        },
        Err(refusal) => Shown {
            count,
            answer: refusal.number() as u64,
            running,
            moves: 0,
            waiting,
            margin: None,
        },
    }
}

// What an event adds to the bound of demand 3: an accepted release "the released task's first level less one", any other nothing.
fn bound_by(tasks: Tasks, event: Call, answer: Result<Accepted, Refusal>) -> u64
    requires { Boundable tasks (call_in event) (answer_in answer) }
    ensures { (result ≡ bound_by (table_of tasks.table) (call_in event) (answer_in answer)) × (result ≤ 256) }
{
    match (event, answer) {
        (Call::Release { reading: _, task }, Ok(_)) => first_less_one(tasks, task),
        _ => 0,
    }
}

// A task's first level less one.
fn first_less_one(tasks: Tasks, task: TaskNo) -> u64
    requires { LaidTask tasks task.0 }
    ensures { (result ≡ first_level (table_of tasks.table) task.0 - 1) × (result ≤ 256) }
{
    let table = tasks.table;
    let i = task.0 as usize;
    let entry = table.tasks[i - 1];
    let level = first_level(&tasks.rising[..table.count], entry.d);
    level.0 as u64 - 1
}

// One event: its call, its line, and what it adds to the totals.
fn event(progress: Progress, event: Call, out: &mut Text) -> Progress
    requires { Begins progress × HasRoom out.old event_room }
    ensures { Steps progress (call_in event) out.old result out.new }
{
    let tasks = progress.block.tasks;
    let count = progress.count + 1;
    let called = progress.block.call(event);
    let line = shown(count, called);
    let moves = progress.moves + line.moves;
    let bound = progress.bound + bound_by(tasks, event, called.answer);
    event_line(out, line);
    Progress {
        block: called.block,
        count,
        moves,
        bound,
    }
}

// All events of the stream.
pub fn events(stream: &[u8], block: Block, out: &mut Text) -> Totals
    requires { Whole block × (length stream.now ≤ longest) × HasRoom out.old events_room }
    ensures { Ends block (calls_read stream.now) out.old result out.new }
{
    let mut now = Progress {
        block,
        count: 0,
        moves: 0,
        bound: 0,
    };
    for item in Reader::new(stream) {
        let Ok((_, record)) = item else { break };
        if let Record::Event(next) = record {
            now = event(now, next, out);
        }
    }
    totals_of(now)
}
