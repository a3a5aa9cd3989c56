// The runner's lines ("Records and the runner").
//
//     X number task-or-offset
//     P task first-level point:level ..
//     E count answer running moves waiting margin
//     S total bound
//
// Each function writes a line behind what a text holds already. These are inner forms: each asks for room for the longest line that it
// can put.
#![tactic(auto)]

ghost use Rattle.std.specs.Prelude.{◌≤◌};
ghost use Rattle.rules.specs.Table.{most};
ghost use Rattle.rules.specs.Text.{margin_text, points_text, plan_text, event_text, sum_text};
ghost use Rattle.text.specs.Writes.{HasRoom, Writes};
ghost use Rattle.kernel.specs.Answers.{margin_in};
ghost use Rattle.levels.specs.Copy.{points_in};
ghost use Rattle.lines.specs.Shown.{numbers_text, shown_as};
ghost use Rattle.lines.specs.Room.{margin_room, numbers_room, points_room, plan_room, event_room};

use kernel::{Level, Plan};
use text::Text;

// What an E line shows.
#[derive(Clone, Copy)]
pub struct Shown {
    pub count: u64,
    pub answer: u64,
    pub running: u64,
    pub moves: u64,
    pub waiting: u64,
    pub margin: Option<i64>,
}

// A letter and two numbers: the lines X and S.
fn numbers_line(out: &mut Text, letter: u8, first: u64, second: u64)
    requires { HasRoom out.old numbers_room }
    ensures { Writes out.old (numbers_text letter first second) numbers_room out.new }
{
    out.byte(letter);
    out.column(first);
    out.column(second);
    out.byte(b'\n');
}

// "`X number task-or-offset`"
pub fn refusal_line(out: &mut Text, number: u64, given: u64)
    requires { HasRoom out.old numbers_room }
    ensures { Writes out.old (numbers_text 88 number given) numbers_room out.new }
{
    numbers_line(out, b'X', number, given);
}

// "`S` with total moves and the bound of demand 3"
pub fn sum_line(out: &mut Text, total: u64, bound: u64)
    requires { HasRoom out.old numbers_room }
    ensures { Writes out.old (sum_text total bound) numbers_room out.new }
{
    numbers_line(out, b'S', total, bound);
}

// "margin or `-`", behind a blank.
fn put_margin(out: &mut Text, margin: Option<i64>)
    requires { HasRoom out.old margin_room }
    ensures { Writes out.old (margin_text (margin_in margin)) margin_room out.new }
{
    out.byte(b' ');
    match margin {
        None => out.byte(b'-'),
        Some(ticks) => out.signed(ticks),
    }
}

// "one `E` line an event record"
pub fn event_line(out: &mut Text, line: Shown)
    requires { HasRoom out.old event_room }
    ensures { Writes out.old (event_text (shown_as line)) event_room out.new }
{
    out.byte(b'E');
    out.column(line.count);
    out.column(line.answer);
    out.column(line.running);
    out.column(line.moves);
    out.column(line.waiting);
    put_margin(out, line.margin);
    out.byte(b'\n');
}

// "` point:level` for each promotion"
fn put_points(out: &mut Text, plan: Plan)
    requires { (plan.count ≤ most) × HasRoom out.old (points_room plan.count) }
    ensures { Writes out.old (points_text (points_in plan)) (points_room plan.count) out.new }
{
    for point in &plan.points[..plan.count] {
        out.column(point.at as u64);
        out.byte(b':');
        out.number(point.level.0 as u64);
    }
}

// "one `P task first-level` line a task"
pub fn plan_line(out: &mut Text, task: u64, level: Level, plan: Plan)
    requires { (plan.count ≤ most) × HasRoom out.old (plan_room plan.count) }
    ensures { Writes out.old (plan_text (record { task = task; level = level.0; points = points_in plan })) (plan_room plan.count) out.new }
{
    out.byte(b'P');
    out.column(task);
    out.column(level.0 as u64);
    put_points(out, plan);
    out.byte(b'\n');
}
