// "one `P task first-level` line a task in table order, with ` point:level` for each promotion"
ghost use Rattle.std.specs.Prelude.{◌*◌, length};
ghost use Rattle.rules.specs.Table.{most};
ghost use Rattle.rules.specs.Lines.{plan_line_of, plan_lines};
ghost use Rattle.rules.specs.Text.{plan_text, plans_text};
ghost use Rattle.table.specs.Stored.{table_of};
ghost use Rattle.text.specs.Writes.{HasRoom, Writes};
ghost use Rattle.lines.specs.Room.{plan_room};
ghost use Rattle.run.specs.Run.{Laid, LaidTask};

use jobs::Tasks;
use kernel::TaskNo;
use levels::{first_level, plan_of};
use lines::plan_line;
use text::Text;

// The line of one task.
fn task_line(tasks: Tasks, task: TaskNo, out: &mut Text)
    requires { LaidTask tasks task.0 × HasRoom out.old (plan_room most) }
    ensures { Writes out.old (plan_text (plan_line_of (table_of tasks.table) task.0)) (plan_room most) out.new }
{
    let table = tasks.table;
    let i = task.0 as usize;
    let entry = table.tasks[i - 1];
    let rising = &tasks.rising[..table.count];
    let level = first_level(rising, entry.d);
    let plan = plan_of(rising, entry.d);
    plan_line(out, task.0 as u64, level, plan);
}

// The lines of all tasks.
pub fn plan_lines(tasks: Tasks, out: &mut Text)
    requires { Laid tasks × HasRoom out.old (most * plan_room most) }
    ensures { Writes out.old (plans_text (plan_lines (table_of tasks.table) (length (table_of tasks.table)) 1)) (most * plan_room most) out.new }
{
    // the number is what the line names
    for k in 1..=tasks.table.count {
        task_line(tasks, TaskNo(k as u8), out);
    }
}
