//! What one instant does to a line under way. Each function bounds the one count that it adds to: a task is plain data
//! of the definitions, and that its counts stay below the clock is what `Slots` keeps.

ghost use Rattle.std.specs.Prelude.{◌≡◌, ◌+◌, ◌^◌, ◌<◌, ◌≤◌, true};
ghost use Rattle.runs.specs.Tasks.{pending, due, struck, arrives, admitted, given, new_task};

use model::line::Line;
use runs::task::Task;

// Before its first instant, and not at rest.
pub(crate) fn new_task(number: u32, line: Line) -> Task
    ensures { result ≡ new_task number line }
{
    Task {
        number,
        line,
        ..Task::default()
    }
}

pub(crate) fn is_pending(task: &Task) -> bool
    ensures { result ≡ pending task.now }
{
    task.left > 0
}

fn is_due(task: &Task, t: u64) -> bool
    requires { task.now.release < 10 ^ 12 }
    ensures { result ≡ due t task.now }
{
    task.left > 0 && task.release + task.line.deadline as u64 == t
}

// A job is over: it has nothing left to run, and one more is counted.
pub(crate) fn close(left: &mut u32, count: &mut u64)
    requires { count.old ≤ 10 ^ 12 }
    ensures left { left.new ≡ 0 }
    ensures count { count.new ≡ count.old + 1 }
{
    *left = 0;
    *count += 1;
}

// Strikes the pending job out if it comes to its deadline at `t`, and says whether it did.
pub(crate) fn strike(task: &mut Task, t: u64) -> bool
    requires { (task.old.release < 10 ^ 12) × (task.old.counts.missed ≤ 10 ^ 12) }
    ensures value { result ≡ due t task.old }
    ensures after { task.new ≡ struck t task.old }
{
    let due = is_due(task, t);
    if due {
        close(&mut task.left, &mut task.counts.missed);
    }
    due
}

// Gives the line the job of its release at `t`.
pub(crate) fn admit(task: &mut Task, t: u64)
    requires { (arrives t task.old ≡ true) × (task.old.counts.made ≤ 10 ^ 12) }
    ensures { task.new ≡ admitted t task.old }
{
    task.release = t;
    task.left = task.line.length;
    task.counts.made += 1;
}

// The pending job has one unit less left, and has ended with its last.
pub(crate) fn give(task: &mut Task)
    requires { (0 < task.old.left) × (task.old.counts.ended ≤ 10 ^ 12) }
    ensures { task.new ≡ given task.old }
{
    if task.left == 1 {
        task.counts.ended += 1;
    }
    task.left -= 1;
}
