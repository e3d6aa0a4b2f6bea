//! The calls between steps, on the lines of a plan under way and on where the last unit went.

ghost use Rattle.std.specs.Prelude.{◌≡◌, ◌-◌, ◌^◌, ◌<◌, ◌≤◌, Ok, Err, true, false, length, MatchResult, slice_index_or};
ghost use Rattle.model.specs.Ranges.{is_regular};
ghost use Rattle.runs.specs.Calls.{on_line};
ghost use Rattle.executive.specs.Changes.{place_in, last_after, ended_by, changed, Allows, line_in, ordinary_in};
ghost use Rattle.executive.specs.Slots.{blank_slot, tasks_of, tracks_of};

use crate::slot::Slot;
use crate::slots::Slots;
use crate::task::{close, is_pending};
use model::fault::Fault;
use runs::call::LastUnit;
use runs::task::Task;

// How a job is over between steps.
#[derive(Clone, Copy)]
pub(crate) enum Event {
    EarlyEnd,
    SetAside { line: u32 },
}

// What a call between steps makes of a line. An enum and no closure, since each change has a `requires` of its own.
#[derive(Clone, Copy)]
pub(crate) enum Change {
    EndEarly,
    Rest,
    Resume,
}

// Where the last unit went, after an event; and the line whose job the event ends early, if it does.
pub(crate) fn last_after(last: &mut LastUnit, event: Event) -> Option<u32>
    ensures last { last.new ≡ last_after last.old event }
    ensures ends { result ≡ ended_by last.old event }
{
    match (&mut *last, event) {
        (LastUnit::Running { line }, Event::EarlyEnd) => {
            let line = *line;
            *last = LastUnit::Ended { line };
            Some(line)
        }
        (LastUnit::Running { line }, Event::SetAside { line: aside }) => {
            let line = *line;
            if line == aside {
                *last = LastUnit::Ended { line };
            }
            None
        }
        (LastUnit::Idle, _) => None,
        (LastUnit::Ended { .. }, _) => None,
    }
}

// A job that ends early counts as ended; a line at rest makes no more jobs, and one that is pending is
// set aside.
fn make_change(task: &mut Task, change: Change)
    requires { (task.old.counts.ended ≤ 10 ^ 12) × (task.old.counts.aside ≤ 10 ^ 12) }
    ensures { task.new ≡ changed change task.old }
{
    match change {
        Change::EndEarly => close(&mut task.left, &mut task.counts.ended),
        Change::Rest => {
            if is_pending(task) {
                close(&mut task.left, &mut task.counts.aside);
            }
            task.resting = true;
        }
        Change::Resume => task.resting = false,
    }
}

// The place of a line by its number, in a list of n lines.
fn place_in(n: usize, number: u64) -> Result<usize, Fault>
    ensures { result ≡ place_in n number }
{
    if number == 0 || number > n as u64 {
        return Err(Fault::NoSuchLine { number });
    }
    Ok(number as usize - 1)
}

impl Slots {
    // The line of that number.
    pub(crate) fn line(&self, number: u64) -> Result<&Slot, Fault>
        ensures { MatchResult result (λ slot. Ok slot.now ≡ line_in number self.now.list.items) (λ e. Err e ≡ line_in number self.now.list.items) }
    {
        let i = place_in(self.list.len(), number)?;
        Ok(&self.list.as_slice()[i])
    }

    // The line of that number, if it is ordinary.
    pub(crate) fn ordinary(&self, number: u64) -> Result<&Slot, Fault>
        ensures { MatchResult result (λ slot. Ok slot.now ≡ ordinary_in number self.now.list.items) (λ e. Err e ≡ ordinary_in number self.now.list.items) }
    {
        let slot = self.line(number)?;
        if slot.task.line.is_regular() {
            let line = slot.task.number;
            return Err(Fault::RegularLine { line });
        }
        Ok(slot)
    }

    // The line of that number alone is changed.
    pub(crate) fn change(&mut self, line: u32, change: Change)
        requires line { (0 < line) × (line ≤ length self.old.list.items) }
        requires allowed { Allows change (slice_index_or self.old.list.items (line - 1) blank_slot).task }
        ensures clock { self.new.clock ≡ self.old.clock }
        ensures tasks { tasks_of self.new.list.items ≡ on_line line (changed change) (tasks_of self.old.list.items) }
        ensures tracks { tracks_of self.new.list.items ≡ tracks_of self.old.list.items }
    {
        let slot = &mut self.list.as_mut_slice()[line as usize - 1];
        make_change(&mut slot.task, change);
    }
}
