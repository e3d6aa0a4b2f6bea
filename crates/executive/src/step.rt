//! One unit of time: what is due is struck out, what is released arrives, and the pending job that
//! the ranking puts first gets the unit.

ghost use Rattle.std.specs.Prelude.{◌≡◌, ◌+◌, ◌-◌, ◌^◌, ◌<◌, ◌≤◌, true, length, map, Some, count_by, position, slice_index_or};
ghost use Rattle.std.specs.List.{filter, reduce};
ghost use Rattle.std.specs.Option.{option_map, option_copied, option_or};
ghost use Rattle.runs.specs.Calls.{on_line};
ghost use Rattle.runs.specs.Tasks.{due, given, pending, served};
ghost use Rattle.runs.specs.Steps.{first_of, arrived_all, line_of, lowest_due, number_of, report_of, stepped as stepped_all, unit_for, ToFirst};
ghost use Rattle.executive.specs.Slots.{tasks_of, tracks_of, blank_slot, arrived_slot, first_of_two, AllKept};

use crate::slot::Slot;
use crate::slots::Slots;
use crate::task::{give, is_pending, strike};
use model::job::Job;
use model::ranking::Ranking;
use runs::call::{StepReport, UnitReport};
use runs::task::Task;

// How many jobs were struck out at an instant, and the lowest line of them.
#[derive(Clone, Copy, Default)]
struct Struck {
    count: u32,
    lowest: Option<u32>,
}

#[derive(Clone, Copy)]
pub(crate) struct Stepped {
    pub(crate) report: StepReport,
    pub(crate) lowest: Option<u32>,
}

impl Struck {
    // One more, of a line above those so far.
    fn add(&mut self, line: u32)
        requires { self.old.count < 24 }
        ensures { self.new ≡ record { count = self.old.count + 1; lowest = option_or self.old.lowest (Some line) } }
    {
        self.count += 1;
        self.lowest = self.lowest.or(Some(line));
    }
}

// In each slot what comes due is struck out before the release of the same instant is met.
fn arrive_each(slots: &mut [Slot], t: u64) -> Struck
    requires { (AllKept t slots.old) × ((length slots.old ≤ 24) × (t < 10 ^ 12)) }
    ensures slots { slots.new ≡ map (arrived_slot t) slots.old }
    ensures count { result.count ≡ count_by (due t) (tasks_of slots.old) }
    ensures lowest { result.lowest ≡ lowest_due t (tasks_of slots.old) }
{
    let mut struck = Struck::default();
    for slot in slots.iter_mut() {
        if strike(&mut slot.task, t) {
            struck.add(slot.task.number);
        }
        slot.release_at(t);
    }
    struck
}

fn first_pending(slots: &[Slot]) -> Option<usize>
    ensures { result ≡ position (λ x. pending x.task) slots.now }
{
    slots.iter().position(|slot| is_pending(&slot.task))
}

// The slot whose pending job goes first. A `for` over those behind the first pending one: `filter` with `reduce` is
// slower.
#[tactic(auto, using(crate::proofs::Chosen::none_seen, crate::proofs::Chosen::seen_from))]
fn first<'a, R: Ranking>(slots: &'a [Slot], ranking: &R) -> Option<&'a Slot>
    ensures { option_copied result ≡ reduce (first_of_two (R.ahead ranking.now)) (filter (λ x. pending x.task) slots.now) }
{
    let start = first_pending(slots)?;
    let mut best = &slots[start];
    for slot in &slots[start + 1..] {
        if is_pending(&slot.task) && ranking.goes_ahead(&Job::from(slot), &Job::from(best)) {
            best = slot;
        }
    }
    Some(best)
}

// The unit goes to a pending job.
fn give_unit(task: &mut Task) -> UnitReport
    requires { (0 < task.old.left) × (task.old.counts.ended ≤ 10 ^ 12) }
    ensures task { task.new ≡ given task.old }
    ensures report { result ≡ unit_for task.old }
{
    let report = UnitReport {
        line: task.number,
        began: task.left == task.line.length,
        ended: task.left == 1,
    };
    give(task);
    report
}

impl Slots {
    fn arrive_all(&mut self) -> Struck
        requires { self.old.clock < 10 ^ 12 }
        ensures clock { self.new.clock ≡ self.old.clock + 1 }
        ensures slots { self.new.list.items ≡ map (arrived_slot self.old.clock) self.old.list.items }
        ensures count { result.count ≡ count_by (due self.old.clock) (tasks_of self.old.list.items) }
        ensures lowest { result.lowest ≡ lowest_due self.old.clock (tasks_of self.old.list.items) }
    {
        let struck = arrive_each(self.list.as_mut_slice(), self.clock);
        self.clock += 1;
        struck
    }

    // The unit goes to line `line`.
    fn give_to(&mut self, line: u32) -> UnitReport
        requires line { (0 < line) × (line ≤ length self.old.list.items) }
        requires pending { pending (slice_index_or self.old.list.items (line - 1) blank_slot).task ≡ true }
        ensures clock { self.new.clock ≡ self.old.clock }
        ensures tasks { tasks_of self.new.list.items ≡ on_line line given (tasks_of self.old.list.items) }
        ensures tracks { tracks_of self.new.list.items ≡ tracks_of self.old.list.items }
        ensures report { result ≡ unit_for (slice_index_or self.old.list.items (line - 1) blank_slot).task }
    {
        let slot = &mut self.list.as_mut_slice()[line as usize - 1];
        give_unit(&mut slot.task)
    }

    // The unit goes to the pending job that goes first.
    fn give_first<R: Ranking>(&mut self, ranking: &R) -> Option<UnitReport>
        ensures clock { self.new.clock ≡ self.old.clock }
        ensures tasks { tasks_of self.new.list.items ≡ map (served (number_of (first_of (R.ahead ranking.now) (tasks_of self.old.list.items)))) (tasks_of self.old.list.items) }
        ensures tracks { tracks_of self.new.list.items ≡ tracks_of self.old.list.items }
        ensures unit { result ≡ option_map unit_for (first_of (R.ahead ranking.now) (tasks_of self.old.list.items)) }
    {
        let line = first(self.list.as_slice(), ranking)?.task.number;
        Some(self.give_to(line))
    }

    // The unit at the clock.
    pub(crate) fn step<R: Ranking>(&mut self, ranking: &R) -> Stepped
        requires { self.old.clock < 10 ^ 12 }
        ensures clock { self.new.clock ≡ self.old.clock + 1 }
        ensures tasks { tasks_of self.new.list.items ≡ stepped_all (R.ahead ranking.now) self.old.clock (tasks_of self.old.list.items) }
        ensures tracks { tracks_of self.new.list.items ≡ tracks_of self.old.list.items }
        ensures report { result.report ≡ report_of (R.ahead ranking.now) self.old.clock (tasks_of self.old.list.items) }
        ensures lowest { result.lowest ≡ lowest_due self.old.clock (tasks_of self.old.list.items) }
        ensures first { ToFirst (R.ahead ranking.now) (arrived_all self.old.clock (tasks_of self.old.list.items)) (line_of result.report) }
    {
        let struck = self.arrive_all();
        let unit = self.give_first(ranking);
        Stepped {
            report: StepReport {
                unit,
                struck: struck.count,
            },
            lowest: struck.lowest,
        }
    }
}
