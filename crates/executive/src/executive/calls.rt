//! The calls of an executive. None of them allocates, and a refused call changes nothing.

ghost use Rattle.std.specs.Prelude.{◌≡◌, ◌+◌, ◌^◌, ◌≤◌, IfOk, length};
ghost use Rattle.planning.specs.Places.{plan_set};
ghost use Rattle.runs.specs.Calls.{begun};
ghost use Rattle.runs.specs.Histories.{start_of};
ghost use Rattle.executive.specs.Changes.{counts_in};
ghost use Rattle.executive.specs.Views.{view_of, unit_or, done_or, Took};
ghost use Rattle.runs.specs.declared.call.Call.TheVariants.{Step, EarlyEnd, Rest, Resume};

use super::Executive;
use crate::between::{Change, Event, last_after};
use crate::slots::Slots;
use model::fault::Fault;
use model::ranking::Ranking;
use planning::plan::Plan;
use runs::call::{Accepted, Call, CountsReport, LastUnit, Reply, StepReport};

const LAST_CLOCK: u64 = 1_000_000_000_000;

// An instant above the last clock counts as the last clock.
fn clock_from(start: u64) -> u64
    ensures value { result ≡ start_of start }
    ensures early { result ≤ 10 ^ 12 }
{
    start.min(LAST_CLOCK)
}

impl<R: Ranking> Executive<R> {
    // The plan's lines, from the instant `start` on.
    pub fn start(plan: Plan, ranking: R, start: u64) -> Executive<R>
        ensures state { view_of result ≡ begun start (plan_set plan).lines }
        ensures plan { result.plan ≡ plan }
        ensures ranking { result.ranking ≡ ranking }
    {
        let slots = Slots::new(plan.lines(), clock_from(start));
        Executive {
            plan,
            ranking,
            slots,
            last: LastUnit::Idle,
        }
    }

    pub fn clock(&self) -> u64
        ensures { result ≡ (view_of self.now).clock }
    {
        self.slots.clock()
    }

    pub fn line_count(&self) -> usize
        ensures { result ≡ length (plan_set self.now.plan).lines }
    {
        self.plan.lines().len()
    }

    pub fn step(&mut self) -> Result<StepReport, Fault>
        ensures { Took (R.ahead self.old.ranking) self.old self.new Step (unit_or result) }
    {
        let clock = self.clock();
        if clock >= LAST_CLOCK {
            return Err(Fault::ClockAtEnd { clock });
        }
        let report = self.slots.step(&self.ranking).report;
        self.slots.note_start(report, clock);
        self.last = LastUnit::from(report);
        Ok(report)
    }

    // The job of the last unit is over.
    pub fn early_end(&mut self) -> Result<(), Fault>
        ensures { Took (R.ahead self.old.ranking) self.old self.new EarlyEnd (done_or result) }
    {
        match last_after(&mut self.last, Event::EarlyEnd) {
            Some(line) => {
                self.slots.change(line, Change::EndEarly);
                Ok(())
            }
            None => Err(Fault::NoJob),
        }
    }

    // An ordinary line makes no jobs until it is resumed, and its pending job is set aside.
    pub fn rest(&mut self, number: u64) -> Result<(), Fault>
        ensures { Took (R.ahead self.old.ranking) self.old self.new (Rest number) (done_or result) }
    {
        let task = self.slots.ordinary(number)?.task;
        let line = task.number;
        if task.resting {
            return Err(Fault::RestAsItIs { line });
        }
        self.slots.change(line, Change::Rest);
        last_after(&mut self.last, Event::SetAside { line });
        Ok(())
    }

    pub fn resume(&mut self, number: u64) -> Result<(), Fault>
        ensures { Took (R.ahead self.old.ranking) self.old self.new (Resume number) (done_or result) }
    {
        let task = self.slots.ordinary(number)?.task;
        let line = task.number;
        if !task.resting {
            return Err(Fault::RestAsItIs { line });
        }
        self.slots.change(line, Change::Resume);
        Ok(())
    }

    // A `match` and no table of functions: the compiler sees that no call is left out.
    pub fn take(&mut self, call: Call) -> Reply
        ensures { Took (R.ahead self.old.ranking) self.old self.new call result }
    {
        match call {
            Call::Step => self.step().map(Accepted::Step),
            Call::EarlyEnd => self.early_end().map(|()| Accepted::Done),
            Call::Rest { number } => self.rest(number).map(|()| Accepted::Done),
            Call::Resume { number } => self.resume(number).map(|()| Accepted::Done),
        }
    }

    // What became of a line's jobs.
    pub fn counts(&self, number: u64) -> Result<CountsReport, Fault>
        ensures value { result ≡ counts_in number (view_of self.now).tasks }
        ensures balanced { IfOk result (λ x. x.made ≡ x.ended + x.missed + x.aside + x.pending) }
    {
        let slot = self.slots.line(number)?;
        Ok(CountsReport::from(slot))
    }

    // Gives the plan and the ranking back.
    pub fn stop(self) -> (Plan, R)
        ensures { (result.0 ≡ self.plan) × (result.1 ≡ self.ranking) }
    {
        let Executive {
            plan,
            ranking,
            slots: _,
            last: _,
        } = self;
        (plan, ranking)
    }
}
