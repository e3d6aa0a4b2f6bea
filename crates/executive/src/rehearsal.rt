//! The rehearsal: a plan's lines run from instant 0 to one and to two hyperperiods after the largest
//! offset, on slots of its own.

ghost use Rattle.std.specs.Prelude.{◌≡◌, ◌+◌, ◌*◌, ◌^◌, ◌<◌, ◌≤◌, length, Ok, OnOk};
ghost use Rattle.planning.specs.Hyperperiods.{hyperperiod};
ghost use Rattle.planning.specs.Places.{plan_set};
ghost use Rattle.model.specs.Ranges.{Ranged, AllRanged};
ghost use Rattle.executive.specs.Slots.{tasks_of};
ghost use Rattle.runs.specs.Steps.{stepped};
ghost use Rattle.runs.specs.RehearsalRules.{OnlyRehearsed};
ghost use Rattle.runs.specs.Rehearsals.{share_of, load_of, last_offset, miss_at, run_units, units_left, and_then, between_marks as between_marks_of, rehearsal_of};

use crate::slots::Slots;
use arrayvec::ArrayVec;
use model::fault::Fault;
use model::line::Line;
use model::ranking::Ranking;
use planning::plan::Plan;

// The units that a line takes up in one hyperperiod.
fn share(line: &Line, h: u32) -> u64
    requires { (Ranged line.now) × (h ≤ 1000000) }
    ensures value { result ≡ share_of h line.now }
    ensures bound { result ≤ 60000000000 }
{
    line.length as u64 * h as u64 / line.period as u64
}

// Added up line by line in a `for`, the form that is fixed for this sum.
fn load(lines: &[Line], h: u32) -> u64
    requires { (AllRanged lines.now) × ((h ≤ 1000000) × (length lines.now ≤ 24)) }
    ensures { result ≡ load_of h lines.now }
{
    let mut sum = 0;
    for line in lines {
        sum += share(line, h);
    }
    sum
}

fn last_offset(lines: &[Line]) -> u32
    ensures { result ≡ last_offset lines.now }
{
    lines.iter().map(|line| line.offset).max().unwrap_or(0)
}

// The unit at the clock; a job that it strikes out is a miss.
fn step_unmissed<R: Ranking>(slots: &mut Slots, ranking: &R) -> Result<(), Fault>
    requires { slots.old.clock < 10 ^ 12 }
    ensures value { result ≡ miss_at slots.old.clock (tasks_of slots.old.list.items) }
    ensures tasks { tasks_of slots.new.list.items ≡ stepped (R.ahead ranking.now) slots.old.clock (tasks_of slots.old.list.items) }
    ensures clock { slots.new.clock ≡ slots.old.clock + 1 }
{
    let instant = slots.clock();
    match slots.step(ranking).lowest {
        Some(line) => Err(Fault::Missed { instant, line }),
        None => Ok(()),
    }
}

// As many steps as `units`, up to the first that strikes a job out.
fn run<R: Ranking>(slots: &mut Slots, ranking: &R, units: u64) -> Result<(), Fault>
    requires { slots.old.clock + units ≤ 10 ^ 12 }
    ensures reached { and_then result (λ _. Ok (tasks_of slots.new.list.items)) ≡ run_units (R.ahead ranking.now) units slots.old.clock (tasks_of slots.old.list.items) }
    ensures clock { OnOk result (slots.new.clock ≡ slots.old.clock + units) }
{
    for _ in 0..units {
        step_unmissed(slots, ranking)?;
    }
    Ok(())
}

// The units that the pending jobs have still to run, line by line. A loop: `collect` into an `ArrayVec` gives a
// `Result`, though there is always room.
fn units_left(slots: &Slots) -> ArrayVec<u32, 24>
    ensures { result.items ≡ units_left (tasks_of slots.now.list.items) }
{
    let mut left = ArrayVec::new();
    for slot in slots.list.as_slice() {
        left.push(slot.task.left);
    }
    left
}

// To the first mark, on to the second, and the units left compared.
fn between_marks<R: Ranking>(slots: &mut Slots, ranking: &R, mark: u64, h: u64) -> Result<(), Fault>
    requires { (slots.old.clock ≡ 0) × (mark + h ≤ 10 ^ 12) }
    ensures { result ≡ between_marks_of (R.ahead ranking.now) mark h (tasks_of slots.old.list.items) }
{
    run(slots, ranking, mark)?;
    let first = units_left(slots);
    run(slots, ranking, h)?;
    if units_left(slots) == first {
        Ok(())
    } else {
        Err(Fault::Unsettled)
    }
}

// Rehearses a plan under any lawful ranking; neither is altered.
pub fn rehearse<R: Ranking>(plan: &Plan, ranking: &R) -> Result<(), Fault>
    ensures value { result ≡ rehearsal_of (R.ahead ranking.now) (hyperperiod (plan_set plan.now).lines) (plan_set plan.now).lines }
    ensures only { OnlyRehearsed (R.ahead ranking.now) (hyperperiod (plan_set plan.now).lines) (plan_set plan.now).lines result }
{
    let lines = plan.lines();
    let h = plan.hyperperiod();
    if load(lines, h) > h as u64 {
        return Err(Fault::Overload);
    }
    let mark = last_offset(lines) as u64 + h as u64;
    between_marks(&mut Slots::new(lines, 0), ranking, mark, h as u64)
}
