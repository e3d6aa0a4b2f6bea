//! A plan: a policy and lines whose regular windows never meet.

ghost use Rattle.std.specs.Prelude.{◌≡◌, ◌≤◌, length, MatchResult};
ghost use Rattle.model.specs.Ranges.{regulars};
ghost use Rattle.model.specs.TaskSets.{no_tasks, Filled};
ghost use Rattle.model.specs.declared.fault.Fault.TheVariants.{NoMemory};
ghost use Rattle.windows.specs.Windows.{AllApart};
ghost use Rattle.planning.specs.Hyperperiods.{hyperperiod, IsHyperperiod};
ghost use Rattle.planning.specs.Plans.{AllPlanned, plan_of, PlacedFirst};

use crate::hyperperiod::hyperperiod;
use crate::steps::planned;
use model::fault::Fault;
use model::line::Line;
use model::policy::Policy;
use model::tasks::Tasks;
use sheet::sheet::Sheet;
use std::alloc::Global;

// A plan in which two regular lines meet cannot be made: the ghost fields are owed wherever a value
// is made or given back.
#[derive(Drop)]
pub struct Plan {
    tasks: Tasks,
    ghost few: { length tasks.lines ≤ 24 },
    ghost planned: { AllPlanned tasks.lines },
    ghost limited: { regulars tasks.lines ≤ 8 },
    ghost apart: { AllApart tasks.lines },
    ghost short: { hyperperiod tasks.lines ≤ 1000000 },
}

impl Plan {
    // A new place: no lines, under DM.
    pub fn new(heap: Global) -> Result<Plan, Fault>
        ensures { MatchResult result (λ p. p.tasks ≡ no_tasks) (λ e. e ≡ NoMemory) }
    {
        let tasks = Tasks::new(heap)?;
        Ok(Plan { tasks })
    }

    pub fn policy(&self) -> Policy
        ensures { result ≡ self.now.tasks.policy }
    {
        self.tasks.policy()
    }

    // The lines in sheet order; line 1 stands first.
    pub fn lines(&self) -> &[Line]
        ensures { result.now ≡ self.now.tasks.lines }
    {
        self.tasks.lines()
    }

    // From 1 to 1,000,000.
    pub fn hyperperiod(&self) -> u32
        ensures value { result ≡ hyperperiod self.now.tasks.lines }
        ensures range { (1 ≤ result) × (result ≤ 1000000) }
        ensures least { IsHyperperiod self.now.tasks.lines result }
    {
        hyperperiod(self.lines()).unwrap()
    }

    // The plan of a sheet, or the first refusal; the sheet is kept, and a refusal leaves the plan as it
    // was. It is refused for want of offsets only where no offsets keep every two regular lines apart,
    // and else it has the first of those that do.
    pub fn plan(&mut self, sheet: &Sheet) -> Result<(), Fault>
        ensures filled { Filled result (plan_of sheet.now.tasks) self.old.tasks self.new.tasks }
        ensures offsets { PlacedFirst result sheet.now.tasks.policy sheet.now.tasks.lines self.new.tasks.lines }
    {
        let lines = planned(sheet)?;
        self.tasks.fill(sheet.policy(), &lines);
        Ok(())
    }
}
