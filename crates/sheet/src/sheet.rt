//! A task sheet: the policy and the lines that a text says. A sheet is a place that is made once: reading
//! never asks for memory, and a text that is refused changes nothing.

ghost use Rattle.std.specs.Prelude.{◌≡◌, ◌≤◌, length, is_ok, Decides, MatchResult};
ghost use Rattle.model.specs.Ranges.{AllRanged, regulars};
ghost use Rattle.model.specs.TaskSets.{no_tasks, Filled};
ghost use Rattle.model.specs.declared.fault.Fault.TheVariants.{NoMemory};
ghost use Rattle.sheet.specs.Grammar.{Admitted, Says};
ghost use Rattle.sheet.specs.Reading.{read_sheet};

use crate::text::read_text;
use arrayvec::ArrayVec;
use model::fault::Fault;
use model::line::Line;
use model::policy::Policy;
use model::tasks::Tasks;
use std::alloc::Global;

#[derive(Drop)]
pub struct Sheet {
    tasks: Tasks,
    ghost ranged: { AllRanged tasks.lines },
    ghost limited: { regulars tasks.lines ≤ 8 },
    ghost few: { length tasks.lines ≤ 24 },
}

impl Sheet {
    // A sheet without task lines, under DM.
    pub fn new(heap: Global) -> Result<Sheet, Fault>
        ensures { MatchResult result (λ s. s.tasks ≡ no_tasks) (λ e. e ≡ NoMemory) }
    {
        let tasks = Tasks::new(heap)?;
        Ok(Sheet { tasks })
    }

    pub fn policy(&self) -> Policy
        ensures { result ≡ self.now.tasks.policy }
    {
        self.tasks.policy()
    }

    pub fn lines(&self) -> &[Line]
        ensures lines { result.now ≡ self.now.tasks.lines }
        ensures few { length result.now ≤ 24 }
    {
        self.tasks.lines()
    }

    // The sheet that the text says, or its first fault, and then the sheet stays as it was.
    pub fn read(&mut self, text: &[u8]) -> Result<(), Fault>
        ensures filled { Filled result (read_sheet text.now) self.old.tasks self.new.tasks }
        ensures grammar { Decides (is_ok result) (Admitted text.now) }
        ensures says { Says text.now self.new.tasks }
    {
        let mut lines = ArrayVec::new();
        let policy = read_text(text, &mut lines)?;
        self.tasks.fill(policy, &lines);
        Ok(())
    }
}
