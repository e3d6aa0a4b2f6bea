//! A place for a task set, which a sheet and a plan both are.

ghost use Rattle.std.specs.Prelude.{◌≡◌, ◌≤◌, length, MatchResult};
ghost use Rattle.model.specs.TaskSets.{task_set, no_tasks};
ghost use Rattle.model.specs.declared.fault.Fault.TheVariants.{NoMemory};

use crate::fault::Fault;
use crate::line::Line;
use crate::policy::Policy;
use arrayvec::ArrayVec;
use std::alloc::Global;
use std::marker::Model;

// Room for every task set is reserved when a place is made, so that filling it never allocates.
#[derive(Drop)]
pub struct Tasks {
    policy: Policy,
    lines: Vec<Line>,
}

impl Model for Tasks {
    ghost use Rattle.std.specs.Prelude.{◌≤◌, vec_len, vec_capacity};
    ghost use Rattle.model.specs.TaskSets.{TaskSet, task_set};

    ghost Value = { TaskSet };

    ghost view = { λ t. task_set t.policy t.lines.items };

    ghost invariant = { λ t. (vec_len t.lines ≤ 24) × (24 ≤ vec_capacity t.lines) };
}

impl Tasks {
    // No lines, under DM.
    pub fn new(heap: Global) -> Result<Tasks, Fault>
        ensures { MatchResult result (λ t. t ≡ no_tasks) (λ e. e ≡ NoMemory) }
    {
        let lines = Vec::with_capacity(heap, 24)?;
        Ok(Tasks {
            policy: Policy::Dm,
            lines,
        })
    }

    pub fn policy(&self) -> Policy
        ensures { result ≡ self.now.policy }
    {
        self.policy
    }

    // In sheet order; line 1 stands first.
    pub fn lines(&self) -> &[Line]
        ensures lines { result.now ≡ self.now.lines }
        ensures few { length result.now ≤ 24 }
    {
        self.lines.as_slice()
    }

    pub fn fill(&mut self, policy: Policy, lines: &ArrayVec<Line, 24>)
        ensures { self.new ≡ task_set policy lines.now.items }
    {
        self.policy = policy;
        self.lines.clear();
        self.lines.extend_from_slice(lines.as_slice()).unwrap();
    }
}
