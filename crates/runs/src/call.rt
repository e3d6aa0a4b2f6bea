//! What the firmware asks of an executive, and what it is told.

ghost use Rattle.std.specs.Prelude.{◌≡◌};
ghost use Rattle.runs.specs.Calls.{last_of};

use model::fault::Fault;

#[derive(Clone, Copy)]
pub enum Call {
    Step,
    EarlyEnd,
    Rest { number: u64 },
    Resume { number: u64 },
}

// Whose a unit was: the line, and whether its job began and ended with the unit.
#[derive(Clone, Copy, Default)]
pub struct UnitReport {
    pub line: u32,
    pub began: bool,
    pub ended: bool,
}

// What a step replies: whose the unit was, if it was anyone's, and how many jobs were struck out.
#[derive(Clone, Copy)]
pub struct StepReport {
    pub unit: Option<UnitReport>,
    pub struck: u32,
}

// What an accepted call comes to.
#[derive(Clone, Copy)]
pub enum Accepted {
    Step(StepReport),
    Done,
}

pub type Reply = Result<Accepted, Fault>;

// Where the last unit went: nowhere, to a job that is still pending, or to one that is over.
#[derive(Clone, Copy)]
pub enum LastUnit {
    Idle,
    Running { line: u32 },
    Ended { line: u32 },
}

// Where the unit of a step went.
impl From<StepReport> for LastUnit {
    ghost from_gives = { λ report last. last ≡ last_of report };

    fn from(report: StepReport) -> LastUnit {
        match report.unit {
            Some(unit) if unit.ended => LastUnit::Ended { line: unit.line },
            Some(unit) => LastUnit::Running { line: unit.line },
            None => LastUnit::Idle,
        }
    }
}

// What became of a line's jobs: those made are those ended, missed, set aside and pending.
#[derive(Clone, Copy)]
pub struct CountsReport {
    pub made: u64,
    pub ended: u64,
    pub missed: u64,
    pub aside: u64,
    pub pending: u64,
}
