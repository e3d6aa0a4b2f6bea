//! An executive: a plan and a ranking under way from a start instant on.

ghost use Rattle.std.specs.Prelude.{◌≡◌};
ghost use Rattle.planning.specs.Places.{plan_set};
ghost use Rattle.executive.specs.Executives.{lines_of, StillPending};
ghost use Rattle.executive.specs.Slots.{AllTracked, tasks_of};

pub mod batch;
mod calls;
mod figures;
mod questions;

use crate::slots::Slots;
use model::ranking::Ranking;
use planning::plan::Plan;
use runs::call::LastUnit;

// The plan is out of the caller's hands until `stop` gives it back.
pub struct Executive<R: Ranking> {
    plan: Plan,
    ranking: R,
    slots: Slots,
    last: LastUnit,
    ghost lines: { lines_of (tasks_of slots.list.items) ≡ (plan_set plan).lines },
    ghost running: { StillPending last (tasks_of slots.list.items) },
    ghost tracked: { AllTracked slots.clock slots.list.items },
}
