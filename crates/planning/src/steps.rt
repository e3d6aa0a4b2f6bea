//! The steps of planning.

ghost use Rattle.std.specs.Prelude.{◌≡◌, Ok, Err, MatchResult};
ghost use Rattle.model.specs.TaskSets.{task_set};
ghost use Rattle.planning.specs.Plans.{plan_of};

use crate::deadlines::{set_deadlines, tight_line};
use crate::hyperperiod::hyperperiod;
use crate::offsets::{place_lines, short_pair};
use arrayvec::ArrayVec;
use model::fault::Fault;
use model::line::Line;
use sheet::sheet::Sheet;

// The lines of a sheet's plan. The steps go in the order of their refusals.
pub(crate) fn planned(sheet: &Sheet) -> Result<ArrayVec<Line, 24>, Fault>
    ensures { MatchResult result (λ v. plan_of sheet.now.tasks ≡ Ok (task_set sheet.now.tasks.policy v.items)) (λ e. plan_of sheet.now.tasks ≡ Err e) }
{
    hyperperiod(sheet.lines())?;
    if let Some((first, second)) = short_pair(sheet.lines()) {
        return Err(Fault::PairTooLong { first, second });
    }
    let mut lines = ArrayVec::new();
    if !place_lines(&mut lines, sheet.lines()) {
        return Err(Fault::NoOffsets);
    }
    set_deadlines(&mut lines, sheet.policy());
    match tight_line(&lines) {
        Some(line) => Err(Fault::DeadlineTooShort { line }),
        None => Ok(lines),
    }
}
