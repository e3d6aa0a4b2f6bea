//! A whole text: its length and its end, line 0, and the task lines.

ghost use Rattle.std.specs.Prelude.{◌≡◌, Ok, Err, MatchResult};
ghost use Rattle.model.specs.TaskSets.{task_set};
ghost use Rattle.sheet.specs.Cutting.{lines_of};
ghost use Rattle.sheet.specs.Reading.{read_lines, read_sheet};

use crate::cutting::Lines;
use crate::task_lines::read_tasks;
use crate::values::policy_of;
use arrayvec::ArrayVec;
use model::fault::Fault;
use model::line::Line;
use model::policy::Policy;

// The policy of line 0, and the task lines into a place, whatever it held: handed up by value they would be copied
// at each return.
fn read_lines(text: &[u8], lines: &mut ArrayVec<Line, 24>) -> Result<Policy, Fault>
    ensures { MatchResult result (λ p. read_lines (lines_of text.now) ≡ Ok (task_set p lines.new.items)) (λ e. read_lines (lines_of text.now) ≡ Err e) }
{
    let malformed = Fault::Malformed { line: 0, field: 1 };
    let mut texts = Lines(text);
    let policy = texts.next().and_then(policy_of).ok_or(malformed)?;
    lines.clear();
    read_tasks(texts, lines)?;
    Ok(policy)
}

// A refusal may leave anything in `lines`.
pub(crate) fn read_text(text: &[u8], lines: &mut ArrayVec<Line, 24>) -> Result<Policy, Fault>
    ensures { MatchResult result (λ p. read_sheet text.now ≡ Ok (task_set p lines.new.items)) (λ e. read_sheet text.now ≡ Err e) }
{
    if text.len() > 4096 {
        return Err(Fault::TextTooLong);
    }
    if !text.ends_with(b"\n") {
        return Err(Fault::TextNotEnded);
    }
    read_lines(text, lines)
}
