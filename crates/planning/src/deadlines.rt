//! The deadlines that a plan holds.

ghost use Rattle.std.specs.Prelude.{◌≡◌, MatchOption};
ghost use Rattle.planning.specs.Deadlines.{least_ordinary, IsLeastOrdinary, NoneOrdinary, changed, with_deadlines, tight_at};

use arrayvec::ArrayVec;
use model::kind::Kind;
use model::line::Line;
use model::policy::Policy;

// The least deadline of the ordinary lines.
fn least_ordinary(lines: &[Line]) -> Option<u32>
    ensures value { result ≡ least_ordinary lines.now }
    ensures least { MatchOption result (NoneOrdinary lines.now) (λ m. IsLeastOrdinary lines.now m) }
{
    lines
        .iter()
        .filter(|line| !line.is_regular())
        .map(|line| line.deadline)
        .min()
}

// A regular line's deadline is its length under ED, and before every ordinary deadline under DM.
fn change(line: &mut Line, policy: Policy, least: Option<u32>)
    ensures { line.new ≡ changed policy least line.old }
{
    line.deadline = match (line.kind, policy, least) {
        (Kind::Regular, Policy::Ed, _) => line.length,
        (Kind::Regular, Policy::Dm, Some(m)) => line.deadline.min(m.saturating_sub(1)),
        _ => line.deadline,
    };
}

pub(crate) fn set_deadlines(lines: &mut [Line], policy: Policy)
    ensures { lines.new ≡ with_deadlines policy lines.old }
{
    let least = least_ordinary(lines);
    for line in lines.iter_mut() {
        change(line, policy, least);
    }
}

// The first line whose deadline is below its length, by its number from 1 on.
pub(crate) fn tight_line(lines: &ArrayVec<Line, 24>) -> Option<u32>
    ensures { result ≡ tight_at 1 lines.now.items }
{
    lines
        .iter()
        .position(|line| line.deadline < line.length)
        .map(|i| i as u32 + 1)
}
