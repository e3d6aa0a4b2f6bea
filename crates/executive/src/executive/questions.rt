//! Which line comes first: by its next release, and by its largest deviation.

ghost use Rattle.std.specs.Prelude.{◌≡◌, ℕ};
ghost use Rattle.planning.specs.Places.{plan_set};
ghost use Rattle.runs.specs.Histories.{History, Ran, start_of};
ghost use Rattle.executive.specs.Questions.{coming_of, IsComingOf, ComingOfRun, worst_of, IsWorstOf, WorstOfRun};
ghost use Rattle.executive.specs.Views.{view_of};

use super::Executive;
use crate::questions::{Deviating, Release, first_candidate};
use arrayvec::ArrayVec;
use model::ranking::Ranking;

impl<R: Ranking> Executive<R> {
    // The coming release of all lines that are not at rest.
    pub fn coming(&self) -> Option<Release>
        ensures value { result ≡ coming_of (view_of self.now) }
        ensures first { IsComingOf (view_of self.now) result }
        ensures run { (start : ℕ) (h : History) → Ran (R.ahead self.now.ranking) (plan_set self.now.plan).lines start h (view_of self.now) → ComingOfRun (plan_set self.now.plan).lines (start_of start) h result }
    {
        first_candidate(self.slots.list.as_slice(), ArrayVec::new())
    }

    // The line with the largest deviation.
    pub fn worst(&self) -> Option<Deviating>
        ensures value { result ≡ worst_of (view_of self.now) }
        ensures first { IsWorstOf (view_of self.now) result }
        ensures run { (start : ℕ) (h : History) → Ran (R.ahead self.now.ranking) (plan_set self.now.plan).lines start h (view_of self.now) → WorstOfRun (plan_set self.now.plan).lines (start_of start) h result }
    {
        first_candidate(self.slots.list.as_slice(), ArrayVec::new())
    }
}
