//! What the starts of a line's jobs came to.

ghost use Rattle.std.specs.Prelude.{◌≡◌};
ghost use Rattle.planning.specs.Places.{plan_set};
ghost use Rattle.executive.specs.Questions.{figures_in, OfTheRun};
ghost use Rattle.executive.specs.Views.{view_of};

use super::Executive;
use model::fault::Fault;
use model::ranking::Ranking;
use runs::jitter::Figures;

impl<R: Ranking> Executive<R> {
    // A line's jitter figures.
    pub fn figures(&self, number: u64) -> Result<Figures, Fault>
        ensures value { result ≡ figures_in number (view_of self.now) }
        ensures run { OfTheRun (R.ahead self.now.ranking) (plan_set self.now.plan).lines (view_of self.now) number result }
    {
        let slot = self.slots.line(number)?;
        Ok(slot.figures())
    }
}
