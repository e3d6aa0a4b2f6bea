//! Whole lists of calls, made one after another.

ghost use Rattle.std.specs.Prelude.{◌≡◌, min, length, drop};
ghost use Rattle.planning.specs.Hyperperiods.{hyperperiod};
ghost use Rattle.planning.specs.Places.{plan_set};
ghost use Rattle.runs.specs.Histories.{Ran};
ghost use Rattle.runs.specs.Promise.{Promised};
ghost use Rattle.executive.specs.Batches.{events_of, TookEach};
ghost use Rattle.executive.specs.Views.{view_of};

use super::Executive;
use model::ranking::Ranking;
use planning::plan::Plan;
use runs::call::{Call, Reply};

impl<R: Ranking> Executive<R> {
    // Makes the calls one after another, and puts each reply into the place of its call; calls without
    // a place for their reply are not made.
    pub fn take_each(&mut self, calls: &[Call], replies: &mut [Reply]) -> usize
        ensures count { result ≡ min (length calls.now) (length replies.old) }
        ensures behind { drop result replies.new ≡ drop result replies.old }
        ensures took { TookEach (R.ahead self.old.ranking) self.old self.new (events_of calls.now replies.new) }
    {
        let made = calls.len().min(replies.len());
        // By places, since nothing is known of a slice behind an `iter_mut` in a `zip`.
        for (i, call) in calls[..made].iter().enumerate() {
            replies[i] = self.take(*call);
        }
        made
    }
}

// Starts an executive and makes the calls one after another: the whole promise for any plan, ranking,
// start and list of calls.
pub fn run<R: Ranking>(
    plan: Plan,
    ranking: R,
    start: u64,
    calls: &[Call],
    replies: &mut [Reply],
) -> Executive<R>
    ensures plan { result.plan ≡ plan }
    ensures ranking { result.ranking ≡ ranking }
    ensures behind { drop (length calls.now) replies.new ≡ drop (length calls.now) replies.old }
    ensures ran { Ran (R.ahead ranking) (plan_set plan).lines start (events_of calls.now replies.new) (view_of result) }
    ensures promised { Promised (R.ahead ranking) (plan_set plan).lines (hyperperiod (plan_set plan).lines) start (events_of calls.now replies.new) (view_of result) }
{
    let mut executive = Executive::start(plan, ranking, start);
    executive.take_each(calls, replies);
    executive
}
