//! What a run is: the lines under way, the calls and their replies, and the laws over whole runs.
//! Nothing here runs; the executive is tied to these definitions call by call.

#![tactic(auto)]

ghost use Rattle.runs.specs.Promise.{Promise};

use model::ranking::Ranking;

pub mod call;
pub mod jitter;
mod printed;
pub mod task;

// Of every lawful ranking, plan, start and list of calls.
pub fn promise_stands<R: Ranking>(ranking: &R)
    ensures { Promise (R.ahead ranking.now) }
{}
