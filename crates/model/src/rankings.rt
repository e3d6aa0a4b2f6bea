//! The two rankings that a sheet can name, and the policy as the ranking that it names.

ghost use Rattle.std.specs.Prelude.{◌≡◌, ◌+◌, true, false, cond, nat_lt};
ghost use Rattle.model.specs.Rankings.{regular_first, dm_ahead, ed_ahead, ahead_of, DmRule, EdRule};
ghost use Rattle.model.specs.Laws.{dm_lawful, ed_lawful, policy_lawful};

use crate::job::Job;
use crate::kind::Kind;
use crate::policy::Policy;
use crate::ranking::Ranking;

// Regular jobs first, then the smaller deadline, then the lower line.
#[derive(Clone, Copy)]
pub struct DeadlineMonotonic;

// Regular jobs first, then the smaller release + deadline, then the lower line.
#[derive(Clone, Copy)]
pub struct EarliestDeadline;

// Regular jobs first, then the smaller key, then the lower line; none goes ahead of one of its own line. The keys are
// handed in as numbers: a closure for them would ask for a clause on what it gives.
fn by_key(a: &Job, key_a: u128, b: &Job, key_b: u128) -> bool
    ensures { result ≡ regular_first (λ x y. cond (nat_lt key_a key_b) true (cond (nat_lt key_b key_a) false (nat_lt x.line y.line))) a.now b.now }
{
    let ahead = if a.kind != b.kind {
        a.kind == Kind::Regular
    } else if key_a != key_b {
        key_a < key_b
    } else {
        a.line < b.line
    };
    ahead && a.line != b.line
}

// A sum of any release and deadline fits 128 bits.
fn due(job: &Job) -> u128
    ensures { result ≡ job.now.release + job.now.deadline }
{
    job.release as u128 + job.deadline as u128
}

impl Ranking for DeadlineMonotonic {
    ghost ahead = { λ _. dm_ahead };

    ghost lawful = { λ _. dm_lawful };

    fn goes_ahead(&self, a: &Job, b: &Job) -> bool
        ensures { result ≡ dm_ahead a.now b.now }
    {
        by_key(a, a.deadline as u128, b, b.deadline as u128)
    }
}

impl Ranking for EarliestDeadline {
    ghost ahead = { λ _. ed_ahead };

    ghost lawful = { λ _. ed_lawful };

    fn goes_ahead(&self, a: &Job, b: &Job) -> bool
        ensures { result ≡ ed_ahead a.now b.now }
    {
        by_key(a, due(a), b, due(b))
    }
}

impl Ranking for Policy {
    ghost ahead = { ahead_of };

    ghost lawful = { policy_lawful };

    fn goes_ahead(&self, a: &Job, b: &Job) -> bool
        ensures { result ≡ ahead_of self.now a.now b.now }
    {
        match *self {
            Policy::Dm => DeadlineMonotonic.goes_ahead(a, b),
            Policy::Ed => EarliestDeadline.goes_ahead(a, b),
        }
    }
}

// The two relations are those that the rules describe, and no others.
pub fn rankings_are_pinned()
    ensures dm { DmRule dm_ahead }
    ensures ed { EdRule ed_ahead }
{}
