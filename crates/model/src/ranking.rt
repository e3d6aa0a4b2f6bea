//! What a ranking is: a relation that says of two jobs whether the first goes ahead.

ghost use Rattle.std.specs.Prelude.{◌≡◌, Bool};
ghost use Rattle.model.specs.declared.job.Job.{Job};
ghost use Rattle.model.specs.Rankings.{Lawful};

use crate::job::Job;

// `ahead` is the whole meaning of a ranking, and it is lawful. A question takes the ranking and the
// jobs by reference and alters none of them; the same question has the same reply.
pub trait Ranking {
    ghost ahead: { Self → Job → Job → Bool };

    fn goes_ahead(&self, a: &Job, b: &Job) -> bool
        ensures { result ≡ ahead self.now a.now b.now };

    ghost lawful: { (s : Self) → Lawful (ahead s) };
}
