//! The first entry of a list, in an order that the entries bring along.

#![tactic(auto)]

ghost use Rattle.std.specs.Prelude.{◌≡◌, Bool, length, MatchOption};
ghost use Rattle.std.specs.List.{IsFirstBest};
ghost use Rattle.std.specs.Cmp.{IsStrictWeakOrder};
ghost use Rattle.entries.specs.Entries.{EntryAt, OnlyFirst, first_entry};

#[cfg(test)]
mod tests;

pub trait Entry {
    ghost before: { Self → Self → Bool };

    fn is_before(&self, other: &Self) -> bool
        ensures { result ≡ before self.now other.now };

    ghost ranks: { IsStrictWeakOrder before };
}

// The place of the first entry; of equal ones the lowest place. A loop: the proof of a `reduce` over the
// numbered entries does not close.
#[tactic(auto, using(crate::proofs::FirstPlaces::takes, crate::proofs::FirstPlaces::keeps))]
pub fn first<T: Entry>(entries: &[T]) -> Option<usize>
    ensures first { MatchOption result (length entries.now ≡ 0) (λ i. IsFirstBest T.before entries.now (length entries.now) i) }
    ensures entry { EntryAt entries.now result (first_entry T.before entries.now) }
    ensures only { OnlyFirst T.before entries.now result }
{
    let mut best = (0, entries.first()?);
    for (i, entry) in entries.iter().enumerate() {
        if entry.is_before(best.1) {
            best = (i, entry);
        }
    }
    Some(best.0)
}

// The first entry itself.
pub fn first_entry<T: Entry + Copy>(entries: &[T]) -> Option<T>
    ensures { result ≡ first_entry T.before entries.now }
{
    let i = first(entries)?;
    Some(entries[i])
}
