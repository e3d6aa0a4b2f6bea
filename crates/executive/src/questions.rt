//! The first of the lines in two orders: by their next releases, and by their largest deviations.

ghost use Rattle.std.specs.Prelude.{◌≡◌, ◌≤◌, Option, [], length};
ghost use Rattle.std.specs.List.{filter_map};
ghost use Rattle.entries.specs.Entries.{first_entry};
ghost use Rattle.executive.specs.declared.slot.Slot.{Slot};
ghost use Rattle.executive.specs.Questions.{sooner, worse, next_release, largest_deviation};
ghost use Rattle.std.proofs.Common.{rules};

use crate::slot::Slot;
use arrayvec::ArrayVec;
use entries::{Entry, first_entry};

// A release of a line.
#[derive(Clone, Copy, Default)]
pub struct Release {
    pub instant: u64,
    pub line: u32,
}

impl Entry for Release {
    ghost before = { sooner };

    ghost ranks = { Prim.search rules };

    fn is_before(&self, other: &Release) -> bool {
        self.instant < other.instant
    }
}

// A line with deviations, and the largest of them.
#[derive(Clone, Copy, Default)]
pub struct Deviating {
    pub line: u32,
    pub largest: u64,
}

impl Entry for Deviating {
    ghost before = { worse };

    ghost ranks = { Prim.search rules };

    fn is_before(&self, other: &Deviating) -> bool {
        self.largest > other.largest
    }
}

// An entry that a line may bring.
pub(crate) trait Candidate: Entry + Copy + Default + Drop {
    ghost candidate: { Slot → Option Self };

    fn of(slot: &Slot) -> Option<Self>
        ensures { result ≡ candidate slot.now };
}

// A line at rest has no release ahead.
impl Candidate for Release {
    ghost candidate = { next_release };

    fn of(slot: &Slot) -> Option<Release> {
        if slot.task.resting {
            return None;
        }
        Some(Release {
            instant: slot.next,
            line: slot.task.number,
        })
    }
}

impl Candidate for Deviating {
    ghost candidate = { λ slot. largest_deviation slot.task.number slot.track };

    fn of(slot: &Slot) -> Option<Deviating> {
        if slot.track.number == 0 {
            return None;
        }
        Some(Deviating {
            line: slot.task.number,
            largest: slot.track.largest,
        })
    }
}

// The first of the lines' candidates, of equals the lowest line's. The caller makes the empty list, since
// here nothing bounds the size of a candidate. A loop: `collect` into an `ArrayVec` gives a `Result`, though there is
// always room.
pub(crate) fn first_candidate<T: Candidate>(
    slots: &[Slot],
    mut candidates: ArrayVec<T, 24>,
) -> Option<T>
    requires few { length slots.now ≤ 24 }
    requires empty { candidates.items ≡ [] }
    ensures { result ≡ first_entry T.before (filter_map T.candidate slots.now) }
{
    for slot in slots {
        if let Some(candidate) = T::of(slot) {
            candidates.push(candidate);
        }
    }
    first_entry(candidates.as_slice())
}
