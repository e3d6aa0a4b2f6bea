//! The lines of a plan under way.

ghost use Rattle.std.specs.Prelude.{◌≡◌, ◌^◌, ◌≤◌, length};
ghost use Rattle.arrayvec.specs.ArrayVec.{array_vec_len};
ghost use Rattle.model.specs.Ranges.{AllRanged};
ghost use Rattle.runs.specs.Jitter.{no_tracks};
ghost use Rattle.runs.specs.Tasks.{new_tasks};
ghost use Rattle.executive.specs.Slots.{AllKept, tasks_of, tracks_of};

use crate::slot::Slot;
use arrayvec::ArrayVec;
use model::line::Line;

// The lines of a plan under way, before the step at `clock`; line 1 stands first. Which of clock, tasks and tracks a
// method leaves alone is a clause of its own: a frame is part of a promise, and no fact of the type. So is what a
// method asks of an instant or a line's number that it is handed: no slot holds it.
#[derive(Drop)]
pub(crate) struct Slots {
    pub(crate) clock: u64,
    pub(crate) list: ArrayVec<Slot, 24>,
    ghost early: { clock ≤ 10 ^ 12 },
    ghost few: { array_vec_len list ≤ 24 },
    ghost kept: { AllKept clock list.items },
}

impl Slots {
    // The lines before the step at `start`, with no job and no start. A loop: `collect` into an `ArrayVec` gives a
    // `Result`, though there is always room. The lines are a slice with its bound, as a plan lends them.
    pub(crate) fn new(lines: &[Line], start: u64) -> Slots
        requires few { length lines.now ≤ 24 }
        requires ranged { AllRanged lines.now }
        requires early { start ≤ 10 ^ 12 }
        ensures clock { result.clock ≡ start }
        ensures tasks { tasks_of result.list.items ≡ new_tasks 1 lines.now }
        ensures tracks { tracks_of result.list.items ≡ no_tracks lines.now }
    {
        let mut list = ArrayVec::new();
        for (i, line) in lines.iter().enumerate() {
            list.push(Slot::new(i as u32 + 1, *line, start));
        }
        Slots { clock: start, list }
    }

    pub(crate) fn clock(&self) -> u64
        ensures { result ≡ self.now.clock }
    {
        self.clock
    }
}
