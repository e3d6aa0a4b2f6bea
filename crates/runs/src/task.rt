//! One line under way.

use model::line::Line;

// What became of a line's jobs; one that was made, and neither ended, missed nor set aside, is pending.
#[derive(Clone, Copy, Default)]
pub struct Counts {
    pub made: u64,
    pub ended: u64,
    pub missed: u64,
    pub aside: u64,
}

// `left` is what the pending job has still to run; `release` is that job's release. `left` is no
// `Option`: the rules speak of the units left, 0 without a job, and the rehearsal compares them so.
#[derive(Clone, Copy, Default)]
pub struct Task {
    pub number: u32,
    pub line: Line,
    pub release: u64,
    pub left: u32,
    pub resting: bool,
    pub counts: Counts,
}
