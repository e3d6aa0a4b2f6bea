//! When a line's jobs start, held against its period.

// A job's first unit: its instant, and the round whose job it was, counted from 0.
#[derive(Clone, Copy)]
pub struct Start {
    pub round: u64,
    pub instant: u64,
}

// What a line's starts came to so far: the last one, and the number, the sum and the largest of the
// deviations.
#[derive(Clone, Copy, Default)]
pub struct Track {
    pub last: Option<Start>,
    pub number: u64,
    pub sum: u64,
    pub largest: u64,
}

// A line's jitter figures. The mean deviation is `numerator` / `denominator` per cent of the period.
#[derive(Clone, Copy)]
pub struct Figures {
    pub number: u64,
    pub sum: u64,
    pub largest: u64,
    pub numerator: u64,
    pub denominator: u64,
}
